//! The ladder: every way to the answer for one problem, and which of them is gone when.
//!
//!   key by key, where the effort says so first ---- told ----------------> that
//!      |
//!   what shows without a search (`shown`) --------- there is none -------> none
//!      |
//!   +> in order: a first search where something is known ahead, else key by key or a full one --- told ---> that
//!   |     |  (of a counter in the other order)
//!   |  by blocks: pending calls only between completed ones --------------------------------- told ---> that
//!   |     |
//!   |  once, where calls are pending: a queue or a stack without its lost items ------- there is none ---> none
//!   |     |
//!   +-----+ nothing: the next round, several times as far, until the effort or the work ends
//!
//! How far each goes stands in `lin_effort::efforts`; there is no number here.

ghost use Rattle.std.specs.Prelude.{◌≡◌, ℕ, List, IfOk, IfSome, IsFalse, IsTrue};
ghost use Rattle.lin_history.specs.Problems.Problem.{Problem as ProblemOf};
ghost use Rattle.lin_history.specs.Problems.AnyProblem.{any_problem};
ghost use Rattle.lin_history.specs.Problems.Linearizations.{IsLinearization};
ghost use Rattle.lin_ahead.specs.Behind.{IsRightAhead};
ghost use Rattle.lin_ahead.specs.First.FirstProgress.{AreRefuted};
ghost use Rattle.lin_decide.specs.Begun.{IsBegunOf};
ghost use Rattle.lin_fewer.specs.Knowledge.{AreJudged};
ghost use Rattle.lin_effort.specs.Decision.{IsDecisionOf};
ghost use Rattle.lin_search.specs.Told.{IsRightOf};

use crate::begun::Begun;
use crate::keys::key_search::search_by_key;
use crate::shown::shows_none;
use lin_ahead::{KnownAhead, RefutedSet, held_until, known_ahead, search_first};
use lin_effort::efforts::{bound, lifts_within, may_take_steps};
use lin_effort::{Decide, Decision, Effort, Keys, Meter, Work};
use lin_fewer::{
    ItemRules, Judged, SumRules, has_many_pending, is_refuted_with_any_adds, least_linearization,
    shows_linearization,
};
use lin_history::{Order, Problem};
use lin_lost::{Guessing, Remainder, without_lost};
use lin_object::{AnyObject, ObjState, Op, Reply};
use lin_search::{Stop, Told, search_for_order};
use std::alloc::{AllocError, Global};

// Whether the object is a counter.
fn is_counter(problem: &Problem<AnyObject>) -> bool {
    matches!(problem.start(), ObjState::Counter(_))
}

// Whether it is a mutex.
fn is_mutex(problem: &Problem<AnyObject>) -> bool {
    matches!(problem.start(), ObjState::Mutex(_))
}

// Whether it is a set.
fn is_set(problem: &Problem<AnyObject>) -> bool {
    matches!(problem.start(), ObjState::Set(_))
}

// Whether it is a queue or a stack.
fn has_items(problem: &Problem<AnyObject>) -> bool {
    matches!(problem.start(), ObjState::Queue(_) | ObjState::Stack(_))
}

// Whether some call is pending.
fn has_pending(problem: &Problem<AnyObject>) -> bool {
    problem.calls().iter().any(|call| call.returned.is_none())
}

// What a search tells of a map or a set that goes key by key.
fn told_by_key<S: Stop>(
    alloc: Global,
    problem: &Problem<AnyObject>,
    lifts: u64,
    stop: &mut S,
) -> Result<Told, AllocError>
    ensures { IfOk result (IsRightOf (any_problem problem.now)) }
{
    search_by_key(alloc, problem, Some(lifts), stop)
}

// What a search of so many steps tells that tries pending calls only between completed ones.
fn told_in_steps<S: Stop>(
    alloc: Global,
    problem: &Problem<AnyObject>,
    judged: &mut Judged<AnyObject>,
    steps: u64,
    stop: &mut S,
) -> Result<Told, AllocError>
    requires { AreJudged (any_problem problem.now) judged.old }
    ensures judged { AreJudged (any_problem problem.now) judged.new }
    ensures told { IfOk result (IsRightOf (any_problem problem.now)) }
{
    if has_items(problem) {
        let rules = ItemRules::of(alloc, problem)?;
        return least_linearization(alloc, problem, &rules, judged, steps, stop);
    }
    let rules = SumRules::of(alloc, problem)?;
    least_linearization(alloc, problem, &rules, judged, steps, stop)
}

// Whether such a search finds in so many steps that there is an order.
fn shows_order_in_steps<S: Stop>(
    alloc: Global,
    problem: &Problem<AnyObject>,
    judged: &mut Judged<AnyObject>,
    steps: u64,
    stop: &mut S,
) -> Result<bool, AllocError>
    requires { AreJudged (any_problem problem.now) judged.old }
    ensures judged { AreJudged (any_problem problem.now) judged.new }
    ensures shown { IfOk result (λ shown. IsTrue shown
        → (l : List ℕ) × IsLinearization (any_problem problem.now) l) }
{
    if has_items(problem) {
        let rules = ItemRules::of(alloc, problem)?;
        return shows_linearization(alloc, problem, &rules, judged, steps, stop);
    }
    let rules = SumRules::of(alloc, problem)?;
    shows_linearization(alloc, problem, &rules, judged, steps, stop)
}

// What a search tells that keeps what it refuted: key by key before it, where the effort says so.
fn told_in_full<S: Stop>(
    alloc: Global,
    problem: &Problem<AnyObject>,
    keys: Keys,
    lifts: u64,
    stop: &mut S,
) -> Result<Told, AllocError>
    ensures { IfOk result (IsRightOf (any_problem problem.now)) }
{
    if keys == Keys::InRounds {
        match told_by_key(alloc, problem, lifts, stop)? {
            Told::Nothing => {}
            told => return Ok(told),
        }
    }
    search_for_order(alloc, problem, lifts, stop)
}

// What a search tells that goes by the order of the calls: a first search where something is known ahead. An item of a set has two states
// alone, so a search that keeps what it refuted goes before it.
fn told_in_order<S: Stop>(
    alloc: Global,
    problem: &Problem<AnyObject>,
    known: &Option<KnownAhead>,
    refuted: &mut RefutedSet<AnyObject>,
    effort: &Effort,
    stop: &mut S,
) -> Result<Told, AllocError>
    requires known { IfSome known.now (IsRightAhead (any_problem problem.now)) }
    requires refuted { AreRefuted (any_problem problem.now) refuted.old }
    ensures refuted { AreRefuted (any_problem problem.now) refuted.new }
    ensures told { IfOk result (IsRightOf (any_problem problem.now)) }
{
    let Some(ahead) = known else {
        return told_in_full(alloc, problem, effort.keys, effort.lifts, stop);
    };
    if is_set(problem) {
        match told_in_full(alloc, problem, Keys::Never, effort.lifts, stop)? {
            Told::Nothing => {}
            told => return Ok(told),
        }
    }
    search_first(alloc, problem, ahead, refuted, effort.lifts, stop)
}

// The same, where no other such search goes before or behind it, and none goes key by key.
fn told_once_in_order<S: Stop>(
    alloc: Global,
    problem: &Problem<AnyObject>,
    known: &Option<KnownAhead>,
    effort: &Effort,
    stop: &mut S,
) -> Result<Told, AllocError>
    requires { IfSome known.now (IsRightAhead (any_problem problem.now)) }
    ensures { IfOk result (IsRightOf (any_problem problem.now)) }
{
    let effort = Effort {
        keys: Keys::Never,
        ..*effort
    };
    let mut refuted = RefutedSet::new(alloc);
    told_in_order(alloc, problem, known, &mut refuted, &effort, stop)
}

// Whether the problem has no linearization, by what shows without a search, or by a search that goes by the order of the calls.
fn has_none_in_order<S: Stop>(
    alloc: Global,
    problem: &Problem<AnyObject>,
    effort: &Effort,
    stop: &mut S,
) -> Result<bool, AllocError>
    ensures { IfOk result (λ none. IsTrue none
        → (l : List ℕ) → IsLinearization (any_problem problem.now) l → ⊥) }
{
    let known = known_ahead(alloc, problem)?;
    if shows_none(alloc, problem, &known)? {
        return Ok(true);
    }
    match told_once_in_order(alloc, problem, &known, effort, stop)? {
        Told::Refuted => Ok(true),
        Told::Found(_) | Told::Nothing => Ok(false),
    }
}

// An order of the problem, if a search finds one that goes by the order of the calls.
fn order_of<S: Stop>(
    alloc: Global,
    problem: &Problem<AnyObject>,
    effort: &Effort,
    stop: &mut S,
) -> Result<Option<Order>, AllocError> {
    let known = known_ahead(alloc, problem)?;
    match told_once_in_order(alloc, problem, &known, effort, stop)? {
        Told::Found(order) => Ok(Some(order)),
        Told::Refuted | Told::Nothing => Ok(None),
    }
}

// How many steps a search of so many calls makes that is to show that there is an order.
fn steps_to_show(calls: usize) -> u64 {
    let effort = bound(calls);
    effort.lifts.saturating_mul(effort.steps_for_a_lift)
}

// What is decided where this is told; where nothing is, nothing will be once all has ended.
fn decision_of(told: Told, has_ended: bool) -> Decision
    ensures decided { (p : ProblemOf ObjState Op Reply) → IsRightOf p told → IsDecisionOf p result }
    ensures stopped { result ≡ Decision.Stopped → IsTrue has_ended }
    ensures spent { result ≡ Decision.Spent → IsFalse has_ended }
{
    match told {
        Told::Found(order) => Decision::Found(order),
        Told::Refuted => Decision::Refuted,
        Told::Nothing if has_ended => Decision::Stopped,
        Told::Nothing => Decision::Spent,
    }
}

/// Decides parts of one problem, or the problem itself, by every way there is, until the work is done or the stop answers. Each search
/// takes what it does.
#[derive(Drop)]
pub struct Ladder<'a, S> {
    has_pending: bool,
    has_many_pending: bool,
    meter: Meter<'a, S>,
}

impl<'a, S: Stop> Ladder<'a, S> {
    /// The ladder for a problem and its parts, with so much work and this stop.
    pub fn new(problem: &Problem<AnyObject>, work: Work, stop: &'a mut S) -> Self
        ensures { result.meter.left ≡ work }
    {
        Ladder {
            has_pending: has_pending(problem),
            has_many_pending: has_many_pending(problem),
            meter: Meter::new(work, stop),
        }
    }

    // How many steps a search makes that tries pending calls only between completed ones, of the parts of a problem with many of them: none
    // where that is no good bet.
    fn steps_by_blocks(&self, problem: &Problem<AnyObject>, effort: &Effort) -> u64 {
        let steps = effort.lifts.saturating_mul(effort.steps_for_a_lift);
        if self.has_many_pending && may_take_steps(problem, steps) {
            steps
        } else {
            0
        }
    }

    // What such a search tells with so many steps.
    fn told_in_steps(
        &mut self,
        alloc: Global,
        problem: &Problem<AnyObject>,
        judged: &mut Judged<AnyObject>,
        steps: u64,
    ) -> Result<Told, AllocError>
        requires { AreJudged (any_problem problem.now) judged.old }
        ensures judged { AreJudged (any_problem problem.now) judged.new }
        ensures told { IfOk result (IsRightOf (any_problem problem.now)) }
    {
        self.meter.take_each(Work::STEP);
        let told = told_in_steps(alloc, problem, judged, steps, &mut self.meter)?;
        self.meter.take_each(Work::LIFT);
        Ok(told)
    }

    // What such a search tells, with as many steps as the effort has for its lifts.
    fn told_by_blocks(
        &mut self,
        alloc: Global,
        problem: &Problem<AnyObject>,
        judged: &mut Judged<AnyObject>,
        effort: &Effort,
    ) -> Result<Told, AllocError>
        requires { AreJudged (any_problem problem.now) judged.old }
        ensures judged { AreJudged (any_problem problem.now) judged.new }
        ensures told { IfOk result (IsRightOf (any_problem problem.now)) }
    {
        let steps = self.steps_by_blocks(problem, effort);
        if steps == 0 {
            return Ok(Told::Nothing);
        }
        self.told_in_steps(alloc, problem, judged, steps)
    }

    // What a search tells that goes by the order of the calls: a first search asks before each call that it tries.
    fn told_in_order(
        &mut self,
        alloc: Global,
        problem: &Problem<AnyObject>,
        known: &Option<KnownAhead>,
        refuted: &mut RefutedSet<AnyObject>,
        effort: &Effort,
    ) -> Result<Told, AllocError>
        requires known { IfSome known.now (IsRightAhead (any_problem problem.now)) }
        requires refuted { AreRefuted (any_problem problem.now) refuted.old }
        ensures refuted { AreRefuted (any_problem problem.now) refuted.new }
        ensures told { IfOk result (IsRightOf (any_problem problem.now)) }
    {
        if known.is_some() {
            self.meter.take_each(Work::TRY);
        }
        let told = told_in_order(alloc, problem, known, refuted, effort, &mut self.meter)?;
        self.meter.take_each(Work::LIFT);
        Ok(told)
    }

    // What one round tells, with the effort's lifts for each search. Of a counter that by blocks goes first.
    fn round(
        &mut self,
        alloc: Global,
        problem: &Problem<AnyObject>,
        known: &Option<KnownAhead>,
        begun: &mut Begun,
        effort: &Effort,
    ) -> Result<Told, AllocError>
        requires known { IfSome known.now (IsRightAhead (any_problem problem.now)) }
        requires begun { IsBegunOf (any_problem problem.now) begun.old }
        ensures begun { IsBegunOf (any_problem problem.now) begun.new }
        ensures told { IfOk result (IsRightOf (any_problem problem.now)) }
    {
        if is_counter(problem) {
            return match self.told_by_blocks(alloc, problem, &mut begun.judged, effort)? {
                Told::Nothing => self.told_in_order(
                    alloc,
                    problem,
                    known,
                    &mut begun.refuted,
                    effort,
                ),
                told => Ok(told),
            };
        }
        match self.told_in_order(alloc, problem, known, &mut begun.refuted, effort)? {
            Told::Nothing => self.told_by_blocks(alloc, problem, &mut begun.judged, effort),
            told => Ok(told),
        }
    }

    // Whether a queue or a stack with pending calls has no linearization, as it has none without its lost items: with as many lifts as the
    // first round has. A selection of calls, which never goes by key, is judged as it is: a core is to show a fault by few calls.
    fn is_refuted_without_lost(
        &mut self,
        alloc: Global,
        problem: &Problem<AnyObject>,
        effort: &Effort,
    ) -> Result<bool, AllocError>
        ensures { IfOk result (λ refuted. IsTrue refuted
            → (l : List ℕ) → IsLinearization (any_problem problem.now) l → ⊥) }
    {
        if !self.has_pending || effort.keys == Keys::Never {
            return Ok(false);
        }
        if !self.goes_on(Work::of_rows(problem.len())) {
            return Ok(false);
        }
        let Some(rest) = without_lost(alloc, problem)? else {
            return Ok(false);
        };
        has_none_in_order(alloc, &rest, effort, &mut self.meter)
    }

    // Whether an order of what is left of a queue or a stack without lost items, by a guess of this way, shows one of the whole.
    fn shows_order_by_guess(
        &mut self,
        alloc: Global,
        problem: &Problem<AnyObject>,
        effort: &Effort,
        way: Guessing,
    ) -> Result<bool, AllocError>
        ensures { IfOk result (λ shown. IsTrue shown
            → (l : List ℕ) × IsLinearization (any_problem problem.now) l) }
    {
        let Some(left) = Remainder::of(alloc, problem, way)? else {
            return Ok(false);
        };
        match order_of(alloc, left.rest(), effort, &mut self.meter)? {
            Some(order) => left.shows_order(alloc, problem, order.calls()),
            None => Ok(false),
        }
    }

    // Whether it does so by either way.
    fn shows_order_by_rest(
        &mut self,
        alloc: Global,
        problem: &Problem<AnyObject>,
        effort: &Effort,
    ) -> Result<bool, AllocError>
        ensures { IfOk result (λ shown. IsTrue shown
            → (l : List ℕ) × IsLinearization (any_problem problem.now) l) }
    {
        if self.shows_order_by_guess(alloc, problem, effort, Guessing::LastLost)? {
            return Ok(true);
        }
        self.shows_order_by_guess(alloc, problem, effort, Guessing::InTurn)
    }

    // Whether a search soon finds that there is an order that tries pending calls only between completed ones: it makes as many steps as for
    // the question whether a call has a run.
    fn shows_order_by_blocks(
        &mut self,
        alloc: Global,
        problem: &Problem<AnyObject>,
        judged: &mut Judged<AnyObject>,
    ) -> Result<bool, AllocError>
        requires { AreJudged (any_problem problem.now) judged.old }
        ensures judged { AreJudged (any_problem problem.now) judged.new }
        ensures shown { IfOk result (λ shown. IsTrue shown
            → (l : List ℕ) × IsLinearization (any_problem problem.now) l) }
    {
        if !self.has_many_pending {
            return Ok(false);
        }
        self.meter.take_each(Work::STEP);
        let steps = steps_to_show(problem.len());
        let shown = shows_order_in_steps(alloc, problem, judged, steps, &mut self.meter)?;
        self.meter.take_each(Work::LIFT);
        Ok(shown)
    }

    /// What a search tells with all work that is left that tries pending calls only between completed ones: nothing where these are few, or
    /// where that is no good bet for so many calls. `AllocError` where memory was refused.
    pub fn told_by_blocks_alone(
        &mut self,
        alloc: Global,
        problem: &Problem<AnyObject>,
        begun: &mut Begun,
    ) -> Result<Told, AllocError>
        requires { IsBegunOf (any_problem problem.now) begun.old }
        ensures begun { IsBegunOf (any_problem problem.now) begun.new }
        ensures told { IfOk result (IsRightOf (any_problem problem.now)) }
    {
        if !self.has_many_pending || !may_take_steps(problem, steps_to_show(problem.len())) {
            return Ok(Told::Nothing);
        }
        self.told_in_steps(alloc, problem, &mut begun.judged, u64::MAX)
    }

    /// Whether it shows that a problem with pending calls has a linearization, though not which is the least: of a queue or a stack from an
    /// order of what is left of it without lost items; or else by a search that asks for no more. `AllocError` where memory was refused.
    pub fn shows_order(
        &mut self,
        alloc: Global,
        problem: &Problem<AnyObject>,
        begun: &mut Begun,
        effort: &Effort,
    ) -> Result<bool, AllocError>
        requires { IsBegunOf (any_problem problem.now) begun.old }
        ensures begun { IsBegunOf (any_problem problem.now) begun.new }
        ensures shown { IfOk result (λ shown. IsTrue shown
            → (l : List ℕ) × IsLinearization (any_problem problem.now) l) }
    {
        if !self.has_pending || !self.goes_on(Work::of_rows(problem.len())) {
            return Ok(false);
        }
        if self.shows_order_by_rest(alloc, problem, effort)? {
            return Ok(true);
        }
        self.shows_order_by_blocks(alloc, problem, &mut begun.judged)
    }

    // What rounds tell, each of which goes several times as far as the one before.
    fn rounds(
        &mut self,
        alloc: Global,
        problem: &Problem<AnyObject>,
        known: &Option<KnownAhead>,
        begun: &mut Begun,
        effort: &Effort,
    ) -> Result<Told, AllocError>
        requires known { IfSome known.now (IsRightAhead (any_problem problem.now)) }
        requires begun { IsBegunOf (any_problem problem.now) begun.old }
        ensures begun { IsBegunOf (any_problem problem.now) begun.new }
        ensures told { IfOk result (IsRightOf (any_problem problem.now)) }
    {
        let mut wanted = effort.lifts;
        for round in 0..effort.rounds_for(known.is_some()) {
            if self.meter.has_ended() {
                return Ok(Told::Nothing);
            }
            let most = lifts_within(self.meter.left());
            let reach = Effort {
                lifts: wanted.min(most),
                ..*effort
            };
            match self.round(alloc, problem, known, begun, &reach)? {
                Told::Nothing => {}
                told => return Ok(told),
            }
            if round == 0 && self.is_refuted_without_lost(alloc, problem, effort)? {
                return Ok(Told::Refuted);
            }
            if most <= wanted {
                return Ok(Told::Nothing);
            }
            wanted = wanted.saturating_mul(effort.growth);
        }
        Ok(Told::Nothing)
    }

    /// Whether a counter with many pending calls is found to have no linearization whatever these add: it soon tells. `AllocError` where
    /// memory was refused.
    pub fn is_refuted_with_any_adds(
        &mut self,
        alloc: Global,
        problem: &Problem<AnyObject>,
    ) -> Result<bool, AllocError>
        ensures { IfOk result (λ refuted. IsTrue refuted
            → (l : List ℕ) → IsLinearization (any_problem problem.now) l → ⊥) }
    {
        if !self.has_many_pending || !is_counter(problem) {
            return Ok(false);
        }
        is_refuted_with_any_adds(alloc, problem, &mut self.meter)
    }

    // Whether it shows without a search that there is no linearization, where the effort asks for that.
    fn shows_none(
        &mut self,
        alloc: Global,
        problem: &Problem<AnyObject>,
        known: &Option<KnownAhead>,
        effort: &Effort,
    ) -> Result<bool, AllocError>
        requires { IfSome known.now (IsRightAhead (any_problem problem.now)) }
        ensures { IfOk result (λ shown. IsTrue shown
            → (l : List ℕ) → IsLinearization (any_problem problem.now) l → ⊥) }
    {
        if effort.is_shown && shows_none(alloc, problem, known)? {
            return Ok(true);
        }
        if !effort.with_any_adds {
            return Ok(false);
        }
        self.is_refuted_with_any_adds(alloc, problem)
    }

    // What is told by all but the search key by key that may go before.
    fn told_by_all(
        &mut self,
        alloc: Global,
        problem: &Problem<AnyObject>,
        begun: &mut Begun,
        effort: &Effort,
    ) -> Result<Told, AllocError>
        requires { IsBegunOf (any_problem problem.now) begun.old }
        ensures begun { IsBegunOf (any_problem problem.now) begun.new }
        ensures told { IfOk result (IsRightOf (any_problem problem.now)) }
    {
        let known = known_ahead(alloc, problem)?;
        if self.shows_none(alloc, problem, &known, effort)? {
            return Ok(Told::Refuted);
        }
        self.rounds(alloc, problem, &known, begun, effort)
    }

    // What is told.
    fn told(
        &mut self,
        alloc: Global,
        problem: &Problem<AnyObject>,
        begun: &mut Begun,
        effort: &Effort,
    ) -> Result<Told, AllocError>
        requires { IsBegunOf (any_problem problem.now) begun.old }
        ensures begun { IsBegunOf (any_problem problem.now) begun.new }
        ensures told { IfOk result (IsRightOf (any_problem problem.now)) }
    {
        if let Keys::AtFirst(lifts) = effort.keys {
            match told_by_key(alloc, problem, lifts, &mut self.meter)? {
                Told::Nothing => {}
                told => return Ok(told),
            }
        }
        if !self.goes_on(Work::of_rows(problem.len())) {
            return Ok(Told::Nothing);
        }
        self.told_by_all(alloc, problem, begun, effort)
    }

    /// Decides the problem as `decide` does. It goes on from what was begun, and puts to it what it finds out of configurations.
    /// `AllocError` where memory was refused.
    ///
    /// Condition: what was begun is of this problem.
    pub fn decide_from(
        &mut self,
        alloc: Global,
        problem: &Problem<AnyObject>,
        begun: &mut Begun,
        effort: &Effort,
    ) -> Result<Decision, AllocError>
        requires { IsBegunOf (any_problem problem.now) begun.old }
        ensures begun { IsBegunOf (any_problem problem.now) begun.new }
        ensures decided { IfOk result (IsDecisionOf (any_problem problem.now)) }
        ensures stopped { IfOk result (λ decision. decision ≡ Decision.Stopped → self.new.meter.left.looks ≡ 0) }
        ensures spent { IfOk result (λ decision. decision ≡ Decision.Spent
            → self.new.meter.left.looks ≡ 0 → ⊥) }
    {
        if !self.goes_on(effort.made) {
            return Ok(Decision::Stopped);
        }
        let told = self.told(alloc, problem, begun, effort)?;
        Ok(decision_of(told, self.meter.has_ended()))
    }
}

impl<'a, S: Stop> Decide for Ladder<'a, S> {
    ghost has_ended = { λ l. l.meter.left.looks ≡ 0 };

    fn decide(
        &mut self,
        alloc: Global,
        problem: &Problem<AnyObject>,
        effort: &Effort,
    ) -> Result<Decision, AllocError> {
        let mut begun = Begun::nothing(alloc);
        self.decide_from(alloc, problem, &mut begun, effort)
    }

    fn goes_on(&mut self, work: Work) -> bool {
        self.meter.charge(work)
    }

    fn left(&self) -> Work {
        self.meter.left()
    }

    fn stand_ins(
        &self,
        alloc: Global,
        problem: &Problem<AnyObject>,
    ) -> Result<Vec<usize>, AllocError> {
        if !is_mutex(problem) {
            return Ok(Vec::new(alloc));
        }
        match held_until(alloc, problem)? {
            Some(until) => Ok(until),
            None => Ok(Vec::new(alloc)),
        }
    }
}
