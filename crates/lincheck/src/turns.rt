//! The check of one object: which way is gone when.
//!
//!   known ahead --- an order -------------------------> yes
//!      | nothing, or that there is none
//!   sums of a counter: they may leave no room for a reply
//!      |
//!   an order that shows, where no run is asked for ---> yes
//!      |
//!   +> full search --- its end -----------------------> yes, or no with its longest run
//!   |     | no progress
//!   |  an order that shows, once ---------------------> there is one: no fault is looked for
//!   |     |
//!   |  a fault, once --- found -----------------------> there is none: only the run is sought
//!   |     |
//!   |  searches of prefixes --- an order, or a run ---> yes, or no with its longest run
//!   |     |
//!   |  by blocks, where an order showed, of no queue or stack ---> yes
//!   +-----+ twice as far each time; then
//!   full search to its end, by workers ---------------> yes, no, or undecided
//!
//! Where it is known that there is none and no run is asked for, that is the answer. A counter with many
//! pending calls is asked whether it has none whatever these add, before an order is looked for; behind the full search none is looked
//! for. How far each way goes stands in `lin_effort::efforts`; there is no number here. The full search keeps what it refuted, and goes
//! on from there in its next turn.

ghost use Rattle.std.specs.Prelude.{◌≡◌, ℕ, List, IfOk, IfSome, IsTrue};
ghost use Rattle.std.specs.ControlFlow.{ForBreak};
ghost use Rattle.lin_history.specs.Problems.AnyProblem.{any_problem};
ghost use Rattle.lin_history.specs.Problems.Linearizations.{IsLinearization};
ghost use Rattle.lin_history.specs.Problems.Lists.{IsLeast};
ghost use Rattle.lincheck.specs.Known.{IsKnownOf};
ghost use Rattle.lincheck.specs.ObjectAnswer.{HasNoOrder, IsAnswered, IsObjectAnswer};

use crate::findings::{
    announce, has_order, look_for_fault, look_for_hint, look_for_order, look_for_sums,
};
use crate::full_search::{answer_alone, by_workers, search_alone, to_the_end};
use crate::known::Known;
use crate::object_answer::{ObjectAnswer, Question, asks_no_run};
use crate::object_fault::hint_of;
use crate::setting::Setting;
use lin_decide::Ladder;
use lin_effort::efforts::{
    Turn, ahead, first_turn, is_small, order, prefixes_at_first, turn_after, work_of_searches,
};
use lin_effort::{Decide, Decision, Effort, Work};
use lin_fewer::has_many_pending;
use lin_history::{Order, Problem};
use lin_object::{AnyObject, ObjState};
use lin_prefixes::longest_run_by_prefixes;
use lin_search::{OwnMemo, Told};
use lin_workers::{Gate, Patience, UntilUp, Watcher, Way, number_stored};
use std::alloc::{AllocError, AllocGlobal, Global};
use std::ops::ControlFlow;
use std::thread::Threads;

// ---- what is decided without a full search

// The order, if the ladder finds it with so much work; that there is none is known then.
fn decided<R: AllocGlobal, G: Gate, W: Watcher>(
    setting: &Setting<'_, '_, R, G, W>,
    problem: &Problem<AnyObject>,
    effort: &Effort,
    work: Work,
    known: &mut Known,
) -> Result<Option<Order>, AllocError>
    requires { IsKnownOf (any_problem problem.now) known.old }
    ensures order { IfOk result (λ found. IfSome found (IsLeast (IsLinearization (any_problem problem.now)))) }
    ensures known { IsKnownOf (any_problem problem.now) known.new }
{
    let mut stop = UntilUp::new(&setting.bounds);
    let mut ladder = Ladder::new(problem, work, &mut stop);
    match ladder.decide_from(setting.rt.alloc(), problem, &mut known.begun, effort)? {
        Decision::Found(order) => Ok(Some(order)),
        Decision::Refuted => {
            known.refute(setting.rt.alloc());
            Ok(None)
        }
        Decision::Spent | Decision::Stopped => Ok(None),
    }
}

// The order, if it is known ahead: not where workers are wanted at once.
fn order_ahead<R: AllocGlobal, G: Gate, W: Watcher>(
    setting: &Setting<'_, '_, R, G, W>,
    problem: &Problem<AnyObject>,
    known: &mut Known,
) -> Result<Option<Order>, AllocError>
    requires { IsKnownOf (any_problem problem.now) known.old }
    ensures order { IfOk result (λ found. IfSome found (IsLeast (IsLinearization (any_problem problem.now)))) }
    ensures known { IsKnownOf (any_problem problem.now) known.new }
{
    if setting.gate.wants_workers() {
        return Ok(None);
    }
    setting.bounds.watcher().enter(Way::Ahead);
    let effort = ahead(problem.len(), setting.bounds.limit());
    decided(setting, problem, &effort, Work::ANY, known)
}

// Whether the problem is that of a queue or a stack.
fn has_items(problem: &Problem<AnyObject>) -> bool {
    matches!(problem.start(), ObjState::Queue(_) | ObjState::Stack(_))
}

// The order, where it showed that there is one, by a search with so much work that tries pending calls only between completed ones: not of
// a queue or a stack, of which an order mostly shows without such a search, and the least one takes it long.
fn order_by_blocks<R: AllocGlobal, G: Gate, W: Watcher>(
    setting: &Setting<'_, '_, R, G, W>,
    problem: &Problem<AnyObject>,
    work: Work,
    known: &mut Known,
) -> Result<Option<Order>, AllocError>
    requires { IsKnownOf (any_problem problem.now) known.old }
    ensures known { IsKnownOf (any_problem problem.now) known.new }
    ensures order { IfOk result (λ found. IfSome found (IsLeast (IsLinearization (any_problem problem.now)))) }
{
    if !known.shows_order() || has_items(problem) {
        return Ok(None);
    }
    let mut stop = UntilUp::new(&setting.bounds);
    let mut ladder = Ladder::new(problem, work, &mut stop);
    match ladder.told_by_blocks_alone(setting.rt.alloc(), problem, &mut known.begun)? {
        Told::Found(order) => Ok(Some(order)),
        Told::Refuted | Told::Nothing => Ok(None),
    }
}

// The first of the longest runs of an object without a linearization, if searches of prefixes find it with so many lifts; where no
// run is asked for, that there is none.
fn answer_refuted<R: AllocGlobal, G: Gate, W: Watcher>(
    setting: &Setting<'_, '_, R, G, W>,
    problem: &Problem<AnyObject>,
    question: Question,
    lifts: u64,
    known: &mut Known,
) -> Result<Option<ObjectAnswer>, AllocError>
    requires none { HasNoOrder (any_problem problem.now) }
    requires known { IsKnownOf (any_problem problem.now) known.old }
    ensures answer { IfOk result (λ told. IfSome told
        (IsObjectAnswer (any_problem problem.now) question setting.now.bounds)) }
    ensures known { IsKnownOf (any_problem problem.now) known.new }
{
    if asks_no_run(question) {
        return Ok(Some(ObjectAnswer::No(None)));
    }
    look_for_hint(setting, problem, known)?;
    let alloc = setting.rt.alloc();
    let hint = hint_of(alloc, problem, known.fault.found())?;
    let mut stop = UntilUp::new(&setting.bounds);
    let mut ladder = Ladder::new(problem, work_of_searches(lifts), &mut stop);
    match longest_run_by_prefixes(alloc, problem, &hint, &mut ladder)? {
        Some(run) => Ok(Some(ObjectAnswer::No(Some(run)))),
        None => Ok(None),
    }
}

// How far the least order is looked for in a turn: in a later one as far as that goes at once, since searches with less told nothing.
fn effort_in(turn: Turn, problem: &Problem<AnyObject>) -> Effort {
    let effort = order(problem.len());
    if turn.is_first {
        return effort;
    }
    Effort {
        lifts: turn.prefixes,
        ..effort
    }
}

// The order, if a turn's searches behind the full one find it, where it is not known that there is none.
fn order_in_turn<R: AllocGlobal, G: Gate, W: Watcher>(
    setting: &Setting<'_, '_, R, G, W>,
    problem: &Problem<AnyObject>,
    turn: Turn,
    known: &mut Known,
) -> Result<Option<Order>, AllocError>
    requires { IsKnownOf (any_problem problem.now) known.old }
    ensures order { IfOk result (λ found. IfSome found (IsLeast (IsLinearization (any_problem problem.now)))) }
    ensures known { IsKnownOf (any_problem problem.now) known.new }
{
    if known.is_refuted {
        return Ok(None);
    }
    let work = work_of_searches(turn.prefixes);
    match decided(setting, problem, &effort_in(turn, problem), work, known)? {
        Some(order) => Ok(Some(order)),
        None => order_by_blocks(setting, problem, work, known),
    }
}

// The answer by searches of prefixes in a turn.
fn answer_by_prefixes<R: AllocGlobal, G: Gate, W: Watcher>(
    setting: &Setting<'_, '_, R, G, W>,
    problem: &Problem<AnyObject>,
    question: Question,
    turn: Turn,
    known: &mut Known,
) -> Result<Option<ObjectAnswer>, AllocError>
    requires { IsKnownOf (any_problem problem.now) known.old }
    ensures answer { IfOk result (λ told. IfSome told
        (IsObjectAnswer (any_problem problem.now) question setting.now.bounds)) }
    ensures known { IsKnownOf (any_problem problem.now) known.new }
{
    setting.bounds.watcher().enter(Way::Prefixes);
    if let Some(order) = order_in_turn(setting, problem, turn, known)? {
        return Ok(Some(ObjectAnswer::Yes(order)));
    }
    if !known.is_refuted {
        return Ok(None);
    }
    announce(setting, problem, question, known)?;
    answer_refuted(setting, problem, question, turn.prefixes, known)
}

// ---- turns

// Whether the problem is that of a counter of which many calls are pending. A search that tries these only between completed ones
// mostly decides it, while the full search may make progress for minutes and come to no end.
fn is_counter_with_many_pending(problem: &Problem<AnyObject>) -> bool {
    match problem.start() {
        ObjState::Counter(_) => has_many_pending(problem),
        _ => false,
    }
}

// How long the full search goes on in a turn: where there may be an order, as long as it makes progress towards it; but not of such a
// counter.
fn patience_for(problem: &Problem<AnyObject>, turn: Turn, is_refuted: bool) -> Patience {
    if is_refuted || is_counter_with_many_pending(problem) {
        Patience::ForLifts(turn.full)
    } else {
        Patience::UntilStalled(turn.full)
    }
}

// The answer of a turn behind the full search, with the number stored; and how many lifts searches of prefixes made at most. An answer
// for which that number is not told is left to workers.
fn behind_full_search<R: AllocGlobal, G: Gate, W: Watcher>(
    setting: &Setting<'_, '_, R, G, W>,
    problem: &Problem<AnyObject>,
    memo: &OwnMemo<'_, AnyObject>,
    question: Question,
    turn: Turn,
    known: &mut Known,
) -> Result<ControlFlow<(ObjectAnswer, u64), u64>, AllocError>
    requires memo { memo.now.problem ≡ problem.now }
    requires known { IsKnownOf (any_problem problem.now) known.old }
    ensures answer { IfOk result (λ told. ForBreak told
        (IsAnswered (any_problem problem.now) question setting.now.bounds)) }
    ensures known { IsKnownOf (any_problem problem.now) known.new }
{
    let Some(stored) = number_stored(memo) else {
        return Ok(ControlFlow::Continue(turn.prefixes));
    };
    // Of such a counter the search by blocks goes first in what follows, and a refuted one would be asked for long in vain.
    if !is_counter_with_many_pending(problem) {
        look_for_order(setting, problem, known)?;
    }
    look_for_fault(setting, problem, known)?;
    announce(setting, problem, question, known)?;
    let at_first = prefixes_at_first(problem, known.is_refuted, setting.bounds.limit());
    let turn = Turn {
        prefixes: turn.prefixes.max(at_first),
        ..turn
    };
    match answer_by_prefixes(setting, problem, question, turn, known)? {
        Some(answer) => Ok(ControlFlow::Break((answer, stored))),
        None => Ok(ControlFlow::Continue(turn.prefixes)),
    }
}

// So many lifts fewer, where there is a limit.
fn less(limit: Option<u64>, lifts: u64) -> Option<u64> {
    Some(limit?.saturating_sub(lifts))
}

// The answer by the full search and searches of prefixes in turn, each time twice as far; or how many lifts the full search may still
// make, where there is a limit.
fn by_turns<R: AllocGlobal, G: Gate, W: Watcher>(
    setting: &Setting<'_, '_, R, G, W>,
    problem: &Problem<AnyObject>,
    memo: &mut OwnMemo<'_, AnyObject>,
    question: Question,
    known: &mut Known,
) -> Result<ControlFlow<(ObjectAnswer, u64), Option<u64>>, AllocError>
    requires memo { memo.old.problem ≡ problem.now }
    requires known { IsKnownOf (any_problem problem.now) known.old }
    ensures answer { IfOk result (λ told. ForBreak told
        (IsAnswered (any_problem problem.now) question setting.now.bounds)) }
    ensures known { IsKnownOf (any_problem problem.now) known.new }
    ensures memo { memo.new.problem ≡ memo.old.problem }
{
    let mut limit = setting.bounds.limit();
    if is_small(limit) {
        return Ok(ControlFlow::Continue(limit));
    }
    let mut turn = first_turn(problem, known.is_refuted, setting.bounds.limit());
    for _ in 0..u64::BITS {
        let patience = patience_for(problem, turn, known.is_refuted);
        let alone = search_alone(setting, problem, memo, patience, limit)?;
        match answer_alone(alone, known.is_refuted) {
            ControlFlow::Break(answer) => return Ok(ControlFlow::Break(answer)),
            ControlFlow::Continue(lifts) => limit = less(limit, lifts),
        }
        if limit == Some(0) {
            return Ok(ControlFlow::Continue(limit));
        }
        let lifts = match behind_full_search(setting, problem, memo, question, turn, known)? {
            ControlFlow::Break(answer) => return Ok(ControlFlow::Break(answer)),
            ControlFlow::Continue(lifts) => lifts,
        };
        let Some(next) = turn_after(problem, lifts, setting.bounds.limit()) else {
            return Ok(ControlFlow::Continue(limit));
        };
        turn = next;
    }
    Ok(ControlFlow::Continue(limit))
}

// ---- the whole check of an object

// The answer by searches.
fn by_searches<R: AllocGlobal + Threads + Sync, G: Gate, W: Watcher>(
    setting: &Setting<'_, '_, R, G, W>,
    problem: &Problem<AnyObject>,
    question: Question,
    known: &mut Known,
) -> Result<(ObjectAnswer, u64), AllocError>
    requires { IsKnownOf (any_problem problem.now) known.old }
    ensures answer { IfOk result (IsAnswered (any_problem problem.now) question setting.now.bounds) }
    ensures known { IsKnownOf (any_problem problem.now) known.new }
{
    let mut memo = OwnMemo::new(setting.rt.alloc(), problem);
    if setting.gate.wants_workers() {
        return by_workers(setting, &memo, known.is_refuted);
    }
    match by_turns(setting, problem, &mut memo, question, known)? {
        ControlFlow::Break(answer) => Ok(answer),
        ControlFlow::Continue(limit) => {
            to_the_end(setting, problem, &mut memo, known.is_refuted, limit)
        }
    }
}

/// The answer to what is asked of one object, and how many configurations were stored: none where it is known ahead. A gate that
/// wants workers has them at once. What was found out on the way is known then. `AllocError` where the calling thread was refused memory.
pub(crate) fn answer_object<R: AllocGlobal + Threads + Sync, G: Gate, W: Watcher>(
    setting: &Setting<'_, '_, R, G, W>,
    problem: &Problem<AnyObject>,
    question: Question,
    known: &mut Known,
) -> Result<(ObjectAnswer, u64), AllocError>
    requires { IsKnownOf (any_problem problem.now) known.old }
    ensures answer { IfOk result (IsAnswered (any_problem problem.now) question setting.now.bounds) }
    ensures known { IsKnownOf (any_problem problem.now) known.new }
{
    if let Some(order) = order_ahead(setting, problem, known)? {
        return Ok((ObjectAnswer::Yes(order), 0));
    }
    look_for_sums(setting, problem, known)?;
    if has_order(setting, problem, question, known)? {
        return Ok((ObjectAnswer::HasOrder, 0));
    }
    if known.is_refuted && asks_no_run(question) && !is_small(setting.bounds.limit()) {
        return Ok((ObjectAnswer::No(None), 0));
    }
    announce(setting, problem, question, known)?;
    by_searches(setting, problem, question, known)
}
