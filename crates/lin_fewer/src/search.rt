//! What a search knows of its problem.

ghost use Rattle.std.specs.Prelude.{◌≡◌, ℕ, ◌+◌, ◌<◌, List, IfOk, IfSome, IsTrue, OnOk, length};
ghost use Rattle.lin_history.specs.Problems.Problem.{problem_of};
ghost use Rattle.lin_history.specs.Problems.Continuations.{IsCompletion};
ghost use Rattle.lin_history.specs.Problems.Configurations.{IsReachable};
ghost use Rattle.lin_search.specs.Answer.{HasNoCompletion};
ghost use Rattle.lin_fewer.specs.Fewer.{IsNoWorse};
ghost use Rattle.lin_fewer.specs.Knowledge.{IsBorne, HasEarlier, HasEvery, ArePending, ArePendingTo, AreJudged};

use crate::front::is_completed;
use crate::judged::Judged;
use crate::known::Known;
use crate::laws::fewer_law;
use crate::rules::Rules;
use crate::twins::Twins;
use crate::waiting::Waiting;
use lin_history::Problem;
use lin_object::{SeqObject, lawful};
use lin_search::{CallSet, Config, repeats};
use std::alloc::{AllocError, Global};
use std::hash::{FoldHasher, Hash, Hasher};
use std::marker::Model;

// So many configurations with one key are looked at.
const LOOKS: usize = 1 << 12;

/// What a search knows of its problem: its pending calls, for each call an identical one, the configurations found to have no
/// completion and those found to have one, and how many steps are left. Contracts see the problem.
#[derive(Drop)]
pub(crate) struct Search<'p, O: SeqObject, R: Rules<O>> {
    alloc: Global,
    problem: &'p Problem<O>,
    rules: &'p R,
    waiting: Waiting<'p, O>,
    pending: CallSet,
    all: CallSet,
    twins: Twins,
    refuted: Known<O>,
    good: Known<O>,
    left: u64,
}

impl<'p, O: SeqObject, R: Rules<O>> Model for Search<'p, O, R> {
    ghost use Rattle.lin_history.specs.Problems.ProblemParts.{ProblemParts};
    ghost use Rattle.lin_history.specs.Problems.Problem.{problem_of};
    ghost use Rattle.std.specs.Prelude.{◌≡◌};
    ghost use Rattle.lin_fewer.specs.Knowledge.{IsKnowledge};

    ghost Value = { ProblemParts O O.State O.Op O.Reply };

    ghost view = { λ s. s.problem.now };

    ghost invariant = { λ s. IsKnowledge (problem_of O.after O.State.eq O.Reply.eq s.problem.now)
        s.pending s.all s.refuted s.good × (s.waiting ≡ s.problem.now)
        × R.suits s.rules.now s.problem.now };
}

// A number whose bits all depend on all of this one's.
pub(crate) fn mixed(number: u64) -> u64 {
    let spread = number.wrapping_add(1).wrapping_mul(0x9E37_79B9_7F4A_7C15);
    let folded = (spread ^ (spread >> 32)).wrapping_mul(0xBF58_476D_1CE4_E5B9);
    folded ^ (folded >> 32)
}

// The key of a configuration, of whose completed calls the mixed numbers make this sum.
pub(crate) fn key_of<O: SeqObject>(completed: u64, config: &Config<O>) -> u64 {
    let mut hasher = FoldHasher::default();
    config.state().hash(&mut hasher);
    mixed(completed ^ hasher.finish())
}

// Whether the sum of the numbers of the calls in the first configuration is above that of the second: then it has not fewer of them.
fn is_above<O: SeqObject>(a: &Config<O>, b: &Config<O>) -> bool {
    a.lifted().sum() > b.lifted().sum()
}

// The set of all calls of a problem.
fn every_call<O: SeqObject>(alloc: Global, problem: &Problem<O>) -> Result<CallSet, AllocError>
    ensures { IfOk result (HasEvery (problem_of O.after O.State.eq O.Reply.eq problem.now)) }
{
    let calls = problem.calls();
    let mut every = CallSet::none(alloc, calls.len())?;
    for call in 0..calls.len() {
        every.insert(call)?;
    }
    Ok(every)
}

// Puts the call in, if it is pending.
fn put_pending<O: SeqObject>(
    problem: &Problem<O>,
    pending: &mut CallSet,
    call: usize,
) -> Result<(), AllocError>
    requires call { call < length problem.now.calls }
    requires pending { ArePendingTo (problem_of O.after O.State.eq O.Reply.eq problem.now) pending.old call }
    ensures { OnOk result (ArePendingTo (problem_of O.after O.State.eq O.Reply.eq problem.now) pending.new (call + 1)) }
{
    if is_completed(problem, call) {
        return Ok(());
    }
    pending.insert(call)?;
    Ok(())
}

// The set of the pending calls of a problem.
fn pending_calls<O: SeqObject>(alloc: Global, problem: &Problem<O>) -> Result<CallSet, AllocError>
    ensures { IfOk result (ArePending (problem_of O.after O.State.eq O.Reply.eq problem.now)) }
{
    let calls = problem.calls();
    let mut pending = CallSet::none(alloc, calls.len())?;
    for call in 0..calls.len() {
        put_pending(problem, &mut pending, call)?;
    }
    Ok(pending)
}

impl<'p, O: SeqObject, R: Rules<O>> Search<'p, O, R> {
    /// What is known before the first step, with so many steps left, where these configurations are judged already.
    pub(crate) fn new(
        alloc: Global,
        problem: &'p Problem<O>,
        rules: &'p R,
        judged: Judged<O>,
        steps: u64,
    ) -> Result<Self, AllocError>
        requires suits { R.suits rules.now problem.now }
        requires judged { AreJudged (problem_of O.after O.State.eq O.Reply.eq problem.now) judged }
        ensures { IfOk result (λ search. search ≡ problem.now) }
    {
        let all = every_call(alloc, problem)?;
        let pending = pending_calls(alloc, problem)?;
        let twins = Twins::of(alloc, problem)?;
        let Judged { refuted, good } = judged;
        Ok(Search {
            alloc,
            problem,
            rules,
            waiting: Waiting::of(alloc, problem)?,
            pending,
            all,
            twins,
            refuted,
            good,
            left: steps,
        })
    }

    /// What it found out of configurations.
    pub(crate) fn into_judged(self) -> Judged<O>
        ensures { AreJudged (problem_of O.after O.State.eq O.Reply.eq self.entry) result }
    {
        let Search { refuted, good, .. } = self;
        Judged { refuted, good }
    }

    /// What memory is taken from.
    pub(crate) fn alloc(&self) -> Global {
        self.alloc
    }

    /// The problem.
    pub(crate) fn problem(&self) -> &'p Problem<O>
        ensures { result.now ≡ self.now }
    {
        self.problem
    }

    /// What may be passed over.
    pub(crate) fn rules(&self) -> &'p R
        ensures { R.suits result.now self.now }
    {
        self.rules
    }

    /// The pending calls of the problem.
    pub(crate) fn waiting(&self) -> &Waiting<'p, O>
        ensures { result.now ≡ self.now }
    {
        &self.waiting
    }

    /// Whether a step was left. It is one fewer then.
    pub(crate) fn takes_step(&mut self) -> bool
        ensures { self.new ≡ self.old }
    {
        if self.left == 0 {
            return false;
        }
        self.left -= 1;
        true
    }

    /// The set of all calls, for a configuration that is complete.
    pub(crate) fn every_call(&self) -> Result<CallSet, AllocError>
        ensures { IfOk result (HasEvery
            (problem_of O.after O.State.eq O.Reply.eq self.now)) }
    {
        let every = self.all.copy(self.alloc)?;
        Ok(every)
    }

    /// Whether the first configuration is no worse than the second, as far as that is found.
    pub(crate) fn is_no_worse(&self, a: &Config<O>, b: &Config<O>) -> bool
        ensures { IsTrue result → IsNoWorse (problem_of O.after O.State.eq O.Reply.eq self.now)
            a.now.lifted a.now.state b.now.lifted b.now.state }
    {
        if is_above(a, b) {
            return false;
        }
        if a.state() == b.state() {
            return a.lifted().is_fewer(b.lifted(), &self.pending);
        }
        false
    }

    /// Whether it is known that the configuration, which has this key, has no completion.
    pub(crate) fn is_refuted(&self, config: &Config<O>, key: u64) -> bool
        ensures { IsTrue result → HasNoCompletion
            (problem_of O.after O.State.eq O.Reply.eq self.now) config.now.lifted config.now.state }
    {
        fewer_law(self.problem);
        let mut number = self.refuted.last_of(key);
        for _ in 0..LOOKS {
            if let Some(known) = self.refuted.with_key(number, key) {
                if self.is_no_worse(known, config) {
                    return true;
                }
            }
            if number == u32::MAX {
                return false;
            }
            number = self.refuted.before(number);
        }
        false
    }

    /// A set that used no fewer pending calls than the configuration, which has this key, and with its state has a completion, where
    /// one is known.
    pub(crate) fn known_borne(
        &self,
        config: &Config<O>,
        key: u64,
    ) -> Result<Option<CallSet>, AllocError>
        ensures { IfOk result (λ answer. IfSome answer (IsBorne
            (problem_of O.after O.State.eq O.Reply.eq self.now) config.now.lifted
            config.now.state)) }
    {
        lawful::<O>();
        let mut number = self.good.last_of(key);
        for _ in 0..LOOKS {
            if let Some(known) = self.good.with_key(number, key) {
                if self.is_no_worse(config, known) {
                    let borne = known.lifted().copy(self.alloc)?;
                    return Ok(Some(borne));
                }
            }
            if number == u32::MAX {
                return Ok(None);
            }
            number = self.good.before(number);
        }
        Ok(None)
    }

    /// Notes that the configuration, which has this key, has no completion.
    pub(crate) fn note_refuted(&mut self, config: &Config<O>, key: u64) -> Result<(), AllocError>
        requires reachable { IsReachable (problem_of O.after O.State.eq O.Reply.eq self.old)
            config.now.lifted config.now.state }
        requires none { HasNoCompletion (problem_of O.after O.State.eq O.Reply.eq self.old)
            config.now.lifted config.now.state }
        ensures { self.new ≡ self.old }
    {
        lawful::<O>();
        fewer_law(self.problem);
        let copy = config.copy(self.alloc, self.problem)?;
        self.refuted.add(copy, key)?;
        Ok(())
    }

    /// Notes that the configuration with this set and state, which has this key, has a completion.
    pub(crate) fn note_borne(
        &mut self,
        borne: &CallSet,
        state: &O::State,
        key: u64,
    ) -> Result<(), AllocError>
        requires flags { length borne.now ≡ length self.old.calls }
        requires completes { (l : List ℕ) × IsCompletion
            (problem_of O.after O.State.eq O.Reply.eq self.old) borne.now state.now l }
        ensures { self.new ≡ self.old }
    {
        lawful::<O>();
        let set = borne.copy(self.alloc)?;
        let state = self.problem.object().copy_state(self.alloc, state)?;
        self.good.add(Config::from_parts(set, state), key)?;
        Ok(())
    }

    /// The pending calls that are identical.
    pub(crate) fn twins(&self) -> &Twins {
        &self.twins
    }

    /// Whether an identical call of a lower number is not in the set, as far as one is found.
    pub(crate) fn has_earlier(&self, set: &CallSet, call: usize) -> bool
        requires { call < length self.now.calls }
        ensures { IsTrue result → HasEarlier (problem_of O.after O.State.eq O.Reply.eq self.now)
            set.now call }
    {
        let earlier = self.twins.before(call);
        if earlier >= call {
            return false;
        }
        if set.has(earlier) {
            return false;
        }
        repeats(self.problem, earlier, call)
    }
}
