//! A first search: it passes over calls that are known to begin no completion, and says nothing of longest runs.
//!
//! It is generic in the object and in the rules by which it passes calls over.
ghost use Rattle.std.specs.Prelude.{◌≡◌, ℕ, ◌+◌, ◌<◌, ◌^◌, ◌++◌, ◌∷◌, [], List, Option, Some, None, length, false, IfOk, IsTrue};
ghost use Rattle.lin_history.specs.Problems.Problem.{problem_of};
ghost use Rattle.lin_history.specs.Problems.ProblemParts.{ProblemParts};
ghost use Rattle.lin_object.specs.StepBacks.{state_before};
ghost use Rattle.lin_history.specs.Problems.Configurations.{IsReachable};
ghost use Rattle.lin_search.specs.CallSet.{lifted_set};
ghost use Rattle.lin_search.specs.Entries.{IsMinimal, IsLeastMinimal};
ghost use Rattle.lin_ahead.specs.First.FirstProgress.{BeginsNone, ComesAfter, IsPassed, IsFirstProgress, IsFirstLifted, IsFirstStep, IsFirstVisit, AreRefuted, left_to_try};
ghost use Rattle.lin_search.specs.NextCall.{HasEveryCompleted};
ghost use Rattle.lin_search.specs.Path.{kept_calls, frame_of, frames_of};
ghost use Rattle.lin_search.specs.Progress.{bound};
ghost use Rattle.std.specs.ControlFlow.{ForBreak, ForContinue};
ghost use Rattle.lin_search.specs.Told.{IsRightOf, IsSpent, IsToldUnless};
ghost use Rattle.std.proofs.Common.{Break};

use crate::first::identical_calls::{changes_nothing, stands_for, stands_where_it_follows};
use crate::first::refuted_set::RefutedSet;
use crate::first::rules::Rules;
use lin_history::{Order, Problem};
use lin_object::{SeqObject, lawful};
use lin_search::{Config, Frame, IdenticalCalls, Longest, Path, Stop, Told};
use std::alloc::{AllocError, Global};
use std::ops::ControlFlow;

// The state of a first search: its path, what it has refuted, the rules that it goes by, which calls repeat others, and how many
// lifts were made. Of longest continuations it says nothing: those of its frames are left at none.
#[derive(Drop)]
struct FirstSearch<'p, O: SeqObject, R: Rules<O>> {
    alloc: Global,
    path: Path<'p, O>,
    refuted: RefutedSet<O>,
    rules: R,
    identical: IdenticalCalls,
    lifts: u64,
}

impl<'p, O: SeqObject, R: Rules<O>> FirstSearch<'p, O, R> {
    // Takes the frame's call, which was lifted last, back, and goes on after it: behind a call that changes nothing no other one
    // need be tried.
    fn leave(&mut self, frame: Frame<O>) -> Result<Option<usize>, AllocError>
        requires lifted { lifted_set (problem_of O.after O.State.eq O.Reply.eq
            self.old.path.entries.problem) self.old.path.entries.lifted
            ≡ self.old.path.config.lifted }
        requires last { (before : List ℕ)
            × (self.old.path.entries.lifted ≡ before ++ frame.call ∷ [])
            × IsMinimal (problem_of O.after O.State.eq O.Reply.eq self.old.path.entries.problem)
            (lifted_set (problem_of O.after O.State.eq O.Reply.eq self.old.path.entries.problem)
            before) frame.call }
        ensures problem { self.new.path.entries.problem ≡ self.old.path.entries.problem }
        ensures right { (p : ProblemParts O O.State O.Op O.Reply) → R.are_right self.old.rules p
            → R.are_right self.new.rules p }
        ensures frames { self.new.path.frames ≡ self.old.path.frames }
        ensures refuted { self.new.refuted ≡ self.old.refuted }
        ensures lifts { self.new.lifts ≡ self.old.lifts }
        ensures last { (before : List ℕ)
            → self.old.path.entries.lifted ≡ before ++ frame.call ∷ []
            → self.new.path.entries.lifted ≡ before }
        ensures lifted { IfOk result (λ next. lifted_set
            (problem_of O.after O.State.eq O.Reply.eq self.old.path.entries.problem)
            self.new.path.entries.lifted ≡ self.new.path.config.lifted) }
        ensures state { IfOk result (λ next. self.new.path.config.state
            ≡ state_before O.undone frame.back self.old.path.config.state) }
        ensures candidate { IfOk result (ComesAfter (problem_of O.after O.State.eq O.Reply.eq self.old.path.entries.problem)
            self.new.path.config.lifted frame.call) }
    {
        let call = frame.call();
        self.path.unlift(frame)?;
        self.rules.unlifted(call);
        if changes_nothing(self.path.problem(), call) {
            return Ok(None);
        }
        Ok(self.path.after(call, Longest::none()).candidate)
    }

    // Goes on from the configuration that the frame's call, which was lifted last, led to: back where it is known to be
    // refuted, or else from there.
    fn go_on(&mut self, frame: Frame<O>) -> Result<Option<usize>, AllocError>
        requires lifted { IsFirstLifted (problem_of O.after O.State.eq O.Reply.eq
            self.old.path.entries.problem) self.old.refuted self.old.lifts
            self.old.path.entries.lifted (frames_of O.undone self.old.path.frames.items
            (state_before O.undone frame.back self.old.path.config.state))
            (frame_of O.undone frame self.old.path.config.state) self.old.path.config }
        requires incomplete { HasEveryCompleted (problem_of O.after O.State.eq O.Reply.eq
            self.old.path.entries.problem) self.old.path.config.lifted → ⊥ }
        ensures problem { self.new.path.entries.problem ≡ self.old.path.entries.problem }
        ensures right { (p : ProblemParts O O.State O.Op O.Reply) → R.are_right self.old.rules p
            → R.are_right self.new.rules p }
        ensures lifts { self.new.lifts ≡ self.old.lifts }
        ensures progress { IfOk result (IsFirstProgress (problem_of O.after O.State.eq O.Reply.eq
            self.old.path.entries.problem) self.new.refuted self.new.lifts
            self.new.path.entries.lifted (frames_of O.undone self.new.path.frames.items
            self.new.path.config.state) self.new.path.config) }
    {
        self.rules.lifted(self.path.config(), frame.call())?;
        if self.refuted.has(self.path.config()) {
            return self.leave(frame);
        }
        Ok(self.path.descend(frame)?.candidate)
    }

    // The calls on the path, in order, and then this one.
    fn success(&self, call: usize) -> Result<ControlFlow<Order, Option<usize>>, AllocError>
        ensures { IfOk result (λ visit. visit
            ≡ Break (kept_calls self.now.path.frames.items ++ call ∷ [])) }
    {
        Ok(ControlFlow::Break(self.path.order_through(call)?))
    }

    // Counts the lift of the frame's call, which was lifted last: that is a success where the configuration is complete then.
    // Else the search goes on from there.
    fn visit(&mut self, frame: Frame<O>) -> Result<ControlFlow<Order, Option<usize>>, AllocError>
        requires room { self.old.lifts + 1 < 2 ^ 64 }
        requires lifted { IsFirstLifted (problem_of O.after O.State.eq O.Reply.eq
            self.old.path.entries.problem) self.old.refuted (self.old.lifts + 1)
            self.old.path.entries.lifted (frames_of O.undone self.old.path.frames.items
            (state_before O.undone frame.back self.old.path.config.state))
            (frame_of O.undone frame self.old.path.config.state) self.old.path.config }
        ensures problem { self.new.path.entries.problem ≡ self.old.path.entries.problem }
        ensures right { (p : ProblemParts O O.State O.Op O.Reply) → R.are_right self.old.rules p
            → R.are_right self.new.rules p }
        ensures lifts { IfOk result (λ visit. self.new.lifts ≡ self.old.lifts + 1) }
        ensures refuted { IfOk result (λ visit. AreRefuted (problem_of O.after O.State.eq O.Reply.eq
            self.old.path.entries.problem) self.new.refuted) }
        ensures visit { IfOk result (IsFirstVisit (problem_of O.after O.State.eq O.Reply.eq
            self.old.path.entries.problem) self.new.refuted self.new.lifts
            self.new.path.entries.lifted (frames_of O.undone self.new.path.frames.items
            self.new.path.config.state) self.new.path.config) }
    {
        self.lifts += 1;
        if self.path.is_complete() {
            return self.success(frame.call());
        }
        Ok(ControlFlow::Continue(self.go_on(frame)?))
    }

    // Whether an identical call that is left stands for the call: then that one was tried here before, and begins no completion.
    fn repeats_one_left(&self, call: usize) -> bool
        requires reachable { IsReachable (problem_of O.after O.State.eq O.Reply.eq self.now.path.entries.problem)
            self.now.path.config.lifted self.now.path.config.state }
        requires passed { IsPassed (problem_of O.after O.State.eq O.Reply.eq self.now.path.entries.problem)
            self.now.path.config.lifted self.now.path.config.state call }
        ensures { IsTrue result → BeginsNone (problem_of O.after O.State.eq O.Reply.eq self.now.path.entries.problem)
            self.now.path.config.lifted self.now.path.config.state call }
    {
        lawful::<O>();
        let Some(earlier) = self.identical.repeated_by(call) else {
            return false;
        };
        if self.path.config().has(earlier) {
            return false;
        }
        stands_for(self.path.problem(), earlier, call)
    }

    // Whether a completed call that is left and can follow stands for the call, which is pending: then that one was tried here
    // before, and begins no completion.
    fn is_behind_completed(&self, call: usize) -> Result<bool, AllocError>
        requires reachable { IsReachable (problem_of O.after O.State.eq O.Reply.eq self.now.path.entries.problem)
            self.now.path.config.lifted self.now.path.config.state }
        requires minimal { IsMinimal (problem_of O.after O.State.eq O.Reply.eq
            self.now.path.entries.problem) self.now.path.config.lifted call }
        requires passed { IsPassed (problem_of O.after O.State.eq O.Reply.eq self.now.path.entries.problem)
            self.now.path.config.lifted self.now.path.config.state call }
        ensures { IfOk result (λ known. IsTrue known → BeginsNone
            (problem_of O.after O.State.eq O.Reply.eq self.now.path.entries.problem) self.now.path.config.lifted
            self.now.path.config.state call) }
    {
        lawful::<O>();
        let Some(earlier) = self.identical.completed_before(call) else {
            return Ok(false);
        };
        if earlier >= call || self.path.config().has(earlier) {
            return Ok(false);
        }
        if !stands_where_it_follows(self.path.problem(), earlier, call) {
            return Ok(false);
        }
        self.path.can_follow_before(earlier, call)
    }

    // Whether a completion may begin with the call, which is minimal, as far as is known ahead.
    fn may_begin(&self, call: usize) -> Result<bool, AllocError>
        requires right { R.are_right self.now.rules self.now.path.entries.problem }
        requires reachable { IsReachable (problem_of O.after O.State.eq O.Reply.eq
            self.now.path.entries.problem) self.now.path.config.lifted self.now.path.config.state }
        requires minimal { IsMinimal (problem_of O.after O.State.eq O.Reply.eq
            self.now.path.entries.problem) self.now.path.config.lifted call }
        requires passed { IsPassed (problem_of O.after O.State.eq O.Reply.eq self.now.path.entries.problem)
            self.now.path.config.lifted self.now.path.config.state call }
        ensures { IfOk result (λ may. may ≡ false → BeginsNone
            (problem_of O.after O.State.eq O.Reply.eq self.now.path.entries.problem)
            self.now.path.config.lifted self.now.path.config.state call) }
    {
        if self.repeats_one_left(call) || self.is_behind_completed(call)? {
            return Ok(false);
        }
        let problem = self.path.problem();
        let config = self.path.config();
        if self.rules.begins_none(problem, config, call)? {
            return Ok(false);
        }
        if !self.rules.looks_at_next(config, call) {
            return Ok(true);
        }
        let Some(state) = self.path.next_state(call)? else {
            return Ok(false);
        };
        Ok(!self.rules.leads_to_none(problem, config, call, &state)?)
    }

    // Tries the call, the candidate: lifts it, or passes it over where no completion begins with it.
    fn try_call(
        &mut self,
        call: usize,
    ) -> Result<ControlFlow<Option<Frame<O>>, Option<usize>>, AllocError>
        requires right { R.are_right self.old.rules self.old.path.entries.problem }
        requires progress { IsFirstProgress (problem_of O.after O.State.eq O.Reply.eq
            self.old.path.entries.problem) self.old.refuted self.old.lifts
            self.old.path.entries.lifted (frames_of O.undone self.old.path.frames.items
            self.old.path.config.state) self.old.path.config (Some call) }
        ensures problem { self.new.path.entries.problem ≡ self.old.path.entries.problem }
        ensures right { (p : ProblemParts O O.State O.Op O.Reply) → R.are_right self.old.rules p
            → R.are_right self.new.rules p }
        ensures lifts { self.new.lifts ≡ self.old.lifts }
        ensures refuted { self.new.refuted ≡ self.old.refuted }
        ensures step { IfOk result (IsFirstStep (problem_of O.after O.State.eq O.Reply.eq
            self.old.path.entries.problem) O.undone self.new.refuted self.new.lifts
            self.new.path.entries.lifted self.new.path.frames.items self.new.path.config
            (left_to_try (length self.old.path.entries.problem.calls) self.old.path.frames.items
            call)) }
    {
        if !self.may_begin(call)? {
            let position = self.path.after(call, Longest::none());
            return Ok(ControlFlow::Continue(position.candidate));
        }
        let Some(frame) = self.path.lift(call, Longest::none())? else {
            let position = self.path.after(call, Longest::none());
            return Ok(ControlFlow::Continue(position.candidate));
        };
        Ok(ControlFlow::Break(Some(frame)))
    }

    // Goes back from a configuration all of whose calls were tried, and which is so refuted: keeps it, and goes on after the
    // last frame's call. Where there is no frame, the root is refuted.
    fn go_back(&mut self) -> Result<ControlFlow<Option<Frame<O>>, Option<usize>>, AllocError>
        requires progress { IsFirstProgress (problem_of O.after O.State.eq O.Reply.eq
            self.old.path.entries.problem) self.old.refuted self.old.lifts
            self.old.path.entries.lifted (frames_of O.undone self.old.path.frames.items
            self.old.path.config.state) self.old.path.config None }
        ensures problem { self.new.path.entries.problem ≡ self.old.path.entries.problem }
        ensures right { (p : ProblemParts O O.State O.Op O.Reply) → R.are_right self.old.rules p
            → R.are_right self.new.rules p }
        ensures lifts { self.new.lifts ≡ self.old.lifts }
        ensures refuted { IfOk result (λ on. AreRefuted (problem_of O.after O.State.eq O.Reply.eq
            self.old.path.entries.problem) self.new.refuted) }
        ensures step { IfOk result (IsFirstStep (problem_of O.after O.State.eq O.Reply.eq
            self.old.path.entries.problem) O.undone self.new.refuted self.new.lifts
            self.new.path.entries.lifted self.new.path.frames.items self.new.path.config
            (left_to_try (length self.old.path.entries.problem.calls) self.old.path.frames.items
            (length self.old.path.entries.problem.calls))) }
    {
        let Some(frame) = self.path.pop() else {
            return Ok(ControlFlow::Break(None));
        };
        let problem = self.path.problem();
        let refuted = self.path.config().copy(self.alloc, problem)?;
        let next = self.leave(frame)?;
        self.refuted.add(refuted)?;
        Ok(ControlFlow::Continue(next))
    }

    // One step: tries the candidate, or goes back where there is none.
    fn step(
        &mut self,
        candidate: Option<usize>,
    ) -> Result<ControlFlow<Option<Frame<O>>, Option<usize>>, AllocError>
        requires right { R.are_right self.old.rules self.old.path.entries.problem }
        requires progress { IsFirstProgress (problem_of O.after O.State.eq O.Reply.eq
            self.old.path.entries.problem) self.old.refuted self.old.lifts
            self.old.path.entries.lifted (frames_of O.undone self.old.path.frames.items
            self.old.path.config.state) self.old.path.config candidate }
        ensures problem { self.new.path.entries.problem ≡ self.old.path.entries.problem }
        ensures right { (p : ProblemParts O O.State O.Op O.Reply) → R.are_right self.old.rules p
            → R.are_right self.new.rules p }
        ensures lifts { self.new.lifts ≡ self.old.lifts }
        ensures refuted { IfOk result (λ on. AreRefuted (problem_of O.after O.State.eq O.Reply.eq
            self.old.path.entries.problem) self.new.refuted) }
        ensures step { IfOk result (IsFirstStep (problem_of O.after O.State.eq O.Reply.eq
            self.old.path.entries.problem) O.undone self.new.refuted self.new.lifts
            self.new.path.entries.lifted self.new.path.frames.items self.new.path.config
            (left_to_try (length self.old.path.entries.problem.calls) self.old.path.frames.items
            (bound (problem_of O.after O.State.eq O.Reply.eq self.old.path.entries.problem)
            candidate))) }
    {
        match candidate {
            Some(call) => self.try_call(call),
            None => self.go_back(),
        }
    }

    // Lifts the next call that may begin a completion, from the candidate on: its frame. Else what is told: that there is no
    // linearization, where there is no such call; and nothing, where the stop answered, which is asked before each step.
    fn lift_next<S: Stop>(
        &mut self,
        candidate: Option<usize>,
        stop: &mut S,
    ) -> Result<ControlFlow<Told, Frame<O>>, AllocError>
        requires right { R.are_right self.old.rules self.old.path.entries.problem }
        requires progress { IsFirstProgress (problem_of O.after O.State.eq O.Reply.eq
            self.old.path.entries.problem) self.old.refuted self.old.lifts
            self.old.path.entries.lifted (frames_of O.undone self.old.path.frames.items
            self.old.path.config.state) self.old.path.config candidate }
        ensures problem { self.new.path.entries.problem ≡ self.old.path.entries.problem }
        ensures right { (p : ProblemParts O O.State O.Op O.Reply) → R.are_right self.old.rules p
            → R.are_right self.new.rules p }
        ensures lifts { self.new.lifts ≡ self.old.lifts }
        ensures lifted { IfOk result (λ answer. ForContinue answer (λ frame. IsFirstLifted
            (problem_of O.after O.State.eq O.Reply.eq self.old.path.entries.problem)
            self.new.refuted (self.new.lifts + 1) self.new.path.entries.lifted
            (frames_of O.undone self.new.path.frames.items
            (state_before O.undone frame.back self.new.path.config.state))
            (frame_of O.undone frame self.new.path.config.state) self.new.path.config)) }
        ensures refuted { IfOk result (λ answer. ForBreak answer (λ told. AreRefuted (problem_of O.after O.State.eq O.Reply.eq
            self.old.path.entries.problem) self.new.refuted)) }
        ensures told { IfOk result (λ answer. ForBreak answer (IsRightOf (problem_of O.after O.State.eq O.Reply.eq
            self.old.path.entries.problem))) }
        ensures nothing { IfOk result (λ answer. ForBreak answer (λ told. (lifts : ℕ)
            → IsToldUnless (IsSpent (problem_of O.after O.State.eq O.Reply.eq self.old.path.entries.problem) lifts
            (S.tells stop.new)) told)) }
        ensures stop { S.follows stop.old stop.new }
    {
        let mut at = candidate;
        loop {
            if stop.ask().is_some() {
                return Ok(ControlFlow::Break(Told::Nothing));
            }
            match self.step(at)? {
                ControlFlow::Continue(next) => at = next,
                ControlFlow::Break(Some(frame)) => return Ok(ControlFlow::Continue(frame)),
                ControlFlow::Break(None) => return Ok(ControlFlow::Break(Told::Refuted)),
            }
        }
    }

    // What it has refuted.
    fn into_refuted(self) -> RefutedSet<O>
        ensures { result ≡ self.entry.refuted }
    {
        let FirstSearch { refuted, .. } = self;
        refuted
    }

    // Searches on from the root, which is not complete, with so many lifts at most.
    fn go<S: Stop>(&mut self, lifts: u64, stop: &mut S) -> Result<Told, AllocError>
        requires right { R.are_right self.old.rules self.old.path.entries.problem }
        requires progress { (candidate : Option ℕ)
            → IsLeastMinimal (problem_of O.after O.State.eq O.Reply.eq
            self.old.path.entries.problem) self.old.path.config.lifted 0 candidate
            → IsFirstProgress (problem_of O.after O.State.eq O.Reply.eq
            self.old.path.entries.problem) self.old.refuted self.old.lifts
            self.old.path.entries.lifted (frames_of O.undone self.old.path.frames.items
            self.old.path.config.state) self.old.path.config candidate }
        requires lifted { lifted_set (problem_of O.after O.State.eq O.Reply.eq
            self.old.path.entries.problem) self.old.path.entries.lifted
            ≡ self.old.path.config.lifted }
        ensures refuted { IfOk result (λ told. AreRefuted (problem_of O.after O.State.eq O.Reply.eq
            self.old.path.entries.problem) self.new.refuted) }
        ensures told { IfOk result (IsRightOf (problem_of O.after O.State.eq O.Reply.eq self.old.path.entries.problem)) }
        ensures nothing { IfOk result (IsToldUnless (IsSpent (problem_of O.after O.State.eq O.Reply.eq
            self.old.path.entries.problem) lifts (S.tells stop.new))) }
        ensures stop { S.follows stop.old stop.new }
    {
        let mut candidate = self.path.enter().candidate;
        while self.lifts < lifts {
            let frame = match self.lift_next(candidate, stop)? {
                ControlFlow::Continue(frame) => frame,
                ControlFlow::Break(told) => return Ok(told),
            };
            match self.visit(frame)? {
                ControlFlow::Continue(after) => candidate = after,
                ControlFlow::Break(order) => return Ok(Told::Found(order)),
            }
        }
        match self.lift_next(candidate, stop)? {
            ControlFlow::Continue(_frame) => Ok(Told::Nothing),
            ControlFlow::Break(told) => Ok(told),
        }
    }
}

/// The search from the root by these rules that only asks whether there is a linearization, and for the least one (this
/// project's own). It makes at most so many lifts. What is told is the least linearization, or that there is none. Nothing is told
/// only where as many lifts were made and another was to be made, or where the stop answered. It is asked before each step: where a
/// call is tried, and where the search goes back. What it refutes is put to the configurations that are known to be refuted, so that a
/// later search goes on from there. `AllocError` where memory was refused: these are lost then.
///
/// Conditions: the rules are right for the problem, and the configurations are refuted in it.
pub(crate) fn search_by_rules<O: SeqObject, R: Rules<O>, S: Stop>(
    alloc: Global,
    problem: &Problem<O>,
    rules: R,
    refuted: &mut RefutedSet<O>,
    lifts: u64,
    stop: &mut S,
) -> Result<Told, AllocError>
    requires rules { R.are_right rules problem.now }
    requires refuted { AreRefuted (problem_of O.after O.State.eq O.Reply.eq problem.now) refuted.old }
    ensures refuted { AreRefuted (problem_of O.after O.State.eq O.Reply.eq problem.now) refuted.new }
    ensures told { IfOk result (IsRightOf
        (problem_of O.after O.State.eq O.Reply.eq problem.now)) }
    ensures nothing { IfOk result (IsToldUnless (IsSpent
        (problem_of O.after O.State.eq O.Reply.eq problem.now) lifts (S.tells stop.new))) }
    ensures stop { S.follows stop.old stop.new }
{
    lawful::<O>();
    let root = Config::root(alloc, problem)?;
    if root.is_complete(problem) {
        return Ok(Told::Found(Order::new(Vec::new(alloc))));
    }
    let identical = IdenticalCalls::of(alloc, problem)?;
    let path = Path::new(alloc, problem, root)?;
    let mut search = FirstSearch {
        alloc,
        path,
        refuted: refuted.take(alloc),
        rules,
        identical,
        lifts: 0,
    };
    let told = search.go(lifts, stop)?;
    *refuted = search.into_refuted();
    Ok(told)
}
