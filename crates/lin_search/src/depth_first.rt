//! The depth-first search over a memo (Wing and Gong 1993; Lowe 2017), step by step.
//!
//! The parts of a step are inlined always, as those of a path are.
ghost use Rattle.std.specs.Prelude.{◌≡◌, ℕ, ◌<◌, ◌++◌, ◌∷◌, ◌⊎◌, Bool, List, Option, Some, None, [], length, true, false, IfOk, IfSome, IfNone, IsTrue};
ghost use Rattle.lin_object.specs.StepBacks.{state_before};
ghost use Rattle.lin_history.specs.Problems.Problem.{problem_of};
ghost use Rattle.lin_history.specs.Problems.Configurations.{IsReachable};
ghost use Rattle.lin_search.specs.Answer.{IsAnswer, IsDecision, IsRefutation};
ghost use Rattle.lin_search.specs.CallSet.{with_call, lifted_set};
ghost use Rattle.lin_search.specs.Memo.{IsClosed, IsKept};
ghost use Rattle.lin_search.specs.Configuration.{Configuration};
ghost use Rattle.lin_search.specs.NeedlessCalls.{AddsNothing, EndsTheList};
ghost use Rattle.lin_search.specs.Entries.{IsMinimal};
ghost use Rattle.lin_search.specs.NextCall.{IsNext, HasEveryCompleted};
ghost use Rattle.lin_search.specs.Refutation.{IsRefutedWith};
ghost use Rattle.lin_search.specs.Path.{Frame as PathFrame, kept_calls, frame_of, frames_of};
ghost use Rattle.lin_search.specs.declared.longest.Longest.{Longest};
ghost use Rattle.lin_search.specs.declared.outcome.Outcome.TheVariants.{Found, Refuted, Undecided};
ghost use Rattle.std.proofs.Common.{Break};
ghost use Rattle.lin_search.specs.Progress.{GoesOn, IsProgress, IsStep, IsLifted, HoldsSearched, HoldsStep, IsTaken, IsRefusal, bound, work};

use crate::config::Config;
use crate::longest::Longest;
use crate::memo::{Memo, Noted};
use crate::needless_calls::{IdenticalCalls, adds_nothing, ends_the_list, repeats};
use crate::outcome::Outcome;
use crate::path::{Frame, Path, Position};
use crate::stop::Stop;
use lin_history::{Order, Problem};
use lin_object::{SeqObject, lawful};
use std::alloc::{AllocError, Global};
use std::ops::ControlFlow;

/// How the search of a configuration ended.
#[derive(Drop)]
pub(crate) struct Ended {
    pub(crate) outcome: Outcome,
    /// Whether the memo kept all that it was handed.
    pub(crate) whole: bool,
}

impl Ended {
    // The same, where this shows whether the memo has one configuration more.
    fn with_note(self, is_kept: bool) -> Ended
        ensures outcome { result.outcome ≡ self.outcome }
        ensures whole { IsTrue result.whole → IsTrue self.whole × IsTrue is_kept }
    {
        Ended {
            outcome: self.outcome,
            whole: self.whole && is_kept,
        }
    }
}

/// What the memo shows of a configuration: its longest where it is refuted. `None` where the memo says nothing: it does
/// not have it, was not free, or names another problem. Where `is_for_problem` holds, no problems are compared.
///
/// Condition: where `is_for_problem` holds, the memo names the problem.
#[inline(always)]
pub fn look_at<O: SeqObject, M: Memo<O>>(
    problem: &Problem<O>,
    config: &Config<O>,
    memo: &mut M,
    is_for_problem: bool,
) -> Option<Longest>
    requires { IsTrue is_for_problem → M.is_of memo.old problem.now }
    ensures refuted { IfSome result (λ longest. IsRefutedWith
        (problem_of O.after O.State.eq O.Reply.eq problem.now) config.now.lifted config.now.state
        longest) }
    ensures held { IfSome result (λ longest. M.holds memo.new config.now.lifted config.now.state) }
    ensures only { (set : List Bool) (s : O.State) → M.holds memo.new set s
        → M.holds memo.old set s }
    ensures changes { M.changes memo.old memo.new }
{
    if is_for_problem {
        memo.look_here(problem, config)
    } else {
        memo.look(problem, config)
    }
}

/// Hands the memo a refuted configuration with its longest, and returns what the memo did with it. Where `is_for_problem`
/// holds, no problems are compared, and `OwnMemo` and a table never answer `Stranger`.
///
/// Conditions: where `is_for_problem` holds, the memo names the problem; the configuration is refuted, and this is its
/// longest.
#[inline(always)]
pub fn note_at<O: SeqObject, M: Memo<O>>(
    problem: &Problem<O>,
    config: Config<O>,
    longest: Longest,
    memo: &mut M,
    is_for_problem: bool,
) -> Noted
    requires of { IsTrue is_for_problem → M.is_of memo.old problem.now }
    requires refuted { IsRefutedWith (problem_of O.after O.State.eq O.Reply.eq problem.now)
        config.lifted config.state longest }
    ensures holds { IsKept result → (root : List Bool) (frames : List (PathFrame O.State))
        → HoldsSearched (problem_of O.after O.State.eq O.Reply.eq problem.now) (M.holds memo.old)
        root frames config None
        → HoldsSearched (problem_of O.after O.State.eq O.Reply.eq problem.now) (M.holds memo.new)
        root frames config None × M.holds memo.new config.lifted config.state }
    ensures kept { IsKept result → M.holds memo.new config.lifted config.state }
    ensures exact { M.answers memo.old problem.now config longest result memo.new }
    ensures changes { M.changes memo.old memo.new }
{
    lawful::<O>();
    let (lifted, state) = config.into_parts();
    if is_for_problem {
        memo.note_here(problem, lifted, state, longest)
    } else {
        memo.note_parts(problem, lifted, state, longest)
    }
}

// Takes one of the lifts that are left. Without a limit nothing is counted.
#[inline(always)]
fn take_lift(left: &mut Option<u64>) -> bool
    ensures taken { IsTrue result → IsTaken left.old left.new }
    ensures none { (IsTrue result → ⊥) → left.old ≡ Some 0 }
{
    match *left {
        None => true,
        Some(0) => false,
        Some(lifts) => {
            *left = Some(lifts - 1);
            true
        }
    }
}

// Why no call may be lifted: no lift is left, and then the stop is not asked; or the stop answers. Else one of the lifts
// left is taken.
#[inline(always)]
fn refusal<S: Stop>(left: &mut Option<u64>, stop: &mut S) -> Option<Outcome>
    ensures refused { IfSome result (IsRefusal left.old (S.tells stop.new)) }
    ensures limit { left.old ≡ Some 0 → (result ≡ Some Undecided) × (stop.new ≡ stop.old) }
    ensures taken { IfNone result (IsTaken left.old left.new) }
    ensures stop { S.follows stop.old stop.new }
{
    if !take_lift(left) {
        return Some(Outcome::Undecided);
    }
    match stop.ask() {
        Some(told) => Some(Outcome::Stopped(told)),
        None => None,
    }
}

// So many steps are made at first with each call tried, also where calls may be passed over: the search of a small object
// notes each configuration that it comes to.
const STEPS_AT_FIRST: u64 = 10_000;

// After how many steps the stop is asked between lifts. Where thousands of calls overlap, a search may go back for seconds and lift
// none. A step takes some microseconds at most, if it is no lift.
const STEPS_BETWEEN: u64 = 4_096;

/// On what terms a search is made.
#[derive(Clone, Copy)]
pub(crate) struct Terms {
    /// Where memory is asked for.
    pub(crate) alloc: Global,
    /// Whether the memo names the problem, so that it compares nothing.
    pub(crate) is_for_problem: bool,
    /// How many lifts may be made, where there is a limit.
    pub(crate) limit: Option<u64>,
    /// Whether the search ends for lack of memory where the memo does not keep what it is handed.
    pub(crate) needs_all: bool,
    /// Whether calls that add nothing may be passed over.
    pub(crate) passes_over: bool,
}

// A call that is tried, and what the calls before it show.
#[derive(Clone, Copy, Drop)]
struct Candidate {
    call: usize,
    longest: Longest,
}

// Whether the call repeats one that is not lifted, as the hint has it.
#[inline(always)]
fn is_repeated<O: SeqObject>(path: &Path<'_, O>, call: usize, identical: &IdenticalCalls) -> bool
    requires { call < length path.now.entries.problem.calls }
    ensures { IsTrue result → AddsNothing
        (problem_of O.after O.State.eq O.Reply.eq path.now.entries.problem) path.now.config.lifted
        path.now.config.state call }
{
    let Some(earlier) = identical.repeated_by(call) else {
        return false;
    };
    if earlier >= call || path.config().has(earlier) {
        return false;
    }
    repeats(path.problem(), earlier, call)
}

// Whether the call, which is pending, adds nothing behind a completed one that is not lifted and can follow, as the hint has it.
#[inline(always)]
fn is_behind_completed<O: SeqObject>(
    path: &Path<'_, O>,
    call: usize,
    identical: &IdenticalCalls,
) -> Result<bool, AllocError>
    requires reachable { IsReachable
        (problem_of O.after O.State.eq O.Reply.eq path.now.entries.problem) path.now.config.lifted
        path.now.config.state }
    requires minimal { IsMinimal (problem_of O.after O.State.eq O.Reply.eq
        path.now.entries.problem) path.now.config.lifted call }
    ensures { IfOk result (λ known. IsTrue known → AddsNothing
        (problem_of O.after O.State.eq O.Reply.eq path.now.entries.problem) path.now.config.lifted
        path.now.config.state call) }
{
    let Some(earlier) = identical.completed_before(call) else {
        return Ok(false);
    };
    if path.config().has(earlier) || earlier >= call {
        return Ok(false);
    }
    if !adds_nothing(path.problem(), earlier, call) {
        return Ok(false);
    }
    path.can_follow_before(earlier, call)
}

// Whether the call adds nothing: it repeats one that is not lifted, or is behind a completed one that can follow.
#[inline(always)]
fn is_needless<O: SeqObject>(
    path: &Path<'_, O>,
    call: usize,
    identical: &IdenticalCalls,
) -> Result<bool, AllocError>
    requires reachable { IsReachable
        (problem_of O.after O.State.eq O.Reply.eq path.now.entries.problem) path.now.config.lifted
        path.now.config.state }
    requires minimal { IsMinimal (problem_of O.after O.State.eq O.Reply.eq
        path.now.entries.problem) path.now.config.lifted call }
    ensures { IfOk result (λ known. IsTrue known → AddsNothing
        (problem_of O.after O.State.eq O.Reply.eq path.now.entries.problem) path.now.config.lifted
        path.now.config.state call) }
{
    if is_repeated(path, call, identical) {
        return Ok(true);
    }
    is_behind_completed(path, call, identical)
}

// The position after the candidate, where calls are passed over and it adds nothing.
#[inline(always)]
fn passed_over<O: SeqObject>(
    path: &Path<'_, O>,
    candidate: Candidate,
    identical: &IdenticalCalls,
    passes_over: bool,
) -> Result<Option<Position>, AllocError>
    requires { (root : Configuration O.State) × (limit left : Option ℕ)
        × IsProgress (problem_of O.after O.State.eq O.Reply.eq path.now.entries.problem) root limit
        path.now.entries.lifted (frames_of O.undone path.now.frames.items path.now.config.state) left path.now.config candidate.longest
        (Some candidate.call) }
    ensures step { IfOk result (λ passed. IfSome passed
        (λ position. (root : Configuration O.State)
        (limit left : Option ℕ)
        → IsProgress (problem_of O.after O.State.eq O.Reply.eq path.now.entries.problem) root limit
        path.now.entries.lifted (frames_of O.undone path.now.frames.items path.now.config.state) left path.now.config candidate.longest
        (Some candidate.call)
        → GoesOn (problem_of O.after O.State.eq O.Reply.eq path.now.entries.problem) root limit
        path.now.entries.lifted (frames_of O.undone path.now.frames.items path.now.config.state) left path.now.config position.longest
        position.candidate (work (length path.now.entries.problem.calls) root.lifted
        (frames_of O.undone path.now.frames.items path.now.config.state) path.now.config.lifted
        candidate.call))) }
    ensures none { IfOk result (λ passed. passes_over ≡ false → passed ≡ None) }
{
    if !passes_over {
        return Ok(None);
    }
    if !is_needless(path, candidate.call, identical)? {
        return Ok(None);
    }
    Ok(Some(path.after(candidate.call, candidate.longest)))
}

// The position after the call, which was tried: where calls are passed over and it changes nothing, no other is tried.
#[inline(always)]
fn unless_ended<O: SeqObject>(
    problem: &Problem<O>,
    call: usize,
    position: Position,
    passes_over: bool,
) -> Position
    requires { call < length problem.now.calls }
    ensures same { passes_over ≡ false → result ≡ position }
    ensures ended { (result ≡ position) ⊎ ((result ≡ record {
      longest = position.longest;
      candidate = None;
    }) × EndsTheList (problem_of O.after O.State.eq O.Reply.eq problem.now) call) }
{
    if !passes_over {
        return position;
    }
    if !ends_the_list(problem, call) {
        return position;
    }
    Position {
        longest: position.longest,
        candidate: None,
    }
}

// Goes on from the configuration that the frame's call, which was lifted last, led to: asks the memo for it, and goes
// on after the call where the memo has it, or else from there.
#[inline(always)]
fn go_on<O: SeqObject, M: Memo<O>>(
    path: &mut Path<'_, O>,
    frame: Frame<O>,
    memo: &mut M,
    terms: Terms,
) -> Result<ControlFlow<Outcome, Position>, AllocError>
    requires of { IsTrue terms.is_for_problem → M.is_of memo.old path.old.entries.problem }
    requires lifted { (root from : Configuration O.State) × (limit left : Option ℕ)
        × IsLifted (problem_of O.after O.State.eq O.Reply.eq path.old.entries.problem) root limit
        path.old.entries.lifted (frames_of O.undone path.old.frames.items
        (state_before O.undone frame.back path.old.config.state)) left from (frame_of O.undone frame path.old.config.state) path.old.config }
    requires incomplete { HasEveryCompleted
        (problem_of O.after O.State.eq O.Reply.eq path.old.entries.problem) path.old.config.lifted
        → ⊥ }
    ensures problem { path.new.entries.problem ≡ path.old.entries.problem }
    ensures step { IfOk result (λ step. (root from : Configuration O.State)
        (limit left after : Option ℕ) → IsTaken left after
        → IsLifted (problem_of O.after O.State.eq O.Reply.eq path.old.entries.problem) root limit
        path.old.entries.lifted (frames_of O.undone path.old.frames.items
        (state_before O.undone frame.back path.old.config.state)) left from (frame_of O.undone frame path.old.config.state) path.old.config
        → IsStep (problem_of O.after O.State.eq O.Reply.eq path.old.entries.problem) root limit
        path.new.entries.lifted (frames_of O.undone path.new.frames.items path.new.config.state) after path.new.config (λ told. ⊥)
        (work (length path.old.entries.problem.calls) root.lifted (frames_of O.undone path.old.frames.items
        (state_before O.undone frame.back path.old.config.state)) from.lifted
        frame.call) step) }
    ensures holds { IfOk result (λ step. terms.passes_over ≡ false
        → (root from : Configuration O.State) (limit left : Option ℕ)
        → IsLifted (problem_of O.after O.State.eq O.Reply.eq path.old.entries.problem) root limit
        path.old.entries.lifted (frames_of O.undone path.old.frames.items
        (state_before O.undone frame.back path.old.config.state)) left from (frame_of O.undone frame path.old.config.state) path.old.config
        → HoldsSearched (problem_of O.after O.State.eq O.Reply.eq path.old.entries.problem)
        (M.holds memo.old) root.lifted (frames_of O.undone path.old.frames.items
        (state_before O.undone frame.back path.old.config.state)) from (Some frame.call)
        → HoldsStep (problem_of O.after O.State.eq O.Reply.eq path.old.entries.problem) root
        (M.holds memo.new) (frames_of O.undone path.new.frames.items path.new.config.state) path.new.config step) }
    ensures changes { M.changes memo.old memo.new }
{
    let problem = path.problem();
    let call = frame.call();
    match look_at(problem, path.config(), memo, terms.is_for_problem) {
        Some(deep) => {
            let position = path.leave(frame, deep)?;
            let on = unless_ended(problem, call, position, terms.passes_over);
            Ok(ControlFlow::Continue(on))
        }
        None => Ok(ControlFlow::Continue(path.descend(frame)?)),
    }
}

// The success of a search that the call ends: the calls on the path, and then that one.
fn success<O: SeqObject>(
    path: &Path<'_, O>,
    call: usize,
) -> Result<ControlFlow<Outcome, Position>, AllocError>
    ensures { IfOk result (λ step. step
        ≡ Break (Found (kept_calls path.now.frames.items ++ call ∷ []))) }
{
    Ok(ControlFlow::Break(Outcome::Found(path.order_through(call)?)))
}

// Goes on where the frame's call was lifted last: that is a success where the configuration is complete then. Else the
// search goes on from there.
#[inline(always)]
fn visit<O: SeqObject, M: Memo<O>>(
    path: &mut Path<'_, O>,
    frame: Frame<O>,
    memo: &mut M,
    terms: Terms,
) -> Result<ControlFlow<Outcome, Position>, AllocError>
    requires of { IsTrue terms.is_for_problem → M.is_of memo.old path.old.entries.problem }
    requires lifted { (root from : Configuration O.State) × (limit left : Option ℕ)
        × IsLifted (problem_of O.after O.State.eq O.Reply.eq path.old.entries.problem) root limit
        path.old.entries.lifted (frames_of O.undone path.old.frames.items
        (state_before O.undone frame.back path.old.config.state)) left from (frame_of O.undone frame path.old.config.state) path.old.config }
    ensures problem { path.new.entries.problem ≡ path.old.entries.problem }
    ensures step { IfOk result (λ step. (root from : Configuration O.State)
        (limit left after : Option ℕ) → IsTaken left after
        → IsLifted (problem_of O.after O.State.eq O.Reply.eq path.old.entries.problem) root limit
        path.old.entries.lifted (frames_of O.undone path.old.frames.items
        (state_before O.undone frame.back path.old.config.state)) left from (frame_of O.undone frame path.old.config.state) path.old.config
        → IsStep (problem_of O.after O.State.eq O.Reply.eq path.old.entries.problem) root limit
        path.new.entries.lifted (frames_of O.undone path.new.frames.items path.new.config.state) after path.new.config (λ told. ⊥)
        (work (length path.old.entries.problem.calls) root.lifted (frames_of O.undone path.old.frames.items
        (state_before O.undone frame.back path.old.config.state)) from.lifted
        frame.call) step) }
    ensures holds { IfOk result (λ step. terms.passes_over ≡ false
        → (root from : Configuration O.State) (limit left : Option ℕ)
        → IsLifted (problem_of O.after O.State.eq O.Reply.eq path.old.entries.problem) root limit
        path.old.entries.lifted (frames_of O.undone path.old.frames.items
        (state_before O.undone frame.back path.old.config.state)) left from (frame_of O.undone frame path.old.config.state) path.old.config
        → HoldsSearched (problem_of O.after O.State.eq O.Reply.eq path.old.entries.problem)
        (M.holds memo.old) root.lifted (frames_of O.undone path.old.frames.items
        (state_before O.undone frame.back path.old.config.state)) from (Some frame.call)
        → HoldsStep (problem_of O.after O.State.eq O.Reply.eq path.old.entries.problem) root
        (M.holds memo.new) (frames_of O.undone path.new.frames.items path.new.config.state) path.new.config step) }
    ensures changes { M.changes memo.old memo.new }
{
    if path.is_complete() {
        return success(path, frame.call());
    }
    go_on(path, frame, memo, terms)
}

// What a search keeps count of.
#[derive(Drop)]
struct Tally {
    // How many lifts are left, where there is a limit.
    left: Option<u64>,
    // Whether the memo kept all that it was handed.
    whole: bool,
    // On what terms the search is made.
    terms: Terms,
}

impl Tally {
    // Counts what became of a refutation that was handed to the memo.
    fn add(&mut self, noted: Noted)
        ensures left { self.new.left ≡ self.old.left }
        ensures whole { IsTrue self.new.whole → IsTrue self.old.whole × IsKept noted }
        ensures terms { self.new.terms ≡ self.old.terms }
    {
        self.whole = self.whole && noted.is_kept();
    }

    // Whether the search is to end, since the memo did not keep all.
    fn wants_memory(&self) -> bool {
        self.terms.needs_all && !self.whole
    }
}

// Tries the call: passes it over where it can't follow, and else visits what it leads to, where another call may be
// lifted.
#[inline(always)]
fn try_call<O: SeqObject, M: Memo<O>, S: Stop>(
    path: &mut Path<'_, O>,
    candidate: Candidate,
    memo: &mut M,
    tally: &mut Tally,
    stop: &mut S,
) -> Result<ControlFlow<Outcome, Position>, AllocError>
    requires of { IsTrue tally.old.terms.is_for_problem
        → M.is_of memo.old path.old.entries.problem }
    requires progress { (root : Configuration O.State) × (limit : Option ℕ)
        × IsProgress (problem_of O.after O.State.eq O.Reply.eq path.old.entries.problem) root limit
        path.old.entries.lifted (frames_of O.undone path.old.frames.items path.old.config.state) tally.old.left path.old.config
        candidate.longest (Some candidate.call) }
    ensures problem { path.new.entries.problem ≡ path.old.entries.problem }
    ensures step { IfOk result (λ step. (root : Configuration O.State) (limit : Option ℕ)
        → IsProgress (problem_of O.after O.State.eq O.Reply.eq path.old.entries.problem) root limit
        path.old.entries.lifted (frames_of O.undone path.old.frames.items path.old.config.state) tally.old.left path.old.config
        candidate.longest (Some candidate.call)
        → IsStep (problem_of O.after O.State.eq O.Reply.eq path.old.entries.problem) root limit
        path.new.entries.lifted (frames_of O.undone path.new.frames.items path.new.config.state) tally.new.left path.new.config
        (S.tells stop.new) (work (length path.old.entries.problem.calls) root.lifted
        (frames_of O.undone path.old.frames.items path.old.config.state) path.old.config.lifted candidate.call) step) }
    ensures holds { IfOk result (λ step. tally.old.terms.passes_over ≡ false
        → (root : Configuration O.State) (limit : Option ℕ)
        → IsProgress (problem_of O.after O.State.eq O.Reply.eq path.old.entries.problem) root limit
        path.old.entries.lifted (frames_of O.undone path.old.frames.items path.old.config.state) tally.old.left path.old.config
        candidate.longest (Some candidate.call)
        → HoldsSearched (problem_of O.after O.State.eq O.Reply.eq path.old.entries.problem)
        (M.holds memo.old) root.lifted (frames_of O.undone path.old.frames.items path.old.config.state) path.old.config (Some candidate.call)
        → HoldsStep (problem_of O.after O.State.eq O.Reply.eq path.old.entries.problem) root
        (M.holds memo.new) (frames_of O.undone path.new.frames.items path.new.config.state) path.new.config step) }
    ensures changes { M.changes memo.old memo.new }
    ensures stop { S.follows stop.old stop.new }
    ensures whole { tally.new.whole ≡ tally.old.whole }
    ensures terms { tally.new.terms ≡ tally.old.terms }
{
    let Candidate { call, longest } = candidate;
    let Some(frame) = path.lift(call, longest)? else {
        return Ok(ControlFlow::Continue(path.after(call, longest)));
    };
    if let Some(outcome) = refusal(&mut tally.left, stop) {
        return Ok(ControlFlow::Break(outcome));
    }
    visit(path, frame, memo, tally.terms)
}

// Goes back from a configuration all of whose calls were tried, and which is so refuted with this longest: hands it to
// the memo, and goes on after the last frame's call. Where there is no frame, the root is refuted. `AllocError` also where
// the memo did not keep it and the search needs all.
#[inline(always)]
fn go_back<O: SeqObject, M: Memo<O>>(
    path: &mut Path<'_, O>,
    longest: Longest,
    memo: &mut M,
    tally: &mut Tally,
) -> Result<ControlFlow<Outcome, Position>, AllocError>
    requires of { IsTrue tally.old.terms.is_for_problem
        → M.is_of memo.old path.old.entries.problem }
    requires progress { (root : Configuration O.State) × (limit : Option ℕ)
        × IsProgress (problem_of O.after O.State.eq O.Reply.eq path.old.entries.problem) root limit
        path.old.entries.lifted (frames_of O.undone path.old.frames.items path.old.config.state) tally.old.left path.old.config longest None }
    ensures problem { path.new.entries.problem ≡ path.old.entries.problem }
    ensures left { tally.new.left ≡ tally.old.left }
    ensures terms { tally.new.terms ≡ tally.old.terms }
    ensures step { IfOk result (λ step. (root : Configuration O.State) (limit : Option ℕ)
        → IsProgress (problem_of O.after O.State.eq O.Reply.eq path.old.entries.problem) root limit
        path.old.entries.lifted (frames_of O.undone path.old.frames.items path.old.config.state) tally.old.left path.old.config longest None
        → IsStep (problem_of O.after O.State.eq O.Reply.eq path.old.entries.problem) root limit
        path.new.entries.lifted (frames_of O.undone path.new.frames.items path.new.config.state) tally.old.left path.new.config (λ told. ⊥)
        (work (length path.old.entries.problem.calls) root.lifted (frames_of O.undone path.old.frames.items path.old.config.state)
        path.old.config.lifted (length path.old.entries.problem.calls)) step) }
    ensures whole { IsTrue tally.new.whole → IsTrue tally.old.whole }
    ensures holds { IfOk result (λ step. IsTrue tally.new.whole
        → tally.old.terms.passes_over ≡ false
        → (root : Configuration O.State) (limit : Option ℕ)
        → IsProgress (problem_of O.after O.State.eq O.Reply.eq path.old.entries.problem) root limit
        path.old.entries.lifted (frames_of O.undone path.old.frames.items path.old.config.state) tally.old.left path.old.config longest None
        → HoldsSearched (problem_of O.after O.State.eq O.Reply.eq path.old.entries.problem)
        (M.holds memo.old) root.lifted (frames_of O.undone path.old.frames.items path.old.config.state) path.old.config None
        → HoldsStep (problem_of O.after O.State.eq O.Reply.eq path.old.entries.problem) root
        (M.holds memo.new) (frames_of O.undone path.new.frames.items path.new.config.state) path.new.config step) }
    ensures changes { M.changes memo.old memo.new }
{
    lawful::<O>();
    let Some(frame) = path.pop() else {
        return Ok(ControlFlow::Break(Outcome::Refuted(longest)));
    };
    let call = frame.call();
    let refuted = path.copy_config()?;
    let position = path.leave(frame, longest)?;
    let problem = path.problem();
    let on = unless_ended(problem, call, position, tally.terms.passes_over);
    let noted = note_at(problem, refuted, longest, memo, tally.terms.is_for_problem);
    tally.add(noted);
    if tally.wants_memory() {
        return Err(AllocError);
    }
    Ok(ControlFlow::Continue(on))
}

// One step of a search: passes the candidate over where it adds nothing, or tries it, or goes back where none is left.
#[inline(always)]
fn step<O: SeqObject, M: Memo<O>, S: Stop>(
    path: &mut Path<'_, O>,
    position: Position,
    memo: &mut M,
    tally: &mut Tally,
    identical: &IdenticalCalls,
    stop: &mut S,
) -> Result<ControlFlow<Outcome, Position>, AllocError>
    requires of { IsTrue tally.old.terms.is_for_problem
        → M.is_of memo.old path.old.entries.problem }
    requires progress { (root : Configuration O.State) × (limit : Option ℕ)
        × IsProgress (problem_of O.after O.State.eq O.Reply.eq path.old.entries.problem) root limit
        path.old.entries.lifted (frames_of O.undone path.old.frames.items path.old.config.state) tally.old.left path.old.config
        position.longest position.candidate }
    ensures problem { path.new.entries.problem ≡ path.old.entries.problem }
    ensures terms { tally.new.terms ≡ tally.old.terms }
    ensures step { IfOk result (λ step. (root : Configuration O.State) (limit : Option ℕ)
        → IsProgress (problem_of O.after O.State.eq O.Reply.eq path.old.entries.problem) root limit
        path.old.entries.lifted (frames_of O.undone path.old.frames.items path.old.config.state) tally.old.left path.old.config
        position.longest position.candidate
        → IsStep (problem_of O.after O.State.eq O.Reply.eq path.old.entries.problem) root limit
        path.new.entries.lifted (frames_of O.undone path.new.frames.items path.new.config.state) tally.new.left path.new.config
        (S.tells stop.new) (work (length path.old.entries.problem.calls) root.lifted
        (frames_of O.undone path.old.frames.items path.old.config.state) path.old.config.lifted
        (bound (problem_of O.after O.State.eq O.Reply.eq path.old.entries.problem)
        position.candidate)) step) }
    ensures whole { IsTrue tally.new.whole → IsTrue tally.old.whole }
    ensures holds { IfOk result (λ step. IsTrue tally.new.whole
        → tally.old.terms.passes_over ≡ false
        → (root : Configuration O.State) (limit : Option ℕ)
        → IsProgress (problem_of O.after O.State.eq O.Reply.eq path.old.entries.problem) root limit
        path.old.entries.lifted (frames_of O.undone path.old.frames.items path.old.config.state) tally.old.left path.old.config
        position.longest position.candidate
        → HoldsSearched (problem_of O.after O.State.eq O.Reply.eq path.old.entries.problem)
        (M.holds memo.old) root.lifted (frames_of O.undone path.old.frames.items path.old.config.state) path.old.config position.candidate
        → HoldsStep (problem_of O.after O.State.eq O.Reply.eq path.old.entries.problem) root
        (M.holds memo.new) (frames_of O.undone path.new.frames.items path.new.config.state) path.new.config step) }
    ensures changes { M.changes memo.old memo.new }
    ensures stop { S.follows stop.old stop.new }
{
    let longest = position.longest;
    match position.candidate {
        Some(call) => {
            let candidate = Candidate { call, longest };
            match passed_over(path, candidate, identical, tally.terms.passes_over)? {
                Some(next) => Ok(ControlFlow::Continue(next)),
                None => try_call(path, candidate, memo, tally, stop),
            }
        }
        None => go_back(path, longest, memo, tally),
    }
}

// Whether calls may be passed over after so many steps.
fn passes_over_after(terms: Terms, steps: u64) -> bool
    ensures { terms.passes_over ≡ false → result ≡ false }
{
    terms.passes_over && steps >= STEPS_AT_FIRST
}

// What the stop answers between lifts, where it is asked after so many steps.
fn told_between<S: Stop>(steps: u64, stop: &mut S) -> Option<u64>
    ensures told { IfSome result (S.tells stop.new) }
    ensures follows { S.follows stop.old stop.new }
{
    if steps % STEPS_BETWEEN == 0 {
        stop.ask_between()
    } else {
        None
    }
}

// Searches on from a path without a frame until the search ends. Where the configuration there is refuted, the search
// is back at it; it is not handed to the memo.
fn search_on<O: SeqObject, M: Memo<O>, S: Stop>(
    path: &mut Path<'_, O>,
    memo: &mut M,
    terms: Terms,
    identical: &IdenticalCalls,
    stop: &mut S,
) -> Result<Ended, AllocError>
    requires of { IsTrue terms.is_for_problem → M.is_of memo.old path.old.entries.problem }
    requires frames { path.old.frames.items ≡ [] }
    requires reachable { IsReachable
        (problem_of O.after O.State.eq O.Reply.eq path.old.entries.problem) path.old.config.lifted
        path.old.config.state }
    requires lifted { lifted_set (problem_of O.after O.State.eq O.Reply.eq path.old.entries.problem)
        path.old.entries.lifted ≡ path.old.config.lifted }
    requires incomplete { HasEveryCompleted
        (problem_of O.after O.State.eq O.Reply.eq path.old.entries.problem) path.old.config.lifted
        → ⊥ }
    ensures problem { path.new.entries.problem ≡ path.old.entries.problem }
    ensures answer { IfOk result (λ ended. IsAnswer
        (problem_of O.after O.State.eq O.Reply.eq path.old.entries.problem) path.old.config.lifted
        path.old.config.state terms.limit (S.tells stop.new) ended.outcome) }
    ensures back { IfOk result (λ ended. IsRefutation ended.outcome
        → path.new.config ≡ path.old.config) }
    ensures holds { IfOk result (λ ended. IsTrue ended.whole → terms.passes_over ≡ false
        → IsRefutation ended.outcome
        → IsClosed (problem_of O.after O.State.eq O.Reply.eq path.old.entries.problem)
        (M.holds memo.old)
        → HoldsSearched (problem_of O.after O.State.eq O.Reply.eq path.old.entries.problem)
        (M.holds memo.new) path.old.config.lifted [] path.old.config None) }
    ensures memo { M.changes memo.old memo.new }
    ensures stop { S.follows stop.old stop.new }
{
    let mut position = path.enter();
    let mut tally = Tally {
        left: terms.limit,
        whole: true,
        terms,
    };
    let mut steps: u64 = 0;
    loop {
        tally.terms.passes_over = passes_over_after(terms, steps);
        steps = steps.saturating_add(1);
        if let Some(told) = told_between(steps, stop) {
            return Ok(Ended {
                outcome: Outcome::Stopped(told),
                whole: tally.whole,
            });
        }
        match step(path, position, memo, &mut tally, identical, stop)? {
            ControlFlow::Continue(next) => position = next,
            ControlFlow::Break(outcome) => {
                return Ok(Ended {
                    outcome,
                    whole: tally.whole,
                });
            }
        }
    }
}

// What is known of a configuration before a call is tried: it is complete, or the memo has it.
fn known_of<O: SeqObject, M: Memo<O>>(
    alloc: Global,
    problem: &Problem<O>,
    config: &Config<O>,
    memo: &mut M,
    is_for_problem: bool,
) -> Option<Outcome>
    requires of { IsTrue is_for_problem → M.is_of memo.old problem.now }
    requires reachable { IsReachable (problem_of O.after O.State.eq O.Reply.eq problem.now)
        config.now.lifted config.now.state }
    ensures answer { IfSome result (λ outcome. IsDecision
        (problem_of O.after O.State.eq O.Reply.eq problem.now) config.now.lifted config.now.state
        outcome) }
    ensures held { IfSome result (λ outcome. IsRefutation outcome
        → M.holds memo.new config.now.lifted config.now.state) }
    ensures incomplete { IfNone result (HasEveryCompleted
        (problem_of O.after O.State.eq O.Reply.eq problem.now) config.now.lifted → ⊥) }
    ensures only { (set : List Bool) (s : O.State) → M.holds memo.new set s
        → M.holds memo.old set s }
    ensures changes { M.changes memo.old memo.new }
{
    if config.is_complete(problem) {
        return Some(Outcome::Found(Order::new(Vec::new(alloc))));
    }
    match look_at(problem, config, memo, is_for_problem) {
        Some(longest) => Some(Outcome::Refuted(longest)),
        None => None,
    }
}

// Hands the memo the configuration that the search began at, where the outcome is that it is refuted, and returns whether
// the memo has it then.
fn note_root<O: SeqObject, M: Memo<O>>(
    problem: &Problem<O>,
    config: Config<O>,
    outcome: &Outcome,
    memo: &mut M,
    is_for_problem: bool,
) -> bool
    requires of { IsTrue is_for_problem → M.is_of memo.old problem.now }
    requires refuted { (longest : Longest) → outcome.now ≡ Refuted longest → IsRefutedWith
        (problem_of O.after O.State.eq O.Reply.eq problem.now) config.lifted config.state longest }
    ensures closed { IsTrue result → IsRefutation outcome.now
        → HoldsSearched (problem_of O.after O.State.eq O.Reply.eq problem.now) (M.holds memo.old)
        config.lifted [] config None
        → IsClosed (problem_of O.after O.State.eq O.Reply.eq problem.now) (M.holds memo.new)
        × M.holds memo.new config.lifted config.state }
    ensures changes { M.changes memo.old memo.new }
{
    let Outcome::Refuted(longest) = outcome else {
        return true;
    };
    note_at(problem, config, *longest, memo, is_for_problem).is_kept()
}

// Searches a configuration of which nothing is known, and what it leads to.
fn search_unknown<O: SeqObject, M: Memo<O>, S: Stop>(
    problem: &Problem<O>,
    config: Config<O>,
    memo: &mut M,
    terms: Terms,
    identical: &IdenticalCalls,
    stop: &mut S,
) -> Result<Ended, AllocError>
    requires reachable { IsReachable (problem_of O.after O.State.eq O.Reply.eq problem.now)
        config.lifted config.state }
    requires of { IsTrue terms.is_for_problem → M.is_of memo.old problem.now }
    requires incomplete { HasEveryCompleted (problem_of O.after O.State.eq O.Reply.eq problem.now)
        config.lifted → ⊥ }
    ensures answer { IfOk result (λ ended. IsAnswer
        (problem_of O.after O.State.eq O.Reply.eq problem.now) config.lifted config.state
        terms.limit (S.tells stop.new) ended.outcome) }
    ensures closed { IfOk result (λ ended. IsTrue ended.whole → terms.passes_over ≡ false
        → IsRefutation ended.outcome
        → IsClosed (problem_of O.after O.State.eq O.Reply.eq problem.now) (M.holds memo.old)
        → IsClosed (problem_of O.after O.State.eq O.Reply.eq problem.now) (M.holds memo.new)
        × M.holds memo.new config.lifted config.state) }
    ensures memo { M.changes memo.old memo.new }
    ensures stop { S.follows stop.old stop.new }
{
    let mut path = Path::new(terms.alloc, problem, config)?;
    let searched = search_on(&mut path, memo, terms, identical, stop);
    let config = path.into_config();
    let ended = searched?;
    let is_kept = note_root(problem, config, &ended.outcome, memo, terms.is_for_problem);
    Ok(ended.with_note(is_kept))
}

// Searches a configuration and what it leads to, on these terms. The numbers show for each call one that it may repeat: a hint,
// asked only where calls are passed over.
pub(crate) fn search_from<O: SeqObject, M: Memo<O>, S: Stop>(
    problem: &Problem<O>,
    config: Config<O>,
    memo: &mut M,
    terms: Terms,
    identical: &IdenticalCalls,
    stop: &mut S,
) -> Result<Ended, AllocError>
    requires reachable { IsReachable (problem_of O.after O.State.eq O.Reply.eq problem.now)
        config.lifted config.state }
    requires of { IsTrue terms.is_for_problem → M.is_of memo.old problem.now }
    ensures answer { IfOk result (λ ended. IsAnswer
        (problem_of O.after O.State.eq O.Reply.eq problem.now) config.lifted config.state
        terms.limit (S.tells stop.new) ended.outcome) }
    ensures closed { IfOk result (λ ended. IsTrue ended.whole → terms.passes_over ≡ false
        → IsRefutation ended.outcome
        → IsClosed (problem_of O.after O.State.eq O.Reply.eq problem.now) (M.holds memo.old)
        → IsClosed (problem_of O.after O.State.eq O.Reply.eq problem.now) (M.holds memo.new)
        × M.holds memo.new config.lifted config.state) }
    ensures memo { M.changes memo.old memo.new }
    ensures stop { S.follows stop.old stop.new }
{
    if let Some(outcome) = known_of(terms.alloc, problem, &config, memo, terms.is_for_problem) {
        return Ok(Ended {
            outcome,
            whole: true,
        });
    }
    search_unknown(problem, config, memo, terms, identical, stop)
}

/// The depth-first search from a configuration over a memo (Wing and Gong 1993; Lowe 2017): a complete
/// configuration is a success; else the memo is asked, and what it has is taken; else the calls are tried
/// in order of their numbers, and a configuration all of whose children are refuted is noted.
///
/// A *lift* is one child that was made, whether or not the memo has it. `Undecided` where a limit is given
/// and as many lifts were made and another was to be made. Before each lift that the limit allows, the stop
/// is asked, and between lifts after each 4,096 steps: `Stopped` with its number where it answers one. `Found` is the least completion, and `Refuted`
/// is returned only where there is none, whatever the memo forgets or who else writes to it. No answer of the
/// memo ends a search. `AllocError` where memory was refused; what was noted before stays in the memo.
///
/// Condition: the configuration is reachable in the problem.
pub fn search<O: SeqObject, M: Memo<O>, S: Stop>(
    alloc: Global,
    problem: &Problem<O>,
    config: &Config<O>,
    memo: &mut M,
    limit: Option<u64>,
    stop: &mut S,
) -> Result<Outcome, AllocError>
    requires { IsReachable (problem_of O.after O.State.eq O.Reply.eq problem.now) config.now.lifted
        config.now.state }
    ensures answer { IfOk result (IsAnswer (problem_of O.after O.State.eq O.Reply.eq problem.now)
        config.now.lifted config.now.state limit (S.tells stop.new)) }
    ensures memo { M.changes memo.old memo.new }
    ensures stop { S.follows stop.old stop.new }
{
    lawful::<O>();
    let terms = Terms {
        alloc,
        is_for_problem: memo.is_for(problem),
        limit,
        needs_all: false,
        passes_over: false,
    };
    let copy = config.copy(alloc, problem)?;
    let none = IdenticalCalls::none(alloc);
    let ended = search_from(problem, copy, memo, terms, &none, stop)?;
    Ok(ended.outcome)
}

/// `search`, but after its first 10,000 steps (a step tries a call, or goes back) calls that add nothing are passed over: one
/// that repeats a call which is not lifted (`repeats`), a pending one behind a completed one of its operation that can follow
/// (`adds_nothing`), and all that come after one that changes nothing (`ends_the_list`).
/// Its answers are those of `search`. It makes no more lifts, often far fewer, and so it notes fewer configurations: not each
/// that one call leads to from a configuration that is noted. `AllocError` also where memory for two numbers for each call was
/// refused.
///
/// Condition: the configuration is reachable in the problem.
pub fn search_passing_over<O: SeqObject, M: Memo<O>, S: Stop>(
    alloc: Global,
    problem: &Problem<O>,
    config: &Config<O>,
    memo: &mut M,
    limit: Option<u64>,
    stop: &mut S,
) -> Result<Outcome, AllocError>
    requires { IsReachable (problem_of O.after O.State.eq O.Reply.eq problem.now) config.now.lifted
        config.now.state }
    ensures answer { IfOk result (IsAnswer (problem_of O.after O.State.eq O.Reply.eq problem.now)
        config.now.lifted config.now.state limit (S.tells stop.new)) }
    ensures memo { M.changes memo.old memo.new }
    ensures stop { S.follows stop.old stop.new }
{
    lawful::<O>();
    let identical = IdenticalCalls::of(alloc, problem)?;
    let terms = Terms {
        alloc,
        is_for_problem: memo.is_for(problem),
        limit,
        needs_all: false,
        passes_over: true,
    };
    let copy = config.copy(alloc, problem)?;
    let ended = search_from(problem, copy, memo, terms, &identical, stop)?;
    Ok(ended.outcome)
}
