//! The path of a search: where it is, the frames behind it, and the entries left.
//!
//! What a search does at each lift is inlined always: `docs/PERFORMANCE.md` shows what that gives.
ghost use Rattle.std.specs.Prelude.{◌≡◌, ℕ, ◌+◌, ◌<◌, ◌≤◌, ◌↔◌, ◌++◌, ◌∷◌, [], true, false, List, Option, Some, None, length, IfOk, IfSome, IfNone, IsTrue};
ghost use Rattle.lin_object.specs.StepBacks.{state_before};
ghost use Rattle.lin_history.specs.Problems.Problem.{problem_of};
ghost use Rattle.lin_history.specs.Problems.Configurations.{IsReachable};
ghost use Rattle.lin_history.specs.Problems.Continuations.{has};
ghost use Rattle.lin_search.specs.CallSet.{with_call, lifted_set};
ghost use Rattle.lin_search.specs.Entries.{IsMinimal, IsLeastMinimal};
ghost use Rattle.lin_search.specs.NextCall.{IsNext, HasEveryCompleted};
ghost use Rattle.lin_search.specs.Path.{kept_calls, frame_of};

use crate::config::Config;
use crate::entries::Entries;
use crate::longest::Longest;
use lin_history::{MAX_CALLS_ON_OBJECT, Order, Problem};
use lin_object::{SeqObject, StepBack};
use std::alloc::{AllocError, Global};
use std::marker::Model;

/// A call on the path of a search, what takes its step back, and what the continuations that begin with a call before
/// that one show. Neither a set of calls nor a state is kept: they are those that the search is at, without the calls since.
#[derive(Drop)]
pub struct Frame<O: SeqObject> {
    back: StepBack<O::State>,
    call: u16,
    longest: Longest,
}

impl<O: SeqObject> Model for Frame<O> {
    ghost use Rattle.lin_search.specs.Path.{KeptFrame};

    ghost Value = { KeptFrame O.State };

    ghost view = { λ f. record { back = f.back; call = f.call; longest = f.longest } };
}

impl<O: SeqObject> Frame<O> {
    /// The call.
    pub fn call(&self) -> usize
        ensures { result ≡ self.now.call }
    {
        self.call as usize
    }

    /// What the calls before it show.
    pub fn longest(&self) -> Longest
        ensures { result ≡ self.now.longest }
    {
        self.longest
    }

    // What the continuations up to the call show, where it led to a configuration that is refuted with this longest.
    fn longest_with(&self, deep: Longest) -> Longest
        requires call { self.now.call < MAX_CALLS_ON_OBJECT }
        requires deep { deep.more < MAX_CALLS_ON_OBJECT }
        ensures longer { self.now.longest.more < deep.more + 1
            → result ≡ record { more = deep.more + 1; first = Some self.now.call } }
        ensures not_longer { deep.more + 1 ≤ self.now.longest.more → result ≡ self.now.longest }
    {
        self.longest.or_after(self.call as usize, deep)
    }
}

// The calls of the frames, in order, and then this one.
fn order_through<O: SeqObject>(
    alloc: Global,
    frames: &[Frame<O>],
    call: usize,
) -> Result<Order, AllocError>
    ensures { IfOk result (λ order. order ≡ kept_calls frames.now ++ call ∷ []) }
{
    let mut calls = Vec::new(alloc);
    for frame in frames {
        calls.push(frame.call as usize)?;
    }
    calls.push(call)?;
    Ok(Order::new(calls))
}

// The entries of the problem, without those of the calls that the configuration has.
fn entries_without<'p, O: SeqObject>(
    alloc: Global,
    problem: &'p Problem<O>,
    config: &Config<O>,
) -> Result<Entries<'p, O>, AllocError>
    requires { length config.now.lifted ≡ length problem.now.calls }
    ensures problem { IfOk result (λ entries. entries.problem ≡ problem.now) }
    ensures lifted { IfOk result (λ entries. lifted_set
        (problem_of O.after O.State.eq O.Reply.eq problem.now) entries.lifted
        ≡ config.now.lifted) }
{
    let mut entries = Entries::new(alloc, problem)?;
    for call in 0..problem.len() {
        if config.has(call) {
            entries.lift(call);
        }
    }
    Ok(entries)
}

/// Which call is tried next, the candidate, and what the calls before it show.
#[derive(Clone, Copy, Drop)]
pub struct Position {
    /// What the calls before the candidate show.
    pub longest: Longest,
    /// The call that is tried next; `None` where each was tried.
    pub candidate: Option<usize>,
}

/// The path of a search from its root: the configuration that it is at, which changes in place, the entries of the
/// problem, without those of the calls lifted, and a frame for each call that the search will come back to.
///
/// A path keeps no promise of its own: each of its calls says what it wants of the parts. Its fields are open so
/// that the contracts of a search in another crate can name them.
#[derive(Drop)]
pub struct Path<'p, O: SeqObject> {
    alloc: Global,
    /// The entries of the problem, without those of the calls lifted.
    pub entries: Entries<'p, O>,
    /// The configuration that the search is at.
    pub config: Config<O>,
    /// A frame for each call that the search will come back to, the latest last.
    pub frames: Vec<Frame<O>>,
}

impl<'p, O: SeqObject> Path<'p, O> {
    /// The path of a search from the configuration: no frame yet. There is room for a frame for each call. `AllocError`
    /// where memory was refused.
    ///
    /// Condition: the configuration is over the problem's calls.
    pub fn new(
        alloc: Global,
        problem: &'p Problem<O>,
        config: Config<O>,
    ) -> Result<Path<'p, O>, AllocError>
        requires { length config.lifted ≡ length problem.now.calls }
        ensures problem { IfOk result (λ path. path.entries.problem ≡ problem.now) }
        ensures lifted { IfOk result (λ path. lifted_set
            (problem_of O.after O.State.eq O.Reply.eq problem.now) path.entries.lifted
            ≡ config.lifted) }
        ensures config { IfOk result (λ path. path.config ≡ config) }
        ensures frames { IfOk result (λ path. path.frames.items ≡ []) }
    {
        let entries = entries_without(alloc, problem, &config)?;
        Ok(Path {
            alloc,
            frames: Vec::with_capacity(alloc, problem.len())?,
            entries,
            config,
        })
    }

    /// The problem.
    pub fn problem(&self) -> &'p Problem<O>
        ensures { result.now ≡ self.now.entries.problem }
    {
        self.entries.problem()
    }

    /// The configuration that the search is at.
    pub fn config(&self) -> &Config<O>
        ensures { result.now ≡ self.now.config }
    {
        &self.config
    }

    /// The entries of the problem that are left.
    pub fn entries(&self) -> &Entries<'p, O>
        ensures { result.now ≡ self.now.entries }
    {
        &self.entries
    }

    // The configuration, when the search is over.
    pub(crate) fn into_config(self) -> Config<O>
        ensures { result ≡ self.entry.config }
    {
        self.config
    }

    /// Whether every completed call is lifted.
    #[inline(always)]
    pub fn is_complete(&self) -> bool
        ensures { IsTrue result ↔ HasEveryCompleted
            (problem_of O.after O.State.eq O.Reply.eq self.now.entries.problem)
            (lifted_set (problem_of O.after O.State.eq O.Reply.eq self.now.entries.problem)
            self.now.entries.lifted) }
    {
        self.entries.is_complete()
    }

    /// The state that the call leads to; `None` exactly where the call can't follow. `AllocError` where memory was
    /// refused.
    ///
    /// Conditions: the configuration is reachable, and the call is minimal in it.
    #[inline(always)]
    pub fn next_state(&self, call: usize) -> Result<Option<O::State>, AllocError>
        requires reachable { IsReachable (problem_of O.after O.State.eq O.Reply.eq
            self.now.entries.problem) self.now.config.lifted self.now.config.state }
        requires minimal { IsMinimal (problem_of O.after O.State.eq O.Reply.eq
            self.now.entries.problem) self.now.config.lifted call }
        ensures next { IfOk result (λ answer. IfSome answer
            (λ t. IsNext (problem_of O.after O.State.eq O.Reply.eq self.now.entries.problem)
            self.now.config.lifted self.now.config.state call t)) }
        ensures reachable { IfOk result (λ answer. IfSome answer
            (λ t. IsReachable (problem_of O.after O.State.eq O.Reply.eq self.now.entries.problem)
            (with_call self.now.config.lifted call) t)) }
        ensures none { IfOk result (λ answer. IfNone answer
            ((t : O.State)
            → IsNext (problem_of O.after O.State.eq O.Reply.eq self.now.entries.problem)
            self.now.config.lifted self.now.config.state call t → ⊥)) }
    {
        self.config.next_state(self.alloc, self.problem(), call)
    }

    /// Whether the call, which is not lifted and of a smaller number than one that is minimal, can follow. `AllocError` where
    /// memory was refused.
    ///
    /// Condition: the configuration is reachable.
    #[inline(always)]
    pub fn can_follow_before(&self, earlier: usize, call: usize) -> Result<bool, AllocError>
        requires reachable { IsReachable (problem_of O.after O.State.eq O.Reply.eq
            self.now.entries.problem) self.now.config.lifted self.now.config.state }
        requires minimal { IsMinimal (problem_of O.after O.State.eq O.Reply.eq
            self.now.entries.problem) self.now.config.lifted call }
        requires earlier { earlier < call }
        requires outside { has self.now.config.lifted earlier ≡ false }
        ensures follows { IfOk result (λ follows. IsTrue follows → (t : O.State)
            × IsNext (problem_of O.after O.State.eq O.Reply.eq self.now.entries.problem)
            self.now.config.lifted self.now.config.state earlier t) }
        ensures none { IfOk result (λ follows. follows ≡ false → (t : O.State)
            → IsNext (problem_of O.after O.State.eq O.Reply.eq self.now.entries.problem)
            self.now.config.lifted self.now.config.state earlier t → ⊥) }
    {
        let _calls = self.problem().calls();
        Ok(self.next_state(earlier)?.is_some())
    }

    /// The position at a configuration of which no call was tried.
    ///
    /// Condition: the calls lifted from the entries are just those of the configuration.
    #[inline(always)]
    pub fn enter(&self) -> Position
        requires { lifted_set (problem_of O.after O.State.eq O.Reply.eq self.now.entries.problem)
            self.now.entries.lifted ≡ self.now.config.lifted }
        ensures longest { result.longest ≡ record { more = 0; first = None } }
        ensures candidate { IsLeastMinimal (problem_of O.after O.State.eq O.Reply.eq
            self.now.entries.problem) self.now.config.lifted 0 result.candidate }
    {
        Position {
            longest: Longest::none(),
            candidate: self.entries.first_minimal(),
        }
    }

    /// The position after the call, with what the calls up to it show.
    ///
    /// Conditions: the calls lifted from the entries are just those of the configuration, and the call is minimal in it.
    #[inline(always)]
    pub fn after(&self, call: usize, longest: Longest) -> Position
        requires lifted { lifted_set (problem_of O.after O.State.eq O.Reply.eq
            self.now.entries.problem) self.now.entries.lifted ≡ self.now.config.lifted }
        requires minimal { IsMinimal (problem_of O.after O.State.eq O.Reply.eq
            self.now.entries.problem) self.now.config.lifted call }
        ensures longest { result.longest ≡ longest }
        ensures candidate { IsLeastMinimal (problem_of O.after O.State.eq O.Reply.eq
            self.now.entries.problem) self.now.config.lifted (call + 1) result.candidate }
    {
        Position {
            longest,
            candidate: self.entries.next_minimal(call),
        }
    }

    /// Lifts the call, which is minimal, where it can follow: the frame of it, with what the calls before it show. `None`
    /// exactly where it can't follow, and then the path stays as it is. `AllocError` where memory was refused; the path is
    /// of no more use then.
    ///
    /// Conditions: the calls lifted from the entries are just those of the configuration, which is reachable, and the call
    /// is minimal in it.
    #[inline(always)]
    pub fn lift(&mut self, call: usize, longest: Longest) -> Result<Option<Frame<O>>, AllocError>
        requires lifted { lifted_set (problem_of O.after O.State.eq O.Reply.eq
            self.old.entries.problem) self.old.entries.lifted ≡ self.old.config.lifted }
        requires reachable { IsReachable (problem_of O.after O.State.eq O.Reply.eq
            self.old.entries.problem) self.old.config.lifted self.old.config.state }
        requires minimal { IsMinimal (problem_of O.after O.State.eq O.Reply.eq
            self.old.entries.problem) self.old.config.lifted call }
        ensures problem { self.new.entries.problem ≡ self.old.entries.problem }
        ensures frames { self.new.frames ≡ self.old.frames }
        ensures last { IfOk result (λ answer. IfSome answer (λ frame. self.new.entries.lifted
            ≡ self.old.entries.lifted ++ call ∷ [])) }
        ensures lifted { IfOk result (λ answer. IfSome answer (λ frame. self.new.config.lifted
            ≡ with_call self.old.config.lifted call)) }
        ensures next { IfOk result (λ answer. IfSome answer (λ frame. IsNext
            (problem_of O.after O.State.eq O.Reply.eq self.old.entries.problem)
            self.old.config.lifted self.old.config.state call self.new.config.state)) }
        ensures reachable { IfOk result (λ answer. IfSome answer (λ frame. IsReachable
            (problem_of O.after O.State.eq O.Reply.eq self.old.entries.problem)
            (with_call self.old.config.lifted call) self.new.config.state)) }
        ensures frame { IfOk result (λ answer. IfSome answer (λ frame. frame_of O.undone frame
            self.new.config.state ≡ record {
              state = self.old.config.state;
              call = call;
              longest = longest;
            })) }
        ensures none { IfOk result (λ answer. IfNone answer
            ((t : O.State) → IsNext (problem_of O.after O.State.eq O.Reply.eq
            self.old.entries.problem) self.old.config.lifted self.old.config.state call t → ⊥)) }
        ensures kept { IfOk result (λ answer. IfNone answer (self.new ≡ self.old)) }
    {
        let problem = self.entries.problem();
        let Some(back) = self.config.lift(self.alloc, problem, call)? else {
            return Ok(None);
        };
        let calls = problem.calls().len();
        prove!(calls <= MAX_CALLS_ON_OBJECT);
        self.entries.lift(call);
        Ok(Some(Frame {
            back,
            call: call as u16,
            longest,
        }))
    }

    /// Takes the frame's call, which was lifted last, and its step back. `AllocError` where memory was refused; the path is
    /// of no more use then.
    ///
    /// Conditions: the calls lifted from the entries are just those of the configuration, and the call was lifted last,
    /// from a configuration where it was minimal.
    #[inline(always)]
    pub fn unlift(&mut self, frame: Frame<O>) -> Result<(), AllocError>
        requires lifted { lifted_set (problem_of O.after O.State.eq O.Reply.eq
            self.old.entries.problem) self.old.entries.lifted ≡ self.old.config.lifted }
        requires last { (before : List ℕ)
            × (self.old.entries.lifted ≡ before ++ frame.call ∷ [])
            × IsMinimal (problem_of O.after O.State.eq O.Reply.eq self.old.entries.problem)
            (lifted_set (problem_of O.after O.State.eq O.Reply.eq self.old.entries.problem) before)
            frame.call }
        ensures problem { self.new.entries.problem ≡ self.old.entries.problem }
        ensures frames { self.new.frames ≡ self.old.frames }
        ensures last { (before : List ℕ)
            → self.old.entries.lifted ≡ before ++ frame.call ∷ []
            → self.new.entries.lifted ≡ before }
        ensures lifted { IfOk result (λ done. lifted_set
            (problem_of O.after O.State.eq O.Reply.eq self.old.entries.problem)
            self.new.entries.lifted ≡ self.new.config.lifted) }
        ensures state { IfOk result (λ done. self.new.config.state
            ≡ state_before O.undone frame.back self.old.config.state) }
    {
        let call = frame.call as usize;
        let object = self.entries.problem().object();
        self.entries.unlift(call);
        let mut back = frame.back;
        self.config.take_back(object, &mut back)?;
        self.config.take_out(call)
    }

    // Goes back before the frame's call, which was lifted last and led to a configuration that is refuted with this
    // longest: to the position after it.
    #[inline(always)]
    pub(crate) fn leave(&mut self, frame: Frame<O>, deep: Longest) -> Result<Position, AllocError>
        requires lifted { lifted_set (problem_of O.after O.State.eq O.Reply.eq
            self.old.entries.problem) self.old.entries.lifted ≡ self.old.config.lifted }
        requires last { (before : List ℕ)
            × (self.old.entries.lifted ≡ before ++ frame.call ∷ [])
            × IsMinimal (problem_of O.after O.State.eq O.Reply.eq self.old.entries.problem)
            (lifted_set (problem_of O.after O.State.eq O.Reply.eq self.old.entries.problem) before)
            frame.call }
        requires room { deep.more < length self.old.entries.problem.calls }
        ensures problem { self.new.entries.problem ≡ self.old.entries.problem }
        ensures frames { self.new.frames ≡ self.old.frames }
        ensures last { (before : List ℕ)
            → self.old.entries.lifted ≡ before ++ frame.call ∷ []
            → self.new.entries.lifted ≡ before }
        ensures lifted { IfOk result (λ position. lifted_set
            (problem_of O.after O.State.eq O.Reply.eq self.old.entries.problem)
            self.new.entries.lifted ≡ self.new.config.lifted) }
        ensures state { IfOk result (λ position. self.new.config.state
            ≡ state_before O.undone frame.back self.old.config.state) }
        ensures longer { IfOk result (λ position. frame.longest.more < deep.more + 1
            → position.longest ≡ record { more = deep.more + 1; first = Some frame.call }) }
        ensures not_longer { IfOk result (λ position. deep.more + 1 ≤ frame.longest.more
            → position.longest ≡ frame.longest) }
        ensures candidate { IfOk result (λ position. IsLeastMinimal
            (problem_of O.after O.State.eq O.Reply.eq self.old.entries.problem)
            self.new.config.lifted (frame.call + 1) position.candidate) }
    {
        let calls = self.entries.problem().calls().len();
        prove!(calls <= MAX_CALLS_ON_OBJECT);
        let call = frame.call as usize;
        let longest = frame.longest_with(deep);
        self.unlift(frame)?;
        Ok(self.after(call, longest))
    }

    // A copy of the configuration that the search is at.
    #[inline(always)]
    pub(crate) fn copy_config(&self) -> Result<Config<O>, AllocError>
        requires { IsReachable (problem_of O.after O.State.eq O.Reply.eq self.now.entries.problem)
            self.now.config.lifted self.now.config.state }
        ensures lifted { IfOk result (λ copy. copy.lifted ≡ self.now.config.lifted) }
        ensures state { IfOk result (λ copy. O.State.eq copy.state self.now.config.state ≡ true) }
        ensures reachable { IfOk result (λ copy. IsReachable
            (problem_of O.after O.State.eq O.Reply.eq self.now.entries.problem) copy.lifted
            copy.state) }
    {
        self.config.copy(self.alloc, self.problem())
    }

    /// The calls on the path, in order, and then this one. `AllocError` where memory was refused.
    pub fn order_through(&self, call: usize) -> Result<Order, AllocError>
        ensures { IfOk result (λ order. order ≡ kept_calls self.now.frames.items ++ call ∷ []) }
    {
        order_through(self.alloc, self.frames.as_slice(), call)
    }

    /// Goes on from the configuration that the frame's call, which was lifted last, led to: to the position there. The
    /// search will come back to the frame. `AllocError` where memory was refused; the frame is gone then.
    ///
    /// Condition: the calls lifted from the entries are just those of the configuration.
    #[inline(always)]
    pub fn descend(&mut self, frame: Frame<O>) -> Result<Position, AllocError>
        requires { lifted_set (problem_of O.after O.State.eq O.Reply.eq self.old.entries.problem)
            self.old.entries.lifted ≡ self.old.config.lifted }
        ensures entries { self.new.entries ≡ self.old.entries }
        ensures config { self.new.config ≡ self.old.config }
        ensures frames { IfOk result (λ position. self.new.frames.items
            ≡ self.old.frames.items ++ frame ∷ []) }
        ensures longest { IfOk result (λ position. position.longest
            ≡ record { more = 0; first = None }) }
        ensures candidate { IfOk result (λ position. IsLeastMinimal
            (problem_of O.after O.State.eq O.Reply.eq self.old.entries.problem)
            self.old.config.lifted 0 position.candidate) }
    {
        self.frames.push(frame)?;
        Ok(self.enter())
    }

    /// The last frame, which is taken off; `None` where there is none.
    #[inline(always)]
    pub fn pop(&mut self) -> Option<Frame<O>>
        ensures entries { self.new.entries ≡ self.old.entries }
        ensures config { self.new.config ≡ self.old.config }
        ensures some { IfSome result (λ frame. self.old.frames.items
            ≡ self.new.frames.items ++ frame ∷ []) }
        ensures none { IfNone result ((self.old.frames.items ≡ [])
            × (self.new.frames.items ≡ [])) }
    {
        self.frames.pop()
    }
}
