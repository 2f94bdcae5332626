//! A scout: a search that only refutes, and tries the calls of each configuration in an order of its own.
ghost use Rattle.std.specs.Prelude.{◌≡◌, ℕ, ◌<◌, ◌≤◌, Some, None, [], IfOk, IfSome, IfNone, IsTrue};
ghost use Rattle.lin_object.specs.StepBacks.{state_before};
ghost use Rattle.lin_history.specs.Problems.Problem.{problem_of};
ghost use Rattle.lin_history.specs.Problems.Configurations.{IsReachable};
ghost use Rattle.lin_search.specs.CallSet.{lifted_set};
ghost use Rattle.lin_search.specs.Entries.{IsMinimal};
ghost use Rattle.lin_search.specs.NextCall.{HasEveryCompleted};
ghost use Rattle.lin_search.specs.Refutation.{IsRefutedWith};
ghost use Rattle.lin_workers.specs.Scouting.{IsNextTurn, IsThrough, IsScouted, IsScoutStep, IsTurnFrom, IsWithTurn, turn_of, turns_of};

use lin_history::{MAX_CALLS_ON_OBJECT, Problem};
use lin_object::{SeqObject, lawful};
use lin_search::{Config, Entries, Frame, Longest, Memo, Path, Stop, look_at, note_at};
use std::alloc::{AllocError, Global};
use std::marker::Model;
use std::ops::ControlFlow;

// What a scout does at a configuration: whether it tries the calls upwards, which one it tries next, the candidate, and
// what those before it show.
#[derive(Clone, Copy, Drop)]
pub(crate) struct Position {
    is_up: bool,
    longest: Longest,
    candidate: Option<usize>,
}

// A frame that a scout will come back to, and whether it tries the calls of its configuration upwards.
#[derive(Drop)]
struct Turn<O: SeqObject> {
    frame: Frame<O>,
    is_up: bool,
}

impl<O: SeqObject> Model for Turn<O> {
    ghost use Rattle.lin_workers.specs.Scouting.{KeptTurn};

    ghost Value = { KeptTurn O.State };

    ghost view = { λ t. record { frame = t.frame; up = t.is_up } };
}

// The way of a scout: the path, without frames of its own, the turns that it will come back to, and in which direction it
// tries the calls of a configuration: by a bit for each of 64 levels, 0 for upwards.
#[derive(Drop)]
struct Walk<'p, O: SeqObject> {
    alloc: Global,
    path: Path<'p, O>,
    turns: Vec<Turn<O>>,
    directions: u64,
    is_for_problem: bool,
}

impl<'p, O: SeqObject> Walk<'p, O> {
    // Whether the calls of the configuration that the scout is at are tried upwards.
    fn is_up_here(&self) -> bool {
        (self.directions >> (self.turns.len() % 64)) & 1 == 0
    }

    // Goes back before the frame's call, which was lifted last and led to a configuration that is refuted with this
    // longest.
    fn leave(&mut self, frame: Frame<O>, is_up: bool, deep: Longest) -> Result<Position, AllocError>
        requires turn { IsTurnFrom
            (problem_of O.after O.State.eq O.Reply.eq self.old.path.entries.problem)
            self.old.path.entries.lifted (turns_of O.undone self.old.turns.items
            (state_before O.undone frame.back self.old.path.config.state)) self.old.path.config
            (turn_of O.undone (record { frame = frame; up = is_up }) self.old.path.config.state) }
        requires refuted { IsRefutedWith
            (problem_of O.after O.State.eq O.Reply.eq self.old.path.entries.problem)
            self.old.path.config.lifted self.old.path.config.state deep }
        ensures problem { self.new.path.entries.problem ≡ self.old.path.entries.problem }
        ensures named { self.new.is_for_problem ≡ self.old.is_for_problem }
        ensures scouted { IfOk result (λ at. IsScouted
            (problem_of O.after O.State.eq O.Reply.eq self.old.path.entries.problem)
            self.new.path.entries.lifted (turns_of O.undone self.new.turns.items
            self.new.path.config.state) self.new.path.config at.is_up at.longest at.candidate) }
    {
        let calls = self.path.problem().calls().len();
        prove!(calls <= MAX_CALLS_ON_OBJECT);
        let call = frame.call();
        let longest = with_turn(&frame, is_up, deep);
        self.path.unlift(frame)?;
        Ok(after(self.path.entries(), is_up, call, longest))
    }

    // Goes on from the configuration that the frame's call, which was lifted last, led to, and will come back to the frame.
    fn descend(&mut self, frame: Frame<O>, is_up: bool) -> Result<Position, AllocError>
        requires turn { IsTurnFrom
            (problem_of O.after O.State.eq O.Reply.eq self.old.path.entries.problem)
            self.old.path.entries.lifted (turns_of O.undone self.old.turns.items
            (state_before O.undone frame.back self.old.path.config.state)) self.old.path.config
            (turn_of O.undone (record { frame = frame; up = is_up }) self.old.path.config.state) }
        requires reachable { IsReachable
            (problem_of O.after O.State.eq O.Reply.eq self.old.path.entries.problem)
            self.old.path.config.lifted self.old.path.config.state }
        requires incomplete { HasEveryCompleted
            (problem_of O.after O.State.eq O.Reply.eq self.old.path.entries.problem)
            self.old.path.config.lifted → ⊥ }
        ensures path { self.new.path ≡ self.old.path }
        ensures named { self.new.is_for_problem ≡ self.old.is_for_problem }
        ensures scouted { IfOk result (λ at. IsScouted
            (problem_of O.after O.State.eq O.Reply.eq self.old.path.entries.problem)
            self.new.path.entries.lifted (turns_of O.undone self.new.turns.items
            self.new.path.config.state) self.new.path.config at.is_up at.longest at.candidate) }
    {
        self.turns.push(Turn { frame, is_up })?;
        Ok(enter(self.path.entries(), self.is_up_here()))
    }

    // Goes on from the configuration that the frame's call, which was lifted last, led to: back where the memo has it, or
    // else from there.
    fn go_on<M: Memo<O>>(
        &mut self,
        frame: Frame<O>,
        is_up: bool,
        memo: &mut M,
    ) -> Result<ControlFlow<(), Position>, AllocError>
        requires of { IsTrue self.old.is_for_problem
            → M.is_of memo.old self.old.path.entries.problem }
        requires turn { IsTurnFrom
            (problem_of O.after O.State.eq O.Reply.eq self.old.path.entries.problem)
            self.old.path.entries.lifted (turns_of O.undone self.old.turns.items
            (state_before O.undone frame.back self.old.path.config.state)) self.old.path.config
            (turn_of O.undone (record { frame = frame; up = is_up }) self.old.path.config.state) }
        requires reachable { IsReachable
            (problem_of O.after O.State.eq O.Reply.eq self.old.path.entries.problem)
            self.old.path.config.lifted self.old.path.config.state }
        requires incomplete { HasEveryCompleted
            (problem_of O.after O.State.eq O.Reply.eq self.old.path.entries.problem)
            self.old.path.config.lifted → ⊥ }
        ensures problem { self.new.path.entries.problem ≡ self.old.path.entries.problem }
        ensures named { self.new.is_for_problem ≡ self.old.is_for_problem }
        ensures step { IfOk result (λ step. IsScoutStep
            (problem_of O.after O.State.eq O.Reply.eq self.old.path.entries.problem)
            self.new.path.entries.lifted (turns_of O.undone self.new.turns.items
            self.new.path.config.state) self.new.path.config step) }
        ensures changes { M.changes memo.old memo.new }
    {
        let known = look_at(
            self.path.problem(),
            self.path.config(),
            memo,
            self.is_for_problem,
        );
        match known {
            Some(deep) => Ok(ControlFlow::Continue(self.leave(frame, is_up, deep)?)),
            None => Ok(ControlFlow::Continue(self.descend(frame, is_up)?)),
        }
    }

    // Goes on where the frame's call was lifted last. The scout ends where the configuration is complete.
    fn visit<M: Memo<O>>(
        &mut self,
        frame: Frame<O>,
        is_up: bool,
        memo: &mut M,
    ) -> Result<ControlFlow<(), Position>, AllocError>
        requires of { IsTrue self.old.is_for_problem
            → M.is_of memo.old self.old.path.entries.problem }
        requires turn { IsTurnFrom
            (problem_of O.after O.State.eq O.Reply.eq self.old.path.entries.problem)
            self.old.path.entries.lifted (turns_of O.undone self.old.turns.items
            (state_before O.undone frame.back self.old.path.config.state)) self.old.path.config
            (turn_of O.undone (record { frame = frame; up = is_up }) self.old.path.config.state) }
        requires reachable { IsReachable
            (problem_of O.after O.State.eq O.Reply.eq self.old.path.entries.problem)
            self.old.path.config.lifted self.old.path.config.state }
        ensures problem { self.new.path.entries.problem ≡ self.old.path.entries.problem }
        ensures named { self.new.is_for_problem ≡ self.old.is_for_problem }
        ensures step { IfOk result (λ step. IsScoutStep
            (problem_of O.after O.State.eq O.Reply.eq self.old.path.entries.problem)
            self.new.path.entries.lifted (turns_of O.undone self.new.turns.items
            self.new.path.config.state) self.new.path.config step) }
        ensures changes { M.changes memo.old memo.new }
    {
        if self.path.is_complete() {
            return Ok(ControlFlow::Break(()));
        }
        self.go_on(frame, is_up, memo)
    }

    // Tries the call, the candidate: passes it over where it can't follow, and else visits what it leads to. The scout ends
    // where the stop answers.
    fn try_turn<M: Memo<O>, S: Stop>(
        &mut self,
        call: usize,
        at: Position,
        memo: &mut M,
        stop: &mut S,
    ) -> Result<ControlFlow<(), Position>, AllocError>
        requires of { IsTrue self.old.is_for_problem
            → M.is_of memo.old self.old.path.entries.problem }
        requires scouted { IsScouted
            (problem_of O.after O.State.eq O.Reply.eq self.old.path.entries.problem)
            self.old.path.entries.lifted (turns_of O.undone self.old.turns.items
            self.old.path.config.state) self.old.path.config at.is_up at.longest (Some call) }
        ensures problem { self.new.path.entries.problem ≡ self.old.path.entries.problem }
        ensures named { self.new.is_for_problem ≡ self.old.is_for_problem }
        ensures step { IfOk result (λ step. IsScoutStep
            (problem_of O.after O.State.eq O.Reply.eq self.old.path.entries.problem)
            self.new.path.entries.lifted (turns_of O.undone self.new.turns.items
            self.new.path.config.state) self.new.path.config step) }
        ensures changes { M.changes memo.old memo.new }
        ensures stop { S.follows stop.old stop.new }
    {
        let Some(frame) = self.path.lift(call, at.longest)? else {
            let next = after(self.path.entries(), at.is_up, call, at.longest);
            return Ok(ControlFlow::Continue(next));
        };
        if stop.ask().is_some() {
            return Ok(ControlFlow::Break(()));
        }
        self.visit(frame, at.is_up, memo)
    }

    // Goes back from a configuration all of whose calls were tried, and which is so refuted with this longest: hands it to
    // the memo, and goes on after the last turn's call. The scout ends where there is none.
    fn go_back<M: Memo<O>>(
        &mut self,
        at: Position,
        memo: &mut M,
    ) -> Result<ControlFlow<(), Position>, AllocError>
        requires of { IsTrue self.old.is_for_problem
            → M.is_of memo.old self.old.path.entries.problem }
        requires scouted { IsScouted
            (problem_of O.after O.State.eq O.Reply.eq self.old.path.entries.problem)
            self.old.path.entries.lifted (turns_of O.undone self.old.turns.items
            self.old.path.config.state) self.old.path.config at.is_up at.longest None }
        ensures problem { self.new.path.entries.problem ≡ self.old.path.entries.problem }
        ensures named { self.new.is_for_problem ≡ self.old.is_for_problem }
        ensures step { IfOk result (λ step. IsScoutStep
            (problem_of O.after O.State.eq O.Reply.eq self.old.path.entries.problem)
            self.new.path.entries.lifted (turns_of O.undone self.new.turns.items
            self.new.path.config.state) self.new.path.config step) }
        ensures changes { M.changes memo.old memo.new }
    {
        lawful::<O>();
        let Some(turn) = self.turns.pop() else {
            return Ok(ControlFlow::Break(()));
        };
        let Turn { frame, is_up } = turn;
        let problem = self.path.problem();
        let refuted = self.path.config().copy(self.alloc, problem)?;
        let next = self.leave(frame, is_up, at.longest)?;
        note_at(problem, refuted, at.longest, memo, self.is_for_problem);
        Ok(ControlFlow::Continue(next))
    }

    // One step of a scout: tries the candidate, or goes back where none is left.
    fn step<M: Memo<O>, S: Stop>(
        &mut self,
        at: Position,
        memo: &mut M,
        stop: &mut S,
    ) -> Result<ControlFlow<(), Position>, AllocError>
        requires of { IsTrue self.old.is_for_problem
            → M.is_of memo.old self.old.path.entries.problem }
        requires scouted { IsScouted
            (problem_of O.after O.State.eq O.Reply.eq self.old.path.entries.problem)
            self.old.path.entries.lifted (turns_of O.undone self.old.turns.items
            self.old.path.config.state) self.old.path.config at.is_up at.longest at.candidate }
        ensures problem { self.new.path.entries.problem ≡ self.old.path.entries.problem }
        ensures named { self.new.is_for_problem ≡ self.old.is_for_problem }
        ensures step { IfOk result (λ step. IsScoutStep
            (problem_of O.after O.State.eq O.Reply.eq self.old.path.entries.problem)
            self.new.path.entries.lifted (turns_of O.undone self.new.turns.items
            self.new.path.config.state) self.new.path.config step) }
        ensures changes { M.changes memo.old memo.new }
        ensures stop { S.follows stop.old stop.new }
    {
        match at.candidate {
            Some(call) => self.try_turn(call, at, memo, stop),
            None => self.go_back(at, memo),
        }
    }

    // Scouts on from a configuration of which nothing is known, for so many steps at most.
    fn go<M: Memo<O>, S: Stop>(
        &mut self,
        steps: u64,
        memo: &mut M,
        stop: &mut S,
    ) -> Result<(), AllocError>
        requires of { IsTrue self.old.is_for_problem
            → M.is_of memo.old self.old.path.entries.problem }
        requires turns { self.old.turns.items ≡ [] }
        requires lifted { lifted_set
            (problem_of O.after O.State.eq O.Reply.eq self.old.path.entries.problem)
            self.old.path.entries.lifted ≡ self.old.path.config.lifted }
        requires reachable { IsReachable
            (problem_of O.after O.State.eq O.Reply.eq self.old.path.entries.problem)
            self.old.path.config.lifted self.old.path.config.state }
        requires incomplete { HasEveryCompleted
            (problem_of O.after O.State.eq O.Reply.eq self.old.path.entries.problem)
            self.old.path.config.lifted → ⊥ }
        ensures memo { M.changes memo.old memo.new }
        ensures stop { S.follows stop.old stop.new }
    {
        let mut at = enter(self.path.entries(), self.is_up_here());
        for _ in 0..steps {
            match self.step(at, memo, stop)? {
                ControlFlow::Continue(next) => at = next,
                ControlFlow::Break(()) => return Ok(()),
            }
        }
        Ok(())
    }
}

/// How a scout goes: in which direction it tries the calls of a configuration, and how far.
#[derive(Clone, Copy, Drop)]
pub struct Scouting {
    /// By a bit for each of 64 levels, and then from the first again: 0 for upwards, from the least call to the greatest.
    pub directions: u64,
    /// How many steps it makes at most. A step tries a call, or goes back.
    pub steps: u64,
}

/// Scouts from a configuration: a search that says nothing itself, and hands each configuration that it refutes to the
/// memo, where others find it. It tries the calls of a configuration upwards or downwards, as the directions say, so that
/// several searches of the same configuration that share a memo do not all go the same way. It ends when all below the
/// configuration is refuted, at a completion, where the stop answers, or after the steps. `AllocError` where memory was
/// refused; what was noted before stays in the memo.
///
/// Condition: the configuration is reachable in the problem.
pub fn scout<O: SeqObject, M: Memo<O>, S: Stop>(
    alloc: Global,
    problem: &Problem<O>,
    config: &Config<O>,
    scouting: Scouting,
    memo: &mut M,
    stop: &mut S,
) -> Result<(), AllocError>
    requires { IsReachable (problem_of O.after O.State.eq O.Reply.eq problem.now) config.now.lifted
        config.now.state }
    ensures memo { M.changes memo.old memo.new }
    ensures stop { S.follows stop.old stop.new }
{
    lawful::<O>();
    let is_for_problem = memo.is_for(problem);
    if config.is_complete(problem) || look_at(problem, config, memo, is_for_problem).is_some() {
        return Ok(());
    }
    let copy = config.copy(alloc, problem)?;
    let mut walk = Walk {
        alloc,
        path: Path::new(alloc, problem, copy)?,
        turns: Vec::new(alloc),
        directions: scouting.directions,
        is_for_problem,
    };
    walk.go(scouting.steps, memo, stop)
}

// The greatest minimal call below the bound.
fn greatest_below<O: SeqObject>(entries: &Entries<'_, O>, bound: usize) -> Option<usize>
    ensures some { IfSome result (λ greatest. IsMinimal
        (problem_of O.after O.State.eq O.Reply.eq entries.now.problem)
        (lifted_set (problem_of O.after O.State.eq O.Reply.eq entries.now.problem)
        entries.now.lifted) greatest × (greatest < bound) × ((d : ℕ) → IsMinimal
        (problem_of O.after O.State.eq O.Reply.eq entries.now.problem)
        (lifted_set (problem_of O.after O.State.eq O.Reply.eq entries.now.problem)
        entries.now.lifted) d → d < bound → d ≤ greatest)) }
    ensures none { IfNone result ((d : ℕ) → IsMinimal
        (problem_of O.after O.State.eq O.Reply.eq entries.now.problem)
        (lifted_set (problem_of O.after O.State.eq O.Reply.eq entries.now.problem)
        entries.now.lifted) d → d < bound → ⊥) }
{
    let mut greatest = None;
    let mut candidate = entries.first_minimal();
    while let Some(call) = candidate {
        if call >= bound {
            return greatest;
        }
        greatest = Some(call);
        candidate = entries.next_minimal(call);
    }
    greatest
}

// The call that is tried first: upwards the least minimal one, downwards the greatest.
fn first_turn<O: SeqObject>(entries: &Entries<'_, O>, is_up: bool) -> Option<usize>
    ensures { IsNextTurn (problem_of O.after O.State.eq O.Reply.eq entries.now.problem)
        (lifted_set (problem_of O.after O.State.eq O.Reply.eq entries.now.problem)
        entries.now.lifted) is_up (λ d. ⊥) result }
{
    if is_up {
        entries.first_minimal()
    } else {
        greatest_below(entries, entries.problem().len())
    }
}

// The call that is tried after this one, which is minimal.
fn turn_after<O: SeqObject>(entries: &Entries<'_, O>, is_up: bool, call: usize) -> Option<usize>
    requires { IsMinimal (problem_of O.after O.State.eq O.Reply.eq entries.now.problem)
        (lifted_set (problem_of O.after O.State.eq O.Reply.eq entries.now.problem)
        entries.now.lifted) call }
    ensures { IsNextTurn (problem_of O.after O.State.eq O.Reply.eq entries.now.problem)
        (lifted_set (problem_of O.after O.State.eq O.Reply.eq entries.now.problem)
        entries.now.lifted) is_up (IsThrough is_up call) result }
{
    if is_up {
        entries.next_minimal(call)
    } else {
        greatest_below(entries, call)
    }
}

// How a scout goes on at a configuration that it has entered.
fn enter<O: SeqObject>(entries: &Entries<'_, O>, is_up: bool) -> Position
    ensures up { result.is_up ≡ is_up }
    ensures longest { result.longest ≡ record { more = 0; first = None } }
    ensures candidate { IsNextTurn (problem_of O.after O.State.eq O.Reply.eq entries.now.problem)
        (lifted_set (problem_of O.after O.State.eq O.Reply.eq entries.now.problem)
        entries.now.lifted) is_up (λ d. ⊥) result.candidate }
{
    Position {
        is_up,
        longest: Longest::none(),
        candidate: first_turn(entries, is_up),
    }
}

// How it goes on after the call, which is minimal, with what the calls through it show.
fn after<O: SeqObject>(
    entries: &Entries<'_, O>,
    is_up: bool,
    call: usize,
    longest: Longest,
) -> Position
    requires { IsMinimal (problem_of O.after O.State.eq O.Reply.eq entries.now.problem)
        (lifted_set (problem_of O.after O.State.eq O.Reply.eq entries.now.problem)
        entries.now.lifted) call }
    ensures up { result.is_up ≡ is_up }
    ensures longest { result.longest ≡ longest }
    ensures candidate { IsNextTurn (problem_of O.after O.State.eq O.Reply.eq entries.now.problem)
        (lifted_set (problem_of O.after O.State.eq O.Reply.eq entries.now.problem)
        entries.now.lifted) is_up (IsThrough is_up call) result.candidate }
{
    Position {
        is_up,
        longest,
        candidate: turn_after(entries, is_up, call),
    }
}

// What the calls through the frame's show, where it led to a configuration that is refuted with this longest.
fn with_turn<O: SeqObject>(frame: &Frame<O>, is_up: bool, deep: Longest) -> Longest
    requires call { frame.now.call < MAX_CALLS_ON_OBJECT }
    requires deep { deep.more < MAX_CALLS_ON_OBJECT }
    ensures { IsWithTurn is_up frame.now.longest frame.now.call deep result }
{
    let longest = frame.longest();
    let more = deep.more + 1;
    if longest.more < more || (!is_up && longest.more == more) {
        Longest {
            more,
            first: Some(frame.call() as u16),
        }
    } else {
        longest
    }
}
