//! What workers of a group tell one another. It is a hint: nothing is proved of it, and nothing that is proved depends on it.
ghost use Rattle.std.specs.Prelude.{◌≡◌};
ghost use Rattle.lin_board.specs.Board.{IsSeatOf};
ghost use Rattle.lin_workers.specs.Heard.{HasHeard};

use crate::workers::scouts::Scouting;
use lin_board::{Board, Seat};
use lin_search::Stop;
use std::alloc::{AllocError, Global};
use std::sync::atomic::AtomicU64;
use std::sync::atomic::Ordering::SeqCst;

// Where a worker is that has no task: behind all tasks.
const NOWHERE: u64 = u64::MAX;

// How many lifts a scout makes from one look at where the others are to the next.
const LIFTS_BETWEEN: u32 = 256;

/// For each worker the number of the task that it is at, and the least task whose search did not decide it.
#[derive(Drop)]
pub(crate) struct Signals {
    tasks: Vec<AtomicU64>,
    undecided: AtomicU64,
}

impl Signals {
    // Of so many workers, none of which has a task yet.
    pub(crate) fn new(alloc: Global, workers: usize) -> Result<Signals, AllocError> {
        let mut tasks = Vec::new(alloc);
        for _ in 0..workers {
            tasks.push(AtomicU64::new(NOWHERE))?;
        }
        Ok(Signals {
            tasks,
            undecided: AtomicU64::new(NOWHERE),
        })
    }

    // Whether no worker is at a smaller task than this one.
    fn is_lowest(&self, task: u64) -> bool {
        for at in self.tasks.as_slice() {
            if at.load(SeqCst) < task {
                return false;
            }
        }
        true
    }

    // Whether this task was not decided, or comes after one that was not. Nothing more is to be found there: the tasks are
    // taken in their order, and that one ends the check, or the calling thread goes on from it.
    pub(crate) fn is_left(&self, task: u64) -> bool {
        self.undecided.load(SeqCst) <= task
    }

    // The search of this task did not decide it.
    fn tell_undecided(&self, task: u64) {
        self.undecided.fetch_min(task, SeqCst);
    }

    // The worker of this number is at this task from now on.
    fn tell(&self, worker: usize, task: u64) {
        if worker < self.tasks.len() {
            self.tasks[worker].store(task, SeqCst);
        }
    }
}

/// A worker as a member of a group: its number there, how it scouts, and what the others tell it.
#[derive(Clone, Copy, Drop)]
pub(crate) struct Member<'a> {
    pub(crate) number: usize,
    pub(crate) scouting: Scouting,
    pub(crate) signals: &'a Signals,
}

// Tells the others, where there are some, that the worker is at this task.
pub(crate) fn tell_begun(member: Option<Member<'_>>, task: u64) {
    if let Some(member) = member {
        member.signals.tell(member.number, task);
    }
}

// Tells the others, where there are some, that the worker has no task any more.
pub(crate) fn tell_ended(member: Option<Member<'_>>) {
    tell_begun(member, NOWHERE);
}

// Whether the worker may leave this task: it, or one before it, was not decided.
pub(crate) fn is_left(member: Option<Member<'_>>, task: u64) -> bool {
    match member {
        Some(member) => member.signals.is_left(task),
        None => false,
    }
}

// Tells the others, where there are some, that the search of this task did not decide it.
pub(crate) fn tell_undecided(member: Option<Member<'_>>, task: u64) {
    if let Some(member) = member {
        member.signals.tell_undecided(task);
    }
}

/// The stop of a scout from a task: it answers where the board has told of a smaller task that was found, where no other
/// worker is at a smaller task any more, so that this one leads, and where the task may be left. Contracts see the board, the seat and the task.
#[derive(Drop)]
pub(crate) struct UntilLeading<'a> {
    board: &'a Board,
    seat: &'a mut Seat,
    task: u64,
    signals: &'a Signals,
    lifts: u32,
    ghost came: { IsSeatOf board.now seat.now },
}

impl<'a> UntilLeading<'a> {
    // The stop of a scout from this task, which asks the board by this seat. Condition: the seat came with the board.
    pub(crate) fn new(board: &'a Board, seat: &'a mut Seat, task: u64, signals: &'a Signals) -> Self
        requires { IsSeatOf board.now seat.old }
        ensures board { result.board.now ≡ board.now }
        ensures seat { result.seat.now ≡ seat.old }
        ensures same_reference { result.seat.ghost_name ≡ seat.entry.ghost_name }
    {
        UntilLeading {
            board,
            seat,
            task,
            signals,
            lifts: 0,
        }
    }

    // Whether this worker leads or may leave its task, at the lifts at which it looks where the others are.
    fn is_seen_leading(&mut self) -> bool
        ensures board { self.new.board.now ≡ self.old.board.now }
        ensures seat { self.new.seat.now ≡ self.old.seat.now }
        ensures same_reference { self.new.seat.ghost_name ≡ self.old.seat.ghost_name }
    {
        let looks = self.lifts % LIFTS_BETWEEN == 0;
        self.lifts = self.lifts.wrapping_add(1);
        looks && (self.signals.is_lowest(self.task) || self.signals.is_left(self.task))
    }
}

impl<'a> Stop for UntilLeading<'a> {
    ghost use Rattle.std.specs.Prelude.{refl};
    ghost use Rattle.std.proofs.Common.{◌∙◌};
    ghost use Rattle.lin_workers.specs.Heard.{heard_itself, heard_twice};

    ghost tells = { λ s told. Unit {0} };

    ghost follows = { λ old new. (new.board.now ≡ old.board.now)
        × (new.seat.ghost_name ≡ old.seat.ghost_name) × HasHeard old.seat.now new.seat.now };

    fn ask(&mut self) -> Option<u64> {
        if self.is_seen_leading() {
            return Some(self.task);
        }
        let least = self.board.least(self.seat)?;
        if least < self.task { Some(least) } else { None }
    }

    ghost unchanged = { λ s. (refl, refl, heard_itself s.seat.now) };

    ghost chained = { λ a b c first second. (
      second.0 ∙ first.0,
      second.1 ∙ first.1,
      heard_twice a.seat.now b.seat.now c.seat.now first.2 second.2,
    ) };
}
