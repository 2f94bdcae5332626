//! A search is cut into tasks.
ghost use Rattle.std.specs.Prelude.{◌≡◌, ℕ, ◌+◌, ◌<◌, ◌≤◌, length, IfOk, IsTrue, IsFalse};
ghost use Rattle.lin_history.specs.Problems.Problem.{problem_of};
ghost use Rattle.lin_workers.specs.Cut.{IsCut, IsLastLevel, IsWidestMade, DecideBy};
ghost use Rattle.lin_workers.specs.Levels.{AreLevels};

use crate::bounds::{Unfinished, Unwatched, Watcher};
use crate::tasks::level::{first_level, has_complete, next_level};
use crate::tasks::task::Task;
use lin_history::Problem;
use lin_object::{SeqObject, lawful};
use std::alloc::{AllocError, Global};
use std::mem;

/// The last level that a cut may be at.
pub const LAST_LEVEL: usize = 8;

// The levels that were made: the last of them, and the widest of those below it.
#[derive(Drop)]
struct Levels<O: SeqObject> {
    widest: Vec<Task<O>>,
    last: Vec<Task<O>>,
}

impl<O: SeqObject> Levels<O> {
    // Makes the next level, where the last has fewer configurations than are wanted and none that is complete, and the next
    // has some. Answers whether it did.
    fn make_next<W: Watcher>(
        &mut self,
        alloc: Global,
        problem: &Problem<O>,
        want: usize,
        watcher: &W,
    ) -> Result<bool, Unfinished>
        requires { (n : ℕ) × (n < LAST_LEVEL)
            × AreLevels (problem_of O.after O.State.eq O.Reply.eq problem.now) want n
            self.old.widest.items self.old.last.items }
        ensures made { IfOk result (λ is_made. IsTrue is_made → (n : ℕ) → n < LAST_LEVEL
            → AreLevels (problem_of O.after O.State.eq O.Reply.eq problem.now) want n
            self.old.widest.items self.old.last.items
            → AreLevels (problem_of O.after O.State.eq O.Reply.eq problem.now) want (n + 1)
            self.new.widest.items self.new.last.items) }
        ensures ended { IfOk result (λ is_made. IsFalse is_made → (n : ℕ)
            → AreLevels (problem_of O.after O.State.eq O.Reply.eq problem.now) want n
            self.old.widest.items self.old.last.items
            → AreLevels (problem_of O.after O.State.eq O.Reply.eq problem.now) want n
            self.new.widest.items self.new.last.items
            × IsLastLevel (problem_of O.after O.State.eq O.Reply.eq problem.now) LAST_LEVEL want n) }
    {
        lawful::<O>();
        if self.last.len() >= want || has_complete(problem, self.last.as_slice()) {
            return Ok(false);
        }
        let next = next_level(alloc, problem, self.last.as_slice(), watcher)?;
        if next.is_empty() {
            return Ok(false);
        }
        self.take(next);
        Ok(true)
    }

    // The level is the last now; the last before it stays where it is wider than the widest below it.
    fn take(&mut self, next: Vec<Task<O>>)
        ensures last { self.new.last.items ≡ next.items }
        ensures wider { length self.old.widest.items < length self.old.last.items
            → self.new.widest.items ≡ self.old.last.items }
        ensures as_wide { length self.old.last.items ≤ length self.old.widest.items
            → self.new.widest.items ≡ self.old.widest.items }
    {
        let last = mem::replace(&mut self.last, next);
        if self.widest.len() < last.len() {
            self.widest = last;
        }
    }

    // The widest of all levels, the lowest of these.
    fn into_widest(self) -> Vec<Task<O>>
        ensures wider { length self.widest.items < length self.last.items
            → result.items ≡ self.last.items }
        ensures as_wide { length self.last.items ≤ length self.widest.items
            → result.items ≡ self.widest.items }
    {
        let Levels { widest, last } = self;
        if widest.len() < last.len() {
            last
        } else {
            widest
        }
    }
}

/// Cuts the search of a problem into tasks: all configurations that runs of some number of calls lead to, the *level*, each
/// once, with the least run that leads there, in lexicographic order of these runs. No level below has a configuration with
/// every completed call. So the problem has no linearization where no task has a completion, and else the least linearization
/// is the path of the first task that has one, and then its least completion.
///
/// Levels 0 to `LAST_LEVEL` are made one after another, ending earlier at the first that has at least `want` configurations,
/// or a complete one, or after which no call can follow. The cut is at the widest of these, the lowest where several are as
/// wide. `AllocError` where memory was refused.
pub fn cut<O: SeqObject>(
    alloc: Global,
    problem: &Problem<O>,
    want: usize,
) -> Result<Vec<Task<O>>, AllocError>
    ensures cut { IfOk result (λ tasks. (k : ℕ)
        × IsCut (problem_of O.after O.State.eq O.Reply.eq problem.now) k tasks.items
        × IsWidestMade (problem_of O.after O.State.eq O.Reply.eq problem.now) LAST_LEVEL want k) }
    ensures decides { IfOk result (λ tasks. DecideBy
        (problem_of O.after O.State.eq O.Reply.eq problem.now) tasks.items) }
{
    match cut_in_time(alloc, problem, want, &Unwatched) {
        Ok(tasks) => Ok(tasks),
        Err(_) => Err(AllocError),
    }
}

/// The same within a time. `Unfinished` where memory was refused or the time was up.
pub(crate) fn cut_in_time<O: SeqObject, W: Watcher>(
    alloc: Global,
    problem: &Problem<O>,
    want: usize,
    watcher: &W,
) -> Result<Vec<Task<O>>, Unfinished>
    ensures cut { IfOk result (λ tasks. (k : ℕ)
        × IsCut (problem_of O.after O.State.eq O.Reply.eq problem.now) k tasks.items
        × IsWidestMade (problem_of O.after O.State.eq O.Reply.eq problem.now) LAST_LEVEL want k) }
    ensures decides { IfOk result (λ tasks. DecideBy
        (problem_of O.after O.State.eq O.Reply.eq problem.now) tasks.items) }
{
    lawful::<O>();
    let levels = all_levels(alloc, problem, want, watcher)?;
    Ok(levels.into_widest())
}

// The levels that a cut is chosen of: one after another, up to the last that is made.
fn all_levels<O: SeqObject, W: Watcher>(
    alloc: Global,
    problem: &Problem<O>,
    want: usize,
    watcher: &W,
) -> Result<Levels<O>, Unfinished>
    ensures { IfOk result (λ levels. (n : ℕ)
        × AreLevels (problem_of O.after O.State.eq O.Reply.eq problem.now) want n
        levels.widest.items levels.last.items
        × IsLastLevel (problem_of O.after O.State.eq O.Reply.eq problem.now) LAST_LEVEL want n) }
{
    lawful::<O>();
    let mut levels = Levels {
        widest: Vec::new(alloc),
        last: first_level(alloc, problem)?,
    };
    for _ in 0..LAST_LEVEL {
        if !levels.make_next(alloc, problem, want, watcher)? {
            return Ok(levels);
        }
    }
    Ok(levels)
}
