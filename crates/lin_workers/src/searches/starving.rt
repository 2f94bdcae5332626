//! A search or a scout that is refused memory for all that it notes ends: without what it has refuted it would take too long.
//! It ends too when the time is up.
ghost use Rattle.std.specs.Prelude.{IfSome, IfOk};
ghost use Rattle.lin_history.specs.Problems.Configurations.{IsReachable};
ghost use Rattle.lin_history.specs.Problems.Problem.{problem_of};
ghost use Rattle.lin_search.specs.Answer.{IsAnswer};

use crate::bounds::{Bounds, Unfinished, Watcher};
use crate::searches::watching::{UntilOver, Watch, WatchedMemo};
use crate::workers::gathering::was_stopped;
use crate::workers::job::Job;
use crate::workers::scouts::{Scouting, scout};
use lin_history::Problem;
use lin_object::SeqObject;
use lin_search::{CallSet, Config, Memo, Noted, Outcome, Stop, search_passing_over};
use std::alloc::Global;
use std::sync::atomic::AtomicBool;
use std::sync::atomic::Ordering::SeqCst;
use std::thread::yield_now;

// So many more notes than were stored since are refused memory before a search ends. (Not so many in a row: a shard may have
// room where the others have none.) Each of them asks the system for memory, which takes some microseconds.
const PATIENCE: u32 = 100_000;

// How many runs a search that is counted looks at from one time that it says what was stored to the next.
const LOOKS_TO_TELL: u32 = 4_096;

// For so many calls of the problem it counts the calls of one run less of those that it looks at.
const CALLS_AT_ONCE: usize = 64;

/// Searches the configuration as `search_passing_over` does. `Unfinished` where memory was refused or the time is up, and also
/// where 100,000 notes more were refused memory than were stored since: a search that can keep nothing any more would take far
/// too long.
pub(crate) fn search_unless_starved<O: SeqObject, M: Memo<O>, S: Stop, W: Watcher>(
    alloc: Global,
    problem: &Problem<O>,
    config: &Config<O>,
    memo: &mut M,
    bounds: &Bounds<'_, W>,
    stop: &mut S,
) -> Result<Outcome, Unfinished>
    requires { IsReachable (problem_of O.after O.State.eq O.Reply.eq problem.now) config.now.lifted
        config.now.state }
    ensures answer { IfOk result (IsAnswer (problem_of O.after O.State.eq O.Reply.eq problem.now)
        config.now.lifted config.now.state bounds.now.limit (S.tells stop.new)) }
    ensures memo { M.changes memo.old memo.new }
    ensures stop { S.follows stop.old stop.new }
{
    if bounds.watcher().is_counted() {
        let mut watch = Counted::new(bounds.watcher(), problem.len());
        let answer = search_watched(alloc, problem, config, memo, bounds, stop, &mut watch);
        watch.tell();
        return answer;
    }
    let mut watch = Refusals { more: 0 };
    search_watched(alloc, problem, config, memo, bounds, stop, &mut watch)
}

// What the stop says of a search that it stopped. One that answered between lifts is asked so again: before a lift it may look
// only now and then.
fn told_by<S: Stop>(stop: &mut S) -> Option<u64>
    ensures told { IfSome result (λ told. S.tells stop.new told) }
    ensures follows { S.follows stop.old stop.new }
{
    match stop.ask() {
        Some(told) => Some(told),
        None => stop.ask_between(),
    }
}

// The same, where this watches it.
fn search_watched<O: SeqObject, M: Memo<O>, S: Stop, W: Watcher, V: Watch>(
    alloc: Global,
    problem: &Problem<O>,
    config: &Config<O>,
    memo: &mut M,
    bounds: &Bounds<'_, W>,
    stop: &mut S,
    watch: &mut V,
) -> Result<Outcome, Unfinished>
    requires { IsReachable (problem_of O.after O.State.eq O.Reply.eq problem.now) config.now.lifted
        config.now.state }
    ensures answer { IfOk result (IsAnswer (problem_of O.after O.State.eq O.Reply.eq problem.now)
        config.now.lifted config.now.state bounds.now.limit (S.tells stop.new)) }
    ensures memo { M.changes memo.old memo.new }
    ensures stop { S.follows stop.old stop.new }
{
    let is_over = AtomicBool::new(false);
    let outcome = {
        let mut memo = WatchedMemo::new(memo, watch, &is_over);
        let mut until = UntilOver::new(stop, &is_over, bounds.watcher(), problem.len());
        let limit = bounds.limit();
        let outcome = search_passing_over(alloc, problem, config, &mut memo, limit, &mut until)?;
        until.end();
        outcome
    };
    if !was_stopped(&outcome) {
        return Ok(outcome);
    }
    match told_by(stop) {
        Some(told) => Ok(Outcome::Stopped(told)),
        None if is_over.load(SeqCst) => Err(Unfinished::Memory),
        None => Err(Unfinished::Time),
    }
}

/// Scouts from the configuration as `scout` does, and ends also where the time is up, and where 100,000 notes more were refused
/// memory than were stored since. Want of memory only ends it.
pub(crate) fn scout_unless_starved<O: SeqObject, M: Memo<O>, S: Stop, W: Watcher>(
    job: &Job<'_, '_, '_, O, W>,
    config: &Config<O>,
    scouting: Scouting,
    memo: &mut M,
    stop: &mut S,
)
    requires { IsReachable (problem_of O.after O.State.eq O.Reply.eq job.now.problem.now)
        config.now.lifted config.now.state }
    ensures memo { M.changes memo.old memo.new }
    ensures stop { S.follows stop.old stop.new }
{
    let watcher = job.bounds.watcher();
    if watcher.is_counted() {
        let mut watch = Counted::new(watcher, job.problem.len());
        scout_watched(job, config, scouting, memo, stop, &mut watch);
        watch.tell();
    } else {
        let mut watch = Refusals { more: 0 };
        scout_watched(job, config, scouting, memo, stop, &mut watch);
    }
}

// The same, where this watches it.
fn scout_watched<O: SeqObject, M: Memo<O>, S: Stop, W: Watcher, V: Watch>(
    job: &Job<'_, '_, '_, O, W>,
    config: &Config<O>,
    scouting: Scouting,
    memo: &mut M,
    stop: &mut S,
    watch: &mut V,
)
    requires { IsReachable (problem_of O.after O.State.eq O.Reply.eq job.now.problem.now)
        config.now.lifted config.now.state }
    ensures memo { M.changes memo.old memo.new }
    ensures stop { S.follows stop.old stop.new }
{
    let is_over = AtomicBool::new(false);
    let mut memo = WatchedMemo::new(memo, watch, &is_over);
    let mut stop = UntilOver::new(stop, &is_over, job.bounds.watcher(), job.problem.len());
    let _ended = scout(
        job.alloc,
        job.problem,
        config,
        scouting,
        &mut memo,
        &mut stop,
    );
    stop.end();
}

// How many more notes of a search were refused memory than were stored since.
#[derive(Drop)]
struct Refusals {
    more: u32,
}

impl Watch for Refusals {
    // A shard that was not got may be that of a worker that has no core: it is given one.
    fn note(&mut self, noted: Noted) -> bool {
        match noted {
            Noted::New => self.more = self.more.saturating_sub(1),
            Noted::NoRoom => {
                self.more = self.more.saturating_add(1);
                return self.more >= PATIENCE;
            }
            Noted::Busy => yield_now(),
            Noted::Known | Noted::Stranger => {}
        }
        false
    }
}

// What watches a search that is counted: also how many configurations were stored since it was last told, and how many calls the
// furthest run has that was looked at.
#[derive(Drop)]
struct Counted<'c, W> {
    refusals: Refusals,
    watcher: &'c W,
    calls: usize,
    uncounted: usize,
    untold: u32,
    stored: u64,
    furthest: u64,
}

impl<'c, W> Counted<'c, W> {
    // Of a search that begins, of a problem of so many calls.
    fn new(watcher: &'c W, calls: usize) -> Self {
        Counted {
            refusals: Refusals { more: 0 },
            watcher,
            calls,
            uncounted: 0,
            untold: 0,
            stored: 0,
            furthest: 0,
        }
    }

    // Counts the calls of a run that is looked at. Where there are many calls it counts only some of the runs, so that this takes
    // no longer than the search does.
    fn count(&mut self, lifted: &CallSet) {
        if self.uncounted > 0 {
            self.uncounted -= 1;
            return;
        }
        self.uncounted = self.calls / CALLS_AT_ONCE;
        self.furthest = self.furthest.max(count_of(lifted, self.calls));
    }
}

impl<'c, W: Watcher> Counted<'c, W> {
    // Says what was stored since it was last said, and how far the furthest run came. (Within the trait's calls below it is said
    // without this one: a call there that bears the bound of the watcher is not proved.)
    fn tell(&mut self) {
        self.watcher.add_stored(self.stored, self.furthest);
        self.stored = 0;
    }
}

impl<'c, W: Watcher> Watch for Counted<'c, W> {
    fn look(&mut self, lifted: &CallSet) -> bool {
        self.count(lifted);
        if self.untold == 0 {
            self.untold = LOOKS_TO_TELL;
            self.watcher.add_stored(self.stored, self.furthest);
            self.stored = 0;
        }
        self.untold = self.untold.saturating_sub(1);
        false
    }

    fn note(&mut self, noted: Noted) -> bool {
        if let Noted::New = noted {
            self.stored = self.stored.saturating_add(1);
        }
        self.refusals.note(noted)
    }
}

// How many calls the set has, of so many.
fn count_of(lifted: &CallSet, calls: usize) -> u64 {
    let mut count = 0u64;
    for call in 0..calls {
        count = count.wrapping_add(lifted.has(call) as u64);
    }
    count
}
