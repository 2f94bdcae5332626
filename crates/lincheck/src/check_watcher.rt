//! What watches a check: when its time is up, and how far it has come. What it counts is a hint: nothing is proved of it, and nothing
//! that is proved depends on it.
ghost use Rattle.std.specs.Prelude.{◌≡◌, IsSome, IsTrue};

use crate::listener::{Listener, SoFar, Spent, Undecided};
use crate::notice::Notice;
use crate::way_times::WayTimes;
use lin_history::History;
use lin_workers::{Options, Watcher, Way};
use std::sync::atomic::Ordering::SeqCst;
use std::sync::atomic::{AtomicBool, AtomicU64, AtomicUsize};
use std::time::{Clock, Duration, Instant};

// How many seconds go from one time that it is shown how far a check has come to the next.
const SECONDS_BETWEEN: u64 = 2;

// How much time is left at least for what explains an answer, in microseconds: most cores are found in less.
const TIME_TO_EXPLAIN: u64 = 100_000;

/// The watcher of a check of a history. A clock that fails ends nothing, and shows nothing.
#[derive(Drop)]
pub(crate) struct CheckWatcher<'a, C, L> {
    seconds: Option<u64>,
    clock: &'a C,
    history: &'a History,
    listener: &'a L,
    notice: &'a Notice,
    is_shown: bool,
    is_bounded: bool,
    begun: Option<Instant>,
    // When the time is up, in microseconds.
    end: AtomicU64,
    was_up: AtomicBool,
    // Which time it was last shown, the first after two seconds, the second after four, and how many calls were tried by then.
    turn: AtomicU64,
    tried_at_turn: AtomicU64,
    ways: WayTimes,
    object: AtomicUsize,
    calls: AtomicUsize,
    workers: AtomicUsize,
    tried: AtomicU64,
    tried_before: AtomicU64,
    stored: AtomicU64,
    furthest: AtomicU64,
}

impl<'a, C: Clock, L: Listener> CheckWatcher<'a, C, L> {
    // Of a check that begins now by this clock, which is read only where there is a limit or a time, progress is to be shown, or a run is
    // sought of an object that has no linearization.
    pub(crate) fn new(
        clock: &'a C,
        history: &'a History,
        options: &Options,
        notice: &'a Notice,
        listener: &'a L,
    ) -> Self
        ensures { result.seconds ≡ options.now.seconds }
    {
        let seconds = options.seconds();
        let is_bounded = options.limit().is_some() || seconds.is_some();
        let is_shown = options.progress();
        CheckWatcher {
            seconds,
            clock,
            history,
            listener,
            notice,
            is_shown,
            is_bounded,
            begun: time_now(clock, is_bounded || is_shown),
            end: AtomicU64::new(seconds.map_or(
                u64::MAX,
                |seconds| seconds.saturating_mul(1_000_000),
            )),
            was_up: AtomicBool::new(false),
            turn: AtomicU64::new(0),
            tried_at_turn: AtomicU64::new(0),
            ways: WayTimes::new(),
            object: AtomicUsize::new(0),
            calls: AtomicUsize::new(0),
            workers: AtomicUsize::new(1),
            tried: AtomicU64::new(0),
            tried_before: AtomicU64::new(0),
            stored: AtomicU64::new(0),
            furthest: AtomicU64::new(0),
        }
    }

    // What is said while a run is sought.
    pub(crate) fn notice(&self) -> &'a Notice {
        self.notice
    }

    // How long the check takes up to now, where the clock says so.
    fn time(&self) -> Option<Duration> {
        self.begun?.elapsed(self.clock).ok()
    }

    // The time in microseconds, where the check reads the clock.
    fn micros(&self) -> u64 {
        self.time().map_or(0, micros_of)
    }

    // Tells what is said while a run is sought, where it has waited for long enough.
    fn tell_notice(&self) {
        let object = self.object.load(SeqCst);
        if object < self.history.object_count() {
            let name = self.history.object(object).name;
            self.notice.tell_in_time(self.clock, self.listener, name);
        }
    }

    // Shows how far the search has come where two seconds have gone since that was last shown. One thread of several shows it.
    fn show_in_time(&self, time: Option<Duration>) {
        let Some(time) = time else {
            return;
        };
        let turn = time.as_secs() / SECONDS_BETWEEN;
        let last = self.turn.load(SeqCst);
        if turn > last
            && self
                .turn
                .compare_exchange(last, turn, SeqCst, SeqCst)
                .is_ok()
        {
            self.show(SECONDS_BETWEEN.saturating_mul(turn - last));
        }
    }

    // Shows how far the search of the object has come, after so many seconds, at least one, in which that was not shown.
    fn show(&self, seconds: u64) {
        let object = self.object.load(SeqCst);
        if object >= self.history.object_count() {
            return;
        }
        let tried = self.tried.load(SeqCst);
        let before = self.tried_at_turn.swap(tried, SeqCst);
        self.listener.show(&SoFar {
            object: self.history.object(object).name,
            way: self.ways.now(),
            tried: tried.saturating_sub(self.tried_before.load(SeqCst)),
            tried_in_a_second: tried.saturating_sub(before) / seconds.max(1),
            stored: self.stored.load(SeqCst),
            furthest: self.furthest.load(SeqCst),
            calls: self.calls.load(SeqCst) as u64,
            workers: self.workers.load(SeqCst) as u64,
        });
    }

    // The object that was searched last, as one that is undecided.
    fn last(&self) -> Option<Undecided<'_>> {
        let object = self.object.load(SeqCst);
        if object >= self.history.object_count() {
            return None;
        }
        self.ways.enter(Way::Full, self.micros());
        let info = self.history.object(object);
        Some(Undecided {
            object: info.name,
            kind: info.kind,
            furthest: self.furthest.load(SeqCst),
            calls: self.calls.load(SeqCst) as u64,
            longest: self.begun.map(|_| self.ways.longest()),
        })
    }

    // Tells what a check took that has ended so.
    fn tell(&self, ended_at: Option<Undecided<'_>>) {
        self.listener.leave_undecided(&Spent {
            tried: self.tried.load(SeqCst),
            time: self.time(),
            is_time_up: self.was_up.load(SeqCst),
            ended_at,
        });
    }

    // The check has ended, and what explains its answer is looked for: a little time is left for that, also where the check took all.
    pub(crate) fn begin_to_explain(&self) {
        self.ways.enter(Way::Core, self.micros());
        let least = self.micros().saturating_add(TIME_TO_EXPLAIN);
        self.end.fetch_max(least, SeqCst);
    }

    // Tells what the check took, which ended at the object that was searched last.
    pub(crate) fn end_here(&self) {
        self.tell(self.last());
    }

    // Tells what the check took, which ended with something undecided.
    pub(crate) fn end_of_all(&self) {
        self.tell(None);
    }
}

// The time in microseconds.
fn micros_of(time: Duration) -> u64 {
    let micros = u64::from(time.subsec_micros());
    time.as_secs()
        .saturating_mul(1_000_000)
        .saturating_add(micros)
}

// Whether the time is up at so many microseconds, where it is bounded by seconds and the clock says how much has gone.
fn is_over(seconds: Option<u64>, end: u64, time: Option<Duration>) -> bool
    ensures { IsTrue result → IsSome seconds }
{
    match (seconds, time) {
        (Some(_), Some(time)) => micros_of(time) >= end,
        _ => false,
    }
}

// The time by this clock, where it is wanted.
fn time_now<C: Clock>(clock: &C, is_wanted: bool) -> Option<Instant> {
    if is_wanted {
        Instant::now(clock).ok()
    } else {
        None
    }
}

impl<'a, C: Clock + Sync, L: Listener + Sync> Watcher for CheckWatcher<'a, C, L> {
    ghost seconds = { λ w. w.seconds };

    fn seconds(&self) -> Option<u64> {
        self.seconds
    }

    fn is_up(&self) -> bool {
        if self.notice.is_waiting() {
            self.tell_notice();
        }
        if !self.is_shown && self.seconds.is_none() {
            return false;
        }
        let time = self.time();
        if self.is_shown {
            self.show_in_time(time);
        }
        let is_up = is_over(self.seconds, self.end.load(SeqCst), time);
        if is_up {
            self.was_up.store(true, SeqCst);
        }
        is_up
    }

    fn is_counted(&self) -> bool {
        self.is_shown || self.is_bounded
    }

    fn begin(&self, object: usize, calls: usize) {
        self.object.store(object, SeqCst);
        self.notice.begin(object);
        self.calls.store(calls, SeqCst);
        self.workers.store(1, SeqCst);
        self.tried_before.store(self.tried.load(SeqCst), SeqCst);
        self.stored.store(0, SeqCst);
        self.furthest.store(0, SeqCst);
        self.ways.begin(self.micros());
    }

    fn enter(&self, way: Way) {
        self.ways.enter(way, self.micros());
    }

    fn share(&self, workers: usize) {
        self.workers.store(workers, SeqCst);
    }

    fn add_tried(&self, more: u64) {
        self.tried.fetch_add(more, SeqCst);
    }

    fn add_stored(&self, more: u64, run: u64) {
        self.stored.fetch_add(more, SeqCst);
        self.furthest.fetch_max(run, SeqCst);
    }
}
