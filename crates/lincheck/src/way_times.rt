//! How long the check of an object takes on each way.

use lin_workers::Way;
use std::sync::atomic::Ordering::SeqCst;
use std::sync::atomic::{AtomicU64, AtomicUsize};

// All ways, each at its place.
const WAYS: [Way; 4] = [Way::Ahead, Way::Full, Way::Core, Way::Prefixes];

// The place of a way.
fn place_of(way: Way) -> usize {
    match way {
        Way::Ahead => 0,
        Way::Full => 1,
        Way::Core => 2,
        Way::Prefixes => 3,
    }
}

// The way at a place.
fn way_at(place: usize) -> Way {
    match place {
        0 => Way::Ahead,
        1 => Way::Full,
        2 => Way::Core,
        _ => Way::Prefixes,
    }
}

/// Which way is gone now, since when, and how long each was gone before, all in microseconds of the check.
#[derive(Drop)]
pub(crate) struct WayTimes {
    now: AtomicUsize,
    since: AtomicU64,
    ahead: AtomicU64,
    full: AtomicU64,
    core: AtomicU64,
    prefixes: AtomicU64,
}

impl WayTimes {
    /// Of a check that begins.
    pub(crate) fn new() -> Self {
        WayTimes {
            now: AtomicUsize::new(place_of(Way::Ahead)),
            since: AtomicU64::new(0),
            ahead: AtomicU64::new(0),
            full: AtomicU64::new(0),
            core: AtomicU64::new(0),
            prefixes: AtomicU64::new(0),
        }
    }

    // How long this way was gone.
    fn time_on(&self, way: Way) -> &AtomicU64 {
        match way {
            Way::Ahead => &self.ahead,
            Way::Full => &self.full,
            Way::Core => &self.core,
            Way::Prefixes => &self.prefixes,
        }
    }

    /// Another object is checked from this time on.
    pub(crate) fn begin(&self, time: u64) {
        for way in WAYS {
            self.time_on(way).store(0, SeqCst);
        }
        self.now.store(place_of(Way::Ahead), SeqCst);
        self.since.store(time, SeqCst);
    }

    /// The check goes on this way from this time on.
    pub(crate) fn enter(&self, way: Way, time: u64) {
        let since = self.since.swap(time, SeqCst);
        self.time_on(self.now())
            .fetch_add(time.saturating_sub(since), SeqCst);
        self.now.store(place_of(way), SeqCst);
    }

    /// The way that is gone now.
    pub(crate) fn now(&self) -> Way {
        way_at(self.now.load(SeqCst))
    }

    /// The way that took the most time, up to when one was last entered.
    pub(crate) fn longest(&self) -> Way {
        let mut longest = Way::Ahead;
        for way in WAYS {
            if self.time_on(way).load(SeqCst) > self.time_on(longest).load(SeqCst) {
                longest = way;
            }
        }
        longest
    }
}
