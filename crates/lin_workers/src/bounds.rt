//! Within which bounds an object is searched: a limit on the lifts, and a time that may be up.
ghost use Rattle.std.specs.Prelude.{◌≡◌, ℕ, IsSome, IsTrue, Option, None};

use lin_search::Stop;
use std::alloc::AllocError;
use std::marker::Model;

/// A way on which the check of an object goes.
#[derive(Clone, Copy, PartialEq, Eq, Debug)]
pub enum Way {
    /// By what is known ahead of a search: a first search, or a search by key.
    Ahead,
    /// The full search.
    Full,
    /// Looking for a few calls that alone have no order.
    Core,
    /// Searches of prefixes.
    Prefixes,
}

/// What knows when the time for a search is up, and is told what was done. It is asked and told every few thousand lifts, by each
/// thread that searches. What it is told is a hint: it need not do anything with it.
pub trait Watcher: Sync {
    // After how many seconds a search ends, where that is bounded.
    ghost seconds: { Self → Option ℕ };

    /// After how many seconds a search ends, where that is bounded.
    fn seconds(&self) -> Option<u64>
        ensures { result ≡ seconds self.now };

    /// Whether the time is up: never, where it is not bounded.
    fn is_up(&self) -> bool
        ensures { IsTrue result → IsSome (seconds self.now) };

    /// Whether what is stored is counted while a search goes on: else `add_stored` need not be called.
    fn is_counted(&self) -> bool {
        false
    }

    /// The object of this index, which has so many calls, is searched from now on, by one thread.
    fn begin(&self, _object: usize, _calls: usize) {}

    /// The check of the object goes on this way from now on.
    fn enter(&self, _way: Way) {}

    /// So many workers share the search from now on.
    fn share(&self, _workers: usize) {}

    /// So many more calls were tried.
    fn add_tried(&self, _more: u64) {}

    /// So many more configurations were stored, and a run of so many calls was looked at.
    fn add_stored(&self, _more: u64, _run: u64) {}
}

/// The watcher of a search that may take any time.
#[derive(Clone, Copy, PartialEq, Eq, Debug)]
pub struct Unwatched;

impl Watcher for Unwatched {
    ghost seconds = { λ w. None };

    fn seconds(&self) -> Option<u64> {
        None
    }

    fn is_up(&self) -> bool {
        false
    }
}

/// Within which bounds an object is searched. Contracts see the limit on the lifts and the seconds.
#[derive(Drop)]
pub struct Bounds<'a, W: Watcher> {
    limit: Option<u64>,
    watcher: &'a W,
}

impl<'a, W: Watcher> Model for Bounds<'a, W> {
    ghost use Rattle.lin_workers.specs.Bounds.{Bounds};

    ghost Value = { Bounds };

    ghost view = { λ b. record { limit = b.limit; seconds = W.seconds b.watcher.now } };
}

impl<'a, W: Watcher> Bounds<'a, W> {
    /// So many lifts of each search at most, where a limit is given, and as long as the watcher says.
    pub fn new(limit: Option<u64>, watcher: &'a W) -> Self
        ensures { result ≡ record { limit = limit; seconds = W.seconds watcher.now } }
    {
        Bounds { limit, watcher }
    }

    /// How many lifts each search makes at most, where there is a limit.
    pub fn limit(&self) -> Option<u64>
        ensures { result ≡ self.now.limit }
    {
        self.limit
    }

    /// What knows when the time is up.
    pub fn watcher(&self) -> &'a W
        ensures { W.seconds result.now ≡ self.now.seconds }
    {
        self.watcher
    }

    // Whether an object is undecided whose search ended without an answer: the time was up, and it is bounded.
    pub(crate) fn leaves_undecided(&self, why: Unfinished) -> bool
        ensures { IsTrue result → IsSome self.now.seconds }
    {
        match why {
            Unfinished::Time => self.watcher.seconds().is_some(),
            Unfinished::Memory => false,
        }
    }
}

/// Why a search ended without an answer.
#[derive(Clone, Copy)]
pub(crate) enum Unfinished {
    /// Memory was refused.
    Memory,
    /// The time was up.
    Time,
}

impl From<AllocError> for Unfinished {
    fn from(_refused: AllocError) -> Unfinished {
        Unfinished::Memory
    }
}

/// The stop of a search that ends when the time is up.
#[derive(Drop)]
pub struct UntilUp<'a, W> {
    watcher: &'a W,
}

impl<'a, W: Watcher> UntilUp<'a, W> {
    /// The stop of a search within these bounds.
    pub fn new(bounds: &Bounds<'a, W>) -> Self {
        UntilUp {
            watcher: bounds.watcher(),
        }
    }
}

impl<'a, W: Watcher> Stop for UntilUp<'a, W> {
    ghost tells = { λ s told. Unit {0} };

    ghost follows = { λ old new. Unit {0} };

    fn ask(&mut self) -> Option<u64> {
        if self.watcher.is_up() { Some(0) } else { None }
    }

    ghost unchanged = { λ s. tt };

    ghost chained = { λ a b c first second. tt };
}
