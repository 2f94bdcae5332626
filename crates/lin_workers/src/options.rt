//! How a check is run.
ghost use Rattle.std.specs.Prelude.{◌≡◌, false, IfSome, None};
ghost use Rattle.lin_workers.specs.Options.{IsUpTo, is_outside, is_limit_outside, is_time_outside, options_made, with_at_most, with_progress, with_seconds};

use std::marker::Model;

/// The most workers.
pub const MAX_WORKERS: u64 = 64;

/// The most shards.
pub const MAX_SHARDS: u64 = 256;

/// The greatest limit on lifts.
pub const MAX_LIMIT: u64 = 1_000_000_000_000;

/// The most seconds.
pub const MAX_SECONDS: u64 = 86_400;

/// How a check is run: by how many workers, with how many shards, with which limit on the lifts of each search,
/// whether it shows how many configurations were stored, after how many seconds it ends, and whether it shows how far it has come
/// while it goes on. The type keeps each within its range.
#[derive(Clone, Copy, PartialEq, Eq, Debug)]
pub struct Options {
    workers: u64,
    shards: u64,
    limit: Option<u64>,
    stats: bool,
    seconds: Option<u64>,
    progress: bool,
}

impl Model for Options {
    ghost use Rattle.lin_workers.specs.Options.{Options, AreWithin};

    ghost Value = { Options };

    ghost view = { λ o. record {
      workers = o.workers;
      shards = o.shards;
      limit = o.limit;
      stats = o.stats;
      seconds = o.seconds;
      progress = o.progress;
    } };

    ghost invariant = { λ o. AreWithin (record {
      workers = o.workers;
      shards = o.shards;
      limit = o.limit;
      stats = o.stats;
      seconds = o.seconds;
      progress = o.progress;
    }) };

    ghost inverse = { λ o. record {
      workers = o.workers;
      shards = o.shards;
      limit = o.limit;
      stats = o.stats;
      seconds = o.seconds;
      progress = o.progress;
    } };
}

/// Why there are no such options.
#[derive(Clone, Copy, PartialEq, Eq, Debug)]
pub enum OptionFault {
    /// Not 1 to `MAX_WORKERS` workers.
    Workers,
    /// Not 1 to `MAX_SHARDS` shards.
    Shards,
    /// A limit that is not 1 to `MAX_LIMIT`.
    Limit,
    /// Seconds that are not 1 to `MAX_SECONDS`.
    Seconds,
}

// Whether there is a limit that is not 1 to `MAX_LIMIT`.
fn is_limit_outside(limit: Option<u64>) -> bool
    ensures { result ≡ is_limit_outside limit }
{
    match limit {
        Some(lifts) => !(1..=MAX_LIMIT).contains(&lifts),
        None => false,
    }
}

// Whether there are seconds that are not 1 to `MAX_SECONDS`.
fn is_time_outside(seconds: Option<u64>) -> bool
    ensures { result ≡ is_time_outside seconds }
{
    match seconds {
        Some(number) => !(1..=MAX_SECONDS).contains(&number),
        None => false,
    }
}

impl Options {
    /// The options, for a check that may take any time and does not show how far it has come. Refusals, in order: `Workers` where they are not 1 to
    /// `MAX_WORKERS`, `Shards` where they are not 1 to `MAX_SHARDS`, `Limit` where one is given that is not 1 to `MAX_LIMIT`. It
    /// takes no memory.
    pub fn new(
        workers: u64,
        shards: u64,
        limit: Option<u64>,
        stats: bool,
    ) -> Result<Options, OptionFault>
        ensures { result ≡ options_made (record {
          workers = workers;
          shards = shards;
          limit = limit;
          stats = stats;
          seconds = None;
          progress = false;
        }) }
    {
        if !(1..=MAX_WORKERS).contains(&workers) {
            return Err(OptionFault::Workers);
        }
        if !(1..=MAX_SHARDS).contains(&shards) {
            return Err(OptionFault::Shards);
        }
        if is_limit_outside(limit) {
            return Err(OptionFault::Limit);
        }
        Ok(Options {
            workers,
            shards,
            limit,
            stats,
            seconds: None,
            progress: false,
        })
    }

    /// The same options for a check that ends after so many seconds, where a number is given. `Seconds` where it is not 1 to
    /// `MAX_SECONDS`. It takes no memory.
    pub fn with_seconds(self, seconds: Option<u64>) -> Result<Options, OptionFault>
        ensures { result ≡ with_seconds seconds self }
    {
        if is_time_outside(seconds) {
            return Err(OptionFault::Seconds);
        }
        Ok(Options { seconds, ..self })
    }

    /// The same options for a check that shows how far it has come, or does not. It takes no memory.
    pub fn with_progress(self, progress: bool) -> Options
        ensures { result ≡ with_progress progress self }
    {
        Options { progress, ..self }
    }

    /// The same options with at most so many workers, but one at least. It takes no memory.
    pub fn with_at_most(self, most: u64) -> Options
        ensures { result ≡ with_at_most most self }
    {
        let mut workers = most.max(1);
        if self.workers < workers {
            workers = self.workers;
        }
        Options { workers, ..self }
    }

    /// How many workers search: 1 to `MAX_WORKERS`.
    pub fn workers(&self) -> u64
        ensures workers { result ≡ self.now.workers }
        ensures range { IsUpTo MAX_WORKERS result }
    {
        self.workers
    }

    /// How many shards the table of an object has: 1 to `MAX_SHARDS`.
    pub fn shards(&self) -> u64
        ensures shards { result ≡ self.now.shards }
        ensures range { IsUpTo MAX_SHARDS result }
    {
        self.shards
    }

    /// The most lifts of each search, where there is such a limit: 1 to `MAX_LIMIT`.
    pub fn limit(&self) -> Option<u64>
        ensures limit { result ≡ self.now.limit }
        ensures range { IfSome result (IsUpTo MAX_LIMIT) }
    {
        self.limit
    }

    /// After how many seconds the check ends, where that is bounded: 1 to `MAX_SECONDS`.
    pub fn seconds(&self) -> Option<u64>
        ensures seconds { result ≡ self.now.seconds }
        ensures range { IfSome result (IsUpTo MAX_SECONDS) }
    {
        self.seconds
    }

    /// Whether the number of configurations stored is told.
    pub fn stats(&self) -> bool
        ensures { result ≡ self.now.stats }
    {
        self.stats
    }

    /// Whether the check shows how far it has come while it goes on.
    pub fn progress(&self) -> bool
        ensures { result ≡ self.now.progress }
    {
        self.progress
    }
}
