//! The time at which searches end, by a clock.
ghost use Rattle.std.specs.Prelude.{◌≡◌};

use crate::bounds::Watcher;
use std::time::{Clock, Instant};

/// The watcher of searches that end so many seconds after it was made, where a number is given. A clock that fails ends nothing.
#[derive(Drop)]
pub struct Deadline<'a, C> {
    clock: &'a C,
    seconds: Option<u64>,
    begun: Option<Instant>,
}

impl<'a, C: Clock> Deadline<'a, C> {
    /// From now on by this clock. It is read only where a number of seconds is given.
    pub fn new(clock: &'a C, seconds: Option<u64>) -> Self
        ensures { result.seconds ≡ seconds }
    {
        let begun = match seconds {
            Some(_) => Instant::now(clock).ok(),
            None => None,
        };
        Deadline {
            clock,
            seconds,
            begun,
        }
    }
}

impl<'a, C: Clock + Sync> Watcher for Deadline<'a, C> {
    ghost seconds = { λ d. d.seconds };

    fn seconds(&self) -> Option<u64> {
        self.seconds
    }

    fn is_up(&self) -> bool {
        let (Some(seconds), Some(begun)) = (self.seconds, self.begun) else {
            return false;
        };
        match begun.elapsed(self.clock) {
            Ok(gone) => gone.as_secs() >= seconds,
            Err(_) => false,
        }
    }
}
