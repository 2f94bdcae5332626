//! What is said on standard error of a run: how far it has come, what was left undecided and what helps then, and what helps with a
//! text that is refused.

use crate::advice::{advice_for, way_word};
use crate::hints::hint_of;
use lin_text::TextFault;
use lincheck::{Listener, Options, SoFar, Spent, Undecided};
use std::fmt;
use std::io::Eprint;
use std::time::Duration;

/// A listener that says on standard error what it is told. A standard error that fails is passed over.
#[derive(Drop)]
pub struct OnStandardError<'a, E> {
    rt: &'a E,
    options: &'a Options,
}

impl<'a, E> OnStandardError<'a, E> {
    /// Of a run with these options.
    pub fn new(rt: &'a E, options: &'a Options) -> Self {
        OnStandardError { rt, options }
    }
}

impl<'a, E: Eprint> OnStandardError<'a, E> {
    // Says which option ended a search, and after how many calls tried and how many seconds.
    fn say_why(&self, spent: &Spent<'_>) {
        match (self.options.limit(), self.options.seconds()) {
            (Some(limit), Some(seconds)) => self.say_which(limit, seconds, spent),
            (Some(limit), None) => self.say_ended("--limit", limit, spent),
            (None, Some(seconds)) => self.say_ended("--seconds", seconds, spent),
            (None, None) => {}
        }
    }

    // Says which of the two options ended a search. Where the check went on with other objects both may have ended searches.
    fn say_which(&self, limit: u64, seconds: u64, spent: &Spent<'_>) {
        if !spent.is_time_up {
            self.say_ended("--limit", limit, spent);
        } else if spent.ended_at.is_some() {
            self.say_ended("--seconds", seconds, spent);
        } else {
            self.say_both(limit, seconds, spent);
        }
    }

    // Says that this option ended a search.
    fn say_ended(&self, option: &str, number: u64, spent: &Spent<'_>) {
        let effort = Effort::of(spent);
        let _ = eprintln!(self.rt;
            "lincheck: the search ended at {option} {number} after {effort}"
        );
    }

    // Says that one of the two options ended each search that ended.
    fn say_both(&self, limit: u64, seconds: u64, spent: &Spent<'_>) {
        let effort = Effort::of(spent);
        let _ = eprintln!(self.rt;
            "lincheck: searches ended at --limit {limit} or --seconds {seconds} after {effort}"
        );
    }

    // Says how far the search of an object came that is not decided, where the time went, and what helps.
    fn say_how_far(&self, undecided: &Undecided<'_>) {
        let Undecided {
            object,
            kind,
            furthest,
            calls,
            longest,
        } = *undecided;
        let _ = eprintln!(self.rt; "lincheck: {object}: furthest run {furthest} of {calls} calls");
        if let Some(way) = longest {
            let way = way_word(way);
            let _ = eprintln!(self.rt; "lincheck: {object}: most of the time went into {way}");
        }
        let advice = advice_for(kind);
        let _ = eprintln!(self.rt; "lincheck: {object}: {advice}");
    }
}

impl<'a, E: AllocGlobal + Eprint + Sync> Listener for OnStandardError<'a, E> {
    fn show(&self, so_far: &SoFar<'_>) {
        let SoFar {
            object,
            way,
            tried,
            tried_in_a_second,
            stored,
            furthest,
            calls,
            workers,
        } = *so_far;
        let way = way_word(way);
        let ending = if workers == 1 { "" } else { "s" };
        let _ = eprintln!(self.rt;
            "lincheck: {object}: {way}, {tried} calls tried, {tried_in_a_second} in a second, {stored} configurations stored, furthest run {furthest} of {calls} calls, {workers} worker{ending}"
        );
    }

    fn seek_run(&self, object: &str, core: Option<&str>) {
        let _ = eprintln!(self.rt;
            "lincheck: {object}: not linearizable; looking for its longest run"
        );
        if let Some(core) = core {
            let _ = eprint!(self.rt; "{core}");
        }
    }

    fn leave_undecided(&self, spent: &Spent<'_>) {
        self.say_why(spent);
        if let Some(undecided) = spent.ended_at {
            self.say_how_far(&undecided);
        }
    }

    fn find_no_calls(&self) {
        let _ = eprintln!(self.rt;
            "lincheck: no calls: such a history is linearizable; a recorder that ends too early leaves one"
        );
    }

    fn refuse(&self, text: &[u8], fault: &TextFault) {
        if let Ok(hint) = hint_of(self.rt.alloc(), text, fault) {
            let _ = eprintln!(self.rt; "lincheck: {hint}");
        }
    }
}

// How many calls were tried, and how long that took, where that is known.
#[derive(Clone, Copy)]
struct Effort {
    tried: u64,
    time: Option<Duration>,
}

impl Effort {
    // What a check took.
    fn of(spent: &Spent<'_>) -> Effort {
        Effort {
            tried: spent.tried,
            time: spent.time,
        }
    }
}

impl fmt::Display for Effort {
    ghost use Rattle.std.specs.Prelude.{None};

    ghost output = { λ effort. None };

    fn fmt<W: fmt::Write>(&self, f: &mut fmt::Formatter<W>) -> fmt::Result {
        let tried = self.tried;
        let Some(time) = self.time else {
            return write!(f, "{tried} calls tried");
        };
        let seconds = time.as_secs();
        let tenths = time.subsec_millis() / 100;
        write!(f, "{tried} calls tried and {seconds}.{tenths} seconds")
    }
}
