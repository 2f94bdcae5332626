//! Who listens to a run: how far it has come, what it took, and which text was refused.

use lin_object::Kind;
use lin_text::TextFault;
use lin_workers::Way;
use std::time::Duration;

/// How far the search of an object has come, as far as that was counted.
#[derive(Clone, Copy)]
pub struct SoFar<'a> {
    /// The object's name.
    pub object: &'a str,
    /// The way on which the check of the object is.
    pub way: Way,
    /// How many calls were tried.
    pub tried: u64,
    /// How many calls were tried in a second, since this was last shown.
    pub tried_in_a_second: u64,
    /// How many configurations were stored.
    pub stored: u64,
    /// How many calls the furthest run has.
    pub furthest: u64,
    /// How many calls the object has.
    pub calls: u64,
    /// How many workers search.
    pub workers: u64,
}

/// An object that was not decided, and how far its search came, as far as that was counted.
#[derive(Clone, Copy)]
pub struct Undecided<'a> {
    /// The object's name.
    pub object: &'a str,
    /// The object's kind.
    pub kind: Kind,
    /// How many calls the furthest run has.
    pub furthest: u64,
    /// How many calls the object has.
    pub calls: u64,
    /// The way that took the most time, where the clock says so.
    pub longest: Option<Way>,
}

/// What a check took that left something undecided.
#[derive(Clone, Copy)]
pub struct Spent<'a> {
    /// How many calls were tried on all objects, as far as that was counted.
    pub tried: u64,
    /// How long it took, where the clock says so.
    pub time: Option<Duration>,
    /// Whether the time was up that the options give.
    pub is_time_up: bool,
    /// The object at which the check ended. `None` where it went on with others.
    pub ended_at: Option<Undecided<'a>>,
}

/// What listens to a run. It changes no answer, and hears of it before the answer is written.
pub trait Listener {
    /// So far has the search of an object come. It is called every two seconds where the options ask for it, by one of the
    /// threads that search.
    fn show(&self, _so_far: &SoFar<'_>) {}

    /// It is known for a second that the object of this name has no linearization, and its longest run is still sought. `core` are the
    /// lines that tell which calls show it, each with its end, where that is asked for and known. It is called once at most in a check,
    /// by one of the threads that search.
    fn seek_run(&self, _object: &str, _core: Option<&str>) {}

    /// The check has ended with something undecided, and took this.
    fn leave_undecided(&self, _spent: &Spent<'_>) {}

    /// The history has no calls. It is called once the answer is made.
    fn find_no_calls(&self) {}

    /// The text is refused, for this. It is called once the answer is made, so no memory can be refused after it.
    fn refuse(&self, _text: &[u8], _fault: &TextFault) {}
}

/// A listener that does nothing.
#[derive(Clone, Copy, PartialEq, Eq, Debug)]
pub struct NoListener;

impl Listener for NoListener {}
