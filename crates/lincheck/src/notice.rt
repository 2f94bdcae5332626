//! What is said of an object while its longest run is still sought: that it has no linearization, and which calls show that. It is a
//! hint: nothing is proved of it, and nothing that is proved depends on it.

use crate::listener::Listener;
use crate::object_fault::ObjectFault;
use crate::witness::shown_fault;
use lin_explain::write_witness;
use lin_history::{History, Problem};
use lin_object::AnyObject;
use std::alloc::{AllocError, Global};
use std::sync::Mutex;
use std::sync::atomic::Ordering::SeqCst;
use std::sync::atomic::{AtomicBool, AtomicUsize};
use std::time::{Clock, Instant};

// For how many seconds the run is sought before that is said: most are found in less.
const SECONDS_BEFORE: u64 = 1;

/// A history whose answer is explained, and the lines of its events.
#[derive(Clone, Copy)]
pub(crate) struct Explained<'a> {
    /// The history.
    pub(crate) history: &'a History,
    /// The line of each event.
    pub(crate) lines: &'a [u64],
}

impl<'a> Explained<'a> {
    /// This history, where the lines of its events are given.
    pub(crate) fn of(history: &'a History, lines: Option<&'a [u64]>) -> Option<Self> {
        let lines = lines?;
        Some(Explained { history, lines })
    }
}

// The calls of the object of this index that show that it has no linearization, as they are told.
fn core_told(
    alloc: Global,
    explained: Explained<'_>,
    object: usize,
    problem: &Problem<AnyObject>,
    fault: &ObjectFault,
) -> Result<Option<String>, AllocError> {
    let Explained { history, lines } = explained;
    if object >= history.object_count() {
        return Ok(None);
    }
    let witness = shown_fault(alloc, problem, fault)?;
    let mut core = String::new(alloc);
    let name = history.object(object).name;
    write_witness(&mut core, name, problem.calls(), lines, &witness)?;
    Ok(Some(core))
}

// What waits to be said: the calls that show it, as they are told, where they are known; and since when it waits by the clock.
#[derive(Drop)]
struct Waiting {
    core: Option<String>,
    since: Option<Instant>,
}

/// What is said once in a check: of the first object that has no linearization.
#[derive(Drop)]
pub(crate) struct Notice {
    object: AtomicUsize,
    was_given: AtomicBool,
    is_waiting: AtomicBool,
    waiting: Mutex<Option<Waiting>>,
}

impl Notice {
    /// Nothing waits yet.
    pub(crate) fn new() -> Self {
        Notice {
            object: AtomicUsize::new(0),
            was_given: AtomicBool::new(false),
            is_waiting: AtomicBool::new(false),
            waiting: Mutex::new(None),
        }
    }

    /// The object of this index is searched from now on.
    pub(crate) fn begin(&self, object: usize) {
        self.object.store(object, SeqCst);
    }

    /// The object has no linearization, which this fault shows, and its longest run is sought from now on. Only the first time counts.
    /// `AllocError` where memory was refused.
    pub(crate) fn wait(
        &self,
        alloc: Global,
        explained: Option<Explained<'_>>,
        problem: &Problem<AnyObject>,
        fault: Option<&ObjectFault>,
    ) -> Result<(), AllocError> {
        if self.was_given.swap(true, SeqCst) {
            return Ok(());
        }
        let object = self.object.load(SeqCst);
        let core = match (explained, fault) {
            (Some(explained), Some(fault)) => core_told(alloc, explained, object, problem, fault)?,
            _ => None,
        };
        if let Some(mut waiting) = self.waiting.try_lock() {
            *waiting = Some(Waiting { core, since: None });
            self.is_waiting.store(true, SeqCst);
        }
        Ok(())
    }

    /// Whether something waits to be said.
    pub(crate) fn is_waiting(&self) -> bool {
        self.is_waiting.load(SeqCst)
    }

    /// Tells the listener what waits of the object of this name, if it has for long enough by this clock.
    pub(crate) fn tell_in_time<C: Clock, L: Listener>(
        &self,
        clock: &C,
        listener: &L,
        object: &str,
    ) {
        let Some(mut guard) = self.waiting.try_lock() else {
            return;
        };
        let Some(waiting) = guard.as_mut() else {
            return;
        };
        let Some(since) = waiting.since else {
            waiting.since = Instant::now(clock).ok();
            return;
        };
        match since.elapsed(clock) {
            Ok(time) if time.as_secs() >= SECONDS_BEFORE => {
                self.is_waiting.store(false, SeqCst);
                listener.seek_run(object, waiting.core.as_deref());
            }
            _ => {}
        }
    }
}
