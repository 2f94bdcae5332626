//! What may be known of the longest runs of a problem before they are sought: a few calls that alone have no linearization.
//!
//! All of it is a hint: whatever it says, the same run is found.

use lin_history::Problem;
use lin_object::SeqObject;
use std::alloc::Global;

/// Some calls of a problem that had returned by an event, and that have no linearization with what was called by then, as far as that
/// is known. Nothing is required of them: where they have one, it only takes longer.
#[derive(Debug, Drop)]
pub struct Hint {
    /// The number of the event; `None` where no such calls are known.
    pub event: Option<u32>,
    /// The numbers of the calls.
    pub calls: Vec<usize>,
}

impl Hint {
    /// No such calls are known.
    pub fn none(alloc: Global) -> Self {
        Hint {
            event: None,
            calls: Vec::new(alloc),
        }
    }

    /// From how many calls on, as it seems, no call has a run: as many as were called by the event. A run of a later call would have
    /// all of the calls that had returned by then.
    pub(crate) fn calls_with_runs<O: SeqObject>(&self, problem: &Problem<O>) -> Option<usize> {
        let event = self.event?;
        let called = problem.calls().iter().filter(|call| call.called < event);
        Some(called.count())
    }
}
