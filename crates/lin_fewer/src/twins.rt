//! Pending calls that are identical.

use lin_history::Problem;
use lin_object::SeqObject;
use lin_search::repeats;
use std::alloc::{AllocError, Global};

// How many different pending calls are kept in sight, to find those that are identical. Each pending call is compared with them.
const KINDS_IN_SIGHT: usize = 1_024;

/// For each pending call the one before and the one behind that are identical to it, as far as they were found; of any other call
/// itself.
///
/// They are hints: nothing is promised of the numbers, so who goes by them asks `repeats` again.
#[derive(Drop)]
pub(crate) struct Twins {
    earlier: Vec<usize>,
    later: Vec<usize>,
}

// The place of a call that this one repeats.
fn place_of<O: SeqObject>(problem: &Problem<O>, in_sight: &[usize], call: usize) -> Option<usize> {
    if call >= problem.len() {
        return None;
    }
    for place in 0..in_sight.len() {
        if in_sight[place] < call && repeats(problem, in_sight[place], call) {
            return Some(place);
        }
    }
    None
}

impl Twins {
    /// Those of the problem. However many calls lie between two of them, they are found, if no more than 1,024 different ones are
    /// pending. `AllocError` where memory was refused.
    pub(crate) fn of<O: SeqObject>(
        alloc: Global,
        problem: &Problem<O>,
    ) -> Result<Self, AllocError> {
        let mut twins = Twins {
            earlier: (0..problem.len()).collect(alloc)?,
            later: (0..problem.len()).collect(alloc)?,
        };
        let mut in_sight = Vec::new(alloc);
        for call in 0..problem.len() {
            if problem.call(call).returned.is_none() {
                twins.add(problem, &mut in_sight, call)?;
            }
        }
        Ok(twins)
    }

    // Adds the pending call, and brings it in sight in place of the one that it repeats.
    fn add<O: SeqObject>(
        &mut self,
        problem: &Problem<O>,
        in_sight: &mut Vec<usize>,
        call: usize,
    ) -> Result<(), AllocError> {
        let Some(place) = place_of(problem, in_sight.as_slice(), call) else {
            if in_sight.len() < KINDS_IN_SIGHT {
                in_sight.push(call)?;
            }
            return Ok(());
        };
        let Some(last) = in_sight.get_mut(place) else {
            return Ok(());
        };
        if let Some(earlier) = self.earlier.get_mut(call) {
            *earlier = *last;
        }
        if let Some(later) = self.later.get_mut(*last) {
            *later = call;
        }
        *last = call;
        Ok(())
    }

    /// The identical call before this one.
    pub(crate) fn before(&self, call: usize) -> usize {
        self.earlier.get(call).copied().unwrap_or(call)
    }

    /// The identical call behind this one.
    pub(crate) fn behind(&self, call: usize) -> usize {
        self.later.get(call).copied().unwrap_or(call)
    }
}
