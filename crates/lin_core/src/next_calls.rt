//! Of each call of a problem the next one of its process. It is a hint: whether two calls are a round is asked by `are_rounds`.

use crate::rounds::{is_unlock, takes};
use indexmap::IndexMap;
use lin_history::Problem;
use lin_object::{AnyObject, ObjState};
use std::alloc::{AllocError, Global};

/// A problem, and where it is one on a mutex of each call the next one of its process.
#[derive(Drop)]
pub(crate) struct NextCalls<'a> {
    problem: &'a Problem<AnyObject>,
    next: Vec<Option<usize>>,
}

// Of each call of a problem the next one of its process, by one pass from the last one on.
fn next_of(alloc: Global, problem: &Problem<AnyObject>) -> Result<Vec<Option<usize>>, AllocError> {
    let mut next = vec![in alloc; None; problem.len()]?;
    let mut later = IndexMap::new(alloc);
    for call in (0..problem.len()).rev() {
        let process = problem.call(call).process;
        next[call] = later.insert(process, call)?;
    }
    Ok(next)
}

impl<'a> NextCalls<'a> {
    /// Those of this problem. It takes O(n) for n calls. `AllocError` where memory was refused.
    pub(crate) fn new(alloc: Global, problem: &'a Problem<AnyObject>) -> Result<Self, AllocError> {
        let next = match problem.start() {
            ObjState::Mutex(_) => next_of(alloc, problem)?,
            _ => Vec::new(alloc),
        };
        Ok(NextCalls { problem, next })
    }

    /// The problem.
    pub(crate) fn problem(&self) -> &'a Problem<AnyObject> {
        self.problem
    }

    /// The next call of the process of a call, if there is one.
    pub(crate) fn next_of_process(&self, call: usize) -> Option<usize> {
        self.next.get(call).copied().flatten()
    }

    /// The last call of the round that begins with this call, if one does.
    pub(crate) fn round_from(&self, first: usize) -> Option<usize> {
        if !takes(self.problem.calls().get(first)?) {
            return None;
        }
        let last = self.next_of_process(first)?;
        if is_unlock(&self.problem.calls().get(last)?.op) {
            Some(last)
        } else {
            None
        }
    }
}
