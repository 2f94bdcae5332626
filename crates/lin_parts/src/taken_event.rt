//! Events that a problem takes or refuses.

use lin_history::ProblemFault;
use std::alloc::AllocError;

/// Whether a problem took an event that was added. `AllocError` where memory was refused.
pub fn was_taken(added: Result<(), ProblemFault>) -> Result<bool, AllocError> {
    match added {
        Ok(()) => Ok(true),
        Err(ProblemFault::OutOfMemory) => Err(AllocError),
        Err(_) => Ok(false),
    }
}
