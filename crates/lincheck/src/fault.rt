//! Why a run ends without an answer.

use thiserror::Error;

/// Why a run ended without a status.
#[derive(Clone, Copy, PartialEq, Eq, Debug, Error)]
pub enum RunFault {
    /// The reader failed; nothing was written.
    #[error("read failed")]
    Read,
    /// The writer failed; what was written is a prefix of the answer.
    #[error("write failed")]
    Write,
    /// Memory was refused; nothing was written.
    #[error("out of memory")]
    Memory,
}
