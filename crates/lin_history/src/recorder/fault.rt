//! Why the builder refuses an event.

use thiserror::Error;

/// Why a builder refuses an event.
#[derive(Clone, Copy, PartialEq, Eq, Debug, Error)]
pub enum BuildFault {
    /// The name is not 1 to 64 bytes out of `A-Z a-z 0-9 _ . / : -`.
    #[error("bad object name")]
    BadName,
    /// An object of that name is declared already.
    #[error("object is declared already")]
    Declared,
    /// No object of that name is declared.
    #[error("unknown object")]
    UnknownObject,
    /// The process has ended.
    #[error("process {0} has ended")]
    ProcessEnded(u32),
    /// The process has a pending call.
    #[error("process {0} has a pending call")]
    Busy(u32),
    /// The process has no pending call.
    #[error("process {0} has no pending call")]
    NoCall(u32),
    /// The pending call of the process is on another object.
    #[error("process {0} has its pending call on another object")]
    OtherObject(u32),
    /// There is no room for another object.
    #[error("too many objects")]
    TooManyObjects,
    /// There is no room for another call.
    #[error("too many calls")]
    TooManyCalls,
    /// Memory was refused.
    #[error("out of memory")]
    OutOfMemory,
}
