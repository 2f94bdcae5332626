//! Searches that a thread makes by itself, and the verdict by them.
//!
//! - `deciding`: the verdict by the tasks in their order.
//! - `stalling`: the calling thread's own search ends where it makes no progress; `starving`: a search or a scout ends that is
//!   refused memory all the time; `watching`: how such an end is told to a search; `stop`: a search stops where a smaller task was
//!   found.

pub(crate) mod deciding;
pub(crate) mod stalling;
pub(crate) mod starving;
pub(crate) mod stop;
pub(crate) mod watching;
