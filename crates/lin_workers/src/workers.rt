//! Workers that share the tasks of a search.
//!
//! - `sharing`: workers in threads; `gathering`: what they brought is put together.
//! - `worker`: a worker claims tasks and searches them; `job`: what workers share, and what each brings; `gate`: what a worker
//!   passes after each claim.
//! - `scouting`: how each worker scouts; `scouts`: what a scout does; `signals`: what workers of a group tell one another.

pub(crate) mod gate;
pub(crate) mod gathering;
pub(crate) mod job;
pub(crate) mod scouting;
pub(crate) mod scouts;
pub(crate) mod sharing;
pub(crate) mod signals;
pub(crate) mod worker;
