//! The search of an object, cut into tasks.
//!
//! - `cutting`: the cut; `level`: the levels of configurations that a cut is made of; `task`: a task.

pub(crate) mod cutting;
pub(crate) mod level;
pub(crate) mod task;
