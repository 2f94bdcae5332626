//! Counters.
//!
//! - `rows`: the limits of `get`s, by one pass over the events for each sum.
//! - `rules`: the rules of a first search; `sums`: adds that are too much for a `get`; `hints`: which `get` to ask of, and which calls
//!   to count.

pub(crate) mod hints;
pub(crate) mod rows;
pub(crate) mod rules;
pub(crate) mod sums;
