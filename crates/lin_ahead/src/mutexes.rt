//! Mutexes: what their calls show before any search, and the rule by which a first search passes calls over.
//!
//! - `sections`: what each acquire begins, in the order of their returns; `releases`: two acquires between whose returns the first
//!   one's process calls no unlock; `strays`: unlocks of processes that do not hold it; `holders`: until which call an acquire's
//!   process holds it; `rows`: what is known ahead of a mutex's problem; `rules`: the rule.

pub(crate) mod holders;
pub(crate) mod releases;
pub(crate) mod rows;
pub(crate) mod rules;
pub(crate) mod sections;
pub(crate) mod strays;
