//! A first search, generic in the object and in the rules by which it passes over calls, and what rules of several kinds share.
//!
//! - `by_rules`: the search; `rules`: what it asks of them; `refuted_set`: what it has refuted.
//! - `identical_calls`: calls that an identical one stands for, or that come behind one that changes nothing.
//! - `calls_in_turn`: calls in an order, and the first that is not lifted; `needed_calls`: the calls by how early they are needed.

pub(crate) mod by_rules;
pub(crate) mod calls_in_turn;
pub(crate) mod identical_calls;
pub(crate) mod needed_calls;
pub(crate) mod refuted_set;
pub(crate) mod rules;
