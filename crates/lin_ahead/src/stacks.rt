//! Stacks that start empty.
//!
//! - `rows`: what is known ahead.
//! - `rules`: the rules of a first search; `hints`: what lies on the stack; `takers`: calls that leave too few pops.
//! - `crossed_pushes`: items that lie above one which is popped first.

pub(crate) mod crossed_pushes;
pub(crate) mod hints;
pub(crate) mod rows;
pub(crate) mod rules;
pub(crate) mod takers;
