//! Words and laws that several ways to an answer share (this project's own).
//!
//! - `turns`: which calls precede others, and whether the calls of each process come one after another.
//! - `shares`: what the calls of a counter add, upwards or downwards.
//!
//! The definitions say besides what calls do to the items of a queue or a stack, how many of some calls are so, which calls may
//! stand in for others in runs of the first calls, and when the steps of a problem are those of the tables.
#![tactic(auto)]

mod shares;
mod turns;

pub use shares::{share_in, share_of};
pub use turns::{are_in_turn, precedes};
