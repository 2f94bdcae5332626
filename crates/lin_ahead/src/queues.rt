//! Queues that start empty.
//!
//! - `rows`: what is known ahead; `late_enqueues`: by what enqueues are too late.
//! - `item_rows`: the calls on each item that repeats; `counted_rows`: the same as short lists for counts.
//! - `slots`: which enqueues to ask of; `early_enqueues`: those that would come out too early.
//! - `inner_takers`: dequeues within others of the same item; `hurried_enqueues`: enqueues whose item would have to be out too soon by them.
//! - `lacking_enqueues`: items that went in too seldom.
//! - `rules`: the rules of a first search; `needs`: which calls a call needs; `takers`: calls that leave too few dequeues.

pub(crate) mod counted_rows;
pub(crate) mod early_enqueues;
pub(crate) mod hurried_enqueues;
pub(crate) mod inner_takers;
pub(crate) mod item_rows;
pub(crate) mod lacking_enqueues;
pub(crate) mod late_enqueues;
pub(crate) mod needs;
pub(crate) mod rows;
pub(crate) mod rules;
pub(crate) mod slots;
pub(crate) mod takers;
