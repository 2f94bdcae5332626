//! What queues and stacks share: calls that put items in and take them. The calls of a stack are read as those on a queue.
//!
//! - `calls`: what one call is.
//! - `item_calls`: what the calls show of one item: how many put it in, and when it was taken out; `each_item`: the same of each item,
//!   by one pass over the calls; `numbers`: the two numbers of a call; `rows`: what is known ahead of items.
//! - `owed_replies`: the replies that are owed.
//! - `late_pushes`: pushes and enqueues that are too late; `late_hints`: by which calls to ask that.
//! - `takers`: calls that leave too few takers for what must be taken out; `taker_hints`: by which calls to ask that.
//! - `impossible_items`: items that a call returned with before any call put them there; `taken_twice`: items that two calls returned
//!   with, though no two put them there.

pub(crate) mod calls;
pub(crate) mod each_item;
pub(crate) mod impossible_items;
pub(crate) mod item_calls;
pub(crate) mod late_hints;
pub(crate) mod late_pushes;
pub(crate) mod numbers;
pub(crate) mod owed_replies;
pub(crate) mod rows;
pub(crate) mod taken_twice;
pub(crate) mod taker_hints;
pub(crate) mod takers;
