//! Registers, maps whose calls are on one key, and sets whose calls are on one item.
//!
//! - `shown_values`: the value that a call may write, and that it found; `call_values`: all that it shows of values, for a search; `rows`:
//!   what is known ahead; `needed_pairs`: two calls that need each other; `taken_values`: calls that took a value away; `balance`: more
//!   of them than made what they found; `ranks`: values that come about once at most; `broken_ranks`: two calls that cannot be so by them.
//! - `owners`: the calls of which one wrote what a call found; `writers`: those that may write each value; `breaking_calls`: those by
//!   which a value is not there all the time; `clusters`: the calls that one call owns, by their events;
//!   `narrowing`: fewer owners, by such calls.
//! - `key_value`: the calls of a map on one key, as calls of a register that holds the key's value; `item_value`: those of a set on one
//!   item, as calls of a register that tells whether the item is in.
//! - `rules`: the rules of a first search; `due_rules`: what follows from calls that are due; `due`: which are; `calls_left`: the completed
//!   calls that are left, by their returns; `stranded`: what follows from calls that are left to one owner;
//!   `crossings`: which are, and what stands between them; `last_breaks`: the calls that do not leave a value, by their returns.

pub(crate) mod balance;
pub(crate) mod breaking_calls;
pub(crate) mod broken_ranks;
pub(crate) mod call_values;
pub(crate) mod calls_left;
pub(crate) mod clusters;
pub(crate) mod crossings;
pub(crate) mod due;
pub(crate) mod due_rules;
pub(crate) mod item_value;
pub(crate) mod key_value;
pub(crate) mod last_breaks;
pub(crate) mod narrowing;
pub(crate) mod needed_pairs;
pub(crate) mod owners;
pub(crate) mod ranks;
pub(crate) mod rows;
pub(crate) mod rules;
pub(crate) mod shown_values;
pub(crate) mod stranded;
pub(crate) mod taken_values;
pub(crate) mod writers;
