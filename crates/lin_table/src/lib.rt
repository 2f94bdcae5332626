//! The table of refuted configurations that workers share: shards, which one hand at a time takes out.
//!
//! - `shard`: the pairs of one shard.
//! - `steps`: a shard is taken out, looked at or added to, and given back.
//! - `hand`: what a worker steps with; `table`: the table as its callers see it.
//! - `shared_memo`: a table and a hand, as the memo of a search.
//! - `rule`: what holds of the shards' words and of all hands' views, whatever the order of their steps.
//!
//! What it promises the crates above, by the contracts of `Table::new`, `Table::over`, `Table::look`, `Table::note`,
//! `Table::total`, `Shard`, `SharedMemo`:
//!
//! A word and a shard for each of 1 to 256 shards. A shard is an `OwnMemo` of the table's problem. A configuration's *home* is the
//! shard whose number is the sum of its calls' numbers modulo the number of shards. What follows holds whatever the threads do.
//!
//! - A look or a note takes the home out by an exchange of its word from 0 to 1, and gives it back by a store of 0. If a shard is
//!   not got in 64 tries, `look` misses and `note` answers `Busy`. Nobody waits.
//! - `look` answers something only for the asker's own problem, and then the configuration is refuted there with exactly this
//!   longest.
//! - `note` answers `New` if it stored the configuration, in its home alone; the hand has one entry more. After `Stranger`,
//!   `Known`, `Busy` and `NoRoom` nothing has changed.
//! - A table may stand over a memo that is only read (`Table::over`): all hands know what it has, and no shard stores it again.
//! - `total` takes all hands back. Their entries name each place of each shard once, so the number stored is exact, and at most
//!   that of the reachable configurations.
//! - A table with a hand is a memo for any search (`SharedMemo`).
//!
//! Why it is so:
//!
//! - A shard is the slot's own value, so no dummy stands in while it is out. A hand holds a `Badge`, not a seat: a seat's type
//!   would name the shard's lifetime.
//! - The rule compares places and values over a list of pairs for each shard. What is global in it is a sum over the views.
//! - `total` adds up modulo 2^64 before it knows how many hands there are; then the sum is known to be small.
//! - A `SharedMemo` says that it holds every configuration. Anything more would have to survive what other hands do. So `total`
//!   gives only an upper bound: at most the reachable ones.
//! - A table borrows the memo that it is over; `Table::new` is a table over none.
//! - A word and a shard share no cache line of their own: measured, it saves nothing.
#![tactic(auto)]

mod end;
mod gather;
mod hand;
mod rule;
mod shard;
mod shared_memo;
mod steps;
mod table;

pub use hand::Hand;
pub use shard::Shard;
pub use shared_memo::SharedMemo;
pub use table::{HandsMissing, STORED_BOUND, Table};
