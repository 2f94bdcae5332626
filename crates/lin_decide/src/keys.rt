//! Maps and sets by key. An operation of a map or a set touches one key, so the calls of each key are a problem of their own,
//! whose state has at most one pair or item. The least linearization of the whole is a merge of those of the parts.
//!
//! - `key_numbers`: which key each call has.
//! - `calls_of_key`, `key_calls`: the calls of one key, and of each.
//! - `part_order`, `part_orders`: what searches of one of them tell, and of all; `orders_told`: what those of all tell.
//! - `merge`: the orders of the keys, merged.
//! - `key_search`: the search by key.

mod calls_of_key;
mod key_calls;
mod key_numbers;
pub(crate) mod key_search;
mod merge;
mod orders_told;
pub(crate) mod part_order;
mod part_orders;
