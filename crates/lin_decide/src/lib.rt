//! What decides a problem: all ways to an order of it, or to that it has none (this project's own).
//!
//! - `ladder`: every way to the answer for one problem, and which of them is gone when.
//! - `begun`: what searches of one problem found out of its configurations, for later ones.
//! - `shown`: what shows without a search that there is no linearization.
//! - `crossed_calls`: two calls of which each would have to come before the other.
//! - `keys`: maps and sets, part by part: the calls of each key are a problem of their own.
//!
//! What it promises the crates above, by the contracts of `Ladder`, which is a `Decide` (`lin_effort`), and of `search_by_key`:
//!
//! - `Found` is the least linearization of the problem; `Refuted` is returned only if there is none. Nothing is told where the effort
//!   or the work comes to its end, or the stop answers.
//! - What shows without a search is asked before one: an item that came too early or was taken twice, what was in vain, and calls
//!   that *cross*: one returned before the other was called, and yet needs it. `some_cross` answers exactly whether there are such.
//! - In a problem with many pending calls, a search that tells nothing of a part is followed by one that tries pending calls only
//!   between completed ones (`lin_fewer`). A counter with many of them is refuted at once if it has no linearization whatever these
//!   add.
//! - A queue or a stack with pending calls has no linearization where it has none without its lost items (`lin_lost`): asked once, after a
//!   first search that told nothing. `shows_order` tells whether a problem has any, though not the least: by an order of what is left by a
//!   guess, with the lost items put in again, which is checked on the whole; or by a search that tries pending calls only between completed
//!   ones and asks for no more.
//! - A search by key makes a problem of each key of a map or a set that starts empty, with the event numbers of the whole, and
//!   searches each by `search_first` and, if that tells nothing, by `search_for_order`; if many calls of the key are pending,
//!   `least_linearization` comes between the two.
//! - It merges the keys' orders by the least next call, with each key's dropped pending calls behind its order. This is locality, with
//!   keys in place of objects.
//! - It tells nothing only of a problem that does not go by key, or if some key's calls have more runs than a search of them may make
//!   lifts, or if the stop answered.
//!
//! Why it is so:
//!
//! - What was found out is not looked for twice: each round, and each later decision of the same problem (`decide_from`), passes over the
//!   configurations that were refuted, and takes what searches by blocks judged. The contracts say that what is handed on is right, not
//!   that it is used: two cases of `lin_tests` are not answered within their limits without it.
//! - Crossing calls are looked for in each problem before a search, and not within it. Otherwise a queue with two exchanged results
//!   would make a first search go through all orders between them.
//! - `--progress` counts the search by blocks as searches of prefixes. It is tried between two searches of one part, so to tell it
//!   apart each search of a part would have to tell the watcher, which `lin_decide` does not know. *To change:* a watcher in `Ladder`.
#![tactic(auto)]

mod begun;
mod crossed_calls;
mod keys;
mod ladder;
mod shown;

pub use begun::Begun;
pub use keys::key_search::search_by_key;
pub use ladder::Ladder;
