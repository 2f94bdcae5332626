//! The search for a linearization of one problem: configurations, and the depth-first search over them
//! (Wing and Gong 1993; Lowe 2017).
//!
//! What it promises the crates above, by the contracts of `search`, `search_passing_over`, `search_over`, `search_alone`,
//! `search_for_order`, `longest_run`, `Memo`, `Entries`:
//!
//! Generic in any lawful sequential object.
//!
//! - A `Config` is a set of calls and a state. `child` is the configuration after one more call, and hands on that it is
//!   *reachable*.
//! - `Entries` are the call and return entries of a problem, linked both ways. `first_minimal` and `next_minimal` give the calls
//!   that no remaining call precedes, in order. `unlift` leaves the entries as they were.
//! - `search` from a reachable configuration answers `Found`, with the least completion; `Refuted`, only if there is none, with the
//!   exact number and first call of the longest continuations; `Undecided`, only if there are more continuations than the limit
//!   allows lifts; or `Stopped`.
//! - This holds over every `Memo`: one that forgets, one that is always busy, one that others write to. A memo takes only a
//!   configuration that is reachable and refuted, with its exact longest (`Refutation`), and gives it out only for the same
//!   problem.
//! - `search_passing_over` has the answers of `search`, but passes over calls that add nothing and so stores fewer configurations:
//!   a call that *repeats* one which is not lifted (the same operation, and both returned with the same reply, the earlier one
//!   first, or both are pending); a pending one behind a completed one of its operation that is left and can follow; and all calls
//!   after one that changes nothing. No clause says which of them it passes over.
//! - `search_over` searches from the root over an `OwnMemo` that the caller keeps. After a refutation over a new memo, that memo
//!   holds every reachable configuration exactly once. `search_alone` makes the memo itself.
//! - `Told` is what searches tell that look only for a linearization: the least one, that there is none, or nothing (`IsRightOf`
//!   says when that is right). `search_for_order` is the full search in this form, with a limit and a stop. A stop is asked before
//!   each lift, and every 4,096 steps between lifts (`ask_between`). `AtTimes` polls it every 256th call.
//! - `longest_run` gives the first of the longest runs of a problem without a linearization, by asking the memo once for each call,
//!   and searching what it does not know.
//!
//! A search walks a `Path`: the configuration it is at, the entries, and a frame for each lifted call with what takes its step back
//! (`frames_of` names the states). The contract of each step says what the calls tried so far show (`specs/Progress.antt`). A memo
//! of one's own needs `look` and `note_parts`; `lin_tests/src/tests/fakes.rt` has one that keeps nothing.
//!
//! Why it is so:
//!
//! - The search asks a memo once whether it names the very problem, and then uses calls that compare nothing. Equal addresses prove
//!   nothing, and `Problem::same` walks over both problems. The calls have default bodies, so a user's memo need not know them. *To
//!   change:* a proof from addresses.
//! - One inner search takes memo, limit and stop on its `Terms`; `search`, `search_alone` and `longest_run` are built on it. Over a
//!   memo that keeps nothing it is the search without a memo, with which tests compare. *To change:* a second proof of 30 seconds,
//!   which showed nothing more.
//! - The search keeps a vector of frames instead of recursing, and changes one configuration in place. A frame keeps what takes a
//!   step back, and neither a state nor a set. *To change:* only what makes the levels, which are all that the lemmas speak of.
//! - A set of calls is a window of words with hash and sum carried along. Its model is a list of flags. *To change:* that type
//!   alone.
//! - Only minimal calls are tried, read off the list of entries in constant time. The public `child` has no list and asks the calls
//!   before, the nearest first.
//! - `note` takes a `Refutation` by value, so a configuration is moved and never copied. A note inserts without asking first:
//!   storing again changes nothing. A memo says which configurations it holds: the count rests on that.
//! - `search_alone` counts a pair that the memo could not take as out of memory: its answer would be right, its count not. `search`
//!   goes on.
//! - Stored numbers of calls have 16 bits. If the limit on calls grows, the casts are no longer proved, so nothing wraps unseen.
//! - The longest run is read off the memo that refuted the object, one look a call.
//! - Calls that add nothing are passed over after the first 10,000 steps of a search, not at once. So a small object stores each
//!   reachable configuration, as `--stats` shows, and small searches pay nothing. A second search after a first with a limit would
//!   walk the whole path again: 17 % more instructions for a sequential register, instead of 5 %. It is one inner search
//!   (`Terms::passes_over`); what is said about the contents of the memo has the premise that nothing is passed over.
//! - Which earlier call a call repeats is found once for each search, among the last 32 that were open when it was called: a hint;
//!   the test is asked again. So is the completed call of its operation behind which a pending call need not be tried
//!   (`adds_nothing`): that test makes one step, and only for pending calls. Two pending `lock`s are both tried, since the states
//!   after them differ.
//! - What a lift calls is always inlined. The functions were chosen by trying groups of them without it. *To change:* no proof.
#![tactic(auto)]

mod call_entries;
mod call_set;
mod config;
mod depth_first;
mod entries;
mod links;
mod longest;
mod longest_runs;
mod memo;
mod needless_calls;
mod outcome;
mod own_memo;
mod own_search;
mod path;
mod refutation;
mod stop;
mod told;

pub use call_set::CallSet;
pub use config::Config;
pub use depth_first::{look_at, note_at, search, search_passing_over};
pub use entries::Entries;
pub use longest::Longest;
pub use longest_runs::longest_run;
pub use memo::{Memo, Noted};
pub use needless_calls::{IdenticalCalls, adds_nothing, ends_the_list, repeats};
pub use outcome::Outcome;
pub use own_memo::OwnMemo;
pub use own_search::{search_alone, search_for_order, search_over};
pub use path::{Frame, Path, Position};
pub use refutation::Refutation;
pub use stop::{AtTimes, NoStop, Stop};
pub use told::Told;
