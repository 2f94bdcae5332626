//! Configurations that used fewer pending calls are never worse: a refutation of one holds for all that used more (this project's own).
//!
//! The search lifts completed calls first, and tries pending ones only as a block between two of them.
//!
//! - `least`: the least linearization, by asking of configurations whether they have a completion.
//! - `bearing`: whether a configuration has one; `completed_calls` and `pending_calls`: what is tried at a node; `borne`: what is noted
//!   on the way back.
//! - `node`: the configurations that a search has open; `states`: those of a block, found by their states; `search`: what it knows;
//!   `judged`: what of it later searches are given; `known`: configurations found by keys; `seen` and `verdict`: what is known of one.
//! - `twins`: pending calls that are identical.
//! - `sums`: what may be passed over of a counter; `items`: of a queue or a stack.
//! - `any_adds`: orders of a counter's completed calls, whatever the pending ones add.
//! - `front`: which calls may be next; `laws`: the law that all this rests on.
//!
//! What it promises the crates above, by the contracts of `fewer_law`, `least_linearization`, `shows_linearization`, `Rules`, `SumRules`,
//! `ItemRules`, `is_refuted_with_any_adds`:
//!
//! - `fewer_law`: take two configurations with the same completed calls and equal states, such that each pending call that the
//!   first used was used by the second too. Then what can follow the second can follow the first, and completes it if it completes
//!   the second. For pending calls precede nothing, and whether a list is legal depends on the state alone. This holds for every
//!   object.
//! - So what is refuted with fewer is refuted with more. `least_linearization` lifts completed calls first, since in the natural
//!   order the large sets come first. A configuration to which a completed call leads is a *base*; its *block* is what pending
//!   calls alone lead to from it. A configuration of the block is passed over for one of the same block that used fewer. If no
//!   completed call leads from the block to a configuration with a completion, the base has none. Only bases are remembered, since
//!   within a block the other one may still be open.
//! - A base that has a completion is remembered with the largest set of used calls with which this completion still goes on. That
//!   holds downwards, as a refutation holds upwards. Of identical pending calls the last one leaves that set on the way back, since
//!   the first ones are tried first.
//! - The least linearization comes from asking at each configuration which is the least call that leads to one with a completion.
//!   `Found` is the least linearization; `Refuted` is returned only if there is none. If it tells nothing, no clause says why, nor
//!   how many steps it takes. No longest run is read off it: of what is passed over only the completions are known.
//!   `shows_linearization` asks only whether there is one, which may be known long before the least.
//! - Identical pending calls are used in the order of their call events, and a completed call that changes nothing is tried alone.
//!   `has_many_pending` says when the search is a good bet.
//! - What more may be passed over for some kind of object stands in `Rules`, each method of which says what it shows of
//!   completions: that a configuration has none; that a completion which begins with a pending call and a completed one has its
//!   like that begins with the completed one; that a configuration with a completion has one that begins with a completed call; that a
//!   completion which begins with a pending call has one that is shorter. The search itself knows no kind. Rules are made for one
//!   problem (`suits`). `NoRules` shows nothing.
//! - `SumRules` are those of a counter. A `get` finds all that was added before it: a configuration has no completion if what it holds,
//!   with what is left and precedes a `get` that is left, is more than that returned with, even with all that is left, may stand in
//!   front of it and takes something off; or less, the other way round. Where all adds have one sign, an add shows only in a `get`: a
//!   pending call directly in front of an add can stand behind it, so pending adds are tried only where a completed `get` may be next.
//!   Which `get` to ask about is a hint (`sum_hints.rt`; of both signs, the next ones).
//! - `ItemRules` are those of a queue or a stack. An item with which no call that is left returned need not be put in: if a pending call
//!   took it, neither need be made; and whoever took another item, or found none, did so without it. The least linearization may
//!   have such calls all the same: they are candidates there, and what follows them is asked for without further ones.
//! - `is_refuted_with_any_adds` answers yes only if a counter from which nothing is taken off has no linearization, whatever its
//!   pending calls add. Pending adds may then make up any difference in front of a `get`, so with the same completed calls it is
//!   never worse to have grown by less, and one number for each set of completed calls is enough. It goes over these sets in
//!   layers, by how many calls they have, and gives up where a layer has more than 512.
//!
//! Why it is so:
//!
//! - It goes over blocks, because pending calls alone lead back to a state that was left, with more of them used, while that
//!   configuration is still being searched. So what is met in one block is compared there, and only bases are remembered. *To
//!   change:* the proof that a block is covered.
//! - No longest run is read off it. Of a configuration that is passed over it is known that it has no completion, but not how long
//!   its continuations are. Longest runs come from prefixes, which ask for linearizations alone.
//! - What it judged is handed on from one turn to the next (`Judged`), but not the path on which it stopped: that is gone again in
//!   about as many steps as it has calls. *To change:* a search that is kept with its nodes.
//! - Its notes are whole sets. A pending call that stays out keeps every word of a set from its own on, so a noted set of 4,000
//!   calls takes up to 63 words: that is where 79 and 136 megabytes go (registers of 4,000 calls, of which 30 % never return).
//!   Lists of the pending calls used, beside the first completed call left, would take less. *To change:* `Known`, whose value is a
//!   list of configurations, and the law that compares their sets.
//! - A counter is first asked whether it has no linearization whatever its pending calls add (`any_adds`). A fault that shows after
//!   many pending adds could otherwise be explained by any of the ways in which these add up, and a search by blocks tries them
//!   all. If pending adds may make up any difference, one number for each set of completed calls is enough. It takes whole layers
//!   of these sets, without looking ahead to a `get`, so that the proof is one simulation; with 16 clients a layer is too wide. Of
//!   groups of calls it is not asked, since these mostly have a run then.
#![tactic(auto)]

mod any_adds;
mod bearing;
mod borne;
mod completed_calls;
mod front;
mod items;
mod judged;
mod known;
mod laws;
mod least;
mod node;
mod pending_calls;
mod rules;
mod search;
mod seen;
mod states;
mod sum_hints;
mod sums;
mod twins;
mod verdict;
mod waiting;

pub use any_adds::is_refuted_with_any_adds;
pub use items::ItemRules;
pub use judged::Judged;
pub use laws::fewer_law;
pub use least::{has_many_pending, least_linearization, shows_linearization};
pub use rules::{NoRules, Rules};
pub use sums::SumRules;
pub use waiting::Waiting;
