//! Sequential objects: what each operation does to a state, and what it replies.
//!
//! - `object`: the trait `SeqObject`, which the search is generic over, and its laws.
//! - `any`: `AnyObject`, the object that the checker judges histories by. It lists the kinds.
//! - `kinds`: a file for each kind, with its operations by name and what each of them does.
//! - `kind`, `op`, `reply`, `state`: what declarations, calls and returns are made of; `printed`: how operations and replies are shown.
//! - `step_tables`: which operations look at the process, and which calls change nothing.
//! - `step_back`: what takes a step back that was made on a state in place.
//! - `items`: the items that queues, stacks and sets hold.
//! - `pairs`: the keys and values that maps hold.
//!
//! `specs/Kinds` has a file for each kind too, with its table and the law of its runs, and
//! `proofs/kinds` shows that the table keeps the law. Another kind is one file in each of the
//! three, and a line in each list of the kinds.
//!
//! What it promises the crates above, by the contracts of `AnyObject::step`, `read_op`, `write_op`, `write_reply`, `push_op`,
//! `push_reply`, `SeqObject`, `lawful`, `queue_law` and its six sisters:
//!
//! - A sequential object is a trait, `SeqObject`. A partial function `after` says what `step` answers: the next state and the
//!   reply, or that there is no step. Its laws: the equalities of objects, states, operations and replies are equivalences; equal
//!   states hash alike; equal objects step alike on equal states and operations; a copy of a state equals it.
//! - `AnyObject` is lawful, and its `after` is the table of the seven kinds. An operation of another kind has no step; nor has a
//!   sum outside 64 bits, a lock that is held, or an unlock by another process. A law over whole runs holds of each kind's table:
//!   for a queue, what went in is what came out, followed by what is left.
//! - `step_in_place` makes a step in the state itself if its reply is the recorded one. If there is no such step, or memory is
//!   refused, the state is unchanged. `take_back` restores exactly the state before, and asks for no memory.
//! - `ignores_process` says whether a step is that of any process, `changes_nothing` whether it leaves each state as it is.
//!   `AnyObject` answers both exactly, by a table; an object with no body of its own knows neither.
//! - Names, printed forms and refusals are exact. After a refusal a vector that was to be written to is unchanged. Steps and copies
//!   of registers, counters and mutexes take no memory.
//!
//! Why it is so:
//!
//! - `SeqObject` asks for `Eq`, `Hash` and `Drop`, not for `Send` and `Sync`. As supertraits, those two would keep the toolchain
//!   from proving a generic `impl Memo`; `SharedObject` adds them. *To change:* a toolchain that accepts them.
//! - States with lists are types of their own (`Items`, `Pairs`) whose model is the list. A set's items and a map's keys are in
//!   increasing order, so equal states are equal lists. *To change:* the types alone.
//! - What takes a step back is the state before it, or a change: one enum for all objects, since an associated type has no default.
//!   So an object with no body of its own takes steps back by a copy, and so does a set or a map that has an item or a key twice,
//!   to which no step leads.
//! - `Items` have room in front, so that one type serves queues, stacks and sets: an item is put first, or taken from there, with
//!   no other moved.
//! - `take_back` may refuse. Capacity never shrinks, but no clause says so. So it checks whether there is room, asks for no memory,
//!   and answers `AllocError` if there is none. *To change:* a model that shows the capacity.
//! - `may_allocate` says of which states a step may take memory. So registers, counters and mutexes promise that they take none.
//! - What an object knows about a step is two methods of `SeqObject` whose default bodies know nothing, so users' objects need not
//!   have them.
#![tactic(auto)]

mod any;
mod items;
mod kind;
mod kinds;
mod object;
mod op;
mod pairs;
mod printed;
mod reply;
mod state;
mod step_back;
mod step_tables;

pub use any::AnyObject;
pub use items::Items;
pub use kind::{Kind, kind_of_name};
pub use kinds::counter::counter_law;
pub use kinds::map::map_law;
pub use kinds::mutex::mutex_law;
pub use kinds::queue::queue_law;
pub use kinds::register::register_law;
pub use kinds::set::set_law;
pub use kinds::stack::stack_law;
pub use object::{SeqObject, SharedObject, lawful};
pub use op::{Op, OpFault, is_op, read_op, write_op};
pub use pairs::{Pair, Pairs};
pub use printed::{push_op, push_reply};
pub use reply::{Reply, write_reply};
pub use state::{ObjState, start_state};
pub use step_back::{Change, StepBack};
