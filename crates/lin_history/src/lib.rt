//! Histories of concurrent objects, the part of a history on one object, and what makes an order of
//! its calls a linearization (Herlihy and Wing 1990).
//!
//! Four modules: `problems` has the part of a history on one object, which a search is given; `recorder`
//! builds histories from their events; `locality` joins one order for each object in an order of the
//! whole; `verifier` shows whether an order of the whole is a linearization.
//!
//! What it promises the crates above, by the contracts of `Builder::call`, `ret`, `fail`, `info` and `finish`, `History::problem`,
//! `place`, `join`, `verify`, `locality_law`:
//!
//! - The builder accepts exactly the events with which a well-formed history can go on. Each refusal is the first in its order that
//!   applies, and leaves the builder unchanged.
//! - `Builder::find` finds an object by its name. `call_on`, `ret_on`, `fail_on` and `info_on` take what it found, so that a reader
//!   looks up each name once.
//! - `fail` takes the pending call out of the history, and its process goes on; after `info` the process has ended and its call
//!   stays pending. Neither has an event number or takes memory.
//! - `History::problem` is the part on one object: its calls in the order of their call events, with the event numbers of the
//!   whole; `part` is the same where the indices of the calls are known (`calls_by_object`), so that parts can be made one at a
//!   time. `Problem::with_calls` is the problem of any calls whose events are in order, such as some of a problem's calls, or the
//!   same with other operations.
//! - `join` takes one *linearization* for each object and gives one of the whole, by sorting the calls by their points. The
//!   definition of the whole knows nothing of the split by object. `locality_law`: the whole has a linearization exactly where each
//!   object has one (Herlihy and Wing's theorem).
//! - `place` gives the calls of one object's order by their indices in the history, each with its reply.
//! - `verify` answers exactly whether an order is a linearization of the whole. It shares no code with a search.
//!
//! Why it is so:
//!
//! - `History::object` lends the name. A stored copy would have to be proved equal to its key. *To change:* that proof.
//! - A call that failed is marked, and dropped at the end. Taking it out at once would shift all later indices at each failure. *To
//!   change:* a map of indices.
//! - `Order` and `WholeOrder` have no public field. In the logic a `Vec` carries its capacity, so two orders would hardly ever be
//!   equal. *To change:* all contracts that compare orders.
//! - A builder's value is a `Recording`, not a history. Its refusals depend on failed calls and ended processes, which a history
//!   does not have. *To change:* the definition of the refusals.
//! - How a call went on is shown by the next event of its process that is not a call. So a failed call cannot take a later return.
//!   *To change:* nothing simpler was found.
//! - `Builder::call` accepts an operation of another kind; the reading of a text refuses it before. The builder's result is still
//!   right: such a call has no step, so no order with it is legal. *To change:* one more refusal, and its place in the order.
//! - Orders are joined by a stable sort of points. A tie is only between calls of one object, and keeps their order.
#![tactic(auto)]

mod limits;
mod locality;
mod problems;
mod recorder;
mod verifier;

pub use limits::{MAX_CALLS, MAX_CALLS_ON_OBJECT, MAX_NAME_BYTES, MAX_OBJECTS};
pub use locality::{Placed, WholeOrder, join, locality_law, place};
pub use problems::{NeedRows, Order, Problem, ProblemCall, ProblemEvent, ProblemFault};
pub use recorder::{BuildFault, Builder, CallInfo, FoundObject, History, ObjectInfo, is_name};
pub use verifier::verify;
