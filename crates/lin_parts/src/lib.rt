//! Parts of a problem: problems of some of its calls, and how these calls and lists of them are told (this project's own).
//!
//! - `part`: the problem of some of a problem's calls, and whether a problem is that.
//! - `call_flags`: calls by flags.
//! - `call_lists`: lists of calls, by their numbers in a part and in the whole.
//! - `taken_event`: events that a problem takes or refuses.
//!
//! Nothing is searched here. What an order of a part says of the whole, by the numbers of its calls, is in `specs/`.
#![tactic(auto)]

mod call_flags;
mod call_lists;
mod part;
mod taken_event;

pub use call_flags::{flags_of, has_flag};
pub use call_lists::{fill, own_names, with_names};
pub use part::{is_part, part_of, same_call};
pub use taken_event::was_taken;
