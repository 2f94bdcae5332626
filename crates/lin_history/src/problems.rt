//! The part of a history on one object: its calls with their event numbers, its events in order, and
//! orders of its calls.

pub mod needs;
pub mod order;
pub mod problem;
pub mod timeline;

pub use needs::NeedRows;
pub use order::Order;
pub use problem::{Problem, ProblemCall, ProblemFault};
pub use timeline::ProblemEvent;
