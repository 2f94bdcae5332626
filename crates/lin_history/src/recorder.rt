//! Histories as they are recorded: a builder takes one event after another, and gives the history.

pub mod builder;
pub mod fault;
pub mod found;
pub mod history;
pub mod indices;
pub mod name;

pub use builder::Builder;
pub use fault::BuildFault;
pub use found::FoundObject;
pub use history::{CallInfo, History, ObjectInfo};
pub use name::is_name;
