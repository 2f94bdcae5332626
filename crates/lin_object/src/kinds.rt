//! The kinds of object, a file for each: its operations by name, and what each step of it does.

use crate::reply::Reply;
use crate::state::ObjState;

pub(crate) mod counter;
pub(crate) mod map;
pub(crate) mod mutex;
pub(crate) mod queue;
pub(crate) mod register;
pub(crate) mod set;
pub(crate) mod stack;

/// What a step answers: the next state and the reply, or `None` where the object has no step.
pub(crate) type Answer = Option<(ObjState, Reply)>;
