//! The states of objects, and where each kind starts.
ghost use Rattle.std.specs.Prelude.{◌≡◌};
ghost use Rattle.lin_object.specs.Kinds.{state_at_start};

use crate::items::Items;
use crate::kind::Kind;
use crate::pairs::Pairs;
use std::alloc::Global;

/// The state of an object of some kind.
#[derive(PartialEq, Eq, Hash, Debug, Drop)]
pub enum ObjState {
    /// The value of a register.
    Register(i64),
    /// The number of a counter.
    Counter(i64),
    /// The items of a queue, oldest first.
    Queue(Items),
    /// The items of a stack, newest first.
    Stack(Items),
    /// The items of a set, in increasing order.
    Set(Items),
    /// The process that holds a mutex; `None` where it is free.
    Mutex(Option<u32>),
    /// The pairs of a map, in increasing order of their keys.
    Map(Pairs),
}

/// The state in which an object of the kind starts. `number` counts where the kind starts with a
/// number, and nowhere else. It takes no memory.
pub fn start_state(alloc: Global, kind: Kind, number: i64) -> ObjState
    ensures { result ≡ state_at_start kind number }
{
    match kind {
        Kind::Register => ObjState::Register(number),
        Kind::Counter => ObjState::Counter(number),
        Kind::Queue => ObjState::Queue(Items::none(alloc)),
        Kind::Stack => ObjState::Stack(Items::none(alloc)),
        Kind::Set => ObjState::Set(Items::none(alloc)),
        Kind::Mutex => ObjState::Mutex(None),
        Kind::Map => ObjState::Map(Pairs::none(alloc)),
    }
}
