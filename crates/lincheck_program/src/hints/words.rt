//! The words that are allowed.

use lin_object::{Kind, read_op};

/// The events.
pub const EVENTS: &str = "events are object, call, return, fail and info";

/// The kinds.
pub const KINDS: &str = "kinds are register, counter, queue, stack, set, mutex and map";

/// The results.
pub const RESULTS: &str = "a result is \"ok\", a whole number, true, false or null";

/// What stands for a text.
pub const NUMBERS: &str =
    "values are whole numbers, so number your texts (docs/FORMAT.md, Strings and other values)";

/// The kind with its article.
pub fn kind_word(kind: Kind) -> &'static str {
    match kind {
        Kind::Register => "a register",
        Kind::Counter => "a counter",
        Kind::Queue => "a queue",
        Kind::Stack => "a stack",
        Kind::Set => "a set",
        Kind::Mutex => "a mutex",
        Kind::Map => "a map",
    }
}

/// The operations of a kind.
pub fn operations_of(kind: Kind) -> &'static str {
    match kind {
        Kind::Register => "write, read and cas",
        Kind::Counter => "add and get",
        Kind::Queue => "enq and deq",
        Kind::Stack => "push and pop",
        Kind::Set => "add, remove and contains",
        Kind::Mutex => "lock, unlock and try_lock",
        Kind::Map => "put, get and delete",
    }
}

/// What arguments an operation of a kind takes.
pub fn arguments_of(kind: Kind, op: &str) -> &'static str {
    if read_op(kind, op, &[]).is_ok() {
        "no argument"
    } else if read_op(kind, op, &[0]).is_ok() {
        "one whole number: \"args\":[1]"
    } else {
        "two whole numbers: \"args\":[1,2]"
    }
}
