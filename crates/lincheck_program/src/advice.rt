//! What helps where an object is not decided.

use lin_object::Kind;
use lincheck::Way;

/// The way, as it is told.
pub fn way_word(way: Way) -> &'static str {
    match way {
        Way::Ahead => "the first search",
        Way::Full => "the full search",
        Way::Core => "looking for a core",
        Way::Prefixes => "searches of prefixes",
    }
}

/// What makes histories of such an object quick to decide.
pub fn advice_for(kind: Kind) -> &'static str {
    match kind {
        Kind::Register => {
            "give each write a value of its own, and let fewer calls overlap or stay without a return"
        }
        Kind::Counter => {
            "let all clients add the same number, and let fewer calls overlap or stay without a return"
        }
        Kind::Queue => "give each item that goes in a value of its own, and let each deq return",
        Kind::Stack => "give each item that goes in a value of its own, and let each pop return",
        Kind::Set => "use more elements, which are searched apart, and let fewer calls overlap",
        Kind::Mutex =>
            "let fewer clients stop within a call, and end the recording when all have returned",
        Kind::Map => {
            "use more keys, which are searched apart, and give each put a value of its own"
        }
    }
}
