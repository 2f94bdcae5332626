//! What takes a step back that was made on a state in place.
use crate::pairs::Pair;

/// What a step changed of a state.
#[derive(Clone, Copy, PartialEq, Eq, Hash, Debug, Drop)]
pub enum Change {
    /// Nothing.
    Nothing,
    /// The value or the number, which was this one.
    Value(i64),
    /// The holder, which was this process; `None` where there was none.
    Holder(Option<u32>),
    /// An item was put last.
    PutLast,
    /// An item was put first.
    PutFirst,
    /// This item, the first, was taken out.
    TookFirst(i64),
    /// An item was put in at this place.
    PutItem(usize),
    /// This item was taken out of this place.
    TookItem(usize, i64),
    /// A pair was put in at this place.
    PutPair(usize),
    /// This pair, at this place, was replaced by another.
    ReplacedPair(usize, Pair),
    /// This pair was taken out of this place.
    TookPair(usize, Pair),
}

/// What takes a step back: the state before it, or what it changed.
#[derive(Debug, Drop)]
pub enum StepBack<S> {
    /// The state before.
    Before(S),
    /// What was changed.
    Changed(Change),
}
