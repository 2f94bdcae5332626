//! What a check of one object finds.

use lin_history::Order;
use std::alloc::AllocError;

/// What a check found of one object.
#[derive(Drop)]
pub enum ObjectVerdict {
    /// It is linearizable: its least linearization.
    Yes(Order),
    /// It is not: its longest run, the first of those of the greatest length.
    No(Order),
    /// The search of a task met the limit, or the time was up, before an answer.
    Undecided,
}

/// How a search of an object by the calling thread alone ended.
#[derive(Drop)]
pub enum Alone {
    /// With this verdict, which is not `Undecided`, and with so many configurations stored.
    Decided(ObjectVerdict, u64),
    /// Its patience was over, with so many lifts.
    Stalled(u64),
    /// It met the limit.
    LimitMet,
    /// The time was up, with so many configurations stored.
    TimeUp(u64),
}

/// Why a check ended without a verdict.
#[derive(Clone, Copy, PartialEq, Eq, Debug)]
pub enum CheckFault {
    /// The calling thread was refused memory.
    Memory,
}

impl From<AllocError> for CheckFault {
    fn from(_refused: AllocError) -> CheckFault {
        CheckFault::Memory
    }
}
