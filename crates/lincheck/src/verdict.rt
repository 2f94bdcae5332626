//! What a check finds.

use crate::status::Status;
use lin_history::{Placed, WholeOrder};

/// What a check found of a history.
#[derive(Debug, Drop)]
pub enum Verdict {
    /// It is linearizable, by this order.
    Yes(WholeOrder),
    /// It is not: the object of this index is the first without a linearization.
    No {
        /// The index of the object.
        object: usize,
        /// Its longest run, the first of those of the greatest length.
        run: Vec<Placed>,
    },
    /// It is not: the object of this index is the first without a linearization. Its longest run was not found before the time was
    /// up.
    NoInTime {
        /// The index of the object.
        object: usize,
    },
    /// The search of the object of this index met its limit, or the time was up; each object before it has a linearization.
    Undecided {
        /// The index of the object.
        object: usize,
    },
}

/// What a check found, and how many configurations it stored.
#[derive(Debug, Drop)]
pub struct Checked {
    /// What it found.
    pub verdict: Verdict,
    /// How many configurations were stored in the searches of the objects up to where the check ended; `None` where that is not
    /// known, which of no history is.
    pub stored: Option<u64>,
}

/// What a check of each object by itself found, and how many configurations it stored.
#[derive(Debug, Drop)]
pub struct CheckedEach {
    /// The status of each object, in the order of declaration: `Yes`, `No` or `Undecided`.
    pub statuses: Vec<Status>,
    /// How many configurations were stored in the searches of all objects; `None` where that is not known, which of no history
    /// is.
    pub stored: Option<u64>,
}
