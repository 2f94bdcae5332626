//! Some calls of a problem, to be looked at by themselves.

ghost use Rattle.std.specs.Prelude.{◌≡◌, []};

use std::alloc::{AllocError, Global};

/// A moment from which on only one value of a key is looked at.
#[derive(Clone, Copy, PartialEq, Eq, Debug)]
pub struct Later {
    /// The number of the event: a call that was called after it counts only where it puts or finds the value.
    pub event: u32,
    /// The value.
    pub value: i64,
}

/// A key of a map, of which only some values are looked at.
#[derive(Clone, Copy, PartialEq, Eq, Debug)]
pub struct MapKey {
    /// The key.
    pub key: i64,
    /// Whether it is looked at too that the key has no value.
    pub nothing: bool,
    /// In a window: from when on only one value is looked at, where that is so. All calls on the key count up to then.
    pub later: Option<Later>,
}

/// Some calls of a problem, as they stood after one of its events, and on which values they are. That the other calls may be
/// left out has to be shown: those that are neither on the values nor change anything, and rounds of a mutex.
#[derive(Debug, Drop)]
pub struct Selection {
    /// The number of the event.
    pub event: u32,
    /// The key whose values these are, of a map of which one key alone is looked at.
    pub key: Option<MapKey>,
    /// The values: items of a queue, a stack or a set, values of a register, keys of a map, processes of a mutex.
    pub values: Vec<i64>,
    /// The numbers of the calls, in increasing order.
    pub calls: Vec<usize>,
    /// The first calls of the rounds of a mutex that are left out.
    pub firsts: Vec<usize>,
    /// The last calls of these rounds, in the same order.
    pub lasts: Vec<usize>,
}

impl Selection {
    /// The selection that leaves no round out.
    pub fn new(
        alloc: Global,
        event: u32,
        key: Option<MapKey>,
        values: Vec<i64>,
        calls: Vec<usize>,
    ) -> Self
        ensures given { (result.event ≡ event) × (result.key ≡ key) × (result.values ≡ values)
            × (result.calls ≡ calls) }
        ensures rounds { (result.firsts.items ≡ []) × (result.lasts.items ≡ []) }
    {
        Selection {
            event,
            key,
            values,
            calls,
            firsts: Vec::new(alloc),
            lasts: Vec::new(alloc),
        }
    }

    /// A copy of it. `AllocError` where memory was refused.
    pub(crate) fn copied(&self, alloc: Global) -> Result<Self, AllocError> {
        Ok(Selection {
            event: self.event,
            key: self.key,
            values: Vec::from_slice(alloc, self.values.as_slice())?,
            calls: Vec::from_slice(alloc, self.calls.as_slice())?,
            firsts: Vec::from_slice(alloc, self.firsts.as_slice())?,
            lasts: Vec::from_slice(alloc, self.lasts.as_slice())?,
        })
    }
}
