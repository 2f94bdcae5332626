//! Groups of calls of which it was asked before whether a call has a run with them all. All of it is a hint.
//!
//! A run with a group has each part of it. What is not told of a group is not asked again, but it may be told of a part.

use crate::part_search::RunsTold;
use lin_parts::{flags_of, has_flag};
use std::alloc::{AllocError, Global};

// Calls, by their numbers, and whether a run was found that has them all, or nothing was told.
#[derive(Drop)]
struct Group {
    calls: Vec<usize>,
    has_run: bool,
}

/// Groups that were asked of for one call.
#[derive(Drop)]
pub(crate) struct AskedGroups {
    call: usize,
    groups: Vec<Group>,
}

impl AskedGroups {
    /// No groups.
    pub(crate) fn new(alloc: Global) -> Self {
        AskedGroups {
            call: 0,
            groups: Vec::new(alloc),
        }
    }

    /// How many there are.
    pub(crate) fn len(&self) -> usize {
        self.groups.len()
    }

    /// Whether a run is known that has all of these calls, which are different ones up to the call; or `false` where it was asked
    /// and not told. `None` where it was not asked.
    pub(crate) fn told_of(
        &self,
        alloc: Global,
        call: usize,
        calls: &[usize],
    ) -> Result<Option<bool>, AllocError> {
        if call != self.call || self.groups.is_empty() {
            return Ok(None);
        }
        let flags = flags_of(alloc, calls, call.saturating_add(1))?;
        for group in &self.groups {
            if count_of(flags.as_slice(), group.calls.as_slice()) == calls.len() {
                return Ok(Some(group.has_run));
            }
        }
        Ok(None)
    }

    /// Adds what was told of a group of the call. Those of another call go.
    pub(crate) fn add(
        &mut self,
        alloc: Global,
        call: usize,
        calls: &[usize],
        told: RunsTold,
    ) -> Result<(), AllocError> {
        let has_run = match told {
            RunsTold::SomeRun => true,
            RunsTold::Nothing => false,
            RunsTold::NoRun | RunsTold::Ended => return Ok(()),
        };
        if call != self.call {
            self.call = call;
            self.groups = Vec::new(alloc);
        }
        let calls = Vec::from_slice(alloc, calls)?;
        self.groups.push(Group { calls, has_run })?;
        Ok(())
    }
}

// How many calls of the group have a flag.
fn count_of(flags: &[bool], group: &[usize]) -> usize {
    group.iter().filter(|c| has_flag(flags, **c)).count()
}
