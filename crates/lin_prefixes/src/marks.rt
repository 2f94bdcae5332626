//! Which calls of a problem stay as they are in a part, and which may stay out, so that each is known at once.

ghost use Rattle.std.specs.Prelude.{◌≡◌, ◌<◌, ℕ, List, IfOk, IsTrue, length, false, slice_index_or};
ghost use Rattle.lin_history.specs.Problems.AnyProblem.{any_problem};
ghost use Rattle.lin_prefixes.specs.Freed.{IsFreed};
ghost use Rattle.lin_prefixes.specs.Marked.{AreMarked};

use crate::open_takers::{item_put, items_taken};
use indexmap::IndexSet;
use lin_history::Problem;
use lin_object::AnyObject;
use lin_parts::{flags_of, has_flag};
use std::alloc::{AllocError, Global};

/// Calls that are to keep their returns, dequeues or pops that are to stay out, and the items with which these returned.
#[derive(Drop)]
pub(crate) struct Marks {
    kept: Vec<bool>,
    takers: Vec<bool>,
    items: IndexSet<i64>,
}

impl Marks {
    /// The marks of these calls. `AllocError` where memory was refused.
    pub(crate) fn new(
        alloc: Global,
        problem: &Problem<AnyObject>,
        kept: &[usize],
        takers: &[usize],
    ) -> Result<Self, AllocError>
        ensures { IfOk result (AreMarked (any_problem problem.now) kept.now takers.now) }
    {
        let count = problem.len();
        Ok(Marks {
            kept: flags_of(alloc, kept, count)?,
            takers: flags_of(alloc, takers, count)?,
            items: items_taken(alloc, problem, takers)?,
        })
    }

    /// Whether the call is to keep its return.
    pub(crate) fn is_kept(&self, call: usize) -> bool
        ensures { result ≡ slice_index_or self.now.kept.items call false }
    {
        has_flag(self.kept.as_slice(), call)
    }

    /// Whether the call is one of the takers.
    pub(crate) fn is_taker(&self, call: usize) -> bool
        ensures { result ≡ slice_index_or self.now.takers.items call false }
    {
        has_flag(self.takers.as_slice(), call)
    }

    /// Whether the call is one of the takers, or may put in what one of them took.
    pub(crate) fn may_be_freed(&self, problem: &Problem<AnyObject>, call: usize) -> bool
        requires { call < length problem.now.calls }
        ensures { (kept takers : List ℕ) → AreMarked (any_problem problem.now) kept takers self.now
            → IsFreed (any_problem problem.now) takers call → IsTrue result }
    {
        if self.is_taker(call) {
            return true;
        }
        match item_put(problem, call) {
            Some(item) => self.items.contains(&item),
            None => false,
        }
    }
}
