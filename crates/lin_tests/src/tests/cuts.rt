//! Cuts: into which tasks a search is cut.

use super::searches::{Part, writes_and_a_read_of};
use lin_object::AnyObject;
use lin_workers::{Task, cut};
use std::alloc::{AllocError, Global};

// The paths of the levels of three writes that overlap one another.
const NO_CALL: [&[usize]; 1] = [&[]];

const ONE_CALL: [&[usize]; 3] = [&[0], &[1], &[2]];

const TWO_CALLS: [&[usize]; 6] = [&[0, 1], &[0, 2], &[1, 0], &[1, 2], &[2, 0], &[2, 1]];

// Whether these are the paths of the tasks.
fn are_paths(tasks: &[Task<AnyObject>], paths: &[&[usize]]) -> bool {
    if tasks.len() != paths.len() {
        return false;
    }
    for i in 0..tasks.len() {
        let task = &tasks[i];
        if task.path.calls() != paths[i] {
            return false;
        }
    }
    true
}

// Whether the cut where so many tasks are wanted has these paths.
fn has_paths(
    alloc: Global,
    problem: &Part,
    want: usize,
    paths: &[&[usize]],
) -> Result<bool, AllocError> {
    let tasks = cut(alloc, problem, want)?;
    Ok(are_paths(tasks.as_slice(), paths))
}

// Whether the cuts of the problem are those of its three writes, where none reaches the third level.
fn are_cuts(alloc: Global, problem: &Part) -> Result<bool, AllocError> {
    Ok(
        has_paths(alloc, problem, 1, &NO_CALL)?
            && has_paths(alloc, problem, 2, &ONE_CALL)?
            && has_paths(alloc, problem, 4, &TWO_CALLS)?
            && has_paths(alloc, problem, 8, &TWO_CALLS)?,
    )
}

#[test]
fn a_cut_is_at_the_first_level_that_is_wide_enough_or_else_the_widest(rt: HostRuntime) {
    let problem = writes_and_a_read_of(rt.alloc(), 9);
    assert!(rt; matches!(are_cuts(rt.alloc(), &problem), Ok(true)));
}
