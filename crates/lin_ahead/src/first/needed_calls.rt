//! The calls of a problem by how early they are needed.
ghost use Rattle.std.specs.Prelude.{◌≡◌, ◌≢◌, false, IfSome, IsTrue};
ghost use Rattle.lin_history.specs.Problems.Problem.{problem_of};
ghost use Rattle.lin_history.specs.Problems.Continuations.{has};
ghost use Rattle.lin_history.specs.Problems.Needs.{Needs};
ghost use Rattle.lin_ahead.specs.Behind.{NeedsBehind, AreOtherNeeds};

use crate::first::calls_in_turn::CallsInTurn;
use crate::items::item_calls::BEYOND;
use crate::kept::kept;
use crate::sight::CALLS_IN_SIGHT;
use lin_history::{NeedRows, Problem};
use lin_object::SeqObject;
use lin_search::Config;
use std::alloc::{AllocError, Global};

// A call, and the number from which on it is needed.
#[derive(Clone, Copy, Drop)]
struct Needed {
    by: u64,
    call: u16,
}

// The calls that may be needed, by these numbers, in the order of the numbers. Those that are not are left out, so that little
// is sorted where values are written one after another.
fn in_order(alloc: Global, by: &[u64]) -> Result<Vec<Needed>, AllocError> {
    let mut order = Vec::with_capacity(alloc, by.len())?;
    for call in 0..by.len() {
        if by[call] < BEYOND {
            order.push(Needed {
                by: by[call],
                call: kept(call),
            })?;
        }
    }
    order.sort_by_key(|one| one.by)?;
    Ok(order)
}

// The calls of the rows by how early they are needed.
pub(crate) fn needed_in_turn(alloc: Global, rows: &NeedRows) -> Result<CallsInTurn, AllocError> {
    let needed = in_order(alloc, rows.by())?;
    let mut order = Vec::with_capacity(alloc, needed.len())?;
    for one in &needed {
        order.push(one.call)?;
    }
    CallsInTurn::new(alloc, order, rows.by().len())
}

/// The first call in turn that the configuration does not have, but this one.
pub(crate) fn first_other<O: SeqObject>(
    needed: &CallsInTurn,
    config: &Config<O>,
    call: usize,
) -> Option<usize>
    ensures { IfSome result (λ other. (other ≢ call) × (has config.now.lifted other ≡ false)) }
{
    for count in 0..CALLS_IN_SIGHT {
        let other = needed.ahead(count)?;
        if other != call && !config.has(other) {
            return Some(other);
        }
    }
    None
}

// Whether it is known that the call needs the other one. `None` where one of them is no call.
fn needs<O: SeqObject>(
    problem: &Problem<O>,
    rows: &NeedRows,
    other: usize,
    call: usize,
) -> Option<bool>
    requires other { other ≢ call }
    requires rows { AreOtherNeeds (problem_of O.after O.State.eq O.Reply.eq problem.now) rows.now }
    ensures { IfSome result (λ needs. IsTrue needs → Needs
        (problem_of O.after O.State.eq O.Reply.eq problem.now) other call) }
{
    let by = *rows.by().get(other)?;
    let from = *rows.from().get(call)?;
    Some(by < from)
}

/// A call that this call needs and that the configuration does not have, where one is known. It looks at the first in turn.
pub(crate) fn left_out<O: SeqObject>(
    problem: &Problem<O>,
    rows: &NeedRows,
    needed: &CallsInTurn,
    config: &Config<O>,
    call: usize,
) -> Option<usize>
    requires { AreOtherNeeds (problem_of O.after O.State.eq O.Reply.eq problem.now) rows.now }
    ensures { IfSome result (λ other. NeedsBehind
        (problem_of O.after O.State.eq O.Reply.eq problem.now) config.now.lifted other call
        × (has config.now.lifted other ≡ false)) }
{
    let other = first_other(needed, config, call)?;
    if needs(problem, rows, other, call)? {
        Some(other)
    } else {
        None
    }
}
