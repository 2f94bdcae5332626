//! What searches of all parts tell.

ghost use Rattle.std.specs.Prelude.{◌<◌, ℕ, IfOk, length};
ghost use Rattle.lin_history.specs.Problems.AnyProblem.{any_problem};
ghost use Rattle.lin_decide.specs.Keys.Merging.{order_at};
ghost use Rattle.lin_decide.specs.Keys.PartOrder.{ArePartOrders, AreToldUnless, HasAnswered, IsSpentOnPart};
ghost use Rattle.lin_parts.specs.Parts.{AreSomeCalls};

use crate::keys::calls_of_key::CallsOfKey;
use crate::keys::key_calls::calls_at;
use crate::keys::orders_told::OrdersTold;
use crate::keys::part_order::order_of_part;
use lin_history::Problem;
use lin_object::AnyObject;
use lin_search::{Stop, Told};
use std::alloc::{AllocError, Global};

/// What searches of all parts tell, one after another: an order of each, or that one has no linearization; nothing where that is not known
/// of one. `AllocError` where memory was refused.
pub(crate) fn orders_of_parts<S: Stop>(
    alloc: Global,
    problem: &Problem<AnyObject>,
    lists: &[CallsOfKey],
    limit: Option<u64>,
    stop: &mut S,
) -> Result<OrdersTold, AllocError>
    requires { (k : ℕ) → k < length lists.now
        → AreSomeCalls (any_problem problem.now) (order_at lists.now k) }
    ensures told { IfOk result (ArePartOrders (any_problem problem.now) lists.now) }
    ensures nothing { IfOk result (AreToldUnless ((k : ℕ) × (k < length lists.now)
        × IsSpentOnPart (any_problem problem.now) (order_at lists.now k) limit
        (HasAnswered S.follows S.tells stop.old stop.new))) }
    ensures stop { S.follows stop.old stop.new }
{
    let mut orders = Vec::with_capacity(alloc, lists.len())?;
    for key in 0..lists.len() {
        let kept = calls_at(lists, key);
        match order_of_part(alloc, problem, kept, limit, stop)? {
            Told::Found(order) => orders.push(order)?,
            Told::Refuted => return Ok(OrdersTold::Refuted),
            Told::Nothing => return Ok(OrdersTold::Nothing),
        }
    }
    Ok(OrdersTold::Found(orders))
}
