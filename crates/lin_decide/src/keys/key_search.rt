//! The search by key.

ghost use Rattle.std.specs.Prelude.{◌≡◌, ◌⊎◌, IfOk};
ghost use Rattle.lin_history.specs.Problems.Lists.{IsLeast};
ghost use Rattle.lin_history.specs.Problems.Linearizations.{IsLinearization};
ghost use Rattle.lin_history.specs.Problems.AnyProblem.{any_problem};
ghost use Rattle.lin_search.specs.Told.{IsRightOf, IsToldUnless};
ghost use Rattle.lin_decide.specs.Keys.KeyedCalls.{AreKeyNumbers, GoesByKey};
ghost use Rattle.lin_decide.specs.Keys.Products.{AreListsOfKeys};
ghost use Rattle.lin_decide.specs.Keys.PartOrder.{AreFullOrders, ArePartOrders, HasAnswered, IsSpentOnKey};

use crate::keys::calls_of_key::CallsOfKey;
use crate::keys::key_calls::calls_of_keys;
use crate::keys::key_numbers::{KeyNumbers, key_numbers};
use crate::keys::merge::{end_of_completed, merged};
use crate::keys::orders_told::OrdersTold;
use crate::keys::part_orders::orders_of_parts;
use lin_history::{Order, Problem};
use lin_object::{AnyObject, map_law, set_law};
use lin_search::{Stop, Told};
use std::alloc::{AllocError, Global};

// The least linearization of the whole: the orders of the keys, merged, up to the last call that has returned.
fn whole_order(
    alloc: Global,
    problem: &Problem<AnyObject>,
    known: &KeyNumbers,
    lists: &[CallsOfKey],
    orders: &[Order],
) -> Result<Order, AllocError>
    requires keys { AreKeyNumbers problem.now known.now.keys.keys known.now.numbers.items }
    requires calls { AreListsOfKeys known.now.keys.keys known.now.numbers.items lists.now }
    requires orders { AreFullOrders (any_problem problem.now) lists.now orders.now }
    ensures { IfOk result (IsLeast (IsLinearization (any_problem problem.now))) }
{
    map_law();
    set_law();
    let _calls = problem.calls();
    let mut calls = merged(alloc, known.numbers.as_slice(), orders)?;
    let end = end_of_completed(problem, calls.as_slice());
    calls.truncate(end);
    Ok(Order::new(calls))
}

// What the orders of the keys tell of the whole: nothing only where they tell nothing.
fn told_of_orders(
    alloc: Global,
    problem: &Problem<AnyObject>,
    known: &KeyNumbers,
    lists: &[CallsOfKey],
    orders: OrdersTold,
) -> Result<Told, AllocError>
    requires keys { AreKeyNumbers problem.now known.now.keys.keys known.now.numbers.items }
    requires calls { AreListsOfKeys known.now.keys.keys known.now.numbers.items lists.now }
    requires orders { ArePartOrders (any_problem problem.now) lists.now orders }
    ensures told { IfOk result (IsRightOf (any_problem problem.now)) }
    ensures nothing { IfOk result (IsToldUnless (orders ≡ OrdersTold.Nothing)) }
{
    map_law();
    set_law();
    match orders {
        OrdersTold::Found(orders) => {
            let order = whole_order(alloc, problem, known, lists, orders.as_slice())?;
            Ok(Told::Found(order))
        }
        OrdersTold::Refuted => Ok(Told::Refuted),
        OrdersTold::Nothing => Ok(Told::Nothing),
    }
}

/// The least linearization of a problem that starts with an empty map or an empty set, from searches of the calls of each key
/// as a problem of its own; or that it has none, where one of them has none. Nothing is told only of a problem that does not go by
/// key: of another kind, or that does not start empty, or where a call is no operation of the kind; and where the calls of a key
/// have more runs than a search of them may make lifts, or the stop answered. None of these searches makes more lifts than the limit
/// allows, where there is one; the stop is asked before each lift of them. `AllocError` where memory was refused.
///
/// The time is that of the searches, and O(n log n) for n calls, however many keys there are.
pub fn search_by_key<S: Stop>(
    alloc: Global,
    problem: &Problem<AnyObject>,
    limit: Option<u64>,
    stop: &mut S,
) -> Result<Told, AllocError>
    ensures told { IfOk result (IsRightOf (any_problem problem.now)) }
    ensures nothing { IfOk result (IsToldUnless ((GoesByKey problem.now → ⊥)
        ⊎ IsSpentOnKey problem.now limit (HasAnswered S.follows S.tells stop.old stop.new))) }
    ensures stop { S.follows stop.old stop.new }
{
    let Some(known) = key_numbers(alloc, problem)? else {
        return Ok(Told::Nothing);
    };
    let numbers = known.numbers.as_slice();
    let lists = calls_of_keys(alloc, numbers, known.keys.len())?;
    let orders = orders_of_parts(alloc, problem, lists.as_slice(), limit, stop)?;
    told_of_orders(alloc, problem, &known, lists.as_slice(), orders)
}
