//! One order for each object, joined in one order of the whole by the points of the calls.

ghost use Rattle.std.specs.Prelude.{◌≡◌, ℕ, ◌<◌, ◌++◌, List, Some, [], ◌∷◌, length, map, filter, slice_get, OnOk, IfOk};
ghost use Rattle.lin_history.specs.Problems.Linearizations.{IsLinearization};
ghost use Rattle.lin_history.specs.Locality.Whole.{IsLinearizationOfWhole};
ghost use Rattle.lin_history.specs.Verifier.Flags.{AreKnown};
ghost use Rattle.lin_history.specs.Locality.JoinedOrder.{IsJoined};
ghost use Rattle.lin_history.specs.Locality.Points.{placed_of, with_points, has_point, Rise, AreOrders};
ghost use Rattle.lin_history.specs.Locality.RecordedWhole.{whole_of, part_of};

use crate::locality::placed::{Placed, WholeOrder};
use crate::locality::placing::place_at;
use crate::problems::order::Order;
use crate::recorder::history::History;
use crate::recorder::indices::indices_of_all;
use std::alloc::{AllocError, Global};

// A call of an order with its point.
#[derive(Clone, Copy)]
struct Pointed {
    point: u32,
    placed: Placed,
}

// Appends the calls of one object's order, each with its point.
fn add_points(
    history: &History,
    placed: &[Placed],
    pointed: &mut Vec<Pointed>,
) -> Result<(), AllocError>
    requires { AreKnown (whole_of history.now) placed.now }
    ensures { OnOk result (pointed.new.items ≡ pointed.old.items
        ++ with_points (whole_of history.now) 0 placed.now) }
{
    let mut point = 0;
    for one in placed {
        point = point.max(history.call(one.call).called);
        pointed.push(Pointed {
            point,
            placed: *one,
        })?;
    }
    Ok(())
}

// Appends the calls of all the orders, each with its point.
fn add_orders(
    alloc: Global,
    history: &History,
    orders: &[Order],
    pointed: &mut Vec<Pointed>,
) -> Result<(), AllocError>
    requires none { pointed.old.items ≡ [] }
    requires count { length orders.now ≡ length history.now.objects }
    requires each { (object : ℕ) (order : List ℕ) → slice_get orders.now object ≡ Some order
        → IsLinearization (part_of history.now object) order }
    ensures { OnOk result (AreOrders (whole_of history.now) orders.now pointed.new.items) }
{
    let lists = indices_of_all(alloc, history)?;
    for object in 0..orders.len() {
        let indices = lists[object].as_slice();
        let placed = place_at(alloc, history, object, indices, &orders[object])?;
        add_points(history, placed.as_slice(), pointed)?;
    }
    Ok(())
}

// Orders the calls by their points; those of one point stay in the order that they had.
fn sort_by_point(pointed: &mut Vec<Pointed>) -> Result<(), AllocError>
    ensures rise { OnOk result (Rise 0 pointed.new.items) }
    ensures stable { (n : ℕ) → filter (has_point n) pointed.new.items
        ≡ filter (has_point n) pointed.old.items }
{
    pointed.sort_by_key(|one| one.point)?;
    Ok(())
}

// The calls without their points.
fn without_points(alloc: Global, pointed: &[Pointed]) -> Result<Vec<Placed>, AllocError>
    ensures { IfOk result (λ placed. placed.items ≡ map placed_of pointed.now) }
{
    let mut placed = Vec::with_capacity(alloc, pointed.len())?;
    for one in pointed {
        placed.push(one.placed)?;
    }
    Ok(placed)
}

/// One order for each object, joined in one order of the whole history: a linearization of the history, since each is one
/// of its object (locality: Herlihy and Wing 1990). The point of a call is the greatest number of a call event among the
/// calls up to and with it in its object's order; the calls are in the order of their points, and those of one point, which are of
/// one object, in the object's own order.
///
/// Conditions: there is one order for each object, in the order of declaration, and each is a linearization of its
/// object's part. It walks the calls once, steps each call of an order, and sorts the calls. `AllocError` where memory was
/// refused.
pub fn join(alloc: Global, history: &History, orders: &[Order]) -> Result<WholeOrder, AllocError>
    requires count { length orders.now ≡ length history.now.objects }
    requires each { (object : ℕ) (order : List ℕ) → slice_get orders.now object ≡ Some order
        → IsLinearization (part_of history.now object) order }
    ensures joined { IfOk result (λ joined. IsJoined (whole_of history.now) orders.now joined) }
    ensures whole { IfOk result (λ joined. IsLinearizationOfWhole (whole_of history.now) joined) }
{
    let mut pointed = Vec::with_capacity(alloc, history.call_count())?;
    add_orders(alloc, history, orders, &mut pointed)?;
    sort_by_point(&mut pointed)?;
    let placed = without_points(alloc, pointed.as_slice())?;
    Ok(WholeOrder::new(placed))
}
