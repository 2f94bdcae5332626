//! The calls that concern an item, of each item of a queue.

ghost use Rattle.std.specs.Prelude.{◌≡◌, [], true, IfOk, OnOk, slice_get};
ghost use Rattle.std.specs.Ordering.{int_eq};
ghost use Rattle.indexmap.specs.IndexMap.{get};
ghost use Rattle.lin_ahead.specs.Queues.ItemRows.{IsRowAfter, AreRowsAfter, ArePlaced, AreEmpty};
ghost use Rattle.lin_ahead.specs.Queues.Slots.{concerns_at, is_open_taker, AreItemRows};

use crate::items::calls::{item_put, item_taken};
use crate::items::item_calls::item_of;
use indexmap::IndexMap;
use lin_history::ProblemCall;
use lin_object::{Op, Reply};
use std::alloc::{AllocError, Global};

/// An item, and the calls that concern it.
#[derive(Drop)]
pub(crate) struct ItemRow {
    /// The item.
    pub item: i64,
    /// The calls that put it in, returned with it, or are pending dequeues, in rising order.
    pub calls: Vec<usize>,
}

impl ItemRow {
    // The row of the item, with no call yet.
    fn new(alloc: Global, item: i64) -> Self
        ensures item { result.item ≡ item }
        ensures calls { result.calls.items ≡ [] }
    {
        ItemRow {
            item,
            calls: Vec::new(alloc),
        }
    }

    // Whether it is the row of the item.
    fn is_of(&self, item: i64) -> bool
        ensures { result ≡ int_eq self.now.item item }
    {
        self.item == item
    }

    // Puts the call behind the others.
    fn push(&mut self, call: usize) -> Result<(), AllocError>
        ensures { OnOk result (IsRowAfter call true self.old self.new) }
    {
        self.calls.push(call)?;
        Ok(())
    }
}

// Adds a row of the item, where there is none.
fn add_row(
    alloc: Global,
    rows: &mut Vec<ItemRow>,
    places: &mut IndexMap<i64, usize>,
    item: i64,
) -> Result<(), AllocError>
    requires placed { ArePlaced rows.old.items (get int_eq places.old) }
    requires empty { AreEmpty rows.old.items }
    ensures placed { OnOk result (ArePlaced rows.new.items (get int_eq places.new)) }
    ensures empty { OnOk result (AreEmpty rows.new.items) }
{
    if places.get(&item).is_some() {
        return Ok(());
    }
    places.insert(item, rows.len())?;
    rows.push(ItemRow::new(alloc, item))?;
    Ok(())
}

// The place that is noted for the item.
fn place_of(places: &IndexMap<i64, usize>, item: i64) -> Option<usize>
    ensures { result ≡ get int_eq places.now item }
{
    places.get(&item).copied()
}

// Puts the call, which concerns this item alone, to the item's row.
fn add_to(
    rows: &mut Vec<ItemRow>,
    places: &IndexMap<i64, usize>,
    item: i64,
    call: usize,
) -> Result<(), AllocError>
    requires { ArePlaced rows.old.items (get int_eq places.now) }
    ensures { OnOk result (AreRowsAfter call (λ v. int_eq v item) rows.old.items rows.new.items) }
{
    let Some(place) = place_of(places, item) else {
        return Ok(());
    };
    if place >= rows.len() {
        return Ok(());
    }
    if !rows[place].is_of(item) {
        return Ok(());
    }
    rows[place].push(call)?;
    Ok(())
}

// Puts the call, which concerns each item, to all rows.
fn add_to_all(rows: &mut Vec<ItemRow>, call: usize) -> Result<(), AllocError>
    ensures { OnOk result (AreRowsAfter call (λ v. true) rows.old.items rows.new.items) }
{
    for place in 0..rows.len() {
        rows[place].push(call)?;
    }
    Ok(())
}

// Whether it is a dequeue that is pending.
fn is_open_taker(call: &ProblemCall<Op, Reply>) -> bool
    ensures { result ≡ is_open_taker call.now.op call.now.returned }
{
    matches!((&call.op, &call.returned), (Op::Dequeue, None))
}

// Puts the call of this number, if there is one, to the rows of the items that it concerns.
fn add_call(
    rows: &mut Vec<ItemRow>,
    places: &IndexMap<i64, usize>,
    calls: &[ProblemCall<Op, Reply>],
    number: usize,
) -> Result<(), AllocError>
    requires { ArePlaced rows.old.items (get int_eq places.now) }
    ensures { OnOk result (AreRowsAfter number (λ v. concerns_at v (slice_get calls.now number))
        rows.old.items rows.new.items) }
{
    let Some(call) = calls.get(number) else {
        return Ok(());
    };
    if let Some(item) = item_of(call) {
        add_to(rows, places, item, number)?;
    } else if is_open_taker(call) {
        add_to_all(rows, number)?;
    }
    Ok(())
}

// Puts each of the calls to the rows of the items that it concerns.
fn add_calls(
    rows: &mut Vec<ItemRow>,
    places: &IndexMap<i64, usize>,
    calls: &[ProblemCall<Op, Reply>],
) -> Result<(), AllocError>
    requires placed { ArePlaced rows.old.items (get int_eq places.now) }
    requires empty { AreEmpty rows.old.items }
    ensures { OnOk result (AreItemRows calls.now rows.new.items) }
{
    for number in 0..calls.len() {
        add_call(rows, places, calls, number)?;
    }
    Ok(())
}

/// The rows of these items, each once. It takes O(n) for n calls and items, and as many steps more as there are rows for each
/// dequeue that is pending.
pub(crate) fn item_rows(
    alloc: Global,
    calls: &[ProblemCall<Op, Reply>],
    items: &[i64],
) -> Result<Vec<ItemRow>, AllocError>
    ensures { IfOk result (λ rows. AreItemRows calls.now rows.items) }
{
    let mut rows = Vec::new(alloc);
    let mut places = IndexMap::new(alloc);
    for item in items {
        add_row(alloc, &mut rows, &mut places, *item)?;
    }
    add_calls(&mut rows, &places, calls)?;
    Ok(rows)
}

/// For each call that puts an item in, or else for each that returned with one, its row; nothing where there are no rows. It is a hint.
pub(crate) fn rows_by_call(
    alloc: Global,
    calls: &[ProblemCall<Op, Reply>],
    rows: &[ItemRow],
    puts: bool,
) -> Result<Vec<Option<usize>>, AllocError> {
    if rows.is_empty() {
        return Ok(Vec::new(alloc));
    }
    let mut row_of = vec![in alloc; None; calls.len()]?;
    for row in 0..rows.len() {
        for call in rows[row].calls.as_slice() {
            let item = if puts {
                item_put(calls, *call)
            } else {
                item_taken(calls, *call)
            };
            match row_of.get_mut(*call) {
                Some(own) if item.is_some() => *own = Some(row),
                _ => {}
            }
        }
    }
    Ok(row_of)
}
