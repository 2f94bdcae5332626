//! How an explanation shows a state.
ghost use Rattle.std.specs.Prelude.{◌≡◌, ◌++◌, codes, string_bytes, take, IfOk, OnOk};
ghost use Rattle.lin_explain.specs.StateText.{joined, joined_pairs, more_text, listed, listed_pairs, pairs_of, state_text, holder_text};

use lin_object::{Items, ObjState, Pair, Pairs};
use std::alloc::{AllocError, Global};

/// The most items of a state that are shown.
pub const MAX_SHOWN: usize = 16;

/// The items, in a vector. Each step copies what is left of them, so it takes a time that grows with the square of their
/// number: an object has at most 16,384, and an explanation shows one state.
pub(crate) fn items_in(alloc: Global, items: &Items) -> Result<Vec<i64>, AllocError>
    ensures { IfOk result (λ all. all.items ≡ items.now) }
{
    let mut all = Vec::new(alloc);
    let mut rest = items.copy(alloc)?;
    while let Some(item) = rest.first() {
        all.push(item)?;
        rest = rest.without_first(alloc)?;
    }
    Ok(all)
}

// Appends the items, with a comma between two of them.
fn write_joined(out: &mut String, items: &[i64]) -> Result<(), AllocError>
    ensures { OnOk result (string_bytes out.new ≡ string_bytes out.old ++ joined items.now) }
{
    let Some((first, rest)) = items.split_first() else {
        return Ok(());
    };
    write!(out, "{first}")?;
    for item in rest {
        write!(out, ", {item}")?;
    }
    Ok(())
}

// Appends how many of so many items are not shown, where there are any.
fn write_more(out: &mut String, count: usize) -> Result<(), AllocError>
    ensures { OnOk result (string_bytes out.new ≡ string_bytes out.old ++ more_text count) }
{
    if count <= MAX_SHOWN {
        return Ok(());
    }
    let more = count - MAX_SHOWN;
    write!(out, ", .. and {more} more")
}

/// The first of them, so many at most.
pub(crate) fn front<T>(items: &[T], most: usize) -> &[T]
    ensures { result.now ≡ take most items.now }
{
    if items.len() <= most {
        items
    } else {
        &items[..most]
    }
}

// Appends the first items, and how many more there are.
fn write_listed(out: &mut String, items: &[i64]) -> Result<(), AllocError>
    ensures { OnOk result (string_bytes out.new ≡ string_bytes out.old ++ listed items.now) }
{
    write_joined(out, front(items, MAX_SHOWN))?;
    write_more(out, items.len())
}

// The pairs of these keys, in the order of the keys.
fn pairs_of(alloc: Global, keys: &[i64], pairs: &Pairs) -> Result<Vec<Pair>, AllocError>
    ensures { IfOk result (λ found. found.items ≡ pairs_of keys.now pairs.now) }
{
    let mut found = Vec::new(alloc);
    for key in keys {
        if let Some(value) = pairs.value_at(*key) {
            found.push(Pair { key: *key, value })?;
        }
    }
    Ok(found)
}

// Appends the pairs, with a comma between two of them.
fn write_joined_pairs(out: &mut String, pairs: &[Pair]) -> Result<(), AllocError>
    ensures { OnOk result (string_bytes out.new ≡ string_bytes out.old ++ joined_pairs pairs.now) }
{
    let Some((first, rest)) = pairs.split_first() else {
        return Ok(());
    };
    let key = first.key;
    let value = first.value;
    write!(out, "{key}: {value}")?;
    for pair in rest {
        let key = pair.key;
        let value = pair.value;
        write!(out, ", {key}: {value}")?;
    }
    Ok(())
}

// Appends the first pairs, and how many more there are.
fn write_listed_pairs(out: &mut String, pairs: &[Pair]) -> Result<(), AllocError>
    ensures { OnOk result (string_bytes out.new ≡ string_bytes out.old ++ listed_pairs pairs.now) }
{
    write_joined_pairs(out, front(pairs, MAX_SHOWN))?;
    write_more(out, pairs.len())
}

// Appends the items in square brackets.
fn write_row(alloc: Global, out: &mut String, items: &Items) -> Result<(), AllocError>
    ensures { OnOk result (string_bytes out.new
        ≡ string_bytes out.old ++ codes "[" ++ listed items.now ++ codes "]") }
{
    let items = items_in(alloc, items)?;
    out.push_str("[")?;
    write_listed(out, items.as_slice())?;
    out.push_str("]")
}

// Appends the items in braces.
fn write_set(alloc: Global, out: &mut String, items: &Items) -> Result<(), AllocError>
    ensures { OnOk result (string_bytes out.new
        ≡ string_bytes out.old ++ codes "{" ++ listed items.now ++ codes "}") }
{
    let items = items_in(alloc, items)?;
    out.push_str("{")?;
    write_listed(out, items.as_slice())?;
    out.push_str("}")
}

// Appends the pairs of these keys in braces.
fn write_map(alloc: Global, out: &mut String, keys: &[i64], pairs: &Pairs) -> Result<(), AllocError>
    ensures { OnOk result (string_bytes out.new ≡ string_bytes out.old ++ codes "{"
        ++ listed_pairs (pairs_of keys.now pairs.now) ++ codes "}") }
{
    let found = pairs_of(alloc, keys, pairs)?;
    out.push_str("{")?;
    write_listed_pairs(out, found.as_slice())?;
    out.push_str("}")
}

// Appends who holds a mutex, or that it is free.
fn write_holder(out: &mut String, holder: Option<u32>) -> Result<(), AllocError>
    ensures { OnOk result (string_bytes out.new ≡ string_bytes out.old ++ holder_text holder) }
{
    match holder {
        Some(process) => write!(out, "held by {process}"),
        None => out.push_str("free"),
    }
}

/// Appends the state: of a map the pairs of these keys alone. `AllocError` where memory was refused.
pub(crate) fn write_state(
    alloc: Global,
    out: &mut String,
    keys: &[i64],
    state: &ObjState,
) -> Result<(), AllocError>
    ensures { OnOk result (string_bytes out.new
        ≡ string_bytes out.old ++ state_text keys.now state.now) }
{
    match state {
        ObjState::Register(value) => write!(out, "{value}"),
        ObjState::Counter(value) => write!(out, "{value}"),
        ObjState::Queue(items) => write_row(alloc, out, items),
        ObjState::Stack(items) => write_row(alloc, out, items),
        ObjState::Set(items) => write_set(alloc, out, items),
        ObjState::Mutex(holder) => write_holder(out, *holder),
        ObjState::Map(pairs) => write_map(alloc, out, keys, pairs),
    }
}
