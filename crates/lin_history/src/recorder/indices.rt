//! The indices of the calls of one object, and of all objects in one walk.

ghost use Rattle.std.specs.Prelude.{◌≡◌, ℕ, ◌<◌, ◌++◌, Some, [], ◌∷◌, length, slice_get, OnOk, IfOk};
ghost use Rattle.lin_history.specs.Locality.JoinedOrder.{indices_from};

use crate::recorder::history::History;
use std::alloc::{AllocError, Global};

/// The indices of the calls on the object. `AllocError` where memory was refused.
pub(crate) fn indices_on(
    alloc: Global,
    history: &History,
    object: usize,
) -> Result<Vec<usize>, AllocError>
    ensures { IfOk result (λ indices. indices.items ≡ indices_from object 0 history.now.calls) }
{
    let mut indices = Vec::new(alloc);
    for index in 0..history.call_count() {
        if history.call(index).object as usize == object {
            indices.push(index)?;
        }
    }
    Ok(indices)
}

// That many lists with nothing in them, one for each object.
fn empty_lists(alloc: Global, count: usize) -> Result<Vec<Vec<usize>>, AllocError>
    ensures count { IfOk result (λ lists. length lists.items ≡ count) }
    ensures empty { IfOk result (λ lists. (object : ℕ) (v : _)
        → slice_get lists.items object ≡ Some v → v.items ≡ []) }
{
    let mut lists = Vec::with_capacity(alloc, count)?;
    for _ in 0..count {
        lists.push(Vec::new(alloc))?;
    }
    Ok(lists)
}

// Appends the index to the object's list.
fn add_index(lists: &mut [Vec<usize>], object: usize, index: usize) -> Result<(), AllocError>
    requires { object < length lists.old }
    ensures count { length lists.new ≡ length lists.old }
    ensures own { OnOk result ((v : _) (w : _) → slice_get lists.old object ≡ Some v
        → slice_get lists.new object ≡ Some w → w.items ≡ v.items ++ index ∷ []) }
    ensures others { OnOk result ((other : ℕ) → (other ≡ object → ⊥)
        → slice_get lists.new other ≡ slice_get lists.old other) }
{
    lists[object].push(index)?;
    Ok(())
}

/// For each object the indices of its calls, by one walk over the calls. `AllocError` where memory was refused.
pub(crate) fn indices_of_all(
    alloc: Global,
    history: &History,
) -> Result<Vec<Vec<usize>>, AllocError>
    ensures count { IfOk result (λ lists. length lists.items ≡ length history.now.objects) }
    ensures each { IfOk result (λ lists. (object : ℕ) (v : _)
        → slice_get lists.items object ≡ Some v
        → v.items ≡ indices_from object 0 history.now.calls) }
{
    let mut lists = empty_lists(alloc, history.object_count())?;
    for index in 0..history.call_count() {
        add_index(
            lists.as_mut_slice(),
            history.call(index).object as usize,
            index,
        )?;
    }
    Ok(lists)
}
