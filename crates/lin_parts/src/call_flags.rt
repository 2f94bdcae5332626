//! Calls by flags: whether a call is in a list is known at once.

ghost use Rattle.std.specs.Prelude.{◌≡◌, ◌<◌, IfOk, length, ℕ, true, false, slice_index_or};
ghost use Rattle.lin_history.specs.Problems.Lists.{In};

use std::alloc::{AllocError, Global};

/// A flag for each number below n, set where it is in the list. `AllocError` where memory was refused.
pub fn flags_of(alloc: Global, calls: &[usize], n: usize) -> Result<Vec<bool>, AllocError>
    ensures length { IfOk result (λ flags. length flags.items ≡ n) }
    ensures set { IfOk result (λ flags. (c : ℕ) → slice_index_or flags.items c false ≡ true
        → In c calls.now) }
    ensures each { IfOk result (λ flags. (c : ℕ) → In c calls.now → c < n
        → slice_index_or flags.items c false ≡ true) }
{
    let mut flags = vec![in alloc; false; n]?;
    for c in calls {
        if *c < n {
            flags[*c] = true;
        }
    }
    Ok(flags)
}

/// Whether the call has a flag.
pub fn has_flag(flags: &[bool], call: usize) -> bool
    ensures { result ≡ slice_index_or flags.now call false }
{
    call < flags.len() && flags[call]
}
