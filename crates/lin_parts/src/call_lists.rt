//! Lists of calls, by their numbers in a part and in the whole.

ghost use Rattle.std.specs.Prelude.{◌≡◌, ◌<◌, ◌≤◌, IfOk, IfSome, length, ℕ};
ghost use Rattle.lin_history.specs.Problems.Lists.{In};
ghost use Rattle.lin_parts.specs.Parts.{IsFilled, name, named};

use crate::call_flags::flags_of;
use std::alloc::{AllocError, Global};

/// Puts behind the calls those below n that they lack, in increasing order. `AllocError` where memory was refused.
pub fn fill(alloc: Global, calls: &mut Vec<usize>, n: usize) -> Result<(), AllocError>
    ensures { IfOk result (λ done. IsFilled n calls.old.items calls.new.items) }
{
    let flags = flags_of(alloc, calls.as_slice(), n)?;
    for c in 0..n {
        if !flags[c] {
            calls.push(c)?;
        }
    }
    Ok(())
}

/// The calls by their numbers in the whole, where `kept` has the number of each call of the part; `None` where it lacks one.
/// `AllocError` where memory was refused.
pub fn with_names(
    alloc: Global,
    kept: &[usize],
    calls: &[usize],
) -> Result<Option<Vec<usize>>, AllocError>
    ensures { IfOk result (λ names. IfSome names (λ list. list.items ≡ named kept.now calls.now)) }
{
    let mut names = Vec::with_capacity(alloc, calls.len())?;
    for c in calls {
        let Some(name) = kept.get(*c) else {
            return Ok(None);
        };
        names.push(*name)?;
    }
    Ok(Some(names))
}

// The number that the part's call has in the whole.
fn name_of(kept: &[usize], call: usize) -> usize
    requires { call < length kept.now }
    ensures { result ≡ name kept.now call }
{
    kept[call]
}

/// The same where `kept` has the number of each of them.
pub fn own_names(alloc: Global, kept: &[usize], calls: &[usize]) -> Result<Vec<usize>, AllocError>
    requires { (c : ℕ) → In c calls.now → c < length kept.now }
    ensures { IfOk result (λ names. names.items ≡ named kept.now calls.now) }
{
    let mut names = Vec::with_capacity(alloc, calls.len())?;
    for c in calls {
        names.push(name_of(kept, *c))?;
    }
    Ok(names)
}
