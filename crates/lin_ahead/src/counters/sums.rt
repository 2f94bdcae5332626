//! Adds that are too much for a `get` of a counter that is not lifted.

ghost use Rattle.std.specs.Prelude.{◌≡◌, ◌≢◌, ◌≤◌, false, Some, slice_get, IfSome, IsTrue};
ghost use Rattle.lin_history.specs.Problems.Continuations.{has};
ghost use Rattle.lin_history.specs.Problems.AnyProblem.{any_problem};
ghost use Rattle.lin_ahead.specs.Counters.Sums.{row_of, IsFreeShare, IsLiftedShare, AddFreely, IsLoad, IsOver};

use crate::counters::hints::SumHints;
use crate::counters::rows::{SumLimit, SumRows, share_at};
use lin_history::Problem;
use lin_laws::precedes;
use lin_object::AnyObject;
use lin_search::Config;

// A `get`, and a call that is to be lifted before it; and in which direction is counted.
#[derive(Clone, Copy)]
struct Asked {
    up: bool,
    get: usize,
    call: usize,
}

// What the call adds if it need not come before the `get`; 0 if it must.
fn free_share(problem: &Problem<AnyObject>, asked: Asked, call: usize) -> u64
    ensures { IsFreeShare (any_problem problem.now) asked.up asked.get call result }
{
    if precedes(problem, call, asked.get) {
        return 0;
    }
    share_at(asked.up, problem, call)
}

// The same of a lifted call other than the one asked of; 0 of each other call.
fn lifted_share(
    problem: &Problem<AnyObject>,
    config: &Config<AnyObject>,
    asked: Asked,
    call: usize,
) -> u64
    ensures { IsLiftedShare (any_problem problem.now) config.now.lifted asked.up asked.get
        asked.call call result }
{
    if call == asked.call || !config.has(call) {
        return 0;
    }
    free_share(problem, asked, call)
}

// What those of the calls add that are lifted, as long as their numbers rise and are below the bound.
fn rising_share(
    problem: &Problem<AnyObject>,
    config: &Config<AnyObject>,
    asked: Asked,
    calls: &[usize],
    below: usize,
) -> u128
    ensures { AddFreely (any_problem problem.now) config.now.lifted asked.up asked.get
        asked.call 0 below result }
{
    let mut sum: u128 = 0;
    let mut at = 0;
    for call in calls {
        if *call < at || *call >= below {
            return sum;
        }
        sum = sum.saturating_add(lifted_share(problem, config, asked, *call) as u128);
        at = *call + 1;
    }
    sum
}

// What the calls of the range add that are lifted.
fn range_share(
    problem: &Problem<AnyObject>,
    config: &Config<AnyObject>,
    asked: Asked,
    from: usize,
    to: usize,
) -> u128
    requires { from ≤ to }
    ensures { AddFreely (any_problem problem.now) config.now.lifted asked.up asked.get
        asked.call from to result }
{
    let mut sum: u128 = 0;
    for call in from..to {
        sum = sum.saturating_add(lifted_share(problem, config, asked, call) as u128);
    }
    sum
}

// What is known to be added by calls that need not come before the `get` but do, once the call is lifted.
fn load(
    problem: &Problem<AnyObject>,
    hints: &SumHints,
    config: &Config<AnyObject>,
    asked: Asked,
) -> u128
    ensures { IsLoad (any_problem problem.now) config.now.lifted asked.up asked.get asked.call
        result }
{
    let from = hints.from(asked.get);
    let own = free_share(problem, asked, asked.call) as u128;
    let pending = rising_share(problem, config, asked, hints.pending(), from);
    let near = range_share(problem, config, asked, from, hints.to().max(from));
    own.saturating_add(pending).saturating_add(near)
}

// The limit of the `get`, where it is not lifted and not the call itself.
fn limit_at(rows: &SumRows, config: &Config<AnyObject>, asked: Asked) -> Option<SumLimit>
    ensures there { IfSome result (λ limit. slice_get (row_of rows.now asked.up) asked.get
        ≡ Some (Some limit)) }
    ensures outside { IfSome result (λ limit. has config.now.lifted asked.get ≡ false) }
    ensures other { IfSome result (λ limit. asked.get ≢ asked.call) }
{
    if asked.get == asked.call || config.has(asked.get) {
        return None;
    }
    let row = if asked.up { &rows.up } else { &rows.down };
    match row.get(asked.get) {
        Some(limit) => *limit,
        None => None,
    }
}

// Whether the call is an add that is known to be too much for a `get` that is not lifted.
pub(crate) fn is_over(
    problem: &Problem<AnyObject>,
    rows: &SumRows,
    hints: &SumHints,
    config: &Config<AnyObject>,
    call: usize,
) -> bool
    ensures { IsTrue result → IsOver (any_problem problem.now) rows.now config.now.lifted call }
{
    let Some((up, get)) = hints.narrow(call) else {
        return false;
    };
    let asked = Asked { up, get, call };
    match limit_at(rows, config, asked) {
        Some(limit) => limit.most.saturating_sub(limit.least) < load(problem, hints, config, asked),
        None => false,
    }
}
