//! Replies of a counter's gets for which its adds leave no room: a reply that is less than the least sum that any order gives, or
//! greater than the greatest.

ghost use Rattle.std.specs.Prelude.{◌≡◌, ◌+◌, ◌*◌, ◌<◌, ◌≤◌, ◌^◌, Some, None, length, IfSome, IsTrue, if◌then◌else◌};
ghost use Rattle.lin_object.specs.declared.state.ObjState.TheVariants.{Counter};
ghost use Rattle.lin_history.specs.Problems.AnyProblem.{any_problem};
ghost use Rattle.lin_laws.specs.Shares.{share_of};
ghost use Rattle.lin_core.specs.Cores.{HasNone};
ghost use Rattle.lin_core.specs.Sums.{is_back_before, is_after, is_over, must_come, may_come, sum_of, IsGet, IsCountedFrom, bound_of, IsBeyond, IsSumFault, SumLaw};

use lin_history::{Problem, ProblemCall};
use lin_laws::share_of;
use lin_object::{AnyObject, ObjState, Op, Reply};

/// The numbers of the events at which a call was called and returned.
#[derive(Clone, Copy, PartialEq, Eq, Debug)]
pub struct Times {
    /// Of its call.
    pub called: u32,
    /// Of its return.
    pub returned: u32,
}

/// Between which gets of a counter adds are looked at.
#[derive(Clone, Copy, PartialEq, Eq, Debug)]
pub struct Between {
    /// The earlier one; `None` where it is from the start on.
    pub first: Option<Times>,
    /// The later one.
    pub last: Times,
}

/// A get of a counter whose reply no order gives: counted from the start, or from the reply of an earlier get, what must and what
/// may have been added and taken off leaves no room for it.
#[derive(Clone, Copy, PartialEq, Eq, Debug)]
pub struct SumFault {
    /// The number of the earlier get, which returned before the other was called; `None` where it is counted from the start.
    pub from: Option<usize>,
    /// The number of the get.
    pub get: usize,
    /// Whether its reply is less than the least value that there can be; else it is greater than the greatest.
    pub up: bool,
    /// The value that it is counted from.
    pub base: i64,
    /// What the calls have added, or else taken off, that come between in each order.
    pub must: u128,
    /// What those may have taken off, or else added, that may come between.
    pub may: u128,
    /// The least value that there can be, or else the greatest.
    pub bound: i128,
}

// What the operation adds, or else takes off; nothing where it is not looked at.
fn share_if(counts: bool, up: bool, op: &Op) -> u64
    ensures share { result ≡ if counts then share_of up op.now else 0 }
    ensures few { result ≤ 2 ^ 63 }
{
    if counts { share_of(up, op) } else { 0 }
}

// Whether the call returned before the event.
fn is_back_before(event: u32, returned: &Option<(u32, Reply)>) -> bool
    ensures { result ≡ is_back_before event returned.now }
{
    match returned {
        Some((number, _)) => *number < event,
        None => false,
    }
}

impl Between {
    // Whether the event came after the earlier get.
    fn is_after(&self, event: u32) -> bool
        ensures { result ≡ is_after self.now.first event }
    {
        match &self.first {
            Some(first) => first.returned < event,
            None => true,
        }
    }

    // Whether the call returned before the earlier get was called.
    fn is_over(&self, returned: &Option<(u32, Reply)>) -> bool
        ensures { result ≡ is_over self.now.first returned.now }
    {
        match &self.first {
            Some(first) => is_back_before(first.called, returned),
            None => false,
        }
    }

    // Whether the call comes between in each order.
    fn must_come(&self, call: &ProblemCall<Op, Reply>) -> bool
        ensures { result ≡ must_come self.now call.now }
    {
        self.is_after(call.called) && is_back_before(self.last.called, &call.returned)
    }

    // Whether it may come between.
    fn may_come(&self, call: &ProblemCall<Op, Reply>) -> bool
        ensures { result ≡ may_come self.now call.now }
    {
        !self.is_over(&call.returned) && call.called <= self.last.returned
    }

    // What the calls add, or else take off, that come between in each order.
    fn sum_that_must(&self, up: bool, calls: &[ProblemCall<Op, Reply>]) -> u128
        ensures sum { result ≡ sum_of (must_come self.now) up calls.now }
        ensures few { result ≤ 2 ^ 63 * length calls.now }
    {
        let mut sum: u128 = 0;
        for call in calls {
            sum += share_if(self.must_come(call), up, &call.op) as u128;
        }
        sum
    }

    // What those do that may come between.
    fn sum_that_may(&self, up: bool, calls: &[ProblemCall<Op, Reply>]) -> u128
        ensures sum { result ≡ sum_of (may_come self.now) up calls.now }
        ensures few { result ≤ 2 ^ 63 * length calls.now }
    {
        let mut sum: u128 = 0;
        for call in calls {
            sum += share_if(self.may_come(call), up, &call.op) as u128;
        }
        sum
    }
}

// A get that has returned, with the value.
#[derive(Clone, Copy)]
struct Got {
    times: Times,
    value: i64,
}

// The get of this number, if it is one that has returned.
fn get_at(problem: &Problem<AnyObject>, call: usize) -> Option<Got>
    ensures { IfSome result (λ got. IsGet (any_problem problem.now) call got.times got.value) }
{
    let made = problem.calls().get(call)?;
    match (&made.op, &made.returned) {
        (Op::Get, Some((returned, Reply::Int(value)))) => Some(Got {
            times: Times {
                called: made.called,
                returned: *returned,
            },
            value: *value,
        }),
        _ => None,
    }
}

// Where it is counted from, and with which value.
#[derive(Clone, Copy)]
struct Origin {
    between: Between,
    base: i64,
}

// The start of a counter, or the get of this number, as what is counted from to a get at these times.
fn origin_of(
    problem: &Problem<AnyObject>,
    start: i64,
    from: Option<usize>,
    last: Times,
) -> Option<Origin>
    requires { problem.now.start ≡ Counter start }
    ensures from { IfSome result (λ origin. IsCountedFrom (any_problem problem.now) from origin.between
        origin.base) }
    ensures last { IfSome result (λ origin. origin.between.last ≡ last) }
{
    let Some(first) = from else {
        let between = Between { first: None, last };
        return Some(Origin {
            between,
            base: start,
        });
    };
    let first = get_at(problem, first)?;
    if first.times.returned >= last.called {
        return None;
    }
    let between = Between {
        first: Some(first.times),
        last,
    };
    Some(Origin {
        between,
        base: first.value,
    })
}

// The least value that there can be, or else the greatest.
fn bound(up: bool, base: i64, must: u128, may: u128) -> i128
    requires must { must ≤ 2 ^ 100 }
    requires may { may ≤ 2 ^ 100 }
    ensures { result ≡ bound_of up base must may }
{
    let base = base as i128;
    let must = must as i128;
    let may = may as i128;
    if up {
        base + must - may
    } else {
        base - must + may
    }
}

// Whether the value is less than the least, or else greater than the greatest.
fn is_beyond(up: bool, bound: i128, value: i64) -> bool
    ensures { IsTrue result → IsBeyond up bound value }
{
    let value = value as i128;
    if up { value < bound } else { bound < value }
}

/// The law of sums as one fact that a proof may cite: where the adds leave no room for the reply of a get, there is no
/// linearization. It does nothing.
pub fn sum_law(problem: &Problem<AnyObject>)
    ensures { SumLaw (any_problem problem.now) }
{}

// The same of a counter that starts with the value.
fn fault_from(
    problem: &Problem<AnyObject>,
    start: i64,
    from: Option<usize>,
    get: usize,
    up: bool,
) -> Option<SumFault>
    requires { problem.now.start ≡ Counter start }
    ensures { IfSome result (λ fault. IsSumFault (any_problem problem.now) fault) }
{
    let last = get_at(problem, get)?;
    let origin = origin_of(problem, start, from, last.times)?;
    let must = origin.between.sum_that_must(up, problem.calls());
    let may = origin.between.sum_that_may(!up, problem.calls());
    let bound = bound(up, origin.base, must, may);
    if !is_beyond(up, bound, last.value) {
        return None;
    }
    Some(SumFault {
        from,
        get,
        up,
        base: origin.base,
        must,
        may,
        bound,
    })
}

/// Whether the adds leave no room for the reply of this get, counted from the start or from the reply of this earlier get: upwards
/// whether it is less than the least value that there can be, and else whether it is greater than the greatest. `None` where it is
/// not so, or where these are no such gets of a counter. It takes O(n) for n calls.
pub fn sum_fault(
    problem: &Problem<AnyObject>,
    from: Option<usize>,
    get: usize,
    up: bool,
) -> Option<SumFault>
    ensures fault { IfSome result (λ fault. IsSumFault (any_problem problem.now) fault) }
    ensures none { IfSome result (λ fault. HasNone (any_problem problem.now)) }
{
    sum_law(problem);
    match problem.start() {
        ObjState::Counter(start) => fault_from(problem, *start, from, get, up),
        _ => None,
    }
}
