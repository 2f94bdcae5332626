//! Two calls of which one found what another call, or the other of them, had done away with before, where no call between could bring it
//! back; and a call that found what no call could bring. All of it is hints.

use crate::held::HeldCall;
use crate::item_times::NEVER;
use std::alloc::{AllocError, Global};

/// Two calls that may have no linearization, whatever was there before them; or one, given twice, that may have none from the start.
#[derive(Clone, Copy)]
pub(crate) struct Gap {
    /// The first event that counts, and the last.
    pub(crate) from: u32,
    pub(crate) until: u32,
    /// The calls.
    pub(crate) first: usize,
    pub(crate) second: usize,
    /// A call that is open meanwhile and could bring back what was found.
    pub(crate) helper: Option<usize>,
}

impl Gap {
    /// How many events it has, and more where a call could help.
    pub(crate) fn size(&self) -> u64 {
        let span = u64::from(self.until.saturating_sub(self.from));
        match self.helper {
            Some(_) => span.saturating_add(u64::from(NEVER)),
            None => span,
        }
    }
}

// Orders calls by what they tell of, and then by their call events.
fn order_of(what: usize, called: u32) -> u64 {
    (what as u64)
        .saturating_mul(1 << 32)
        .saturating_add(u64::from(called))
}

// The calls that leave each thing, in the order of their call events.
#[derive(Drop)]
struct Helpers {
    calls: Vec<HeldCall>,
    // For each of them which one of those up to it that leave the same returns last.
    last: Vec<usize>,
}

// The place in that order of a call that leaves something.
fn order_left(call: &HeldCall) -> u64 {
    order_of(call.left.unwrap_or(0), call.called)
}

// For each of the calls which one of those up to it that leave the same returns last.
fn last_returns(alloc: Global, calls: &[HeldCall]) -> Result<Vec<usize>, AllocError> {
    let mut last = Vec::with_capacity(alloc, calls.len())?;
    let mut best = 0;
    for i in 0..calls.len() {
        let is_last = match calls.get(best) {
            Some(before) => before.left != calls[i].left || before.returned < calls[i].returned,
            None => true,
        };
        if is_last {
            best = i;
        }
        last.push(best)?;
    }
    Ok(last)
}

impl Helpers {
    // Those of the calls that leave something.
    fn new(alloc: Global, told: &[HeldCall]) -> Result<Self, AllocError> {
        let mut calls: Vec<HeldCall> = told
            .iter()
            .filter(|call| call.left.is_some())
            .copied()
            .collect(alloc)?;
        calls.sort_by_key(order_left)?;
        let last = last_returns(alloc, calls.as_slice())?;
        Ok(Helpers { calls, last })
    }

    // Of the calls that leave this and were called before the event the one that returns last.
    fn last_of(&self, what: usize, event: u32) -> Option<HeldCall> {
        let order = order_of(what, event);
        let count = self.calls.partition_point(|call| order_left(call) < order);
        let place = *self.last.get(count.checked_sub(1)?)?;
        let call = self.calls.get(place)?;
        if call.left == Some(what) {
            Some(*call)
        } else {
            None
        }
    }
}

// What was there last by a moment, as calls show it: of the calls that had returned the one that was called last, and the one of those that
// show something else.
#[derive(Clone, Copy)]
struct Shown {
    returned: u32,
    first: HeldCall,
    other: Option<HeldCall>,
}

impl Shown {
    // With one call more.
    fn with(self, call: &HeldCall) -> Self {
        if call.shown() == self.first.shown() {
            let first = later_call(self.first, *call);
            return Shown {
                returned: call.returned,
                first,
                other: self.other,
            };
        }
        if call.called > self.first.called {
            return Shown {
                returned: call.returned,
                first: *call,
                other: Some(self.first),
            };
        }
        let other = match self.other {
            Some(other) => later_call(other, *call),
            None => *call,
        };
        Shown {
            returned: call.returned,
            first: self.first,
            other: Some(other),
        }
    }
}

// The call of both that was called later.
fn later_call(a: HeldCall, b: HeldCall) -> HeldCall {
    if a.called < b.called { b } else { a }
}

// What was there last by each return of the calls.
fn shown_by_returns(alloc: Global, told: &[HeldCall]) -> Result<Vec<Shown>, AllocError> {
    let mut calls: Vec<HeldCall> = told
        .iter()
        .filter(|call| call.shown().is_some())
        .copied()
        .collect(alloc)?;
    calls.sort_by_key(|call| call.returned)?;
    let mut shown: Vec<Shown> = Vec::with_capacity(alloc, calls.len())?;
    for call in &calls {
        let next = match shown.last() {
            Some(last) => last.with(call),
            None => Shown {
                returned: call.returned,
                first: *call,
                other: None,
            },
        };
        shown.push(next)?;
    }
    Ok(shown)
}

// What was there last by the event, as calls show it that had returned.
fn last_shown(shown: &[Shown], event: u32) -> Option<Shown> {
    let count = shown.partition_point(|one| one.returned < event);
    shown.get(count.checked_sub(1)?).copied()
}

// The gap of two calls with the last call that brings this: which could help, if it is open meanwhile.
fn gap_of(helpers: &Helpers, what: usize, first: &HeldCall, second: &HeldCall) -> Gap {
    let gap = Gap {
        from: first.called,
        until: u32::max(first.returned, second.returned),
        first: first.call,
        second: second.call,
        helper: None,
    };
    match helpers.last_of(what, gap.until) {
        Some(helper) if helper.returned > gap.from => Gap {
            helper: Some(helper.call),
            ..gap
        },
        _ => gap,
    }
}

// The gap of a call that found what no call could bring.
fn gap_of_one(call: &HeldCall) -> Gap {
    Gap {
        from: call.called,
        until: call.returned,
        first: call.call,
        second: call.call,
        helper: None,
    }
}

// Appends the gap of a call that found this and an earlier one, if that shows that it was not there and no call could bring it back.
fn add_gap_behind(
    helpers: &Helpers,
    what: usize,
    earlier: Option<HeldCall>,
    call: &HeldCall,
    found: &mut Vec<Gap>,
) -> Result<(), AllocError> {
    let Some(earlier) = earlier else {
        return Ok(());
    };
    let gap = gap_of(helpers, what, &earlier, call);
    if earlier.shown() != Some(what) && gap.helper.is_none() {
        found.push(gap)?;
    }
    Ok(())
}

// Gaps between a call that found something and the last ones that show that it was not there; or of the call alone, where none could
// bring that.
fn gaps_behind(
    helpers: &Helpers,
    shown: &[Shown],
    told: &[HeldCall],
    found: &mut Vec<Gap>,
) -> Result<(), AllocError> {
    for call in told {
        let Some(what) = call.found else {
            continue;
        };
        if !call.has_found(what) {
            continue;
        }
        if helpers.last_of(what, call.returned).is_none() {
            found.push(gap_of_one(call))?;
        } else if let Some(last) = last_shown(shown, call.called) {
            add_gap_behind(helpers, what, Some(last.first), call, found)?;
            add_gap_behind(helpers, what, last.other, call, found)?;
        }
    }
    Ok(())
}

// The place in the order of calls of one that found something.
fn order_found(call: &HeldCall) -> u64 {
    order_of(call.found.unwrap_or(0), call.called)
}

// The calls that found something and did away with it, by what that is.
fn takers(alloc: Global, told: &[HeldCall]) -> Result<Vec<HeldCall>, AllocError> {
    let mut takers: Vec<HeldCall> = told
        .iter()
        .filter(|call| call.found.is_some() && call.left.is_some() && call.returned < NEVER)
        .copied()
        .collect(alloc)?;
    takers.sort_by_key(order_found)?;
    Ok(takers)
}

// Gaps between two calls that found the same and did away with it: a call that could bring it back meanwhile may have had to find
// something itself, or have brought it for the first of them.
fn gaps_between(
    helpers: &Helpers,
    takers: &[HeldCall],
    found: &mut Vec<Gap>,
) -> Result<(), AllocError> {
    for i in 1..takers.len() {
        let first = &takers[i - 1];
        let second = &takers[i];
        if let Some(what) = first.found {
            if second.found == Some(what) {
                found.push(gap_of(helpers, what, first, second))?;
            }
        }
    }
    Ok(())
}

/// Appends the gaps of these calls on a register, an item, a key or a mutex, in O(n log n) for n calls.
pub(crate) fn add_gaps(
    alloc: Global,
    told: &[HeldCall],
    found: &mut Vec<Gap>,
) -> Result<(), AllocError> {
    let helpers = Helpers::new(alloc, told)?;
    let shown = shown_by_returns(alloc, told)?;
    gaps_behind(&helpers, shown.as_slice(), told, found)?;
    let takers = takers(alloc, told)?;
    gaps_between(&helpers, takers.as_slice(), found)
}
