//! The events of a problem in the order of their numbers.

ghost use Rattle.std.specs.Prelude.{◌≡◌, ℕ, ◌+◌, ◌<◌, ◌≤◌, [], ◌++◌, Some, List, length, IfOk, OnOk, IfSome, OnSome, IfNone, refl};
ghost use Rattle.std.specs.List.{All};
ghost use Rattle.std.specs.List.Sorted.{IsPermutation};
ghost use Rattle.std.specs.BinaryHeap.{IsHeap, KeepsHeap, heap_items, heap_len};
ghost use Rattle.std.specs.Cmp.{partial_equiv_from_equiv, partial_order_from_agreeing_total, eq_by_cmp_equiv, back_total, on_total, nat_cmp_total};
ghost use Rattle.std.specs.Ordering.{eq_by_cmp};
ghost use Rattle.lin_history.specs.Problems.Problem.{problem_of};
ghost use Rattle.lin_history.specs.Problems.ProblemParts.{AreTimed};
ghost use Rattle.lin_history.specs.Problems.Timeline.{IsTimeline};
ghost use Rattle.lin_history.specs.Problems.NumberedEvents.{number_at, first_by_number, return_of, events_of_call, events_from, TakesFirst, AreMerged, AreMergedUpTo};

use crate::limits::MAX_CALLS_ON_OBJECT;
use crate::problems::problem::{Problem, ProblemCall};
use lin_object::SeqObject;
use std::alloc::{AllocError, Global};
use std::cmp::Ordering;
use std::collections::BinaryHeap;

/// An event of a problem, by the number of its call: a problem has no more than 16,384 calls.
#[derive(Clone, Copy, PartialEq, Eq, Debug)]
pub enum ProblemEvent {
    /// The call is called.
    Call(u16),
    /// The call returns.
    Return(u16),
}

// An event with its number. Two are compared by their numbers alone.
#[derive(Clone, Copy)]
struct Timed {
    number: u32,
    event: ProblemEvent,
}

impl PartialEq for Timed {
    ghost eq = { eq_by_cmp first_by_number };

    ghost laws = { partial_equiv_from_equiv (eq_by_cmp_equiv (back_total (on_total number_at nat_cmp_total))) };

    fn eq(&self, other: &Self) -> bool {
        self.cmp(other).is_eq()
    }
}

impl Eq for Timed {
    ghost laws = { eq_by_cmp_equiv (back_total (on_total number_at nat_cmp_total)) };
}

impl PartialOrd for Timed {
    ghost partial_cmp = { λ x y. Some (first_by_number x y) };

    ghost laws = { partial_order_from_agreeing_total first_by_number (back_total (on_total number_at nat_cmp_total)) (λ x y. refl) (λ x y. refl) };

    fn partial_cmp(&self, other: &Self) -> Option<Ordering> {
        Some(self.cmp(other))
    }
}

// The greater of two is the one with the lesser number, so that a heap gives it first.
impl Ord for Timed {
    ghost cmp = { first_by_number };

    ghost total = { back_total (on_total number_at nat_cmp_total) };

    ghost matches_partial_cmp = { λ x y. refl };

    ghost matches_eq = { λ x y. refl };

    fn cmp(&self, other: &Self) -> Ordering {
        other.number.cmp(&self.number)
    }
}

// Takes out the event with the least number.
fn take_first(later: &mut BinaryHeap<Timed>) -> Option<Timed>
    requires { IsHeap first_by_number (heap_items later.old) }
    ensures first { IfSome result (λ first. TakesFirst (heap_items later.old) first
        (heap_items later.new)) }
    ensures len { OnSome result (heap_len later.new + 1 ≡ heap_len later.old) }
    ensures none { IfNone result ((heap_items later.old ≡ []) × (heap_items later.new ≡ [])) }
{
    later.pop()
}

// Takes out the event with the least number, if that is less than this number.
fn take_before(later: &mut BinaryHeap<Timed>, number: u32) -> Option<Timed>
    requires { IsHeap first_by_number (heap_items later.old) }
    ensures first { IfSome result (λ first. (first.number < number)
        × TakesFirst (heap_items later.old) first (heap_items later.new)) }
    ensures len { OnSome result (heap_len later.new + 1 ≡ heap_len later.old) }
    ensures none { IfNone result ((heap_items later.new ≡ heap_items later.old)
        × All (λ t. number ≤ t.number) (heap_items later.old)) }
{
    let Some(first) = later.peek() else {
        return None;
    };
    if number <= first.number {
        return None;
    }
    take_first(later)
}

// Appends the events with numbers less than this one, in order.
fn take_out_before(
    later: &mut BinaryHeap<Timed>,
    number: u32,
    events: &mut Vec<ProblemEvent>,
) -> Result<(), AllocError>
    requires { IsHeap first_by_number (heap_items later.old) }
    ensures { OnOk result ((all : List Timed) →
        AreMergedUpTo all number events.old.items (heap_items later.old) →
        AreMergedUpTo all number events.new.items (heap_items later.new)
        × All (λ t. number ≤ t.number) (heap_items later.new)) }
{
    while let Some(first) = take_before(later, number) {
        events.push(first.event)?;
    }
    Ok(())
}

// Appends all events that are left, in order.
fn take_out_rest(
    later: &mut BinaryHeap<Timed>,
    events: &mut Vec<ProblemEvent>,
) -> Result<(), AllocError>
    requires { IsHeap first_by_number (heap_items later.old) }
    ensures { OnOk result ((all : List Timed) (low : ℕ) →
        AreMerged all low events.old.items (heap_items later.old) →
        (high : ℕ) × AreMerged all high events.new.items []) }
{
    while let Some(first) = take_first(later) {
        events.push(first.event)?;
    }
    Ok(())
}

// Puts in the return event of the call, if it has one.
fn add_return<P, R>(
    later: &mut BinaryHeap<Timed>,
    call: usize,
    made: &ProblemCall<P, R>,
) -> Result<(), AllocError>
    requires { call < MAX_CALLS_ON_OBJECT }
    ensures moved { OnOk result (IsPermutation
        (return_of call made.now.returned ++ heap_items later.old) (heap_items later.new)) }
    ensures heap { OnOk result (KeepsHeap first_by_number
        (heap_items later.old) (heap_items later.new)) }
{
    if let Some((number, _)) = &made.returned {
        later.push(Timed {
            number: *number,
            event: ProblemEvent::Return(call as u16),
        })?;
    }
    Ok(())
}

// Appends the returns before the call event of the call, and this event, and puts in its return event.
fn add_call<P, R>(
    later: &mut BinaryHeap<Timed>,
    call: usize,
    made: &ProblemCall<P, R>,
    events: &mut Vec<ProblemEvent>,
) -> Result<(), AllocError>
    requires within { call < MAX_CALLS_ON_OBJECT }
    requires returned { IfSome made.now.returned (λ r. made.now.called < r.0) }
    requires heap { IsHeap first_by_number (heap_items later.old) }
    ensures { OnOk result ((all : List Timed) →
        AreMergedUpTo all made.now.called events.old.items (heap_items later.old) →
        AreMerged (all ++ events_of_call call made.now) made.now.called events.new.items
        (heap_items later.new)) }
{
    take_out_before(later, made.called, events)?;
    events.push(ProblemEvent::Call(call as u16))?;
    add_return(later, call, made)
}

// The events of the calls in the order of their numbers.
fn merged<P, R>(alloc: Global, calls: &[ProblemCall<P, R>]) -> Result<Vec<ProblemEvent>, AllocError>
    requires timed { AreTimed calls.now }
    requires few { length calls.now ≤ MAX_CALLS_ON_OBJECT }
    ensures { IfOk result (λ events. (high : ℕ)
        × AreMerged (events_from 0 calls.now) high events.items []) }
{
    let mut events = Vec::with_capacity(alloc, calls.len() * 2)?;
    let mut later = BinaryHeap::new(alloc);
    for call in 0..calls.len() {
        add_call(&mut later, call, &calls[call], &mut events)?;
    }
    take_out_rest(&mut later, &mut events)?;
    Ok(events)
}

impl<O: SeqObject> Problem<O> {
    /// The call and return events in the order of their numbers. The calls are in order; the returns of calls that are open stand
    /// in a heap. For n calls, of which c are open at once, it takes O(n log c). `AllocError` where memory was refused.
    pub fn timeline(&self, alloc: Global) -> Result<Vec<ProblemEvent>, AllocError>
        ensures { IfOk result (λ events. IsTimeline
            (problem_of O.after O.State.eq O.Reply.eq self.now) events.items) }
    {
        merged(alloc, self.calls())
    }
}
