//! The part of a history on one object, built by hand or taken from a history.

ghost use Rattle.std.specs.Prelude.{◌≡◌, ◌≢◌, ℕ, ◌<◌, ◌≤◌, ◌↔◌, [], None, Some, slice_get, length, nat_le, IsTrue, IsFalse, OnOk, OnErr, IfErr, IfNone};
ghost use Rattle.lin_history.specs.Refusals.{first_that_holds};
ghost use Rattle.lin_history.specs.Problems.SameProblem.{SameReturn, SameCall, SameCalls};
ghost use Rattle.lin_history.specs.Problems.ProblemParts.{greatest_number, is_pending, returned_in};

use crate::limits::MAX_CALLS_ON_OBJECT;
use lin_object::SeqObject;
use std::alloc::{AllocError, Global};
use std::marker::Model;

/// A call of a problem: whose it is, what it does, the number of its call event, and where it returned
/// the number of its return event and its reply.
#[derive(PartialEq, Eq, Debug, Drop)]
pub struct ProblemCall<P, R> {
    /// The process that made the call.
    pub process: u32,
    /// The number of the call event.
    pub called: u32,
    /// What it called.
    pub op: P,
    /// The number of the return event, and the reply; `None` while the call is pending.
    pub returned: Option<(u32, R)>,
}

/// Why a problem refuses an event.
#[derive(Clone, Copy, PartialEq, Eq, Debug)]
pub enum ProblemFault {
    /// The number is 0, or not greater than every number before.
    Late,
    /// There is no such call, or it has returned.
    NoCall,
    /// 16,384 calls are there.
    TooManyCalls,
    /// Memory for the call was refused.
    OutOfMemory,
}

// A call that has not returned.
fn pending_call<P, R>(process: u32, op: P, called: u32) -> ProblemCall<P, R>
    ensures { result ≡ record { process = process; op = op; called = called; returned = None } }
{
    ProblemCall {
        process,
        op,
        called,
        returned: None,
    }
}

// Whether the call is there and has not returned.
fn is_pending<P, R>(calls: &[ProblemCall<P, R>], call: usize) -> bool
    ensures pending { result ≡ is_pending (slice_get calls.now call) }
    ensures within { IsTrue result → call < length calls.now }
{
    match calls.get(call) {
        Some(call) => call.returned.is_none(),
        None => false,
    }
}

// Completes the call: its return event has this number.
fn complete<P, R: Drop>(calls: &mut Vec<ProblemCall<P, R>>, call: usize, reply: R, number: u32)
    requires { call < length calls.old.items }
    ensures { calls.new.items ≡ returned_in calls.old.items call number reply
        (slice_get calls.old.items call) }
{
    calls[call].returned = Some((number, reply));
}

// Whether both are pending, or both returned at one number with equal replies.
fn same_return<R: Eq>(a: &Option<(u32, R)>, b: &Option<(u32, R)>) -> bool
    ensures { IsTrue result ↔ SameReturn R.eq a.now b.now }
{
    match (a, b) {
        (None, None) => true,
        (Some((m, r)), Some((n, s))) => *m == *n && *r == *s,
        (None, Some(_)) => false,
        (Some(_), None) => false,
    }
}

// Whether the calls are equal in every part.
fn same_call<P: Eq, R: Eq>(a: &ProblemCall<P, R>, b: &ProblemCall<P, R>) -> bool
    ensures { IsTrue result ↔ SameCall P.eq R.eq a.now b.now }
{
    a.process == b.process
        && a.op == b.op
        && a.called == b.called
        && same_return(&a.returned, &b.returned)
}

// Whether the calls are equal, one by one.
fn same_calls<P: Eq, R: Eq>(a: &[ProblemCall<P, R>], b: &[ProblemCall<P, R>]) -> bool
    ensures { IsTrue result ↔ SameCalls P.eq R.eq a.now b.now }
{
    if a.len() != b.len() {
        return false;
    }
    for i in 0..a.len() {
        if !same_call(&a[i], &b[i]) {
            return false;
        }
    }
    true
}

/// The part of a history on one object: the object, its state at the start, and the calls, numbered
/// from 0 in the order of their call events.
///
/// One process may overlap itself in a problem made by hand: the definitions use event numbers alone.
#[derive(Drop)]
pub struct Problem<O: SeqObject> {
    object: O,
    start: O::State,
    calls: Vec<ProblemCall<O::Op, O::Reply>>,
    last: u32,
}

// Contracts see the object, the state at the start and the calls; the greatest number is kept beside them.
impl<O: SeqObject> Model for Problem<O> {
    ghost use Rattle.std.specs.Prelude.{◌≡◌, ◌≤◌, length};
    ghost use Rattle.lin_history.specs.declared.limits.TheConstants.{MAX_CALLS_ON_OBJECT};
    ghost use Rattle.lin_history.specs.Problems.ProblemParts.{ProblemParts, AreTimed, greatest_number};

    ghost Value = { ProblemParts O O.State O.Op O.Reply };

    ghost view = { λ p. record { object = p.object; start = p.start; calls = p.calls.items } };

    ghost invariant = { λ p. (p.last ≡ greatest_number p.calls.items) × AreTimed p.calls.items
        × (length p.calls.items ≤ MAX_CALLS_ON_OBJECT) };
}

// The greatest event number of the calls; 0 where there is none.
fn last_number<P, R>(calls: &[ProblemCall<P, R>]) -> u32
    ensures { result ≡ greatest_number calls.now }
{
    let mut last = 0;
    for call in calls {
        let number = match &call.returned {
            Some((returned, _)) => *returned,
            None => call.called,
        };
        last = u32::max(last, u32::max(call.called, number));
    }
    last
}

impl<O: SeqObject> Problem<O> {
    ghost use Rattle.lin_history.specs.Problems.SameProblem.{SameProblem};
    ghost use Rattle.lin_history.specs.Problems.ProblemParts.{ProblemParts, AreTimed, new_call_refusals, new_return_refusals, with_new_call, with_new_return};

    /// The problem of these calls. Condition: they are in the order of their call events, return after they
    /// were called, no return event has the number of a call event, and there are no more than 16,384. So it
    /// is with the calls of a problem (`calls`), with some of them, and with other operations in their places.
    pub fn with_calls(object: O, start: O::State, calls: Vec<ProblemCall<O::Op, O::Reply>>) -> Self
        requires timed { AreTimed calls.items }
        requires few { length calls.items ≤ MAX_CALLS_ON_OBJECT }
        ensures { result ≡ record { object = object; start = start; calls = calls.items } }
    {
        let last = last_number(calls.as_slice());
        Problem {
            object,
            start,
            calls,
            last,
        }
    }

    /// The problem with no call. It takes no memory.
    pub fn new(alloc: Global, object: O, start: O::State) -> Self
        ensures { result ≡ record { object = object; start = start; calls = [] } }
    {
        Problem {
            object,
            start,
            calls: Vec::new(alloc),
            last: 0,
        }
    }

    // Whether the number is not greater than every number before.
    fn is_late(&self, number: u32) -> bool
        ensures late { result ≡ nat_le number (greatest_number self.now.calls) }
        ensures rises { IsFalse result → greatest_number self.now.calls < number }
    {
        number <= self.last
    }

    // Why a call whose event has this number is refused.
    fn call_fault(&self, number: u32) -> Option<ProblemFault>
        ensures fault { result ≡ first_that_holds (new_call_refusals self.now number) }
        ensures late { IfNone result (greatest_number self.now.calls < number) }
        ensures room { IfNone result (length self.now.calls < MAX_CALLS_ON_OBJECT) }
    {
        if self.is_late(number) {
            Some(ProblemFault::Late)
        } else if self.calls.len() >= MAX_CALLS_ON_OBJECT {
            Some(ProblemFault::TooManyCalls)
        } else {
            None
        }
    }

    // Why a return of the call whose event has this number is refused.
    fn return_fault(&self, call: usize, number: u32) -> Option<ProblemFault>
        ensures fault { result ≡ first_that_holds (new_return_refusals self.now call number) }
        ensures late { IfNone result (greatest_number self.now.calls < number) }
        ensures within { IfNone result (call < length self.now.calls) }
    {
        if self.is_late(number) {
            Some(ProblemFault::Late)
        } else if !is_pending(self.calls.as_slice(), call) {
            Some(ProblemFault::NoCall)
        } else {
            None
        }
    }

    /// Adds a pending call whose call event has this number. Refusals, in order: `Late` where the number
    /// is 0 or not greater than every number before, `TooManyCalls` where 16,384 calls are there,
    /// `OutOfMemory`. After a refusal nothing has changed.
    pub fn add_call(&mut self, process: u32, op: O::Op, number: u32) -> Result<(), ProblemFault>
        ensures sound { OnOk result (first_that_holds (new_call_refusals self.old number) ≡ None) }
        ensures ok { OnOk result (self.new ≡ with_new_call self.old process op number) }
        ensures err { IfErr result (λ fault. fault ≢ ProblemFault.OutOfMemory
            → first_that_holds (new_call_refusals self.old number) ≡ Some fault) }
        ensures memory { IfErr result (λ fault. fault ≡ ProblemFault.OutOfMemory
            → first_that_holds (new_call_refusals self.old number) ≡ None) }
        ensures same { OnErr result (self.new ≡ self.old) }
    {
        if let Some(fault) = self.call_fault(number) {
            return Err(fault);
        }
        if self.calls.push(pending_call(process, op, number)).is_err() {
            return Err(ProblemFault::OutOfMemory);
        }
        self.last = number;
        Ok(())
    }

    /// Adds the return of a pending call, with its reply; the return event has this number. Refusals, in
    /// order: `Late` as above, `NoCall` where there is no such call or it has returned. After a refusal
    /// nothing has changed. It takes no memory.
    pub fn add_return(
        &mut self,
        call: usize,
        reply: O::Reply,
        number: u32,
    ) -> Result<(), ProblemFault>
        ensures sound { OnOk result (first_that_holds (new_return_refusals self.old call number)
            ≡ None) }
        ensures ok { OnOk result (self.new ≡ with_new_return self.old call reply number) }
        ensures err { IfErr result (λ fault. first_that_holds
            (new_return_refusals self.old call number) ≡ Some fault) }
        ensures same { OnErr result (self.new ≡ self.old) }
    {
        if let Some(fault) = self.return_fault(call, number) {
            return Err(fault);
        }
        complete(&mut self.calls, call, reply, number);
        self.last = number;
        Ok(())
    }

    /// How many calls there are, pending ones included.
    pub fn len(&self) -> usize
        ensures { result ≡ length self.now.calls }
    {
        self.calls.len()
    }

    /// The call of this number. Condition: it is below `len()`.
    pub fn call(&self, call: usize) -> &ProblemCall<O::Op, O::Reply>
        requires { call < length self.now.calls }
        ensures { slice_get self.now.calls call ≡ Some result.now }
    {
        &self.calls[call]
    }

    /// The calls, in the order of their call events: no more than 16,384.
    pub fn calls(&self) -> &[ProblemCall<O::Op, O::Reply>]
        ensures calls { result.now ≡ self.now.calls }
        ensures timed { AreTimed self.now.calls }
        ensures few { length self.now.calls ≤ MAX_CALLS_ON_OBJECT }
    {
        self.calls.as_slice()
    }

    /// The state at the start.
    pub fn start(&self) -> &O::State
        ensures { result.now ≡ self.now.start }
    {
        &self.start
    }

    /// The object.
    pub fn object(&self) -> &O
        ensures { result.now ≡ self.now.object }
    {
        &self.object
    }

    /// Whether the problems are equal in every part, each by its type's own `Eq`.
    pub fn same(&self, other: &Problem<O>) -> bool
        ensures { IsTrue result ↔ SameProblem O.eq O.State.eq O.Op.eq O.Reply.eq self.now
            other.now }
    {
        self.object == other.object
            && self.start == other.start
            && same_calls(self.calls.as_slice(), other.calls.as_slice())
    }
}
