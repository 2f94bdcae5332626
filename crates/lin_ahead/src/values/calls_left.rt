//! The completed calls that are not lifted, in the order of their returns. It is a hint.

use crate::kept::kept;
use crate::values::call_values::{CallValues, returned_at};
use std::alloc::{AllocError, Global};

// A ring of the calls with a head behind all calls. A call that is taken out keeps its two neighbours, so that it can be put back,
// last out first in. A pending call is its own neighbour.
#[derive(Drop)]
pub(crate) struct CallsLeft {
    next: Vec<u16>,
    last: Vec<u16>,
    head: usize,
}

// The completed calls, in the order of their returns.
fn by_returns(alloc: Global, calls: &[CallValues]) -> Result<Vec<u16>, AllocError> {
    let mut returned = Vec::with_capacity(alloc, calls.len())?;
    for call in 0..calls.len() {
        if calls[call].is_completed() {
            returned.push(kept(call))?;
        }
    }
    returned.sort_by_key(|call| returned_at(calls, *call as usize))?;
    Ok(returned)
}

// So many numbers, from 0 on.
fn numbers_to(alloc: Global, count: usize) -> Result<Vec<u16>, AllocError> {
    let mut row = Vec::with_capacity(alloc, count)?;
    for number in 0..count {
        row.push(kept(number))?;
    }
    Ok(row)
}

// Writes the number at the place, if there is such a place.
fn put(row: &mut Vec<u16>, place: usize, number: usize) {
    if let Some(slot) = row.get_mut(place) {
        *slot = kept(number);
    }
}

impl CallsLeft {
    // Those of these calls, none of which is lifted.
    pub(crate) fn new(alloc: Global, calls: &[CallValues]) -> Result<Self, AllocError> {
        let head = calls.len();
        let mut left = CallsLeft {
            next: numbers_to(alloc, head.saturating_add(1))?,
            last: numbers_to(alloc, head.saturating_add(1))?,
            head,
        };
        let mut at = head;
        for one in &by_returns(alloc, calls)? {
            let call = *one as usize;
            left.join(at, call);
            at = call;
        }
        left.join(at, head);
        Ok(left)
    }

    // Makes the two neighbours.
    fn join(&mut self, one: usize, next: usize) {
        put(&mut self.next, one, next);
        put(&mut self.last, next, one);
    }

    // Takes the call out.
    pub(crate) fn take_out(&mut self, call: usize) {
        if let (Some(last), Some(next)) = (
            self.last.get(call).copied(),
            self.next.get(call).copied(),
        ) {
            self.join(last as usize, next as usize);
        }
    }

    // Puts the call back that was taken out last.
    pub(crate) fn put_back(&mut self, call: usize) {
        if let (Some(last), Some(next)) = (
            self.last.get(call).copied(),
            self.next.get(call).copied(),
        ) {
            self.join(last as usize, call);
            self.join(call, next as usize);
        }
    }

    // The call that returned next after this one.
    pub(crate) fn after(&self, call: usize) -> Option<usize> {
        let next = *self.next.get(call)? as usize;
        if next < self.head { Some(next) } else { None }
    }

    // The call that returned first.
    pub(crate) fn first(&self) -> Option<usize> {
        self.after(self.head)
    }
}
