//! What a search of a stack goes by: the pushes and the empty answers that are left, and what lies on the stack. All of it is a
//! hint.

use crate::items::item_calls::BEYOND;
use crate::items::late_hints::{LateHints, putter_flags, returned_at};
use crate::items::late_pushes::LateRows;
use lin_history::Problem;
use lin_object::SeqObject;
use lin_search::Config;
use std::alloc::{AllocError, Global};

// A push as it lies on the stack.
#[derive(Clone, Copy)]
struct Lying {
    // When the call returned that popped its item; beyond all events where that is not known, or the call is no push.
    popped: u64,
    // The push whose item lies under its own.
    under: Option<usize>,
    // Of the push and those under it, the one whose item is popped first.
    first_popped: Option<usize>,
    // Of the push and those under it, the uppermost whose item no completed call returned with.
    first_lost: Option<usize>,
}

/// The calls that are left, by their returns, and the pushes whose items lie on the stack.
#[derive(Drop)]
pub(crate) struct StackHints {
    late: LateHints,
    is_push: Vec<bool>,
    lying: Vec<Lying>,
    // What lay on top before it, of each call that is lifted and no push.
    before: Vec<Option<usize>>,
    top: Option<usize>,
}

// Each push before any is lifted.
fn lying_of<O: SeqObject>(
    alloc: Global,
    problem: &Problem<O>,
    late: &LateRows,
) -> Result<Vec<Lying>, AllocError> {
    let mut lying = Vec::with_capacity(alloc, late.poppers.len())?;
    for popper in &late.poppers {
        let popped = match popper {
            Some(call) => returned_at(problem, *call),
            None => BEYOND,
        };
        lying.push(Lying {
            popped,
            under: None,
            first_popped: None,
            first_lost: None,
        })?;
    }
    Ok(lying)
}

impl StackHints {
    // Those of a problem none of whose calls is lifted.
    pub(crate) fn new<O: SeqObject>(
        alloc: Global,
        problem: &Problem<O>,
        late: &LateRows,
    ) -> Result<Self, AllocError> {
        let is_push = putter_flags(alloc, late)?;
        Ok(StackHints {
            late: LateHints::new(alloc, problem, late)?,
            lying: lying_of(alloc, problem, late)?,
            before: vec![in alloc; None; is_push.len()]?,
            is_push,
            top: None,
        })
    }

    // The calls that put an item in and the empty answers that are left.
    pub(crate) fn late(&self) -> &LateHints {
        &self.late
    }

    // When the item of the push is popped.
    fn popped_of(&self, push: usize) -> u64 {
        match self.lying.get(push) {
            Some(lying) => lying.popped,
            None => BEYOND,
        }
    }

    // Of the push and those whose items lie under its own, the one whose item is popped first.
    pub(crate) fn first_popped_from(&self, push: Option<usize>) -> Option<usize> {
        self.lying.get(push?)?.first_popped
    }

    // The same of all pushes whose items lie on the stack.
    pub(crate) fn first_popped(&self) -> Option<usize> {
        self.first_popped_from(self.top)
    }

    // Of the push and those whose items lie under its own, the uppermost whose item no completed call returned with.
    pub(crate) fn first_lost_from(&self, push: Option<usize>) -> Option<usize> {
        self.lying.get(push?)?.first_lost
    }

    // The first call that found the stack empty and is not lifted.
    pub(crate) fn first_empty(&self) -> Option<usize> {
        self.late.first_empty()
    }

    // Puts the item of the push, which may be lost, on top.
    fn put_on(&mut self, push: usize, is_lost: bool) {
        let under = self.top;
        let first_popped = match self.first_popped() {
            Some(other) if self.popped_of(other) < self.popped_of(push) => other,
            _ => push,
        };
        let first_lost = if is_lost {
            Some(push)
        } else {
            self.first_lost_from(under)
        };
        if let Some(lying) = self.lying.get_mut(push) {
            lying.under = under;
            lying.first_popped = Some(first_popped);
            lying.first_lost = first_lost;
        }
        self.top = Some(push);
    }

    // A call that popped the item of the push on top.
    pub(crate) fn popper_of_top(&self, late: &LateRows) -> Option<usize> {
        *late.poppers.get(self.top?)?
    }

    // The push whose item lies under that of the top.
    fn under_top(&self) -> Option<usize> {
        self.lying.get(self.top?)?.under
    }

    // The push whose item lies under that of this one.
    pub(crate) fn under(&self, push: usize) -> Option<usize> {
        self.lying.get(push)?.under
    }

    // The push on top without what the call takes off, or under what it puts on.
    pub(crate) fn under_call(&self, call: usize) -> Option<usize> {
        if self.is_push(call) {
            self.top
        } else {
            self.under_top()
        }
    }

    // Whether the call is a push.
    pub(crate) fn is_push(&self, call: usize) -> bool {
        matches!(self.is_push.get(call), Some(true))
    }

    // The call itself, where it is a push.
    pub(crate) fn pushed_by(&self, call: usize) -> Option<usize> {
        if self.is_push(call) { Some(call) } else { None }
    }

    // Goes on after the call, which is lifted now.
    pub(crate) fn lifted<O: SeqObject>(&mut self, config: &Config<O>, call: usize, is_lost: bool) {
        if self.is_push(call) {
            self.put_on(call, is_lost);
        } else if let Some(before) = self.before.get_mut(call) {
            *before = self.top;
            self.top = self.under_top();
        }
        self.late.lifted(config);
    }

    // Goes back to before the call, which was taken out again.
    pub(crate) fn unlifted(&mut self, call: usize) {
        if self.is_push(call) {
            self.top = self.under_top();
        } else if let Some(before) = self.before.get(call) {
            self.top = *before;
        }
        self.late.unlifted(call);
    }
}
