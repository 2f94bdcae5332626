//! When the items of a queue or a stack were put and taken, and the values of a register written and found. All of it is hints.

use crate::call_index::{CallIndex, ValueCalls};
use crate::call_places::{Place, place_of};
use lin_history::{Problem, ProblemCall};
use lin_object::{AnyObject, Op, Reply};
use std::alloc::{AllocError, Global};

/// The number of an event that never comes.
pub(crate) const NEVER: u32 = u32::MAX;

/// When an item was put and taken: one that is put more than once has such times for each rank. Of a queue, where equal items come
/// out in the order in which they went in, these are those of the item that went in at this rank, as far as returns and calls show.
#[derive(Clone, Copy)]
pub(crate) struct ItemTimes {
    pub(crate) item: i64,
    /// How many calls put it.
    pub(crate) puts: usize,
    /// How many took it.
    pub(crate) takes: usize,
    /// The event of this rank among these of each kind; `NEVER` where there are not so many.
    pub(crate) put_called: u32,
    pub(crate) put_returned: u32,
    pub(crate) take_called: u32,
    pub(crate) take_returned: u32,
}

impl ItemTimes {
    /// Whether it was put once, by a call that returned, and taken at most once.
    pub(crate) fn is_single(&self) -> bool {
        self.puts == 1 && self.takes <= 1 && self.put_returned < NEVER
    }

    /// Whether these calls alone can't be: so many takes returned before as many puts were called, if there are as many at all.
    pub(crate) fn is_in_vain(&self) -> bool {
        self.take_returned < self.put_called
    }
}

/// The number of the return; `NEVER` of a pending call.
pub(crate) fn return_of(call: &ProblemCall<Op, Reply>) -> u32 {
    match &call.returned {
        Some((number, _)) => *number,
        None => NEVER,
    }
}

// The events of one kind, in increasing order.
#[derive(Drop)]
struct Events {
    numbers: Vec<u32>,
}

impl Events {
    // The numbers of these.
    fn new(numbers: Vec<u32>) -> Self {
        let mut numbers = numbers;
        numbers.sort_unstable();
        Events { numbers }
    }

    // The event of this rank; `NEVER` where there are not so many.
    fn at(&self, rank: usize) -> u32 {
        self.numbers.get(rank).copied().unwrap_or(NEVER)
    }
}

// The calls that put an item, and those that took it.
#[derive(Drop)]
struct ItemCalls<'a> {
    puts: Vec<&'a ProblemCall<Op, Reply>>,
    takes: Vec<&'a ProblemCall<Op, Reply>>,
}

// Those of these calls.
fn item_calls<'a>(
    alloc: Global,
    problem: &'a Problem<AnyObject>,
    on_value: &ValueCalls,
) -> Result<ItemCalls<'a>, AllocError> {
    let mut found = ItemCalls {
        puts: Vec::new(alloc),
        takes: Vec::new(alloc),
    };
    for index in &on_value.calls {
        match problem.calls().get(*index) {
            Some(call) if matches!(call.op, Op::Enqueue(_) | Op::Push(_)) => {
                found.puts.push(call)?;
            }
            Some(call) => found.takes.push(call)?,
            None => {}
        }
    }
    Ok(found)
}

// When the calls were called that may take the item. Where as many took it as put it, no other may.
fn takers_called(
    alloc: Global,
    calls: &ItemCalls<'_>,
    pending: &[u32],
) -> Result<Vec<u32>, AllocError> {
    let mut called: Vec<u32> = calls.takes.iter().map(|call| call.called).collect(alloc)?;
    if calls.takes.len() < calls.puts.len() {
        for number in pending.iter().take(calls.puts.len()) {
            called.push(*number)?;
        }
    }
    Ok(called)
}

// Adds when the item of these calls was put and taken, at each rank.
fn add_times(
    alloc: Global,
    item: i64,
    calls: &ItemCalls<'_>,
    pending: &[u32],
    all: &mut Vec<ItemTimes>,
) -> Result<(), AllocError> {
    let (puts, takes) = (calls.puts.len(), calls.takes.len());
    let put_called = Events::new(calls.puts.iter().map(|call| call.called).collect(alloc)?);
    let put_returned = Events::new(
        calls
            .puts
            .iter()
            .map(|call| return_of(call))
            .collect(alloc)?,
    );
    let take_called = Events::new(takers_called(alloc, calls, pending)?);
    let take_returned = Events::new(
        calls
            .takes
            .iter()
            .map(|call| return_of(call))
            .collect(alloc)?,
    );
    for rank in 0..usize::max(puts, takes) {
        all.push(ItemTimes {
            item,
            puts,
            takes,
            put_called: put_called.at(rank),
            put_returned: put_returned.at(rank),
            take_called: take_called.at(rank),
            take_returned: take_returned.at(rank),
        })?;
    }
    Ok(())
}

/// When each item was put and taken, at each rank, in the order of the returns of what took it. An item that no call took is there until
/// the first call that may yet take it. It takes O(n log n) for n calls.
pub(crate) fn times_of_items(
    alloc: Global,
    problem: &Problem<AnyObject>,
    index: &CallIndex,
) -> Result<Vec<ItemTimes>, AllocError> {
    let mut all = Vec::with_capacity(alloc, index.values.len())?;
    let pending = pending_called(alloc, problem, index)?;
    for on_value in &index.values {
        let calls = item_calls(alloc, problem, on_value)?;
        add_times(alloc, on_value.value, &calls, pending.as_slice(), &mut all)?;
    }
    all.sort_by_key(|times| times.take_returned)?;
    Ok(all)
}

// When the pending calls were called that are on each value, in increasing order.
fn pending_called(
    alloc: Global,
    problem: &Problem<AnyObject>,
    index: &CallIndex,
) -> Result<Vec<u32>, AllocError> {
    let mut called = Vec::new(alloc);
    for call in &index.anywhere {
        match problem.calls().get(*call) {
            Some(call) if call.returned.is_none() => called.push(call.called)?,
            _ => {}
        }
    }
    Ok(called)
}

/// The calls that found the queue or the stack empty: when each was called and returned.
pub(crate) fn times_of_empties(
    alloc: Global,
    problem: &Problem<AnyObject>,
    index: &CallIndex,
) -> Result<Vec<(u32, u32)>, AllocError> {
    let mut empties = Vec::new(alloc);
    for call in &index.anywhere {
        match problem.calls().get(*call) {
            Some(call) if call.returned.is_some() => {
                empties.push((call.called, return_of(call)))?;
            }
            _ => {}
        }
    }
    Ok(empties)
}
