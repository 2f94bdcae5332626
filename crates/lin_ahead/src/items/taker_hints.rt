//! What a search goes by to find that too few takers are left: the calls that put in what no completed call returned with, and
//! which calls find that gone. The calls are those on a queue; those on a stack are read as such. All of it is a hint.

use crate::first::calls_in_turn::CallsInTurn;
use crate::items::calls::{found_empty, item_put};
use crate::items::each_item::told_of;
use crate::items::item_calls::BEYOND;
use crate::items::rows::ItemsAhead;
use crate::items::takers::{After, Wanting, is_left};
use crate::kept::kept;
use crate::sight::{CALLS_IN_SIGHT, MORE_IN_SIGHT};
use indexmap::IndexMap;
use lin_history::ProblemCall;
use lin_object::{AnyObject, Op, Reply};
use lin_search::Config;
use std::alloc::{AllocError, Global};

/// Calls that put in lost items, those that no completed call returned with.
#[derive(Drop)]
pub(crate) struct TakerHints {
    alloc: Global,
    // How many calls are looked at; none where there are no takers.
    in_sight: usize,
    // Of a call that puts an item in, the call that returned with it; of one that found the queue empty, itself.
    takers: Vec<Option<usize>>,
    // Of a call that puts a lost item in, the first that is needed of those that were called after it returned.
    behind: Vec<Option<usize>>,
    // The calls that put lost items in, and have one that is needed behind them, in the order of their returns.
    lost: CallsInTurn,
    // Whether the call puts a lost item in.
    is_lost: Vec<bool>,
    // Whether the call is a taker.
    is_taker: Vec<bool>,
    // Those of the lifted calls that put lost items in, in the order in which they were lifted.
    lifted: Vec<usize>,
    // How many calls are lifted.
    depth: usize,
}

/// A walk along the takers, in the order in which they were called.
#[derive(Drop)]
pub(crate) struct TakerWalk {
    place: usize,
    left: usize,
}

// When the call was called; 0 where there is no such call.
fn called_at(calls: &[ProblemCall<Op, Reply>], call: usize) -> u64 {
    match calls.get(call) {
        Some(made) => u64::from(made.called),
        None => 0,
    }
}

// The one of the two whose taker was called later.
pub(crate) fn called_last(
    calls: &[ProblemCall<Op, Reply>],
    one: Wanting,
    other: Option<Wanting>,
) -> Wanting {
    match other {
        Some(wanting) if called_at(calls, one.taker) < called_at(calls, wanting.taker) => wanting,
        _ => one,
    }
}

// Whether the call was called by this event.
fn is_called_by(calls: &[ProblemCall<Op, Reply>], call: usize, event: u64) -> bool {
    match calls.get(call) {
        Some(made) => u64::from(made.called) <= event,
        None => false,
    }
}

impl TakerWalk {
    // The walk at its beginning.
    pub(crate) fn new() -> Self {
        TakerWalk { place: 0, left: 0 }
    }

    // How many of the takers that were passed are left.
    pub(crate) fn left(&self) -> usize {
        self.left
    }

    // Goes on past those that were called by the return of the wanting call.
    pub(crate) fn go_to(
        &mut self,
        calls: &[ProblemCall<Op, Reply>],
        takers: &[usize],
        after: &After,
        wanting: Wanting,
    ) {
        let event = or_beyond(returned_at(calls, wanting.taker));
        for place in self.place..takers.len() {
            self.place = place;
            if !is_called_by(calls, takers[place], event) {
                return;
            }
            if is_left(after, takers[place]) {
                self.left = self.left.saturating_add(1);
            }
        }
        self.place = takers.len();
    }
}

// A call, and when it returned.
#[derive(Clone, Copy, Drop)]
struct Returned {
    event: u64,
    call: usize,
}

// For each item a call that returned with it.
fn takers_by_item(
    alloc: Global,
    calls: &[ProblemCall<Op, Reply>],
) -> Result<IndexMap<i64, usize>, AllocError> {
    let mut takers = IndexMap::new(alloc);
    for call in 0..calls.len() {
        if let (Op::Dequeue, Some((_, Reply::Int(item)))) = (
            &calls[call].op,
            &calls[call].returned,
        ) {
            takers.insert(*item, call)?;
        }
    }
    Ok(takers)
}

// The call that returned with what the call puts in; the call itself, where it found the queue empty.
fn taker_of(
    takers: &IndexMap<i64, usize>,
    calls: &[ProblemCall<Op, Reply>],
    call: usize,
) -> Option<usize> {
    let made = calls.get(call)?;
    match (&made.op, &made.returned) {
        (Op::Enqueue(item), _) => takers.get(item).copied(),
        (Op::Dequeue, Some((_, Reply::Empty))) => Some(call),
        _ => None,
    }
}

// That of each call.
fn taker_row(
    alloc: Global,
    calls: &[ProblemCall<Op, Reply>],
) -> Result<Vec<Option<usize>>, AllocError> {
    let takers = takers_by_item(alloc, calls)?;
    let mut row = Vec::with_capacity(alloc, calls.len())?;
    for call in 0..calls.len() {
        row.push(taker_of(&takers, calls, call))?;
    }
    Ok(row)
}

// The number from which on the call is needed.
fn needed_by(by: &[u64], call: Option<usize>) -> u64 {
    match call {
        Some(call) => by.get(call).copied().unwrap_or(BEYOND),
        None => BEYOND,
    }
}

// The one of the two calls that is needed first.
fn first_needed(by: &[u64], call: usize, other: Option<usize>) -> Option<usize> {
    if needed_by(by, Some(call)) < needed_by(by, other) {
        Some(call)
    } else {
        other
    }
}

// For each call the first that is needed of it and those called after it.
fn needed_from(alloc: Global, by: &[u64]) -> Result<Vec<Option<usize>>, AllocError> {
    let mut row = vec![in alloc; None; by.len()]?;
    let mut needed = None;
    for call in (0..by.len()).rev() {
        needed = first_needed(by, call, needed);
        if let Some(slot) = row.get_mut(call) {
            *slot = needed;
        }
    }
    Ok(row)
}

// The call that is there in the row.
fn at(row: &[Option<usize>], place: usize) -> Option<usize> {
    *row.get(place)?
}

// How often 16,384 calls can be halved, and once more.
const HALVES: usize = 15;

// The first call that was called after the event; beyond all calls where none was.
fn first_called_after(calls: &[ProblemCall<Op, Reply>], event: u64) -> usize {
    let mut low = 0;
    let mut high = calls.len();
    for _ in 0..HALVES {
        let half = low / 2 + high / 2;
        match calls.get(half) {
            Some(call) if low < high && u64::from(call.called) <= event => low =
                half.saturating_add(1),
            _ => high = half,
        }
    }
    low
}

// When the call returned.
fn returned_at(calls: &[ProblemCall<Op, Reply>], call: usize) -> Option<u64> {
    match &calls.get(call)?.returned {
        Some((number, _)) => Some(u64::from(*number)),
        None => None,
    }
}

// Whether the call puts an item in with which no completed call is told to have returned.
fn is_told_lost(calls: &[ProblemCall<Op, Reply>], ahead: &ItemsAhead, call: usize) -> bool {
    match item_put(calls, call) {
        Some(item) => !told_of(&ahead.told, item).taken,
        None => false,
    }
}

// Whether each call puts a lost item in.
fn lost_flags(
    alloc: Global,
    calls: &[ProblemCall<Op, Reply>],
    ahead: &ItemsAhead,
) -> Result<Vec<bool>, AllocError> {
    let mut flags = Vec::with_capacity(alloc, calls.len())?;
    for call in 0..calls.len() {
        flags.push(is_told_lost(calls, ahead, call))?;
    }
    Ok(flags)
}

// Whether so many takers are counted.
fn are_counted(takers: &[usize]) -> bool {
    !takers.is_empty() && takers.len() <= MORE_IN_SIGHT
}

// Whether each of so many calls is one of the takers.
fn taker_flags(alloc: Global, calls: usize, takers: &[usize]) -> Result<Vec<bool>, AllocError> {
    let mut flags = vec![in alloc; false; calls]?;
    for taker in takers {
        if let Some(flag) = flags.get_mut(*taker) {
            *flag = true;
        }
    }
    Ok(flags)
}

// When the call returned, where it found none; beyond all events for another call.
fn found_empty_at(calls: &[ProblemCall<Op, Reply>], call: usize) -> u64 {
    if found_empty(calls, call) {
        or_beyond(returned_at(calls, call))
    } else {
        BEYOND
    }
}

// That of each call.
fn found_empty_row(
    alloc: Global,
    calls: &[ProblemCall<Op, Reply>],
) -> Result<Vec<u64>, AllocError> {
    let mut row = Vec::with_capacity(alloc, calls.len())?;
    for call in 0..calls.len() {
        row.push(found_empty_at(calls, call))?;
    }
    Ok(row)
}

// Of each call that puts a lost item in, the first that is needed of those that were called after it returned.
fn behind_row(
    alloc: Global,
    calls: &[ProblemCall<Op, Reply>],
    by: &[u64],
    lost: &[bool],
) -> Result<Vec<Option<usize>>, AllocError> {
    let needed = needed_from(alloc, by)?;
    let mut row = Vec::with_capacity(alloc, lost.len())?;
    for call in 0..lost.len() {
        let first = match returned_at(calls, call) {
            Some(event) if lost[call] => at(needed.as_slice(), first_called_after(calls, event)),
            _ => None,
        };
        row.push(first)?;
    }
    Ok(row)
}

// A number beyond all events, where there is none.
fn or_beyond(event: Option<u64>) -> u64 {
    event.unwrap_or(BEYOND)
}

// The completed calls with a flag, in the order of their returns.
fn by_returns(
    alloc: Global,
    calls: &[ProblemCall<Op, Reply>],
    flags: &[bool],
) -> Result<CallsInTurn, AllocError> {
    let mut returned = Vec::new(alloc);
    for call in 0..flags.len() {
        let event = or_beyond(returned_at(calls, call));
        if event < BEYOND && flags[call] {
            returned.push(Returned { event, call })?;
        }
    }
    returned.sort_by_key(|one| one.event)?;
    let mut order = Vec::with_capacity(alloc, returned.len())?;
    for one in &returned {
        order.push(kept(one.call))?;
    }
    CallsInTurn::new(alloc, order, flags.len())
}

impl TakerHints {
    // Those of a problem with no takers.
    fn none(alloc: Global) -> Result<Self, AllocError> {
        Ok(TakerHints {
            alloc,
            in_sight: 0,
            takers: Vec::new(alloc),
            behind: Vec::new(alloc),
            lost: CallsInTurn::new(alloc, Vec::new(alloc), 0)?,
            is_lost: Vec::new(alloc),
            is_taker: Vec::new(alloc),
            lifted: Vec::new(alloc),
            depth: 0,
        })
    }

    // Those of a queue none of whose calls is lifted: of the calls behind one that puts a lost item in, the first that is needed
    // finds it gone.
    pub(crate) fn of_queue(
        alloc: Global,
        calls: &[ProblemCall<Op, Reply>],
        ahead: &ItemsAhead,
        by: &[u64],
    ) -> Result<Self, AllocError> {
        if !are_counted(ahead.takers.as_slice()) {
            return TakerHints::none(alloc);
        }
        let is_lost = lost_flags(alloc, calls, ahead)?;
        let behind = behind_row(alloc, calls, by, is_lost.as_slice())?;
        let found: Vec<bool> = behind.iter().map(|call| call.is_some()).collect(alloc)?;
        let lost = by_returns(alloc, calls, found.as_slice())?;
        TakerHints::new(alloc, calls, ahead.takers.as_slice(), is_lost, behind, lost)
    }

    // Those of a stack none of whose calls is lifted: the first that finds it empty finds a lost item gone, and any that is called
    // later may.
    pub(crate) fn of_stack(
        alloc: Global,
        calls: &[ProblemCall<Op, Reply>],
        ahead: &ItemsAhead,
    ) -> Result<Self, AllocError> {
        if !are_counted(ahead.takers.as_slice()) {
            return TakerHints::none(alloc);
        }
        let is_lost = lost_flags(alloc, calls, ahead)?;
        let empties = found_empty_row(alloc, calls)?;
        let behind = behind_row(alloc, calls, empties.as_slice(), is_lost.as_slice())?;
        let lost = by_returns(alloc, calls, is_lost.as_slice())?;
        TakerHints::new(alloc, calls, ahead.takers.as_slice(), is_lost, behind, lost)
    }

    // Those with these rows, and these calls that put lost items in.
    fn new(
        alloc: Global,
        calls: &[ProblemCall<Op, Reply>],
        takers: &[usize],
        is_lost: Vec<bool>,
        behind: Vec<Option<usize>>,
        lost: CallsInTurn,
    ) -> Result<Self, AllocError> {
        Ok(TakerHints {
            alloc,
            in_sight: takers.len().saturating_add(CALLS_IN_SIGHT),
            takers: taker_row(alloc, calls)?,
            lost,
            behind,
            is_lost,
            is_taker: taker_flags(alloc, calls.len(), takers)?,
            lifted: Vec::new(alloc),
            depth: 0,
        })
    }

    // Where memory is asked for.
    pub(crate) fn alloc(&self) -> Global {
        self.alloc
    }

    // How many calls are looked at.
    pub(crate) fn in_sight(&self) -> usize {
        self.in_sight
    }

    // Whether the call puts a lost item in.
    pub(crate) fn puts_lost(&self, call: usize) -> bool {
        matches!(self.is_lost.get(call), Some(true))
    }

    // Whether the call may leave too few takers. Before any call is lifted each is asked: where there are too few from the start
    // the search ends at once, and does not find that out again behind every order of the calls in front.
    pub(crate) fn concerns(&self, call: usize) -> bool {
        self.depth == 0 || self.puts_lost(call) || matches!(self.is_taker.get(call), Some(true))
    }

    // The call that is so many behind the first that puts a lost item in and is not lifted.
    pub(crate) fn lost_ahead(&self, count: usize) -> Option<usize> {
        self.lost.ahead(count)
    }

    // The call that finds all gone which goes before the one that is needed.
    pub(crate) fn wanting(&self, needed: Option<usize>) -> Option<Wanting> {
        let put = needed?;
        let taker = at(self.takers.as_slice(), put)?;
        Some(Wanting { put, taker })
    }

    // The same for the first that is needed behind the call.
    pub(crate) fn wanting_behind(&self, call: usize) -> Option<Wanting> {
        self.wanting(at(self.behind.as_slice(), call))
    }

    // These calls, and those that are left, put lost items in and returned before the taker was called.
    pub(crate) fn with_those_before(
        &self,
        calls: &[ProblemCall<Op, Reply>],
        after: &After,
        lying: &[usize],
        taker: usize,
    ) -> Result<Vec<usize>, AllocError> {
        let mut putters = Vec::from_slice(self.alloc, lying)?;
        for count in 0..self.in_sight {
            let Some(call) = self.lost_ahead(count) else {
                return Ok(putters);
            };
            if is_called_by(calls, taker, or_beyond(returned_at(calls, call))) {
                return Ok(putters);
            }
            if is_left(after, call) {
                putters.push(call)?;
            }
        }
        Ok(putters)
    }

    // The last of the calls whose lost items lie in the queue after the call.
    pub(crate) fn lying(
        &self,
        calls: &[ProblemCall<Op, Reply>],
        after: &After,
    ) -> Result<Vec<usize>, AllocError> {
        let mut lying = Vec::new(self.alloc);
        if let Some(item) = item_put(calls, after.call) {
            if after.items.has(item) {
                lying.push(after.call)?;
            }
        }
        for place in (0..self.lifted.len()).rev() {
            let call = self.lifted[place];
            match item_put(calls, call) {
                Some(item) if after.items.has(item) && lying.len() < self.in_sight => lying.push(
                    call,
                )?,
                _ => return Ok(lying),
            }
        }
        Ok(lying)
    }

    // Goes on after the call, which is lifted now.
    pub(crate) fn lifted(
        &mut self,
        config: &Config<AnyObject>,
        call: usize,
    ) -> Result<(), AllocError> {
        self.lost.lifted(config);
        self.depth = self.depth.saturating_add(1);
        if self.puts_lost(call) {
            self.lifted.push(call)?;
        }
        Ok(())
    }

    // Goes back to before the call, which was taken out again.
    pub(crate) fn unlifted(&mut self, call: usize) {
        self.lost.unlifted(call);
        self.depth = self.depth.saturating_sub(1);
        if self.lifted.last() == Some(&call) {
            self.lifted.pop();
        }
    }
}
