//! An order of what is left of a queue or a stack, with the lost items put in again, and with pending calls that take them in time. All
//! of it is a hint: what comes out is checked.

use crate::guess::{Guess, NEVER, takes_item, time_of};
use lin_history::Problem;
use lin_object::{AnyObject, ObjState, Op, Reply};
use std::alloc::{AllocError, Global};

// What a call of the order does.
#[derive(Clone, Copy, PartialEq, Eq, Drop)]
enum Does {
    Puts,
    Takes,
    FindsNothing,
}

fn what_does(problem: &Problem<AnyObject>, call: usize) -> Does {
    match problem.calls().get(call) {
        Some(made) if !takes_item(&made.op) => Does::Puts,
        Some(made) => match &made.returned {
            Some((_, Reply::Empty)) => Does::FindsNothing,
            _ => Does::Takes,
        },
        None => Does::FindsNothing,
    }
}

fn called_at(problem: &Problem<AnyObject>, call: usize) -> u64 {
    match problem.calls().get(call) {
        Some(made) => time_of(made.called),
        None => NEVER,
    }
}

fn returned_at(guess: &Guess, call: usize) -> u64 {
    guess.returns.get(call).copied().unwrap_or(NEVER)
}

// The place beyond those of all calls.
const NO_PLACE: usize = usize::MAX;

// What an order shows of each place in front of a call of it, and of the one behind all.
#[derive(Drop)]
struct Places {
    // The latest call event of the calls up to that one.
    latest: Vec<u64>,
    // The least return of the calls from there on.
    least: Vec<u64>,
    // By which call an item that is put in there must be out again.
    due: Vec<usize>,
}

// The latest call event of the calls up to each one.
fn latest_of(
    alloc: Global,
    problem: &Problem<AnyObject>,
    order: &[usize],
) -> Result<Vec<u64>, AllocError> {
    let mut latest = Vec::with_capacity(alloc, order.len())?;
    let mut greatest = 0;
    for call in order {
        greatest = called_at(problem, *call).max(greatest);
        latest.push(greatest)?;
    }
    Ok(latest)
}

// The least return of the calls from each place on, from the last one down.
fn least_of(alloc: Global, guess: &Guess, order: &[usize]) -> Result<Vec<u64>, AllocError> {
    let mut least = Vec::with_capacity(alloc, order.len().saturating_add(1))?;
    let mut first = NEVER;
    least.push(first)?;
    for call in order.iter().rev() {
        first = returned_at(guess, *call).min(first);
        least.push(first)?;
    }
    least.reverse();
    Ok(least)
}

// By which call an item must be out of a queue that is put in at each place: by that which takes the next item, or finds none.
fn due_of_queue(
    alloc: Global,
    problem: &Problem<AnyObject>,
    order: &[usize],
) -> Result<Vec<usize>, AllocError> {
    let mut takes = Vec::new(alloc);
    let mut puts = 0usize;
    for (place, call) in order.iter().enumerate() {
        match what_does(problem, *call) {
            Does::Takes => takes.push(place)?,
            Does::Puts => puts = puts.saturating_add(1),
            Does::FindsNothing => {}
        }
    }
    let mut due = Vec::with_capacity(alloc, order.len().saturating_add(1))?;
    let mut none = NO_PLACE;
    due.push(takes.get(puts).copied().unwrap_or(NO_PLACE))?;
    for (place, call) in order.iter().enumerate().rev() {
        match what_does(problem, *call) {
            Does::Puts => puts = puts.saturating_sub(1),
            Does::FindsNothing => none = place,
            Does::Takes => {}
        }
        due.push(takes.get(puts).copied().unwrap_or(NO_PLACE).min(none))?;
    }
    due.reverse();
    Ok(due)
}

// By which call an item must be out of a stack that is put in at each place: by that which takes an item from below, or finds none.
fn due_of_stack(
    alloc: Global,
    problem: &Problem<AnyObject>,
    order: &[usize],
) -> Result<Vec<usize>, AllocError> {
    let mut height = 0usize;
    let mut most = 0usize;
    for call in order {
        match what_does(problem, *call) {
            Does::Puts => height = height.saturating_add(1),
            Does::Takes => height = height.saturating_sub(1),
            Does::FindsNothing => {}
        }
        most = most.max(height);
    }
    // For each height the next call that takes the stack below it.
    let mut falls = vec![in alloc; NO_PLACE; most.saturating_add(1)]?;
    let mut due = Vec::with_capacity(alloc, order.len().saturating_add(1))?;
    let mut none = NO_PLACE;
    due.push(NO_PLACE)?;
    for (place, call) in order.iter().enumerate().rev() {
        match what_does(problem, *call) {
            Does::Puts => height = height.saturating_sub(1),
            Does::Takes => {
                height = height.saturating_add(1);
                if let Some(slot) = falls.get_mut(height) {
                    *slot = place;
                }
            }
            Does::FindsNothing => none = place,
        }
        let fall = if height > 0 {
            falls.get(height).copied().unwrap_or(NO_PLACE)
        } else {
            NO_PLACE
        };
        due.push(fall.min(none))?;
    }
    due.reverse();
    Ok(due)
}

fn is_queue(problem: &Problem<AnyObject>) -> bool {
    matches!(problem.start(), ObjState::Queue(_))
}

impl Places {
    fn of(
        alloc: Global,
        problem: &Problem<AnyObject>,
        guess: &Guess,
        order: &[usize],
    ) -> Result<Self, AllocError> {
        let due = if is_queue(problem) {
            due_of_queue(alloc, problem, order)?
        } else {
            due_of_stack(alloc, problem, order)?
        };
        Ok(Places {
            latest: latest_of(alloc, problem, order)?,
            least: least_of(alloc, guess, order)?,
            due,
        })
    }

    // The first of the places at which such a call may stand where its item may stay longest; and by which call it must be out.
    fn best_for(&self, called: u64, returned: u64) -> Insert {
        let first = self.least.partition_point(|least| *least <= called);
        let last = self.latest.partition_point(|latest| *latest <= returned);
        let mut best = Insert {
            place: first,
            due: 0,
        };
        for place in first..last.saturating_add(1) {
            let due = self.due.get(place).copied().unwrap_or(0);
            if due > best.due {
                best = Insert { place, due };
            }
        }
        best
    }
}

// Where a call is put in, and by which call its item must be out.
#[derive(Clone, Copy, Drop)]
struct Insert {
    place: usize,
    due: usize,
}

// A lost call, and where it is put in.
#[derive(Clone, Copy, Drop)]
struct Inserted {
    call: usize,
    at: Insert,
}

// Where each lost call is put in, by places; those at one place by their returns.
fn inserts_of(
    alloc: Global,
    problem: &Problem<AnyObject>,
    guess: &Guess,
    places: &Places,
) -> Result<Vec<Inserted>, AllocError> {
    let mut all = Vec::with_capacity(alloc, guess.lost.len())?;
    for call in &guess.lost {
        let at = places.best_for(called_at(problem, *call), returned_at(guess, *call));
        all.push(Inserted { call: *call, at })?;
    }
    all.sort_by_key(|one| returned_at(guess, one.call))?;
    all.sort_by_key(|one| one.at.place)?;
    Ok(all)
}

// The items of a queue or a stack, by whether each is lost.
#[derive(Drop)]
struct LostItems {
    is_lost: Vec<bool>,
    first: usize,
    is_queue: bool,
}

impl LostItems {
    // Whether the item that comes out next is lost; `None` where there is none.
    fn next(&self) -> Option<bool> {
        if self.is_queue {
            return self.is_lost.get(self.first).copied();
        }
        self.is_lost.last().copied()
    }

    // The item that comes out next is out.
    fn take(&mut self) {
        if self.is_queue {
            self.first = self.first.saturating_add(1);
        } else {
            self.is_lost.pop();
        }
    }
}

// An order as it is made, and what it has left.
#[derive(Drop)]
struct Making {
    made: Vec<usize>,
    items: LostItems,
    // How many of the pending calls were used.
    used: usize,
}

impl Making {
    // Takes lost items out by pending calls until another one comes out next. `false` where there are too few of them.
    fn take_lost(&mut self, takers: &[usize]) -> Result<bool, AllocError> {
        for _ in 0..takers.len().saturating_add(1) {
            if self.items.next() != Some(true) {
                return Ok(true);
            }
            let Some(taker) = takers.get(self.used) else {
                return Ok(false);
            };
            self.made.push(*taker)?;
            self.items.take();
            self.used = self.used.saturating_add(1);
        }
        Ok(false)
    }

    // Puts the call of the order behind. `false` where too few pending calls are left.
    fn add(
        &mut self,
        problem: &Problem<AnyObject>,
        takers: &[usize],
        call: usize,
    ) -> Result<bool, AllocError> {
        let does = what_does(problem, call);
        if does != Does::Puts && !self.take_lost(takers)? {
            return Ok(false);
        }
        match does {
            Does::Puts => self.items.is_lost.push(false)?,
            Does::Takes => self.items.take(),
            Does::FindsNothing => {}
        }
        self.made.push(call)?;
        Ok(true)
    }

    // Puts the lost call behind.
    fn add_lost(&mut self, call: usize) -> Result<(), AllocError> {
        self.items.is_lost.push(true)?;
        self.made.push(call)?;
        Ok(())
    }
}

/// The order of what is left, with the lost calls put in again, and pending calls that take their items in time. `None` where these
/// are too few.
pub(crate) fn with_lost(
    alloc: Global,
    problem: &Problem<AnyObject>,
    guess: &Guess,
    order: &[usize],
) -> Result<Option<Vec<usize>>, AllocError> {
    let places = Places::of(alloc, problem, guess, order)?;
    let lost = inserts_of(alloc, problem, guess, &places)?;
    let takers = guess.takers.as_slice();
    let mut making = Making {
        made: Vec::with_capacity(alloc, problem.len())?,
        items: LostItems {
            is_lost: Vec::new(alloc),
            first: 0,
            is_queue: is_queue(problem),
        },
        used: 0,
    };
    let mut next = 0usize;
    for (place, call) in order.iter().enumerate() {
        for _ in next..lost.len() {
            match lost.get(next) {
                Some(one) if one.at.place <= place => making.add_lost(one.call)?,
                _ => break,
            }
            next = next.saturating_add(1);
        }
        if !making.add(problem, takers, *call)? {
            return Ok(None);
        }
    }
    for one in lost.iter().skip(next) {
        making.add_lost(one.call)?;
    }
    Ok(Some(making.made))
}
