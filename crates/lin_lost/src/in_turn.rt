//! A guess which call put in what each dequeue returned with, where items of a queue repeat: it goes by the times of the calls. All of it
//! is a hint.

use crate::guess::{Guess, NEVER, returned_at, time_of};
use lin_history::{Problem, ProblemCall};
use lin_object::{AnyObject, Op, Reply};
use std::alloc::{AllocError, Global};

// How many calls are looked at on each side.
const IN_SIGHT: usize = 64;

// A call that puts an item in.
#[derive(Clone, Copy, Drop)]
struct Put {
    item: i64,
    called: u64,
    returned: u64,
    call: usize,
}

// Calls that put items in, by items and then by calls.
#[derive(Drop)]
struct Puts {
    puts: Vec<Put>,
    is_used: Vec<bool>,
    // For the first of each item, behind which one the next one is looked for.
    next: Vec<usize>,
}

impl Puts {
    fn of(alloc: Global, puts: Vec<Put>) -> Result<Self, AllocError> {
        let mut puts = puts;
        puts.sort_by_key(|put| put.called)?;
        puts.sort_by_key(|put| put.item)?;
        let count = puts.len();
        Ok(Puts {
            puts,
            is_used: vec![in alloc; false; count]?,
            next: vec![in alloc; 0; count]?,
        })
    }

    fn is_used(&self, place: usize) -> bool {
        self.is_used.get(place).copied().unwrap_or(true)
    }

    // The place of the first one of the item.
    fn first_of(&self, item: i64) -> usize {
        self.puts.partition_point(|put| put.item < item)
    }

    // The place behind the last one of the item that was called by this time.
    fn end_of(&self, item: i64, by: u64) -> usize {
        self.puts.partition_point(|put| put.item < item || put.item == item && put.called <= by)
    }

    // The first one of the item that is not used, was called by this time and returned no earlier than that one.
    fn first_left(&self, item: i64, by: u64, from: u64) -> Option<usize> {
        let first = self.first_of(item);
        let next = self.next.get(first).copied().unwrap_or(0);
        for place in next.saturating_sub(IN_SIGHT).max(first)..self.end_of(item, by) {
            match self.puts.get(place) {
                Some(put) if put.returned >= from && !self.is_used(place) => return Some(place),
                _ => {}
            }
        }
        None
    }

    // The last one of the item that is not used and was called by this time.
    fn last_left(&self, item: i64, by: u64) -> Option<usize> {
        let first = self.first_of(item);
        (first..self.end_of(item, by))
            .rev()
            .take(IN_SIGHT)
            .find(|place| !self.is_used(*place))
    }

    // The one at this place is used.
    fn use_up(&mut self, place: usize) {
        if let Some(slot) = self.is_used.get_mut(place) {
            *slot = true;
        }
        let Some(put) = self.puts.get(place) else {
            return;
        };
        let first = self.first_of(put.item);
        if let Some(slot) = self.next.get_mut(first) {
            *slot = place;
        }
    }

    // When the one at this place was called.
    fn called_at(&self, place: usize) -> u64 {
        match self.puts.get(place) {
            Some(put) => put.called,
            None => 0,
        }
    }

    // Those that are not used are lost.
    fn lose_the_rest(&self, guess: &mut Guess) -> Result<(), AllocError> {
        for (put, is_used) in self.puts.iter().zip(self.is_used.iter()) {
            if !*is_used {
                guess.lose(put.call)?;
            }
        }
        Ok(())
    }

    // Which call that is.
    fn call_at(&self, place: usize) -> usize {
        match self.puts.get(place) {
            Some(put) => put.call,
            None => usize::MAX,
        }
    }
}

// A completed dequeue: the item that it returned with, if it found one.
#[derive(Clone, Copy, Drop)]
struct Take {
    item: Option<i64>,
    called: u64,
    returned: u64,
}

fn take_of(made: &ProblemCall<Op, Reply>) -> Option<Take> {
    let item = match (&made.op, &made.returned) {
        (Op::Dequeue, Some((_, Reply::Int(item)))) => Some(*item),
        (Op::Dequeue, Some((_, Reply::Empty))) => None,
        _ => return None,
    };
    Some(Take {
        item,
        called: time_of(made.called),
        returned: returned_at(made),
    })
}

fn put_of(call: usize, made: &ProblemCall<Op, Reply>) -> Option<Put> {
    match &made.op {
        Op::Enqueue(item) => Some(Put {
            item: *item,
            called: time_of(made.called),
            returned: returned_at(made),
            call,
        }),
        _ => None,
    }
}

// A call that put in what a dequeue returned with.
#[derive(Clone, Copy, Drop)]
enum Chosen {
    Completed(usize),
    Pending(usize),
}

// The calls on a queue as they are told apart, and what is known of the dequeues that were gone through.
#[derive(Drop)]
struct Turns {
    completed: Puts,
    // The completed ones by their returns, with their places.
    by_return: Vec<(u64, usize)>,
    pending: Puts,
    takes: Vec<Take>,
    // When the dequeues that were gone through returned, and the latest call event of what is out by then.
    returns: Vec<u64>,
    latest: Vec<u64>,
}

impl Turns {
    fn of(alloc: Global, problem: &Problem<AnyObject>) -> Result<Self, AllocError> {
        let mut completed = Vec::new(alloc);
        let mut pending = Vec::new(alloc);
        let mut takes = Vec::new(alloc);
        for (call, made) in problem.calls().iter().enumerate() {
            if let Some(take) = take_of(made) {
                takes.push(take)?;
            }
            match put_of(call, made) {
                Some(put) if put.returned == NEVER => pending.push(put)?,
                Some(put) => completed.push(put)?,
                None => {}
            }
        }
        takes.sort_by_key(|take| take.returned)?;
        let completed = Puts::of(alloc, completed)?;
        let mut by_return = Vec::with_capacity(alloc, completed.puts.len())?;
        for (place, put) in completed.puts.iter().enumerate() {
            by_return.push((put.returned, place))?;
        }
        by_return.sort_by_key(|pair| pair.0)?;
        Ok(Turns {
            completed,
            by_return,
            pending: Puts::of(alloc, pending)?,
            takes,
            returns: Vec::new(alloc),
            latest: Vec::new(alloc),
        })
    }

    // The latest call event of what was out when a dequeue was called: what returned before that was out, too.
    fn latest_before(&self, called: u64) -> u64 {
        let behind = self.returns.partition_point(|returned| *returned < called);
        self.latest
            .get(behind.wrapping_sub(1))
            .copied()
            .unwrap_or(0)
    }

    // What a dequeue took that returned then was called at this time.
    fn note(&mut self, returned: u64, called: u64) -> Result<(), AllocError> {
        let latest = self.latest.last().copied().unwrap_or(0);
        self.returns.push(returned)?;
        self.latest.push(latest.max(called))?;
        Ok(())
    }

    // How many of the dequeues behind this one were called before it returned.
    fn beside(&self, number: usize, take: Take) -> usize {
        self.takes
            .iter()
            .skip(number.saturating_add(1))
            .take(IN_SIGHT)
            .filter(|other| other.called < take.returned)
            .count()
    }

    // Whether more items lie before a call that was called at this time than the dequeues beside this one may take. Nothing lies before it
    // that returned before the first time.
    fn passes_over(&self, number: usize, take: Take, from: u64, to: u64) -> bool {
        let first = self.by_return.partition_point(|pair| pair.0 < from);
        let before = self
            .by_return
            .iter()
            .skip(first)
            .take(IN_SIGHT)
            .filter(|pair| pair.0 < to && !self.completed.is_used(pair.1))
            .count();
        before > self.beside(number, take)
    }

    // The call that put in what the dequeue of this number took: the first that may be it. A pending one, where there is no such or too much
    // lies before it.
    fn choose(&self, number: usize, take: Take, item: i64) -> Option<Chosen> {
        let latest = self.latest_before(take.called);
        let completed = self.completed.first_left(item, take.returned, latest);
        let pending = self.pending.first_left(item, take.returned, 0);
        let Some(place) = completed else {
            return match pending {
                Some(other) => Some(Chosen::Pending(other)),
                None => self.last_of(take, item),
            };
        };
        let Some(other) = pending else {
            return Some(Chosen::Completed(place));
        };
        let called = self.completed.called_at(place);
        if self.passes_over(number, take, latest, called) {
            return Some(Chosen::Pending(other));
        }
        Some(Chosen::Completed(place))
    }

    // The last call that may have put in what the dequeue took, though by others it was gone.
    fn last_of(&self, take: Take, item: i64) -> Option<Chosen> {
        match self.completed.last_left(item, take.returned) {
            Some(place) => Some(Chosen::Completed(place)),
            None => None,
        }
    }

    // The chosen call put in what the dequeue took: when it was called. A pending one returned before the dequeue did.
    fn take_chosen(&mut self, guess: &mut Guess, take: Take, chosen: Option<Chosen>) -> u64 {
        match chosen {
            Some(Chosen::Completed(place)) => {
                self.completed.use_up(place);
                self.completed.called_at(place)
            }
            Some(Chosen::Pending(place)) => {
                self.pending.use_up(place);
                guess.keep_until(self.pending.call_at(place), take.returned.saturating_sub(1));
                self.pending.called_at(place)
            }
            None => 0,
        }
    }

    // Goes through the dequeues, in the order of their returns.
    fn go_through(&mut self, guess: &mut Guess) -> Result<(), AllocError> {
        for number in 0..self.takes.len() {
            let Some(take) = self.takes.get(number).copied() else {
                return Ok(());
            };
            let called = match take.item {
                Some(item) => {
                    let chosen = self.choose(number, take, item);
                    self.take_chosen(guess, take, chosen)
                }
                None => take.called,
            };
            self.note(take.returned, called)?;
        }
        Ok(())
    }
}

/// Guesses of the calls on a queue: those are lost whose items no dequeue took.
pub(crate) fn judge_in_turn(
    alloc: Global,
    problem: &Problem<AnyObject>,
    guess: &mut Guess,
) -> Result<(), AllocError> {
    let mut turns = Turns::of(alloc, problem)?;
    turns.go_through(guess)?;
    turns.completed.lose_the_rest(guess)
}
