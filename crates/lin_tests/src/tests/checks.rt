//! Checks of one object: the same verdict by every number of workers, over every number of shards.

use super::random::random_history;
use super::searches::{Part, plainly_searched};
use lin_object::Kind;
use lin_search::Outcome;
use lin_workers::{Gate, ObjectVerdict, Options, check_object};
use std::alloc::AllocError;
use std::thread::Threads;
use std::time::Clock;

// A gate at which nothing happens, and that wants workers at once.
struct Eager;

impl Gate for Eager {
    fn enter(&self, _task: u64) {}
}

// Numbers of workers and of shards.
const WORKERS_AND_SHARDS: [(u64, u64); 6] = [
    (1, 1),
    (1, 256),
    (2, 16),
    (3, 16),
    (64, 1),
    (64, 256),
];

const KINDS: [Kind; 7] = [
    Kind::Register,
    Kind::Counter,
    Kind::Queue,
    Kind::Stack,
    Kind::Set,
    Kind::Mutex,
    Kind::Map,
];

// What a check with so many workers and shards finds.
fn found<R: AllocGlobal + Threads + Clock + Sync>(
    rt: &R,
    problem: &Part,
    workers: u64,
    shards: u64,
) -> Option<ObjectVerdict> {
    let options = Options::new(workers, shards, None, false).ok()?;
    let (verdict, _) = check_object(rt, problem, &options, &Eager).ok()?;
    Some(verdict)
}

// Whether it found what a search answered.
fn is_as_answered(found: Option<ObjectVerdict>, answer: &Outcome) -> bool {
    match (found, answer) {
        (Some(ObjectVerdict::Yes(order)), Outcome::Found(least)) => order.calls() == least.calls(),
        (Some(ObjectVerdict::No(order)), Outcome::Refuted(longest)) => {
            order.calls().len() == longest.more()
                && order.calls().first().copied() == longest.first()
        }
        _ => false,
    }
}

// Whether every number of workers and shards finds what a search answered.
fn all_are_as_answered<R: AllocGlobal + Threads + Clock + Sync>(
    rt: &R,
    problem: &Part,
    answer: &Outcome,
) -> bool {
    for (workers, shards) in &WORKERS_AND_SHARDS {
        if !is_as_answered(found(rt, problem, *workers, *shards), answer) {
            return false;
        }
    }
    true
}

// Whether every number of workers and shards finds what the search without a memo answers of a random history.
fn agree_on<R: AllocGlobal + Threads + Clock + Sync>(
    rt: &R,
    kind: Kind,
    seed: u64,
) -> Result<bool, AllocError> {
    let history = random_history(rt.alloc(), kind, seed);
    if history.object_count() == 0 {
        return Ok(false);
    }
    let problem = history.problem(rt.alloc(), 0)?;
    let answer = plainly_searched(rt.alloc(), &problem)?;
    Ok(all_are_as_answered(rt, &problem, &answer))
}

// The same of fifty of them.
fn agree_on_fifty<R: AllocGlobal + Threads + Clock + Sync>(rt: &R, kind: Kind) -> bool {
    for seed in 0..50 {
        if !matches!(agree_on(rt, kind, seed), Ok(true)) {
            return false;
        }
    }
    true
}

#[test]
fn every_number_of_workers_answers_as_the_plain_search(rt: HostRuntime) {
    for kind in KINDS {
        assert!(rt; agree_on_fifty(&rt, kind));
    }
}
