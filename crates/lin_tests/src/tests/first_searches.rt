//! The search that passes over calls by what is known ahead answers as the search without a memo does, and with few lifts.

use super::random::random_history;
use super::searches::Event::{Call, Return};
use super::searches::{Event, Part, plainly_searched, posed_by};
use lin_ahead::{RefutedSet, known_ahead, search_first};
use lin_object::{Kind, Op, Reply};
use lin_search::{NoStop, Outcome, Told};
use std::alloc::{AllocError, Global};

// Whether the first search answered what the search without a memo did.
fn is_as_plain(first: &Told, plain: &Outcome) -> bool {
    match (first, plain) {
        (Told::Found(order), Outcome::Found(least)) => order.calls() == least.calls(),
        (Told::Refuted, Outcome::Refuted(_)) => true,
        _ => false,
    }
}

// Whether both answer the same of a problem of which something is known ahead.
fn first_is_as_plain(alloc: Global, problem: &Part) -> Result<bool, AllocError> {
    let Some(ahead) = known_ahead(alloc, problem)? else {
        return Ok(false);
    };
    let first = search_first(
        alloc,
        problem,
        &ahead,
        &mut RefutedSet::new(alloc),
        1_000_000,
        &mut NoStop,
    )?;
    Ok(is_as_plain(&first, &plainly_searched(alloc, problem)?))
}

// The same of a random history of an object of this kind.
fn first_is_as_plain_on(alloc: Global, kind: Kind, seed: u64) -> Result<bool, AllocError> {
    let history = random_history(alloc, kind, seed);
    if history.object_count() == 0 {
        return Ok(false);
    }
    first_is_as_plain(alloc, &history.problem(alloc, 0)?)
}

#[test]
fn first_search_answers_as_the_plain_search(rt: HostRuntime) {
    for seed in 0..200 {
        assert!(rt;
            matches!(
                first_is_as_plain_on(rt.alloc(), Kind::Queue, seed),
                Ok(true)
            )
        );
        assert!(rt;
            matches!(
                first_is_as_plain_on(rt.alloc(), Kind::Stack, seed),
                Ok(true)
            )
        );
    }
}

// A get that never returned, three adds, and a get of more than they add up to.
const GET_OF_MORE_THAN_WAS_ADDED: [Event; 8] = [
    Call(4, Op::Get),
    Call(2, Op::Add(-1)),
    Call(6, Op::Add(1)),
    Call(3, Op::Get),
    Call(0, Op::Add(1)),
    Return(4, Reply::Okay),
    Return(2, Reply::Okay),
    Return(3, Reply::Int(3)),
];

// What a first search of so many lifts answers, where something is known ahead.
fn first_told(alloc: Global, problem: &Part, lifts: u64) -> Result<Option<Told>, AllocError> {
    match known_ahead(alloc, problem)? {
        Some(ahead) => {
            let mut refuted = RefutedSet::new(alloc);
            let told = search_first(alloc, problem, &ahead, &mut refuted, lifts, &mut NoStop)?;
            Ok(Some(told))
        }
        None => Ok(None),
    }
}

// It would take 12 lifts to try the others too.
#[test]
fn after_a_call_that_changes_nothing_no_other_is_tried(rt: HostRuntime) {
    let problem = posed_by(rt.alloc(), Kind::Counter, &GET_OF_MORE_THAN_WAS_ADDED);
    assert!(rt; matches!(first_told(rt.alloc(), &problem, 5), Ok(Some(Told::Refuted))));
}
