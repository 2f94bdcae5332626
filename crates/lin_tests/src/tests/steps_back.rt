//! Steps that are made in a state itself, and taken back.

use super::random::{Numbers, random_step};
use lin_object::{AnyObject, Items, Kind, ObjState, Op, SeqObject, StepBack, start_state};
use std::alloc::{AllocError, Global};

const KINDS: [Kind; 7] = [
    Kind::Register,
    Kind::Counter,
    Kind::Queue,
    Kind::Stack,
    Kind::Set,
    Kind::Mutex,
    Kind::Map,
];

// Makes a step in the state itself, takes it back, and makes it again: what takes it back is kept.
fn step_to_and_fro(
    alloc: Global,
    state: &mut ObjState,
    (process, op): (u32, &Op),
    steps: &mut Vec<StepBack<ObjState>>,
) -> Result<(), AllocError> {
    if let Some(mut back) = AnyObject.step_in_place(alloc, state, process, op, &None)? {
        AnyObject.take_back(state, &mut back)?;
    }
    if let Some(back) = AnyObject.step_in_place(alloc, state, process, op, &None)? {
        steps.push(back)?;
    }
    Ok(())
}

// Takes all of the steps back, the last first.
fn take_all_back(
    state: &mut ObjState,
    steps: &mut Vec<StepBack<ObjState>>,
) -> Result<(), AllocError> {
    for _ in 0..steps.len() {
        if let Some(mut back) = steps.pop() {
            AnyObject.take_back(state, &mut back)?;
        }
    }
    Ok(())
}

// Makes forty random steps on an object of the kind so.
fn make_forty(
    alloc: Global,
    kind: Kind,
    seed: u64,
    state: &mut ObjState,
    steps: &mut Vec<StepBack<ObjState>>,
) -> Result<(), AllocError> {
    let mut numbers = Numbers::new(seed);
    for _ in 0..40 {
        let (process, op) = random_step(kind, &mut numbers);
        step_to_and_fro(alloc, state, (process, &op), steps)?;
    }
    Ok(())
}

// Whether all of them are made and taken back, to the start.
fn leads_back(alloc: Global, kind: Kind, seed: u64) -> Result<bool, AllocError> {
    let mut state = start_state(alloc, kind, 0);
    let mut steps = Vec::new(alloc);
    make_forty(alloc, kind, seed, &mut state, &mut steps)?;
    take_all_back(&mut state, &mut steps)?;
    Ok(state == start_state(alloc, kind, 0))
}

// The same of fifty rows of steps.
fn fifty_lead_back(alloc: Global, kind: Kind) -> bool {
    for seed in 0..50 {
        if !matches!(leads_back(alloc, kind, seed), Ok(true)) {
            return false;
        }
    }
    true
}

#[test]
fn random_steps_are_taken_back(rt: HostRuntime) {
    for kind in KINDS {
        assert!(rt; fifty_lead_back(rt.alloc(), kind));
    }
}

// Takes an item that a set has twice out, and puts both in again.
fn take_out_both(alloc: Global) -> Result<(), AllocError> {
    let once = Items::none(alloc).with_last(alloc, 1)?;
    let twice = once.with_last(alloc, 2)?.with_last(alloc, 1)?;
    let mut state = ObjState::Set(twice);
    step_to_and_fro(alloc, &mut state, (1, &Op::Remove(1)), &mut Vec::new(alloc))
}

#[test]
fn an_item_that_a_set_has_twice_is_put_back_twice(rt: HostRuntime) {
    assert!(rt; take_out_both(rt.alloc()).is_ok());
}
