//! A process that has little memory left, and calls that are made in it again and again.

use std::alloc::{AllocError, Global};

/// How many times a call is made at the most. The last time it has so many times 16 bytes.
pub const TIMES: usize = 3000;

// The size of a spare block. The C library takes blocks of this size from its heap; larger ones it maps by themselves.
const SPARE: usize = 65_536;

// How many blocks are held at the most.
const MOST: usize = 400_000;

/// All memory that the process may have, but for what is left free and some spare blocks.
#[derive(Drop)]
pub struct Starved {
    alloc: Global,
    held: Vec<Vec<u8>>,
    spares: Vec<Vec<u8>>,
}

// Takes blocks of this size until one is refused.
fn take_all(alloc: Global, held: &mut Vec<Vec<u8>>, size: usize) {
    for _ in 0..MOST {
        let Ok(block) = Vec::with_capacity(alloc, size) else {
            return;
        };
        if held.push(block).is_err() {
            return;
        }
    }
}

// Takes what is left of the heap, down to the smallest blocks.
fn take_heap(alloc: Global, held: &mut Vec<Vec<u8>>) {
    for shift in 0..6u32 {
        take_all(alloc, held, SPARE >> shift);
    }
    for step in 0..65usize {
        take_all(alloc, held, (65 - step) * 16);
    }
}

// Takes all addresses that are free, from the largest pieces to pieces of this many times two bytes.
fn take_addresses(alloc: Global, held: &mut Vec<Vec<u8>>, least: u32) {
    for shift in 0..47u32 {
        let power = 46 - shift;
        if power >= least {
            take_all(alloc, held, 1 << power);
        }
    }
}

// So many spare blocks.
fn spare_blocks(alloc: Global, count: usize) -> Result<Vec<Vec<u8>>, AllocError> {
    let mut spares = Vec::with_capacity(alloc, count)?;
    for _ in 0..count {
        spares.push(Vec::with_capacity(alloc, SPARE)?)?;
    }
    Ok(spares)
}

impl Starved {
    /// Takes all memory that the process may have, but for so many spare blocks.
    pub fn new(alloc: Global, count: usize) -> Result<Starved, AllocError> {
        let mut held = Vec::with_capacity(alloc, MOST)?;
        let spares = spare_blocks(alloc, count)?;
        take_addresses(alloc, &mut held, 17);
        take_heap(alloc, &mut held);
        Ok(Starved {
            alloc,
            held,
            spares,
        })
    }

    /// Leaves this many bytes free, a multiple of 16, in one piece, and nothing else. Whether there was a spare block for it.
    pub fn leave(&mut self, room: usize) -> bool {
        take_heap(self.alloc, &mut self.held);
        if self.spares.pop().is_none() {
            return false;
        }
        match Vec::with_capacity(self.alloc, SPARE.saturating_sub(room)) {
            Ok(filler) => self.held.push(filler).is_ok(),
            Err(AllocError) => false,
        }
    }
}

/// A call that may be refused memory.
pub trait Attempt {
    /// Makes the call: whether it answers as it should, and `AllocError` where it was refused memory and left what it was
    /// lent as it was.
    fn attempt(&mut self) -> Result<bool, AllocError>;
}

// How many times the call was refused, with more and more room, until it answered as it should. `None` where it answered
// otherwise.
fn refusals<A: Attempt>(starved: &mut Starved, call: &mut A) -> Option<u64> {
    let mut refused = 0u64;
    for step in 0..TIMES {
        if !starved.leave(step * 16) {
            return None;
        }
        match call.attempt() {
            Ok(true) => return Some(refused),
            Ok(false) => return None,
            Err(AllocError) => refused = refused.saturating_add(1),
        }
    }
    None
}

/// Whether the call was refused at least so many times, with more and more room, until it answered as it should.
pub fn is_refused<A: Attempt>(alloc: Global, call: &mut A, times: u64) -> bool {
    match Starved::new(alloc, TIMES) {
        Ok(mut starved) => matches!(refusals(&mut starved, call), Some(told) if told >= times),
        Err(AllocError) => false,
    }
}
