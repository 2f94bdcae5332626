//! Histories that look random, the same at each run.

use lin_history::{Builder, History};
use lin_object::{Kind, Op, Reply};
use std::alloc::Global;

// Numbers that look random.
#[derive(Drop)]
pub(super) struct Numbers {
    state: u64,
}

impl Numbers {
    // Those of the seed.
    pub(super) fn new(seed: u64) -> Self {
        Numbers { state: seed }
    }

    // The next number below 4.
    fn next(&mut self) -> u8 {
        self.state = self
            .state
            .wrapping_mul(6364136223846793005)
            .wrapping_add(1442695040888963407);
        match self.state >> 62 {
            0 => 0,
            1 => 1,
            2 => 2,
            _ => 3,
        }
    }
}

// A call that changes an object of the kind, and its reply.
fn change(kind: Kind, value: i64) -> (Op, Reply) {
    match kind {
        Kind::Register => (Op::Write(value), Reply::Okay),
        Kind::Counter => (Op::Add(value), Reply::Okay),
        Kind::Queue => (Op::Enqueue(value), Reply::Okay),
        Kind::Stack => (Op::Push(value), Reply::Okay),
        Kind::Set => (Op::Insert(value), Reply::Flag(true)),
        Kind::Mutex if value < 2 => (Op::Lock, Reply::Okay),
        Kind::Mutex => (Op::Unlock, Reply::Okay),
        Kind::Map if value < 3 => (Op::Put(1, value), Reply::Okay),
        Kind::Map => (Op::Delete(1), Reply::Flag(true)),
    }
}

// The value that a queue, a stack or a map may have given; 0 stands for none.
fn given(value: i64) -> Reply {
    if value == 0 {
        Reply::Empty
    } else {
        Reply::Int(value)
    }
}

// A call that asks an object of the kind for something, and what it may have been told.
fn question(kind: Kind, value: i64) -> (Op, Reply) {
    match kind {
        Kind::Register => (Op::Read, Reply::Int(value)),
        Kind::Counter => (Op::Get, Reply::Int(value)),
        Kind::Queue => (Op::Dequeue, given(value)),
        Kind::Stack => (Op::Pop, given(value)),
        Kind::Set if value < 2 => (Op::Remove(value), Reply::Flag(true)),
        Kind::Set => (Op::Contains(value), Reply::Flag(value == 2)),
        Kind::Mutex => (Op::TryLock, Reply::Flag(value < 2)),
        Kind::Map => (Op::Lookup(1), given(value)),
    }
}

// The next call and its reply: processes 0 and 1 change the object, and 2 and 3 ask it.
fn next_call(kind: Kind, numbers: &mut Numbers) -> (u32, Op, Reply) {
    let value = i64::from(numbers.next());
    let process = u32::from(numbers.next());
    let (op, reply) = if process < 2 {
        change(kind, value)
    } else {
        question(kind, value)
    };
    (process, op, reply)
}

// Twelve random events on one object of the kind; an event that can't be is left out.
pub(super) fn random_history(alloc: Global, kind: Kind, seed: u64) -> History {
    let mut numbers = Numbers::new(seed);
    let mut builder = Builder::new(alloc);
    let _ = builder.declare(alloc, "x", kind, 0);
    for _ in 0..12 {
        let (process, op, reply) = next_call(kind, &mut numbers);
        let _ = if numbers.next() < 2 {
            builder.call(process, "x", op)
        } else {
            builder.ret(process, "x", reply)
        };
    }
    builder.finish()
}

// An operation on an object that holds a number, a lock or items.
fn operation_on(kind: Kind, which: u8, value: i64, other: i64) -> Op {
    match (kind, which) {
        (Kind::Register, 0) => Op::Cas(other, value),
        (Kind::Register, 1) => Op::Read,
        (Kind::Counter, 0) => Op::Get,
        (Kind::Counter, _) => Op::Add(value),
        (Kind::Queue, 0 | 1) => Op::Dequeue,
        (Kind::Queue, _) => Op::Enqueue(value),
        (Kind::Stack, 0 | 1) => Op::Pop,
        (Kind::Stack, _) => Op::Push(value),
        (Kind::Mutex, 0) => Op::Lock,
        (Kind::Mutex, 1) => Op::TryLock,
        (Kind::Mutex, _) => Op::Unlock,
        _ => Op::Write(value),
    }
}

// An operation on a set or a map.
fn operation_by_key(kind: Kind, which: u8, key: i64, value: i64) -> Op {
    match (kind, which) {
        (Kind::Set, 0) => Op::Contains(key),
        (Kind::Set, 1) => Op::Remove(key),
        (Kind::Set, _) => Op::Insert(key),
        (_, 0) => Op::Lookup(key),
        (_, 1) => Op::Delete(key),
        _ => Op::Put(key, value),
    }
}

// A random operation on an object of the kind, and its process.
pub(super) fn random_step(kind: Kind, numbers: &mut Numbers) -> (u32, Op) {
    let process = u32::from(numbers.next());
    let which = numbers.next();
    let value = i64::from(numbers.next());
    let other = i64::from(numbers.next()) * 4 + i64::from(numbers.next());
    let op = match kind {
        Kind::Set | Kind::Map => operation_by_key(kind, which, other, value),
        _ => operation_on(kind, which, value, other),
    };
    (process, op)
}
