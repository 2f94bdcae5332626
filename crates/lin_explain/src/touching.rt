//! The calls that put or took the value that a call asks for, and the call since which a mutex is held.
ghost use Rattle.std.specs.Prelude.{◌≡◌, ℕ, Some, None, slice_get, IfOk};
ghost use Rattle.std.specs.Option.{option_map};
ghost use Rattle.lin_object.specs.Pairs.{value_at};
ghost use Rattle.lin_explain.specs.Touching.{may_change, asked_of, found_nothing, there_for, asked_in, item_touch, touch_if, touch_of, reply_at, touch_in, touches_from, held_with, held_at, held_after};

use lin_history::ProblemCall;
use lin_object::{Items, ObjState, Op, Pairs, Reply};
use std::alloc::{AllocError, Global};

/// What a call asks for, by its operation and its recorded reply.
#[derive(Clone, Copy)]
pub(crate) enum Asked {
    /// An item of a queue or a stack.
    Item(i64),
    /// A value of a register.
    Value(i64),
    /// A member of a set.
    Member(i64),
    /// A key of a map, and its value.
    Entry(i64, i64),
}

/// What a call did with what another one asks for.
#[derive(Clone, Copy)]
pub(crate) enum Touch {
    /// It put it there.
    Put,
    /// It took it away.
    Took,
}

/// A call that put or took what another one asks for.
#[derive(Clone, Copy)]
pub(crate) struct Touching {
    /// Its number.
    pub call: usize,
    /// What it did.
    pub touch: Touch,
}

// Whether the call did not answer that it changed nothing.
fn may_change(reply: Option<Reply>) -> bool
    ensures { result ≡ may_change reply }
{
    !matches!(reply, Some(Reply::Flag(false)))
}

// What the call asks for; `None` where it asks for no value.
fn asked_of(op: &Op, returned: &Option<(u32, Reply)>) -> Option<Asked>
    ensures { result ≡ asked_of op.now returned.now }
{
    match (op, returned) {
        (Op::Cas(value, _), _) => Some(Asked::Value(*value)),
        (Op::Insert(member), _) => Some(Asked::Member(*member)),
        (Op::Contains(member), _) => Some(Asked::Member(*member)),
        (Op::Remove(member), _) => Some(Asked::Member(*member)),
        (Op::Dequeue, Some((_, Reply::Int(item)))) => Some(Asked::Item(*item)),
        (Op::Pop, Some((_, Reply::Int(item)))) => Some(Asked::Item(*item)),
        (Op::Read, Some((_, Reply::Int(value)))) => Some(Asked::Value(*value)),
        (Op::Lookup(key), Some((_, Reply::Int(value)))) => Some(Asked::Entry(*key, *value)),
        _ => None,
    }
}

// Whether the call replied that nothing was there.
fn found_nothing(returned: &Option<(u32, Reply)>) -> bool
    ensures { result ≡ found_nothing returned.now }
{
    match returned {
        Some((_, Reply::Empty)) => true,
        Some((_, Reply::Flag(flag))) => !*flag,
        _ => false,
    }
}

// The value of this key.
fn value_there(pairs: &Pairs, key: i64) -> Option<Asked>
    ensures { result ≡ option_map (Asked.Entry key) (value_at key pairs.now) }
{
    match pairs.value_at(key) {
        Some(value) => Some(Asked::Entry(key, value)),
        None => None,
    }
}

// The first of these items.
fn first_there(items: &Items) -> Option<Asked>
    ensures { result ≡ option_map Asked.Item (slice_get items.now 0) }
{
    match items.first() {
        Some(item) => Some(Asked::Item(item)),
        None => None,
    }
}

// What the call finds in this state; `None` where nothing is there.
fn there_for(state: &ObjState, op: &Op) -> Option<Asked>
    ensures { result ≡ there_for state.now op.now }
{
    match (state, op) {
        (ObjState::Queue(items), Op::Dequeue) => first_there(items),
        (ObjState::Stack(items), Op::Pop) => first_there(items),
        (ObjState::Map(pairs), Op::Lookup(key)) => value_there(pairs, *key),
        (ObjState::Map(pairs), Op::Delete(key)) => value_there(pairs, *key),
        _ => None,
    }
}

/// What the call asks for in this state; where it found nothing, what it should have found. `None` where it asks for no value.
pub(crate) fn asked_in(state: &ObjState, op: &Op, returned: &Option<(u32, Reply)>) -> Option<Asked>
    ensures { result ≡ asked_in state.now op.now returned.now }
{
    match asked_of(op, returned) {
        Some(asked) => Some(asked),
        None if found_nothing(returned) => there_for(state, op),
        None => None,
    }
}

// What a call that takes an item and has this reply did with this one.
fn item_touch(item: i64, reply: Option<Reply>) -> Option<Touch>
    ensures { result ≡ item_touch item reply }
{
    match reply {
        Some(Reply::Int(other)) if other == item => Some(Touch::Took),
        _ => None,
    }
}

// This, where the condition holds.
fn touch_if(holds: bool, touch: Touch) -> Option<Touch>
    ensures { result ≡ touch_if holds touch }
{
    if holds { Some(touch) } else { None }
}

// What a call that has this reply, or none, did with what is asked for.
fn touch_of(asked: Asked, op: &Op, reply: Option<Reply>) -> Option<Touch>
    ensures { result ≡ touch_of asked op.now reply }
{
    match (asked, op) {
        (Asked::Item(item), Op::Enqueue(other)) => touch_if(*other == item, Touch::Put),
        (Asked::Item(item), Op::Push(other)) => touch_if(*other == item, Touch::Put),
        (Asked::Item(item), Op::Dequeue) => item_touch(item, reply),
        (Asked::Item(item), Op::Pop) => item_touch(item, reply),
        (Asked::Value(value), Op::Write(other)) => touch_if(*other == value, Touch::Put),
        (Asked::Value(value), Op::Cas(_, other)) => {
            touch_if(*other == value && may_change(reply), Touch::Put)
        }
        (Asked::Member(member), Op::Insert(other)) => {
            touch_if(*other == member && may_change(reply), Touch::Put)
        }
        (Asked::Member(member), Op::Remove(other)) => {
            touch_if(*other == member && may_change(reply), Touch::Took)
        }
        (Asked::Entry(key, value), Op::Put(other, put)) => {
            touch_if(*other == key && *put == value, Touch::Put)
        }
        (Asked::Entry(key, _), Op::Delete(other)) => {
            touch_if(*other == key && may_change(reply), Touch::Took)
        }
        _ => None,
    }
}

// The reply of the call of this number, where the calls have these.
fn reply_at(replies: &[Option<Reply>], number: usize) -> Option<Reply>
    ensures { result ≡ reply_at replies.now number }
{
    replies.get(number).copied().unwrap_or(None)
}

// What the call of this number did with what call `asker` asks for. A call is not told of itself.
fn touch_in(
    asked: Asked,
    asker: usize,
    number: usize,
    op: &Op,
    reply: Option<Reply>,
) -> Option<Touch>
    ensures { result ≡ touch_in asked asker number op.now reply }
{
    if number == asker {
        None
    } else {
        touch_of(asked, op, reply)
    }
}

/// The calls that put or took what call `asker` asks for, in order of their numbers, where the calls have these replies.
pub(crate) fn touches(
    alloc: Global,
    calls: &[ProblemCall<Op, Reply>],
    replies: &[Option<Reply>],
    asked: Asked,
    asker: usize,
) -> Result<Vec<Touching>, AllocError>
    ensures { IfOk result (λ found. found.items ≡ touches_from replies.now asked asker 0 calls.now) }
{
    let mut found = Vec::new(alloc);
    for call in 0..calls.len() {
        let op = &calls[call].op;
        if let Some(touch) = touch_in(asked, asker, call, op, reply_at(replies, call)) {
            found.push(Touching { call, touch })?;
        }
    }
    Ok(found)
}

// The call since which a mutex is held after this call, where it was held since `held` before.
fn held_with(held: Option<usize>, number: usize, op: &Op) -> Option<usize>
    ensures { result ≡ held_with held number op.now }
{
    match (held, op) {
        (None, Op::Lock) => Some(number),
        (None, Op::TryLock) => Some(number),
        (Some(_), Op::Unlock) => None,
        _ => held,
    }
}

// The same, of the call of this number where it is a call.
fn held_at(held: Option<usize>, number: usize, calls: &[ProblemCall<Op, Reply>]) -> Option<usize>
    ensures { result ≡ held_at held number (slice_get calls.now number) }
{
    match calls.get(number) {
        Some(call) => held_with(held, number, &call.op),
        None => held,
    }
}

/// The call of a run since which a mutex is held after it; `None` where it is free.
pub(crate) fn held_since(calls: &[ProblemCall<Op, Reply>], run: &[usize]) -> Option<usize>
    ensures { result ≡ held_after calls.now None run.now }
{
    let mut held = None;
    for number in run {
        held = held_at(held, *number, calls);
    }
    held
}
