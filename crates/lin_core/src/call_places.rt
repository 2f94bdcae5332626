//! On which values a call is, and which calls the finding of cores may leave out.

ghost use Rattle.std.specs.Prelude.{IsTrue};
ghost use Rattle.lin_object.specs.contracts.reply.ReplyPartialEq.TheImpl.{eq-value as reply_eq};
ghost use Rattle.lin_object.specs.contracts.state.ObjStatePartialEq.TheImpl.{eq-value as state_eq};
ghost use Rattle.lin_object.specs.Kinds.{after};
ghost use Rattle.lin_object.specs.StepAnswers.{ChangesNothing};

use crate::selection::MapKey;
use lin_history::ProblemCall;
use lin_object::{AnyObject, Op, Reply, SeqObject};

/// On which values a call is.
#[derive(Clone, Copy)]
pub(crate) enum Place {
    /// On this one.
    At(i64),
    /// On each.
    Anywhere,
    /// On none: it is always left out.
    Nowhere,
}

// Where a call is whose reply is the value that it is on.
fn place_of_reply(returned: &Option<(u32, Reply)>) -> Place {
    match returned {
        Some((_, Reply::Int(value))) => Place::At(*value),
        Some((_, Reply::Empty)) | None => Place::Anywhere,
        Some(_) => Place::Nowhere,
    }
}

/// Whether the answer is 'yes', or is still to come.
pub(crate) fn may_be_yes(returned: &Option<(u32, Reply)>) -> bool {
    matches!(returned, Some((_, Reply::Flag(true))) | None)
}

// Where a call on a map is, of which some values of a key are looked at.
fn place_at_key(key: &MapKey, call: &ProblemCall<Op, Reply>) -> Place {
    match (&call.op, &call.returned) {
        (Op::Put(at, value), _) if *at == key.key => Place::At(*value),
        (Op::Lookup(at), Some((_, Reply::Int(value)))) if *at == key.key => Place::At(*value),
        (Op::Lookup(at), Some((_, Reply::Empty))) if *at == key.key && key.nothing => {
            Place::Anywhere
        }
        _ => Place::Nowhere,
    }
}

/// On which values the call is, where some of all values are looked at, or of those of a key.
pub(crate) fn place_of(key: &Option<MapKey>, call: &ProblemCall<Op, Reply>) -> Place {
    match key {
        Some(key) => place_at_key(key, call),
        None => place_of_all(call),
    }
}

// On which of all values the call is.
fn place_of_all(call: &ProblemCall<Op, Reply>) -> Place {
    match &call.op {
        Op::Write(value)
        | Op::Enqueue(value)
        | Op::Push(value)
        | Op::Insert(value)
        | Op::Remove(value)
        | Op::Contains(value) => Place::At(*value),
        Op::Put(key, _) | Op::Lookup(key) | Op::Delete(key) => Place::At(*key),
        Op::Read | Op::Dequeue | Op::Pop => place_of_reply(&call.returned),
        Op::Lock | Op::Unlock => Place::At(i64::from(call.process)),
        Op::Cas(_, to) if may_be_yes(&call.returned) => Place::At(*to),
        Op::TryLock if may_be_yes(&call.returned) => Place::At(i64::from(call.process)),
        Op::Cas(..) | Op::TryLock => Place::Nowhere,
        Op::Add(_) | Op::Get => Place::Anywhere,
    }
}

/// The value without which the call can't be looked at: what a `cas` expects that may put another there.
pub(crate) fn source_of(call: &ProblemCall<Op, Reply>) -> Option<i64> {
    match &call.op {
        Op::Cas(from, to) if *from != *to && may_be_yes(&call.returned) => Some(*from),
        _ => None,
    }
}

/// Whether the call changes nothing, so that it may be left out whatever the values are.
pub(crate) fn is_idle(call: &ProblemCall<Op, Reply>) -> bool
    ensures { IsTrue result → ChangesNothing state_eq.it reply_eq.it after call.now.op
        call.now.returned }
{
    AnyObject.changes_nothing(&call.op, &call.returned)
}
