//! Which calls of a map are on some values of a key, and which change nothing of what is known of it.

ghost use Rattle.std.specs.Prelude.{◌≡◌, IsTrue};
ghost use Rattle.lin_object.specs.declared.reply.Reply.{Reply};
ghost use Rattle.lin_core.specs.KeyValues.{tells, may_tell, is_on_key, is_off_key, IsOffKey};

use crate::selection::MapKey;
use crate::value_tables::has;
use lin_history::ProblemCall;
use lin_object::{AnyObject, Op, Reply, SeqObject};

// Whether the reply to a get tells of what is known.
fn tells(nothing: bool, values: &[i64], reply: &Reply) -> bool
    ensures { result ≡ tells nothing values.now reply.now }
{
    match reply {
        Reply::Int(value) => has(values, *value),
        Reply::Empty => nothing,
        _ => false,
    }
}

/// Whether a get may do so.
pub(crate) fn may_tell(nothing: bool, values: &[i64], returned: &Option<(u32, Reply)>) -> bool
    ensures { result ≡ may_tell nothing values.now returned.now }
{
    match returned {
        Some((_, reply)) => tells(nothing, values, reply),
        None => true,
    }
}

/// Whether the call gives the key one of the values, or finds what is known.
pub(crate) fn is_on_key(key: &MapKey, values: &[i64], call: &ProblemCall<Op, Reply>) -> bool
    ensures { result ≡ is_on_key key.now.key key.now.nothing values.now call.now.op call.now.returned }
{
    match &call.op {
        Op::Put(at, value) => *at == key.key && has(values, *value),
        Op::Lookup(at) => *at == key.key && may_tell(key.nothing, values, &call.returned),
        _ => false,
    }
}

// Whether it is not known after the call what the key has, or the key has what it had.
fn is_off_key(key: &MapKey, values: &[i64], op: &Op) -> bool
    ensures { result ≡ is_off_key key.now.key key.now.nothing values.now op.now }
{
    match op {
        Op::Put(at, value) => !(*at == key.key && has(values, *value)),
        Op::Delete(at) => !(*at == key.key && key.nothing),
        _ => false,
    }
}

/// Whether the call may be left out: it changes nothing of what is known of the key, or nothing at all.
pub(crate) fn may_go_by_key(key: &MapKey, values: &[i64], call: &ProblemCall<Op, Reply>) -> bool
    ensures { IsTrue result → IsOffKey key.now.key key.now.nothing values.now call.now }
{
    is_off_key(key, values, &call.op) || AnyObject.changes_nothing(&call.op, &call.returned)
}
