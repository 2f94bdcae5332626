//! Operations and replies, appended to a text part by part. `{}` prints the same, and takes twice as long.
ghost use Rattle.std.specs.Prelude.{◌≡◌, ◌++◌, string_bytes, OnOk};
ghost use Rattle.std.specs.Fmt.{signed_decimal};
ghost use Rattle.lin_object.specs.PrintedForms.{op_arguments, op_text, reply_text};

use crate::op::Op;
use crate::reply::Reply;
use itoa::Buffer;
use std::alloc::AllocError;

// Appends a whole number.
fn push_number(out: &mut String, number: i64) -> Result<(), AllocError>
    ensures { OnOk result (string_bytes out.new ≡ string_bytes out.old ++ signed_decimal number) }
{
    let mut buffer = Buffer::new();
    out.push_str(buffer.format(number))
}

// Appends the arguments of an operation.
fn push_arguments(out: &mut String, op: &Op) -> Result<(), AllocError>
    ensures { OnOk result (string_bytes out.new ≡ string_bytes out.old ++ op_arguments op.now) }
{
    match op {
        Op::Read | Op::Get | Op::Dequeue | Op::Pop | Op::Lock | Op::Unlock | Op::TryLock => Ok(()),
        Op::Cas(first, second) | Op::Put(first, second) => {
            push_number(out, *first)?;
            out.push(',')?;
            push_number(out, *second)
        }
        Op::Write(value)
        | Op::Add(value)
        | Op::Enqueue(value)
        | Op::Push(value)
        | Op::Insert(value)
        | Op::Remove(value)
        | Op::Contains(value)
        | Op::Lookup(value)
        | Op::Delete(value) => push_number(out, *value),
    }
}

/// Appends the operation as reports show it, as `cas(1,2)`.
pub fn push_op(out: &mut String, op: &Op) -> Result<(), AllocError>
    ensures { OnOk result (string_bytes out.new ≡ string_bytes out.old ++ op_text op.now) }
{
    out.push_str(op.name())?;
    out.push('(')?;
    push_arguments(out, op)?;
    out.push(')')
}

/// Appends the reply as reports show it.
pub fn push_reply(out: &mut String, reply: &Reply) -> Result<(), AllocError>
    ensures { OnOk result (string_bytes out.new ≡ string_bytes out.old ++ reply_text reply.now) }
{
    match reply {
        Reply::Okay => out.push_str("ok"),
        Reply::Int(value) => push_number(out, *value),
        Reply::Flag(true) => out.push_str("true"),
        Reply::Flag(false) => out.push_str("false"),
        Reply::Empty => out.push_str("empty"),
    }
}
