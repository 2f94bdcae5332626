//! Operations: what a call asks of an object, by name and as reports show it.
ghost use Rattle.std.specs.Prelude.{◌≡◌, ◌++◌, OnOk, OnErr, is_some};
ghost use Rattle.lin_object.specs.Names.{beside};
ghost use Rattle.lin_object.specs.Kinds.{operations, op_with, op_read};
ghost use Rattle.lin_object.specs.PrintedForms.{op_name, op_text};

use crate::kind::Kind;
use crate::kinds::{counter, map, mutex, queue, register, set, stack};
use std::alloc::{AllocError, Global};
use std::fmt;

/// An operation of some kind of object, with its arguments.
#[derive(Clone, Copy, PartialEq, Eq, Hash, Debug)]
pub enum Op {
    /// `write(v)` of a register.
    Write(i64),
    /// `read()` of a register.
    Read,
    /// `cas(a,b)` of a register: where the value is `a`, it becomes `b`.
    Cas(i64, i64),
    /// `add(d)` of a counter.
    Add(i64),
    /// `get()` of a counter.
    Get,
    /// `enq(v)` of a queue.
    Enqueue(i64),
    /// `deq()` of a queue.
    Dequeue,
    /// `push(v)` of a stack.
    Push(i64),
    /// `pop()` of a stack.
    Pop,
    /// `add(v)` of a set.
    Insert(i64),
    /// `remove(v)` of a set.
    Remove(i64),
    /// `contains(v)` of a set.
    Contains(i64),
    /// `lock()` of a mutex.
    Lock,
    /// `unlock()` of a mutex.
    Unlock,
    /// `try_lock()` of a mutex.
    TryLock,
    /// `put(k,v)` of a map.
    Put(i64, i64),
    /// `get(k)` of a map.
    Lookup(i64),
    /// `delete(k)` of a map.
    Delete(i64),
}

/// Why there is no such operation.
#[derive(Clone, Copy, PartialEq, Eq, Debug)]
pub enum OpFault {
    /// The kind has no operation of that name.
    BadOp,
    /// The operation takes another number of arguments.
    BadArgs,
}

impl Op {
    // The name by which calls and reports have the operation.
    pub(crate) fn name(&self) -> &'static str
        ensures { result.now ≡ op_name self.now }
    {
        match self {
            Op::Write(_) => "write",
            Op::Read => "read",
            Op::Cas(..) => "cas",
            Op::Add(_) | Op::Insert(_) => "add",
            Op::Get | Op::Lookup(_) => "get",
            Op::Enqueue(_) => "enq",
            Op::Dequeue => "deq",
            Op::Push(_) => "push",
            Op::Pop => "pop",
            Op::Remove(_) => "remove",
            Op::Contains(_) => "contains",
            Op::Lock => "lock",
            Op::Unlock => "unlock",
            Op::TryLock => "try_lock",
            Op::Put(..) => "put",
            Op::Delete(_) => "delete",
        }
    }
}

impl fmt::Display for Op {
    ghost use Rattle.std.specs.Prelude.{Some};
    ghost use Rattle.lin_object.specs.PrintedForms.{op_text};

    ghost output = { λ op. Some (op_text op) };

    fn fmt<W: fmt::Write>(&self, f: &mut fmt::Formatter<W>) -> fmt::Result {
        let name = self.name();
        match self {
            Op::Read | Op::Get | Op::Dequeue | Op::Pop | Op::Lock | Op::Unlock | Op::TryLock => {
                write!(f, "{name}()")
            }
            Op::Cas(first, second) | Op::Put(first, second) => {
                write!(f, "{name}({first},{second})")
            }
            Op::Write(value)
            | Op::Add(value)
            | Op::Enqueue(value)
            | Op::Push(value)
            | Op::Insert(value)
            | Op::Remove(value)
            | Op::Contains(value)
            | Op::Lookup(value)
            | Op::Delete(value) => write!(f, "{name}({value})"),
        }
    }
}

/// Whether the kind has an operation of that name.
pub fn is_op(kind: Kind, name: &str) -> bool
    ensures { result ≡ is_some (beside (operations kind) name.now) }
{
    match kind {
        Kind::Register => register::has_op(name),
        Kind::Counter => counter::has_op(name),
        Kind::Queue => queue::has_op(name),
        Kind::Stack => stack::has_op(name),
        Kind::Set => set::has_op(name),
        Kind::Mutex => mutex::has_op(name),
        Kind::Map => map::has_op(name),
    }
}

// The operation of a kind with this name and these arguments, where there is one.
fn op_with(kind: Kind, name: &str, args: &[i64]) -> Option<Op>
    ensures { result ≡ op_with kind name.now args.now }
{
    match kind {
        Kind::Register => register::op_with(name, args),
        Kind::Counter => counter::op_with(name, args),
        Kind::Queue => queue::op_with(name, args),
        Kind::Stack => stack::op_with(name, args),
        Kind::Set => set::op_with(name, args),
        Kind::Mutex => mutex::op_with(name, args),
        Kind::Map => map::op_with(name, args),
    }
}

/// The operation of a kind, by its name and its arguments. Refusals, in order: `BadOp` where the
/// kind has no operation of that name, `BadArgs` where it takes another number of arguments.
pub fn read_op(kind: Kind, name: &str, args: &[i64]) -> Result<Op, OpFault>
    ensures { result ≡ op_read kind name.now args.now }
{
    if !is_op(kind, name) {
        return Err(OpFault::BadOp);
    }
    op_with(kind, name, args).ok_or(OpFault::BadArgs)
}

/// Appends the operation as reports show it, as `cas(1,2)`. After an `Err` the vector is unchanged.
pub fn write_op(alloc: Global, op: &Op, out: &mut Vec<u8>) -> Result<(), AllocError>
    ensures ok { OnOk result (out.new.items ≡ out.old.items ++ op_text op.now) }
    ensures err { OnErr result (out.new.items ≡ out.old.items) }
{
    let text = format!(in alloc; "{op}")?;
    out.extend_from_slice(text.as_bytes())
}
