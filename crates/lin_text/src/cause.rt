//! The causes for which a text is refused, and the line of a fault.

ghost use Rattle.std.specs.Prelude.{◌≡◌, ◌≢◌, ◌++◌, OnOk, OnErr};
ghost use Rattle.lin_text.specs.Causes.{cause_of};
ghost use Rattle.lin_text.specs.Words.{fault_line};

use crate::text::{MAX_INPUT_BYTES, MAX_LINE_BYTES};
use lin_history::BuildFault;
use std::alloc::{AllocError, Global};
use std::fmt;
use thiserror::Error;

/// Why a text is refused, at a line or as a whole. It is shown in the words that a refusal prints.
#[derive(Clone, Copy, PartialEq, Eq, Debug, Error)]
pub enum Cause {
    /// The text has more bytes than `MAX_INPUT_BYTES`.
    InputTooLong,
    /// The line has more bytes than `MAX_LINE_BYTES`, without its line feed.
    LineTooLong,
    /// The line is no JSON value, not UTF-8, or nested deeper than the reader goes.
    NotJson,
    /// The line is another JSON value than an object.
    NotObject,
    /// The line is a header that does not state format 2.
    BadFormat,
    /// `event` is absent, no string, or no event of the text's format.
    BadEvent,
    /// `process` is absent or no whole number from 0 to 4,294,967,295.
    BadProcess,
    /// `object` is absent or no name.
    BadObject,
    /// The object is not declared before.
    UnknownObject,
    /// `kind` is absent or no kind.
    BadKind,
    /// `start` is there and no whole number, or the kind has none.
    BadStart,
    /// `op` is absent, no string, or no operation of the kind.
    BadOp,
    /// `args` is there and no array of whole numbers, or has a wrong number of them.
    BadArgs,
    /// `result` is absent or no reply.
    BadResult,
    /// The name is declared already.
    Declared,
    /// The process has ended.
    ProcessEnded(u32),
    /// The process has a pending call.
    Busy(u32),
    /// The process has no pending call.
    NoCall(u32),
    /// The pending call of the process is on another object.
    OtherObject(u32),
    /// There is no room for another object.
    TooManyObjects,
    /// There is no room for another call.
    TooManyCalls,
    /// Memory was refused while the line was read.
    OutOfMemory,
}

impl fmt::Display for Cause {
    ghost use Rattle.std.specs.Prelude.{Some};
    ghost use Rattle.lin_text.specs.Words.{words};

    ghost output = { λ cause. Some (words cause) };

    fn fmt<W: fmt::Write>(&self, f: &mut fmt::Formatter<W>) -> fmt::Result {
        match self {
            Cause::InputTooLong => write!(f, "input is longer than {MAX_INPUT_BYTES} bytes"),
            Cause::LineTooLong => write!(f, "line is longer than {MAX_LINE_BYTES} bytes"),
            Cause::NotJson => write!(f, "not JSON"),
            Cause::NotObject => write!(f, "not a JSON object"),
            Cause::BadFormat => write!(f, "bad format"),
            Cause::BadEvent => write!(f, "bad event"),
            Cause::BadProcess => write!(f, "bad process"),
            Cause::BadObject => write!(f, "bad object name"),
            Cause::UnknownObject => write!(f, "unknown object"),
            Cause::BadKind => write!(f, "bad kind"),
            Cause::BadStart => write!(f, "bad start"),
            Cause::BadOp => write!(f, "bad operation"),
            Cause::BadArgs => write!(f, "bad arguments"),
            Cause::BadResult => write!(f, "bad result"),
            Cause::Declared => write!(f, "object is declared already"),
            Cause::ProcessEnded(process) => write!(f, "process {process} has ended"),
            Cause::Busy(process) => write!(f, "process {process} has a pending call"),
            Cause::NoCall(process) => write!(f, "process {process} has no pending call"),
            Cause::OtherObject(process) => write!(
                f,
                "process {process} has its pending call on another object"
            ),
            Cause::TooManyObjects => write!(f, "too many objects"),
            Cause::TooManyCalls => write!(f, "too many calls"),
            Cause::OutOfMemory => write!(f, "out of memory"),
        }
    }
}

/// The first line of a text that is refused, counted from 1 with blank lines, and its first cause. Line 0 stands for
/// the whole text.
#[derive(Clone, Copy, PartialEq, Eq, Debug, Error)]
#[error("line {line}: {cause}")]
pub struct TextFault {
    /// The number of the line.
    pub line: u64,
    /// Why it is refused.
    pub cause: Cause,
}

/// What a refusal of the builder says of a text.
pub(crate) fn cause_of(fault: BuildFault) -> Cause
    ensures { result ≡ cause_of fault }
{
    match fault {
        BuildFault::BadName => Cause::BadObject,
        BuildFault::Declared => Cause::Declared,
        BuildFault::UnknownObject => Cause::UnknownObject,
        BuildFault::ProcessEnded(process) => Cause::ProcessEnded(process),
        BuildFault::Busy(process) => Cause::Busy(process),
        BuildFault::NoCall(process) => Cause::NoCall(process),
        BuildFault::OtherObject(process) => Cause::OtherObject(process),
        BuildFault::TooManyObjects => Cause::TooManyObjects,
        BuildFault::TooManyCalls => Cause::TooManyCalls,
        BuildFault::OutOfMemory => Cause::OutOfMemory,
    }
}

/// Appends the line that a refusal prints, as `line 2: bad event`. After an `Err` the vector is unchanged.
///
/// Condition: the cause is not `OutOfMemory`, which is no fault of the text.
pub fn write_cause(alloc: Global, fault: &TextFault, out: &mut Vec<u8>) -> Result<(), AllocError>
    requires { fault.now.cause ≢ Cause.OutOfMemory }
    ensures ok { OnOk result (out.new.items ≡ out.old.items ++ fault_line fault.now) }
    ensures err { OnErr result (out.new.items ≡ out.old.items) }
{
    let line = fault.line;
    let cause = fault.cause;
    let text = format!(in alloc; "line {line}: {cause}\n")?;
    out.extend_from_slice(text.as_bytes())
}
