//! The parts that lines of calls share. They are pushed one by one, which takes half as long as `write!`.
ghost use Rattle.std.specs.Prelude.{◌≡◌, ◌++◌, string_bytes, OnOk};
ghost use Rattle.std.specs.Fmt.{decimal};
ghost use Rattle.lin_explain.specs.CallText.{call_text};

use itoa::Buffer;
use lin_object::{Op, push_op};
use std::alloc::AllocError;

/// Appends a whole number.
pub fn push_number(out: &mut String, number: u64) -> Result<(), AllocError>
    ensures { OnOk result (string_bytes out.new ≡ string_bytes out.old ++ decimal number) }
{
    let mut buffer = Buffer::new();
    out.push_str(buffer.format(number))
}

/// Appends a call: its process, the name of its object, and its operation.
pub fn push_call(out: &mut String, process: u32, name: &str, op: &Op) -> Result<(), AllocError>
    ensures { OnOk result (string_bytes out.new
        ≡ string_bytes out.old ++ call_text process name.now op.now) }
{
    push_number(out, process as u64)?;
    out.push(' ')?;
    out.push_str(name)?;
    out.push(' ')?;
    push_op(out, op)
}
