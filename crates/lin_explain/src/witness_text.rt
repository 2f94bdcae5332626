//! What is shown that lets a reader see that an object has no order.
ghost use Rattle.std.specs.Prelude.{◌≡◌, ◌++◌, string_bytes, OnOk};
ghost use Rattle.lin_explain.specs.WitnessText.{witness_text};

use crate::core_text::{CoreCall, write_core};
use crate::sums_text::{ShownSums, write_sums};
use lin_history::ProblemCall;
use lin_object::{Op, Reply};
use std::alloc::AllocError;

/// What lets a reader see that an object has no order.
#[derive(PartialEq, Eq, Debug, Drop)]
pub enum Witness {
    /// Nothing that is known.
    Nothing,
    /// Calls that alone have no order; where an event is given, from right before it on, whatever the object held then.
    Core(Option<u32>, Vec<CoreCall>),
    /// A get of a counter for whose reply the adds leave no room.
    Sums(ShownSums),
}

/// Appends the lines of what is known of the object of this name, which has these calls. Of a core: how many calls it has, and of a
/// map or a set which key they are on; from which line on, where that is not the start; each call, with the lines of the input on which its events are; and between which lines no
/// other call helps. `lines` has the line of each event of the input, that of the event of number n at n - 1. Appends nothing where
/// nothing is known. `AllocError` where memory was refused.
pub fn write_witness(
    out: &mut String,
    name: &str,
    calls: &[ProblemCall<Op, Reply>],
    lines: &[u64],
    witness: &Witness,
) -> Result<(), AllocError>
    ensures { OnOk result (string_bytes out.new ≡ string_bytes out.old
        ++ witness_text name.now calls.now lines.now witness.now) }
{
    match witness {
        Witness::Core(from, core) => write_core(out, name, calls, lines, *from, core.as_slice()),
        Witness::Sums(shown) => write_sums(out, name, calls, lines, shown),
        Witness::Nothing => Ok(()),
    }
}
