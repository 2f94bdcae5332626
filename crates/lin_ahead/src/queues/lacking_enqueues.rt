//! Items of a queue that went in too seldom: by some event more calls returned with the item than enqueues of it were called. No order of
//! the calls explains that.

ghost use Rattle.std.specs.Prelude.{IsTrue};
ghost use Rattle.lin_ahead.specs.Queues.Slots.{LacksEnqueues};
ghost use Rattle.lin_ahead.specs.Queues.CountedRows.{IsCountedRow, AreCountedRows};

use crate::queues::counted_rows::CountedRow;
use crate::queues::early_enqueues::{count_back, count_called};
use crate::queues::slots::Lack;
use lin_history::ProblemCall;
use lin_object::{Op, Reply};

// Whether by the event more calls returned with the row's item than enqueues of it were called.
fn lacks(calls: &[ProblemCall<Op, Reply>], row: &CountedRow, event: u64) -> bool
    requires { IsCountedRow calls.now row.now }
    ensures { IsTrue result → LacksEnqueues calls.now }
{
    count_called(row.puts.as_slice(), event) < count_back(row.taken.as_slice(), event)
}

/// Whether by some event more calls returned with an item than enqueues of it were called. The hint says which.
pub(crate) fn lacks_enqueues(
    calls: &[ProblemCall<Op, Reply>],
    rows: &[CountedRow],
    lack: Lack,
) -> bool
    requires { AreCountedRows calls.now rows.now }
    ensures { IsTrue result → LacksEnqueues calls.now }
{
    lack.row < rows.len() && lacks(calls, &rows[lack.row], lack.event)
}
