//! What is known of a step before it is made: whether it looks at the process, and whether it changes the state.
ghost use Rattle.std.specs.Prelude.{◌≡◌};
ghost use Rattle.lin_object.specs.StepTables.{looks_at_process, is_no_returned, is_empty_returned, changes_nothing};

use crate::op::Op;
use crate::reply::Reply;

// Whether 'no' was returned.
fn is_no_returned(returned: &Option<(u32, Reply)>) -> bool
    ensures { result ≡ is_no_returned returned.now }
{
    matches!(returned, Some((_, Reply::Flag(false))))
}

// Whether it was returned that there was nothing.
fn is_empty_returned(returned: &Option<(u32, Reply)>) -> bool
    ensures { result ≡ is_empty_returned returned.now }
{
    matches!(returned, Some((_, Reply::Empty)))
}

/// Whether a step of the operation may look at the process, where it has the reply that was returned, if one was.
pub(crate) fn looks_at_process(op: &Op, returned: &Option<(u32, Reply)>) -> bool
    ensures { result ≡ looks_at_process op.now returned.now }
{
    match op {
        Op::TryLock => !is_no_returned(returned),
        Op::Lock | Op::Unlock => true,
        _ => false,
    }
}

/// Whether each step of the operation leaves the state as it is, where it has the reply that was returned, if one was.
pub(crate) fn changes_nothing(op: &Op, returned: &Option<(u32, Reply)>) -> bool
    ensures { result ≡ changes_nothing op.now returned.now }
{
    match op {
        Op::Read | Op::Get | Op::Contains(_) | Op::Lookup(_) => true,
        Op::Add(difference) => *difference == 0,
        Op::Cas(from, to) => *from == *to || is_no_returned(returned),
        Op::Insert(_) | Op::Remove(_) | Op::TryLock | Op::Delete(_) => is_no_returned(returned),
        Op::Dequeue | Op::Pop => is_empty_returned(returned),
        _ => false,
    }
}
