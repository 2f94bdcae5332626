//! What a run answers, and its exit status.

ghost use Rattle.std.specs.Prelude.{◌≡◌};
ghost use Rattle.lincheck.specs.Status.{exit_status};

use crate::fault::RunFault;

/// What a run answered.
#[derive(Clone, Copy, PartialEq, Eq, Debug)]
pub enum Status {
    /// The history is linearizable.
    Yes,
    /// It is not.
    No,
    /// The limit on lifts was met, or the time was up, before an answer.
    Undecided,
    /// The text is no history.
    Refused,
}

/// The exit status of the program: 0 for `Yes`, 1 for `No`, 2 for `Refused`, 3 for `Undecided`, 4 for every fault. It
/// takes no memory.
pub fn status_code(answer: &Result<Status, RunFault>) -> u8
    ensures { result ≡ exit_status answer.now }
{
    match answer {
        Ok(Status::Yes) => 0,
        Ok(Status::No) => 1,
        Ok(Status::Refused) => 2,
        Ok(Status::Undecided) => 3,
        Err(_) => 4,
    }
}
