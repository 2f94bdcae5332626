//! What a board shows when it is closed.

ghost use Rattle.std.specs.Prelude.{◌≡◌, ◌≢◌, min, IfSome, IfNone};

use crate::board::Board;
use crate::rule::NOTHING_FOUND;
use crate::seat::Seat;

/// What all seats of a board did together.
#[derive(Clone, Copy, PartialEq, Eq, Debug)]
pub struct Tally {
    /// How many tasks were claimed: the tasks below this number.
    pub claimed: u64,
    /// The least task for which something was found; `None` where nothing was found.
    pub least: Option<u64>,
}

/// Fewer seats came back than the board has. Board and seats are as they were.
#[derive(Drop)]
pub struct SeatsMissing {
    /// The board, still open.
    pub board: Board,
    /// The seats that came back.
    pub seats: Vec<Seat>,
}

// The tally by what the two words were at the end.
pub(crate) fn tally_of(tasks: u64, next: u64, least: u64) -> Tally
    ensures claimed { result.claimed ≡ min next tasks }
    ensures some { IfSome result.least (λ task. (task ≡ least) × (least ≢ NOTHING_FOUND)) }
    ensures none { IfNone result.least (least ≡ NOTHING_FOUND) }
{
    Tally {
        claimed: next.min(tasks),
        least: if least == NOTHING_FOUND {
            None
        } else {
            Some(least)
        },
    }
}
