//! A worker's search is stopped where a smaller task was found to have a completion.
ghost use Rattle.std.specs.Prelude.{◌≡◌, ◌<◌, ◌≤◌, Contains};
ghost use Rattle.lin_board.specs.Board.{IsSeatOf};
ghost use Rattle.lin_workers.specs.Heard.{HasHeard, IsTold};

use lin_board::{Board, Seat};
use lin_search::Stop;

/// The stop of the search of a task: it answers the least task for which something was found, where that is smaller than
/// this one. Contracts see the board, the seat and the task.
#[derive(Drop)]
pub(crate) struct FoundBefore<'a> {
    board: &'a Board,
    seat: &'a mut Seat,
    task: u64,
    ghost came: { IsSeatOf board.now seat.now },
}

impl<'a> FoundBefore<'a> {
    // The stop of this task, which asks the board by this seat. Condition: the seat came with the board.
    pub(crate) fn new(board: &'a Board, seat: &'a mut Seat, task: u64) -> Self
        requires { IsSeatOf board.now seat.old }
        ensures board { result.board.now ≡ board.now }
        ensures seat { result.seat.now ≡ seat.old }
        ensures same_reference { result.seat.ghost_name ≡ seat.entry.ghost_name }
        ensures task { result.task ≡ task }
    {
        FoundBefore { board, seat, task }
    }
}

impl<'a> Stop for FoundBefore<'a> {
    ghost use Rattle.std.specs.Prelude.{refl};
    ghost use Rattle.std.proofs.Common.{◌∙◌};
    ghost use Rattle.lin_workers.specs.Heard.{heard_itself, heard_twice};

    ghost tells = { λ s told. IsTold s.task s.seat.now told };

    ghost follows = { λ old new. (new.board.now ≡ old.board.now)
        × (new.seat.ghost_name ≡ old.seat.ghost_name) × (new.task ≡ old.task)
        × HasHeard old.seat.now new.seat.now };

    fn ask(&mut self) -> Option<u64> {
        let least = self.board.least(self.seat)?;
        if least < self.task { Some(least) } else { None }
    }

    ghost unchanged = { λ s. (refl, refl, refl, heard_itself s.seat.now) };

    ghost chained = { λ a b c first second. (
      second.0 ∙ first.0,
      second.1 ∙ first.1,
      second.2 ∙ first.2,
      heard_twice a.seat.now b.seat.now c.seat.now first.3 second.3,
    ) };
}
