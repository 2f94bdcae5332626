//! A seat at a board: what a thread steps with.

ghost use Rattle.std.specs.Prelude.{◌≡◌, [], All, Contains, false, length};
ghost use Rattle.lin_board.specs.Steps.{one_part};
ghost use Rattle.lin_board.specs.Seat.{facts_of};
ghost use Rattle.lin_board.specs.Gather.{IsViewOf};

use crate::rule::View;
use atomic_table::Seat as TableSeat;
use std::marker::Model;

/// What a thread claims tasks with. A contract sees the board that it came with, the numbers that it
/// claimed, found and was told, each in order, and whether `claim` answered it `None`. At run time a
/// seat keeps none of these numbers, only how many tasks it claimed.
#[derive(Drop)]
pub struct Seat {
    pub(crate) token: TableSeat<(), View>,
    pub(crate) claims: u64,
    pub(crate) ended: bool,
}

impl Model for Seat {
    ghost use Rattle.lin_board.specs.Facts.{SeatFacts};
    ghost use Rattle.lin_board.specs.Seat.{facts_of, IsOneSeat};

    ghost Value = { SeatFacts };

    ghost view = { λ s. facts_of s.token.table_id s.token.me.0 s.ended };

    ghost invariant = { λ s. IsOneSeat s.token.me s.claims s.ended };
}

impl Seat {
    /// How many tasks this seat claimed.
    pub fn claims(&self) -> u64
        ensures { result ≡ length self.now.claimed }
    {
        self.claims
    }

    // A seat that has done nothing yet.
    pub(crate) fn of(token: TableSeat<(), View>) -> Seat
        requires { token.me ≡ (one_part token.me.0, []) }
        ensures { result ≡ facts_of token.table_id token.me.0 false }
    {
        Seat {
            token,
            claims: 0,
            ended: false,
        }
    }

    // The token, whose view has all that the seat did.
    pub(crate) fn into_token(self) -> TableSeat<(), View>
        ensures table { result.table_id ≡ self.board.id }
        ensures empty { result.me.1 ≡ [] }
        ensures view { IsViewOf result.me.0 self }
        ensures among { All (Contains self.claimed) self.found }
    {
        let Seat {
            token,
            claims: _,
            ended: _,
        } = self;
        token
    }
}
