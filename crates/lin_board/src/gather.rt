//! All seats' views become one, one seat at a time, when a board is closed.

ghost use Rattle.std.specs.Prelude.{◌≡◌, ◌<◌, [], All};
ghost use Rattle.lin_board.specs.Gather.{Gathered};

use crate::rule::{BoardRule, Parts, Plan, View};
use crate::seat::Seat;
use atomic_table::{Seat as TableSeat, Shared};

// All that the seats did becomes the view of `first`, one seat at a time.
pub(crate) fn gather(
    shared: &Shared<(), View, Plan, BoardRule>,
    mut first: TableSeat<(), View>,
    mut seats: Vec<Seat>,
) -> TableSeat<(), View>
    requires words { shared.now.table_id.words ≡ 2 }
    requires first { (first.table_id ≡ shared.now.table_id) × (0 < first.me.0.parts) }
    requires seats { All (λ s. s.board.id ≡ shared.now.table_id) seats.items }
    ensures table { (result.table_id ≡ shared.now.table_id) × (result.me.1 ≡ first.me.1) }
    ensures gathered { Gathered first.me.0 seats.items result.me.0 [] }
{
    while let Some(seat) = seats.pop() {
        shared.join_seat::<Parts>(&mut first, seat.into_token());
    }
    seats.destroy_empty();
    first
}
