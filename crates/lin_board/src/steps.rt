//! The steps of a seat on a board's two words, one for each of its calls. That the board's rule allows a step is asked
//! of the caller, who knows the seat.

ghost use Rattle.std.specs.Prelude.{◌≡◌, ◌+◌, ◌%◌, ◌^◌, min};
ghost use Rattle.atomic_table.specs.Table.{Allows};
ghost use Rattle.lin_board.specs.Rule.{KeepsRule};
ghost use Rattle.lin_board.specs.Steps.{ClaimTells, FoundTells, LeastTells};

use crate::rule::{BoardRule, ClaimStep, FoundStep, LeastStep, Plan, View};
use atomic_table::{Seat as TableSeat, Shared};

// The word with the number that the next claim is given.
pub(crate) const NEXT: usize = 0;

// The word with the least task found.
pub(crate) const LEAST: usize = 1;

// Takes the number in the first word, and adds one to it.
pub(crate) fn take_next(
    words: &Shared<(), View, Plan, BoardRule>,
    token: &mut TableSeat<(), View>,
) -> u64
    requires table { token.old.table_id ≡ words.now.table_id }
    requires words { words.now.table_id.words ≡ 2 }
    requires allowed { Allows (KeepsRule words.now.key) words.now.table_id.slots token.old.id
        token.old.me 0 (λ n. (n + 1) % 2 ^ 64) (ClaimTells token.old.me) }
    ensures table { token.new.table_id ≡ token.old.table_id }
    ensures tells { ClaimTells token.old.me result token.new.me }
{
    words.fetch_add::<ClaimStep>(token, NEXT, 1)
}

// Writes the task into the second word, where it is less than what is there.
pub(crate) fn lower_least(
    words: &Shared<(), View, Plan, BoardRule>,
    token: &mut TableSeat<(), View>,
    task: u64,
)
    requires table { token.old.table_id ≡ words.now.table_id }
    requires words { words.now.table_id.words ≡ 2 }
    requires allowed { Allows (KeepsRule words.now.key) words.now.table_id.slots token.old.id
        token.old.me 1 (λ n. min n task) (λ _. FoundTells task token.old.me) }
    ensures table { token.new.table_id ≡ token.old.table_id }
    ensures tells { FoundTells task token.old.me token.new.me }
{
    words.fetch_min::<FoundStep>(token, LEAST, task);
}

// Reads the second word.
pub(crate) fn read_least(
    words: &Shared<(), View, Plan, BoardRule>,
    token: &mut TableSeat<(), View>,
) -> u64
    requires table { token.old.table_id ≡ words.now.table_id }
    requires words { words.now.table_id.words ≡ 2 }
    requires allowed { Allows (KeepsRule words.now.key) words.now.table_id.slots token.old.id
        token.old.me 1 (λ n. n) (LeastTells token.old.me) }
    ensures table { token.new.table_id ≡ token.old.table_id }
    ensures tells { LeastTells token.old.me result token.new.me }
{
    words.load::<LeastStep>(token, LEAST)
}
