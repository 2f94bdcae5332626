//! The board: two words, and the steps of its seats on them.

ghost use Rattle.std.specs.Prelude.{◌≡◌, ◌↔◌, ◌<◌, ◌≤◌, ◌^◌, ◌++◌, ◌∷◌, [], length, All, Contains, IfOk, IfErr, IfSome, IfNone, IsErr, OnSome, false, is_none, vec_len};
ghost use Rattle.std.specs.Option.{option_to_list};
ghost use Rattle.lin_board.specs.Board.{IsSeatOf, new_seat};
ghost use Rattle.lin_board.specs.Tally.{Tallies};

use crate::gather::gather;
use crate::rule::{BoardRule, NOTHING_FOUND, Parts, Plan, View};
use crate::seat::Seat;
use crate::steps::{LEAST, NEXT, lower_least, read_least, take_next};
use crate::tally::{SeatsMissing, Tally, tally_of};
use atomic_table::Table;
use std::alloc::{AllocError, Global};
use std::marker::Model;

/// Tasks that threads claim, and the least of those for which something was found. A contract sees
/// which board it is, and its numbers of tasks and of seats.
///
/// Each call but `new` and `close` takes `&self`, so threads may share a board by reference; each
/// thread steps with a seat of its own. What two threads do comes in some order, which no contract
/// shows; every clause holds whatever it is.
#[derive(Drop)]
pub struct Board {
    table: Table<(), View, Plan, BoardRule, Global>,
    tasks: u64,
    seats: u64,
}

impl Model for Board {
    ghost use Rattle.lin_board.specs.Facts.{BoardFacts};
    ghost use Rattle.lin_board.specs.Board.{IsBoard};

    ghost Value = { BoardFacts };

    ghost view = { λ b. record { id = b.table.shared.table_id; tasks = b.tasks; seats = b.seats } };

    ghost invariant = { λ b. IsBoard b.table.shared.table_id b.table.shared.key b.tasks b.seats };
}

impl Board {
    /// A board of the tasks from 0 up to `tasks`, all of them free, and its seats, of which none has
    /// done anything. `tasks` is below 2^62, and there are 1 to 64 seats. `AllocError` where memory was
    /// refused.
    pub fn new(alloc: Global, tasks: u64, seats: usize) -> Result<(Board, Vec<Seat>), AllocError>
        requires tasks { tasks < 2 ^ 62 }
        requires seats { (1 ≤ seats) × (seats ≤ 64) }
        ensures tasks { IfOk result (λ made. made.0.tasks ≡ tasks) }
        ensures count { IfOk result (λ made. (made.0.seats ≡ seats) × (vec_len made.1 ≡ seats)) }
        ensures seats { IfOk result (λ made. All (λ s. s ≡ new_seat made.0) made.1.items) }
    {
        let mut all = Vec::with_capacity(alloc, seats)?;
        let plan = Plan {
            tasks,
            seats: seats as u64,
        };
        let (table, mut first) = Table::of_words(alloc, &[0, NOTHING_FOUND], &plan)?;
        for _ in 1..seats {
            let token = table.shared.split_seat::<Parts>(&mut first);
            all.push_reserved(Seat::of(token));
        }
        all.push_reserved(Seat::of(first));
        let board = Board {
            table,
            tasks,
            seats: seats as u64,
        };
        Ok((board, all))
    }

    /// Gives the seat a task that no seat was given before, or `None` where all tasks are claimed.
    /// Once a seat was answered `None` it is answered `None` again, and the board is left alone. The
    /// seat came with this board.
    ///
    /// That no other seat was given the task, and that `None` means that all are claimed, is told by
    /// `close`, where all seats are back. The task is at least as large as the number of this seat's
    /// claims so far: so a loop that claims until `None` ends.
    pub fn claim(&self, seat: &mut Seat) -> Option<u64>
        requires { IsSeatOf self.now seat.old }
        ensures below { IfSome result (λ task. task < self.now.tasks) }
        ensures other { IfSome result (λ task. ¬ Contains seat.old.claimed task) }
        ensures large { IfSome result (λ task. length seat.old.claimed ≤ task) }
        ensures not_ended { OnSome result (seat.old.ended ≡ false) }
        ensures claimed { IfSome result (Contains seat.new.claimed) }
        ensures seat { IsSeatOf self.now seat.new }
        ensures changed { seat.new ≡ record seat.old {
          claimed = seat.old.claimed ++ option_to_list result;
          ended = is_none result;
        } }
    {
        if seat.ended {
            return None;
        }
        let task = take_next(&self.table.shared, &mut seat.token);
        if task < self.tasks {
            seat.claims += 1;
            Some(task)
        } else {
            seat.ended = true;
            None
        }
    }

    /// Tells that something was found for a task. The seat came with this board, and claimed the task.
    pub fn found(&self, seat: &mut Seat, task: u64)
        requires seat { IsSeatOf self.now seat.old }
        requires claimed { Contains seat.old.claimed task }
        ensures seat { IsSeatOf self.now seat.new }
        ensures changed { seat.new ≡ record seat.old { found = seat.old.found ++ task ∷ [] } }
    {
        lower_least(&self.table.shared, &mut seat.token, task);
    }

    /// The least task so far for which any seat told that something was found; `None` where none did.
    /// The seat came with this board.
    ///
    /// The contract compares the answer with what this seat found and was told itself. That some seat
    /// found it is told by `close`, where all seats are back.
    pub fn least(&self, seat: &mut Seat) -> Option<u64>
        requires { IsSeatOf self.now seat.old }
        ensures below { IfSome result (λ task. task < self.now.tasks) }
        ensures found { IfSome result (λ task. All (λ mine. task ≤ mine) seat.old.found) }
        ensures told { IfSome result (λ task. All (λ before. task ≤ before) seat.old.told) }
        ensures none { IfNone result ((seat.old.found ≡ []) × (seat.old.told ≡ [])) }
        ensures seat { IsSeatOf self.now seat.new }
        ensures changed { seat.new ≡ record seat.old
            { told = seat.old.told ++ option_to_list result } }
    {
        let task = read_least(&self.table.shared, &mut seat.token);
        if task == NOTHING_FOUND {
            None
        } else {
            Some(task)
        }
    }

    /// Takes all seats back and returns what they did together. Each seat came with this board.
    /// `SeatsMissing` where fewer seats are there than were made: it gives board and seats back as
    /// they were.
    pub fn close(self, mut seats: Vec<Seat>) -> Result<Tally, SeatsMissing>
        requires { All (IsSeatOf self) seats.items }
        ensures tally { IfOk result (Tallies self seats.items) }
        ensures missing { IsErr result ↔ (vec_len seats < self.seats) }
        ensures unchanged { IfErr result (λ e. (e.board ≡ self) × (e.seats ≡ seats)) }
    {
        if (seats.len() as u64) < self.seats {
            return Err(SeatsMissing { board: self, seats });
        }
        let Some(last) = seats.pop() else {
            unreachable!()
        };
        let Board {
            table,
            tasks,
            seats: _,
        } = self;
        let all = gather(&table.shared, last.into_token(), seats);
        let closed = table.close_with(all);
        let next = closed.word(NEXT);
        let least = closed.word(LEAST);
        closed.free();
        Ok(tally_of(tasks, next, least))
    }
}
