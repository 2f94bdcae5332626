//! A board from which threads claim tasks, and on which they tell the tasks for which something was
//! found.
//!
//! The tasks of a `Board` are numbered from 0. A thread steps with a `Seat`: `claim` gives it a task
//! that no seat was given before, `found` says that something was found for a claimed task, `least`
//! asks for the least task told so far, and `close` takes all seats back and gives the `Tally`. No
//! step waits, and none takes memory once the board is made.
//!
//! What it promises the crates above, by the contracts of `Board::claim`, `Board::found`, `Board::least`, `Board::close`:
//!
//! Two words: the next task that nobody has claimed, and the least task for which something was found. Each call is one step on one
//! of them.
//!
//! - A seat is never given a number twice, nor one that is no task. Once answered `None` it is answered `None` again.
//! - `close`, once all seats are back: the claims divide the numbers below `claimed`, which are all tasks if any seat was answered
//!   `None`; the least task found is the least of all finds, whatever the threads did.
//!
//! Why it is so:
//!
//! - Two sums over lists are written twice, in `lin_board` and `lin_table`. *To change:* a crate below both.
//! - `Board::new` makes all seats, and `close` says what no single step can: that the claims divide the tasks.
#![tactic(auto)]

mod board;
mod gather;
mod rule;
mod seat;
mod steps;
mod tally;

pub use board::Board;
pub use seat::Seat;
pub use tally::{SeatsMissing, Tally};
