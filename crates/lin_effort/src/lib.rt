//! How much work a question is worth, and what decides it (this project's own).
//!
//! - `work`: amounts of work, in one unit; `meter`: counts it, and is the stop of all that does it.
//! - `effort`: how far each way to a decision goes for one question. `efforts`: the questions that a check asks, with all of their
//!   thresholds.
//! - `decide`: what a crate that asks many questions is given to decide them; `decision`: what it answers; `until_spent`: the stop of
//!   what is done between two questions.
//!
//! What it promises the crates above:
//!
//! - What decides a problem (`Decide`) answers its least linearization, or that it has none, or nothing. So whoever asks one is proved
//!   over every way to an answer, and waits for none of them. `Decision::Stopped` is answered only once the work is done or the
//!   stop has answered: then nothing will be decided any more. `Decision::Spent` is nothing for as much effort as was asked for.
//! - A `Meter` takes what it is charged off what is left. It goes on exactly where something is left, and all goes only where the stop
//!   below it has answered.
//!
//! Why it is so:
//!
//! - Efforts are hints: no answer depends on them, only how soon it comes.
//! - The unit is a look at one call, and a lift counts as 256 of them, since much work makes no lift. All of it is charged: making a
//!   problem, what is known ahead of its search, each step of each search, and each asking between two questions.
#![tactic(auto)]

mod decide;
mod decision;
mod effort;
pub mod efforts;
mod meter;
mod until_spent;
mod work;

pub use decide::Decide;
pub use decision::Decision;
pub use effort::{Effort, Keys};
pub use meter::Meter;
pub use until_spent::UntilSpent;
pub use work::Work;
