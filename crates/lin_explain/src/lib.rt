//! Why a run of an object's calls ends: the state after it, and the calls that could come next.
//!
//! - `next_calls`: the calls that a run leaves and that no other call it leaves precedes.
//! - `explanation`: the state after a run, and what each next call would answer there.
//! - `touching`: the calls that put or took the value that a call asks for, and the call since which a mutex is held.
//! - `state_text`, `touching_text`: how a state and such calls are shown.
//! - `explanation_text`: how an explanation is shown.
//! - `run_explained`: the same of the run of an object of a history.
//! - `call_text`: the parts that lines of calls share.
//! - `core_text`: how calls are shown that alone have no order; `last_line`: the line below them; `sums_text`: how a get of a counter is shown for whose reply its
//!   adds leave no room; `witness_text`: whichever of both is known.
//!
//! What it promises the crates above, by the contracts of `explain`, `write_explanation`, `write_run_explained`, `write_witness`:
//!
//! - The state after a run, the calls that could come next, and what each would answer there are exact. The calls that could come
//!   next are those outside the run all of whose predecessors are in it, in increasing order.
//! - The lines say just that, and name the calls that put or took the value that such a call asks for or should have found, the
//!   call since which a mutex is held, and the lines of the input. A pending call of the run counts for what it replies there.
//! - `write_witness` prints exactly what it is given (`Witness`): calls (`CoreCall`), their lines, and up to which line no other
//!   call helps; or a `get` of a counter with what must and what may have been added before it. It knows nothing of cores, and
//!   makes no sums. But what the line below the calls says of the others is asked of each of them: where another one between the two lines
//!   writes such a value, puts or takes such an item, or changes the counter, the line says no more than that none helps.
//!
//! Why it is so:
//!
//! - What a pending call of the run did is judged by its reply there. An item that only it can have taken is then not shown as
//!   still there.
#![tactic(auto)]

mod call_text;
mod core_text;
mod explanation;
mod explanation_text;
mod last_line;
mod next_calls;
mod run_explained;
mod state_text;
mod sums_text;
mod touching;
mod touching_text;
mod witness_text;

pub use call_text::{push_call, push_number};
pub use core_text::CoreCall;
pub use explanation::{Explanation, NextCall, explain};
pub use explanation_text::write_explanation;
pub use run_explained::write_run_explained;
pub use state_text::MAX_SHOWN;
pub use sums_text::ShownSums;
pub use touching_text::{MAX_TOUCHING, ShownRun};
pub use witness_text::{Witness, write_witness};
