//! Reads a recorded history as JSON Lines, shows whether it is linearizable, and writes the answer.
//!
//! What it promises the crates above, by the contracts of `run`, `run_explained`, `run_each`, `run_with`, `check`, `check_each`,
//! `options_of`, `status_code`:
//!
//! - They write exactly what the text prints by definition (`ran`), which is sound (`sound`): at `Yes` the history has a
//!   linearization, at `No` it has none. docs/GUARANTEES.md says more. `Source` and `Sink` say what
//!   is left to read and what was written, as far as that is known.
//! - A `Listener` hears how far a check has come and how long each way takes (`CheckWatcher`, `WayTimes`), that an object has no
//!   linearization while its run is sought (`Notice`), what was left undecided, and which text is refused. `lincheck_program` puts that into words (`hints`, `advice`).
//!
//! Why it is so:
//!
//! - `StdSink` takes a write of no bytes as a failure: a writer that always answers 0 would make the program run forever.
//! - That `StdSource` and `StdSink` call what they wrap is only tested. Generic code knows a call by its contract, and `Read::read`
//!   may answer an error at any call.
//! - A first search that is out of memory ends the check, as any search of the calling thread does.
#![tactic(auto)]

mod answer_form;
mod check_watcher;
mod device;
mod each;
mod each_explained;
mod explanation_lines;
mod fault;
mod findings;
mod full_search;
mod help;
mod judgement;
mod known;
mod lines;
mod listener;
mod notice;
mod object_answer;
mod object_fault;
mod option_rows;
mod pipeline;
mod request;
mod setting;
mod status;
mod turns;
mod verdict;
mod way_times;
mod witness;

pub use answer_form::AnswerForm;
pub use device::{DeviceFault, Sink, Source, StdSink, StdSource};
pub use each::{check_each, report_each};
pub use fault::RunFault;
pub use judgement::check;
pub use lin_workers::{
    CheckFault, FreeGate, Gate, MAX_LIMIT, MAX_SECONDS, MAX_SHARDS, MAX_WORKERS, OptionFault,
    Options, Way,
};
pub use lines::report;
pub use listener::{Listener, NoListener, SoFar, Spent, Undecided};
pub use pipeline::{run, run_each, run_explained, run_with};
pub use request::{DEFAULT_SHARDS, DEFAULT_WORKERS, Request, options_of};
pub use status::{Status, status_code};
pub use verdict::{Checked, CheckedEach, Verdict};
