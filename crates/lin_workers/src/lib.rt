//! Workers that share the search of one object.
//!
//! - `check`: the check of one object, by the calling thread alone or with workers; `verdict`: what it finds.
//! - `tasks`: the search is cut into tasks.
//! - `searches`: what one thread searches by itself, until it stalls or wants memory, and the verdict by the tasks.
//! - `workers`: workers claim tasks, scout for those that have none, and search them.
//! - `options`: by how many workers a check is run, with how many shards, and within which limit.
//! - `bounds`: within which bounds an object is searched; `deadline`: when the time is up, by a clock.
//!
//! What it promises the crates above, by the contracts of `cut`, `scout`, `work`, `check_object` and its halves `check_alone` and
//! `check_over_table`:
//!
//! - `cut` makes the tasks: all configurations of one level (runs of k calls), each once, with the least run that leads to it, in
//!   the order of these runs. If none has a completion the problem has no linearization; the first that has one gives the least
//!   linearization. The level follows from how many tasks are wanted.
//! - `work` is one worker. It claims tasks until none is left and searches each over the table. `Found` is the least completion,
//!   `Refuted` and `Undecided` as for `search`; it stops only for a smaller task that its seat heard of. What it brings is right
//!   whatever other workers do.
//! - `scout` only refutes, in an order of its own, so that workers do not all go the same way.
//! - `check_object` gives `Yes` only with the least linearization, `No` only if there is none, with the first of the longest runs,
//!   and `Undecided` only under a limit that the number of runs exceeds, or a time, for every number of workers and shards and on
//!   every schedule. The verdict does not rest on the board: an outcome counts for what its own task says.
//! - `Bounds` are a limit on the lifts and a *watcher*, which knows when the time is up: `Deadline` by a clock, `Unwatched` never.
//!   Each searching thread asks it every 256 lifts, every 32 if the object has 4,096 calls or more, and every 4,096 steps without a
//!   lift; so does the cut at each configuration. A search that ends so has no outcome, so no clause about outcomes speaks of time;
//!   only `check_over_table` makes `Undecided` of it, and only if seconds were given.
//! - Hints without a clause: when a search is taken to stall (after as many lifts as the caller says, 500,000 before workers begin,
//!   and a third of all without progress), which worker leads, and which tasks are left.
//!
//! Why it is so:
//!
//! - Objects that are decided within 256 steps ask no clock. So small objects after a long search are still decided when the time
//!   is up.
//! - `Options` keeps its ranges in its type, and the defaults are constants of `lincheck`, so given values and defaults stay apart.
//! - Workers are lent to the threads (`thread::for_each_mut`), so their hands are never lost, the number stored is always known,
//!   and a table is always taken apart by `total`; a generic function may not drop one.
//! - Workers start when the search stalls, not after a number of lifts. A search on its way to an order makes progress all the
//!   time; one that refutes soon gets as far as it can. Progress is measured by the greatest sum of lifted numbers, which a set
//!   keeps.
//! - No more workers than cores. One that has no core while it has a shard out keeps all others from that shard. A worker that is
//!   answered `Busy` gives up its core: on one core that cut lost notes from 52,000 to 60.
//! - What the calling thread refuted is lent to the workers and not moved into shards, which would cost three lifts per pair.
//! - Workers scout before they search; the one at the least task leads. If there is an order, searching from there in natural order
//!   finds it. A scout goes upwards or downwards, level by level, so that one definition covers what it has tried; it makes at most
//!   4,000,000 steps.
//! - A search that is refused memory ends after 100,000 more refused notes than stored ones: a number, not a time, so that the
//!   answer does not depend on the clock. Tasks behind an undecided one are not searched.
//! - `Gate::wants_workers` asks for workers at once; otherwise tests whose workers wait for one another would never see any.
//! - A cut compares each new configuration with all others of its level, by hash first: a level has a few hundred, and the proof is
//!   a loop over a list.
//! - One memo watches a search, whatever is watched (`WatchedMemo`, `Progress`, `Refusals`), and stops the search by a flag.
#![tactic(auto)]

mod bounds;
mod check;
mod deadline;
mod options;
mod searches;
mod tasks;
mod verdict;
mod workers;

pub use bounds::{Bounds, UntilUp, Unwatched, Watcher, Way};
pub use check::{check_alone, check_object, check_over_table, number_stored, patience_of};
pub use deadline::Deadline;
pub use options::{MAX_LIMIT, MAX_SECONDS, MAX_SHARDS, MAX_WORKERS, OptionFault, Options};
pub use searches::stalling::Patience;
pub use tasks::cutting::{LAST_LEVEL, cut};
pub use tasks::task::Task;
pub use verdict::{Alone, CheckFault, ObjectVerdict};
pub use workers::gate::{FreeGate, Gate};
pub use workers::job::Done;
pub use workers::scouts::{Scouting, scout};
pub use workers::worker::work;
