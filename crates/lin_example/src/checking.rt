//! Whether the recorded calls on a semaphore are linearizable.
ghost use Rattle.std.specs.Prelude.{◌==◌, IfOk};
ghost use Rattle.lin_history.specs.Problems.Problem.{problem_of};
ghost use Rattle.lin_workers.specs.Bounds.{unbounded};
ghost use Rattle.lin_workers.specs.Verdict.{IsObjectVerdict};
ghost use Rattle.lin_example.specs.Semaphore.{after};
ghost use Rattle.lin_example.specs.contracts.semaphore.SemaphoreReplyPartialEq.TheImpl.{eq-value as reply_eq};

use crate::semaphore::Semaphore;
use lin_history::Problem;
use lin_workers::{CheckFault, FreeGate, ObjectVerdict, Options, check_object};
use std::thread::Threads;
use std::time::Clock;

// How many workers share a search that stalls.
const WORKERS: u64 = 4;

// How many shards hold what they share.
const SHARDS: u64 = 16;

/// The verdict on the recorded calls: their least linearization, or their longest run if they have none. Without a limit it is
/// never `Undecided`. `Memory` if memory was refused. It may wait, for its workers.
pub fn check<R: AllocGlobal + Threads + Clock + Sync>(
    rt: &R,
    problem: &Problem<Semaphore>,
) -> Result<ObjectVerdict, CheckFault>
    ensures { IfOk result (IsObjectVerdict (problem_of after ◌==◌ reply_eq.it problem.now)
        unbounded) }
{
    let Ok(options) = Options::new(WORKERS, SHARDS, None, false) else {
        return Err(CheckFault::Memory);
    };
    let (verdict, _stored) = check_object(rt, problem, &options, &FreeGate)?;
    Ok(verdict)
}
