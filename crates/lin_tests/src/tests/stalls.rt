//! When a check starts workers: where the search of the calling thread stalls, and not before.

use super::searches::Event::{Call, Return};
use super::searches::{Part, posed_by};
use lin_object::{Kind, Op, Reply};
use lin_workers::{Gate, ObjectVerdict, Options, check_object};
use std::alloc::{AllocError, Global};
use std::sync::atomic::AtomicU64;
use std::sync::atomic::Ordering::SeqCst;
use std::thread::Threads;
use std::time::Clock;

// A gate that wants no workers at once, and counts the tasks that workers claim.
#[derive(Drop)]
struct Counting {
    claims: AtomicU64,
}

impl Gate for Counting {
    fn enter(&self, _task: u64) {
        self.claims.fetch_add(1, SeqCst);
    }

    fn wants_workers(&self) -> bool {
        false
    }
}

// So many writes that overlap one another, and after them a read of what nobody wrote.
fn overlapping_writes(alloc: Global, writes: u32) -> Result<Part, AllocError> {
    let mut events = Vec::new(alloc);
    for process in 0..writes {
        events.push(Call(process, Op::Write(process as i64)))?;
    }
    for process in 0..writes {
        events.push(Return(process as usize, Reply::Okay))?;
    }
    events.push(Call(writes, Op::Read))?;
    events.push(Return(writes as usize, Reply::Int(-1)))?;
    Ok(posed_by(alloc, Kind::Register, events.as_slice()))
}

// How many tasks two workers claim of such writes, which are refuted.
fn claims_of<R: AllocGlobal + Threads + Clock + Sync>(rt: &R, writes: u32) -> Option<u64> {
    let problem = overlapping_writes(rt.alloc(), writes).ok()?;
    let options = Options::new(2, 16, None, false).ok()?;
    let gate = Counting {
        claims: AtomicU64::new(0),
    };
    match check_object(rt, &problem, &options, &gate) {
        Ok((ObjectVerdict::No(_), _)) => Some(gate.claims.load(SeqCst)),
        _ => None,
    }
}

// Thirteen writes are refuted before their search can stall. Of fourteen it stalls at its first 500,000 lifts.
#[test]
fn workers_start_where_a_search_stalls(rt: HostRuntime) {
    assert!(rt; claims_of(&rt, 13) == Some(0));
    assert!(rt; matches!(claims_of(&rt, 14), Some(1..)));
}
