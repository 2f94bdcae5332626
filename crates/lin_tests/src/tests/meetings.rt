//! Workers that meet: two of them really work at once. Each wait has a bound, so a worker that worked alone would end too.

use super::reports::{REFUTED, REFUTED_REPORT, is_reported, judged};
use super::watched::{Watch, Watched, read_of_no_written_value};
use lin_history::{History, Problem};
use lin_text::read_history;
use lin_workers::{Gate, ObjectVerdict, check_object};
use lincheck::Options;
use std::alloc::Global;
use std::sync::atomic::AtomicU64;
use std::sync::atomic::Ordering::SeqCst;
use std::thread;
use std::thread::Threads;
use std::time::Clock;

// How often whoever waits looks whether another came.
const TURNS: u64 = 100_000_000;

// Comes, and waits until two have come. Whether they have.
fn meets(came: &AtomicU64) -> bool {
    came.fetch_add(1, SeqCst);
    for _ in 0..TURNS {
        if came.load(SeqCst) > 1 {
            return true;
        }
        thread::yield_now();
    }
    false
}

// Once a worker has entered the gate, a step of process 4 waits until two such steps have met.
#[derive(Drop)]
struct Meeting {
    entered: AtomicU64,
    came: AtomicU64,
    missed: AtomicU64,
}

impl Meeting {
    fn new() -> Self {
        Meeting {
            entered: AtomicU64::new(0),
            came: AtomicU64::new(0),
            missed: AtomicU64::new(0),
        }
    }

    // Whether two steps of process 4 have met, and none waited in vain.
    fn have_met(&self) -> bool {
        self.came.load(SeqCst) > 1 && self.missed.load(SeqCst) == 0
    }
}

impl Watch for Meeting {
    fn refuses(&self, process: Option<u32>) -> bool {
        if process == Some(4) && self.entered.load(SeqCst) > 0 && !meets(&self.came) {
            self.missed.fetch_add(1, SeqCst);
        }
        false
    }
}

// A gate that shows the object of a problem that a worker entered.
#[derive(Drop)]
struct Telling<'a> {
    problem: &'a Problem<Watched<Meeting>>,
}

impl<'a> Gate for Telling<'a> {
    fn enter(&self, _task: u64) {
        self.problem.object().watch.entered.fetch_add(1, SeqCst);
    }
}

// Whether two workers refute the problem, with the longest run, and meet in its object.
fn meet_in_the_object<R: AllocGlobal + Threads + Clock + Sync>(
    rt: &R,
    problem: &Problem<Watched<Meeting>>,
) -> bool {
    let Ok(options) = Options::new(2, 16, None, false) else {
        return false;
    };
    match check_object(rt, problem, &options, &Telling { problem }) {
        Ok((ObjectVerdict::No(order), _)) => {
            order.calls() == [0, 1, 2].as_slice() && problem.object().watch.have_met()
        }
        _ => false,
    }
}

#[test]
fn two_workers_meet_in_the_object(rt: HostRuntime) {
    let problem = read_of_no_written_value(rt.alloc(), Meeting::new());
    assert!(rt; meet_in_the_object(&rt, &problem));
}

// A gate at which the workers of the first two tasks wait for each other.
#[derive(Drop)]
struct Waiting {
    came: AtomicU64,
    met: AtomicU64,
}

impl Gate for Waiting {
    fn enter(&self, task: u64) {
        if task < 2 && meets(&self.came) {
            self.met.fetch_add(1, SeqCst);
        }
    }
}

// Whether the check of this history finds that it is not linearizable, with this report.
fn is_refuted<R: AllocGlobal + Threads + Clock + Sync>(
    rt: &R,
    alloc: Global,
    history: &History,
    gate: &Waiting,
) -> bool {
    match judged(rt, history, gate) {
        Some(verdict) => is_reported(alloc, history, &verdict, REFUTED_REPORT),
        None => false,
    }
}

// Whether two workers meet at the gate, and the report is as it should be.
fn meet_at_the_gate<R: AllocGlobal + Threads + Clock + Sync>(rt: &R, alloc: Global) -> bool {
    let Ok(history) = read_history(alloc, REFUTED.as_bytes()) else {
        return false;
    };
    let gate = Waiting {
        came: AtomicU64::new(0),
        met: AtomicU64::new(0),
    };
    is_refuted(rt, alloc, &history, &gate) && gate.met.load(SeqCst) == 2
}

#[test]
fn two_workers_meet_at_the_gate(rt: HostRuntime) {
    assert!(rt; meet_at_the_gate(&rt, rt.alloc()));
}
