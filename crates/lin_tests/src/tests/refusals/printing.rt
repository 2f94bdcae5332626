//! What is printed: operations, replies, faults and reports.

ghost use Rattle.lincheck.specs.Verdict.{IsOf};

use super::super::reports::{REFUTED, REFUTED_REPORT, judged};
use super::checking::Eager;
use super::starved::{Attempt, Starved, TIMES, is_refused};
use lin_history::History;
use lin_object::{Op, Reply, write_op, write_reply};
use lin_text::{Cause, TextFault, read_history, write_cause};
use lincheck::{Verdict, report};
use std::alloc::{AllocError, Global};
use std::thread::Threads;
use std::time::Clock;

// What is in a vector before it is printed to, and fills it.
const BEFORE: [u8; 24] = [b'-'; 24];

// What is printed.
#[derive(Clone, Copy)]
enum Printed {
    Op,
    Reply,
    Cause,
}

// Something is printed behind what fills a vector.
#[derive(Drop)]
struct Printing {
    alloc: Global,
    printed: Printed,
    out: Vec<u8>,
    wanted: &'static str,
}

// Appends what is printed.
fn print(alloc: Global, printed: Printed, out: &mut Vec<u8>) -> Result<(), AllocError> {
    match printed {
        Printed::Op => write_op(alloc, &Op::Push(-1), out),
        Printed::Reply => write_reply(alloc, &Reply::Empty, out),
        Printed::Cause => {
            let fault = TextFault {
                line: 4,
                cause: Cause::Busy(1),
            };
            write_cause(alloc, &fault, out)
        }
    }
}

impl Attempt for Printing {
    fn attempt(&mut self) -> Result<bool, AllocError> {
        match print(self.alloc, self.printed, &mut self.out) {
            Ok(()) => Ok(self.out.as_slice() == self.wanted.as_bytes()),
            Err(AllocError) if self.out.as_slice() == BEFORE.as_slice() => Err(AllocError),
            Err(AllocError) => Ok(false),
        }
    }
}

// Whether it is printed so, after it was refused at least so often.
fn is_printed(
    alloc: Global,
    printed: Printed,
    wanted: &'static str,
    times: u64,
) -> Result<bool, AllocError> {
    let mut out = Vec::with_capacity(alloc, BEFORE.len())?;
    out.extend_from_slice(&BEFORE)?;
    let mut printing = Printing {
        alloc,
        printed,
        out,
        wanted,
    };
    Ok(is_refused(alloc, &mut printing, times))
}

const FORMS: [(Printed, &str); 3] = [
    (Printed::Op, "------------------------push(-1)"),
    (Printed::Reply, "------------------------empty"),
    (
        Printed::Cause,
        "------------------------line 4: process 1 has a pending call\n",
    ),
];

#[test]
fn printed_forms_are_refused_or_appended(rt: HostRuntime) {
    for (printed, wanted) in FORMS {
        assert!(rt; matches!(is_printed(rt.alloc(), printed, wanted, 2), Ok(true)));
    }
}

// How many times the report was refused memory, with more and more room, until it was as it should be.
fn refusals_of_a_report(
    alloc: Global,
    starved: &mut Starved,
    history: &History,
    verdict: &Verdict,
) -> Option<u64>
    requires { IsOf history.now verdict.now }
{
    let mut refused = 0u64;
    for step in 0..TIMES {
        if !starved.leave(step * 16) {
            return None;
        }
        match report(alloc, history, verdict) {
            Ok(told) if told.as_slice() == REFUTED_REPORT.as_bytes() => return Some(refused),
            Ok(_) => return None,
            Err(AllocError) => refused = refused.saturating_add(1),
        }
    }
    None
}

// The same of a check with two workers, from a process that has all it wants.
fn reports_in_turn<R: AllocGlobal + Threads + Clock + Sync>(
    rt: &R,
    alloc: Global,
) -> Result<Option<u64>, AllocError> {
    let Ok(history) = read_history(alloc, REFUTED.as_bytes()) else {
        return Ok(None);
    };
    let Some(verdict) = judged(rt, &history, &Eager) else {
        return Ok(None);
    };
    let mut starved = Starved::new(alloc, TIMES)?;
    Ok(refusals_of_a_report(alloc, &mut starved, &history, &verdict))
}

#[test]
fn a_report_is_refused_or_made(rt: HostRuntime) {
    let refused = reports_in_turn(&rt, rt.alloc());
    assert!(rt; matches!(refused, Ok(Some(4..))), "{refused:?}");
}
