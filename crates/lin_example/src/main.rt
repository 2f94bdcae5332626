//! Reads the recorded calls on a semaphore and says whether they are linearizable.
//!
//! The first line of standard input is `permits N`: the semaphore has N permits, all free. Each further line is an event,
//! `call PROCESS OPERATION` or `return PROCESS REPLY`, in the order in which the events happened.
#![tactic(auto)]

mod checking;
mod recording;
mod semaphore;

use checking::check;
use lin_history::{Order, Problem};
use lin_workers::ObjectVerdict;
use recording::{add_event, event_of};
use semaphore::Semaphore;
use std::alloc::Global;
use std::io;
use std::process::ExitCode;
use std::thread::Threads;
use std::time::Clock;

// The exit statuses.
const LINEARIZABLE: u8 = 0;

const NOT_LINEARIZABLE: u8 = 1;

const REFUSED: u8 = 2;

const FAULT: u8 = 4;

// How many permits the first line gives.
fn permits_of(line: &str) -> Option<u32> {
    line.strip_prefix("permits ")?.parse::<u32>().ok()
}

// The calls that the lines record, or the number of the first line that is refused.
fn problem_of_lines(alloc: Global, text: &str) -> Result<Problem<Semaphore>, u32> {
    let mut lines = text.lines();
    let Some(permits) = lines.next().and_then(permits_of) else {
        return Err(1);
    };
    let mut problem = Problem::new(alloc, Semaphore { permits }, permits);
    let mut number = 1u32;
    for line in lines {
        number = number.saturating_add(1);
        let Some(event) = event_of(line) else {
            return Err(number);
        };
        if add_event(&mut problem, event, number).is_err() {
            return Err(number);
        }
    }
    Ok(problem)
}

// Prints each call of the order with its place, and the number of the line on which it was called.
fn print_calls(rt: &HostRuntime, problem: &Problem<Semaphore>, order: &Order) -> io::Result<()> {
    for (place, call) in order.calls().iter().enumerate() {
        if let Some(call) = problem.calls().get(*call) {
            let (place, process, line) = (place + 1, call.process, call.called);
            let op = call.op;
            println!(rt; "{place} {process} {op} (line {line})")?;
        }
    }
    Ok(())
}

// Checks the calls and prints the verdict.
fn answer<R: AllocGlobal + Threads + Clock + Sync>(
    rt: &HostRuntime,
    threads: &R,
    problem: &Problem<Semaphore>,
) -> io::Result<u8> {
    match check(threads, problem) {
        Ok(ObjectVerdict::Yes(order)) => {
            println!(rt; "linearizable")?;
            print_calls(rt, problem, &order)?;
            Ok(LINEARIZABLE)
        }
        Ok(ObjectVerdict::No(run)) => {
            println!(rt; "not linearizable; the longest run:")?;
            print_calls(rt, problem, &run)?;
            Ok(NOT_LINEARIZABLE)
        }
        Ok(ObjectVerdict::Undecided) | Err(_) => Ok(FAULT),
    }
}

// Reads, checks and prints. Workers are started with `threads`.
fn run<R: AllocGlobal + Threads + Clock + Sync>(rt: &HostRuntime, threads: &R) -> io::Result<u8> {
    let text = io::read_to_string(rt.alloc(), rt.reader())?;
    match problem_of_lines(rt.alloc(), text.as_str()) {
        Ok(problem) => answer(rt, threads, &problem),
        Err(line) => {
            println!(rt; "line {line} is no event that can come next")?;
            Ok(REFUSED)
        }
    }
}

fn main(rt: HostRuntime) -> ExitCode {
    ExitCode::from(run(&rt, &rt).unwrap_or(FAULT))
}
