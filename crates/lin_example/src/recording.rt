//! Recorded events on a semaphore, one a line: `call 1 acquire`, and later `return 1 done`.
ghost use Rattle.std.specs.Prelude.{◌≡◌, OnOk, OnErr, IfErr};
ghost use Rattle.lin_object.specs.Names.{beside};
ghost use Rattle.lin_example.specs.Recording.{op_names, reply_names, pending_call, MayComeNext, IsFaultOf, with_event};

use crate::semaphore::{Semaphore, SemaphoreOp, SemaphoreReply};
use lin_history::Problem;

/// What a process did.
#[derive(Clone, Copy, PartialEq, Eq, Debug)]
pub enum Event {
    /// The process called the operation.
    Call(u32, SemaphoreOp),
    /// The pending call of the process returned with the reply.
    Return(u32, SemaphoreReply),
}

/// Why an event is refused.
#[derive(Clone, Copy, PartialEq, Eq, Debug)]
pub enum EventFault {
    /// The process has a pending call.
    Busy,
    /// The process has no pending call.
    NoCall,
    /// The problem has no room for the call, or its number is too low.
    Refused,
}

// The operation of this name.
fn op_named(word: &str) -> Option<SemaphoreOp>
    ensures { result ≡ beside op_names word.now }
{
    match word {
        "acquire" => Some(SemaphoreOp::Acquire),
        "try_acquire" => Some(SemaphoreOp::TryAcquire),
        "release" => Some(SemaphoreOp::Release),
        _ => None,
    }
}

// The reply of this name.
fn reply_named(word: &str) -> Option<SemaphoreReply>
    ensures { result ≡ beside reply_names word.now }
{
    match word {
        "done" => Some(SemaphoreReply::Done),
        "refused" => Some(SemaphoreReply::Refused),
        _ => None,
    }
}

/// The event that a line records; `None` if it records none.
pub fn event_of(line: &str) -> Option<Event> {
    let (what, rest) = line.split_once(' ')?;
    let (process, word) = rest.split_once(' ')?;
    let process = process.parse::<u32>().ok()?;
    match what {
        "call" => Some(Event::Call(process, op_named(word)?)),
        "return" => Some(Event::Return(process, reply_named(word)?)),
        _ => None,
    }
}

// The pending call of the process.
fn pending_call(problem: &Problem<Semaphore>, process: u32) -> Option<usize>
    ensures { result ≡ pending_call process problem.now.calls }
{
    problem
        .calls()
        .iter()
        .position(|call| call.process == process && call.returned.is_none())
}

/// Adds an event, which has this number. After an `Err` nothing has changed: `Busy` for a call by a process that has a pending
/// one, `NoCall` for a return by a process that has none, `Refused` if there are 16,384 calls already, if the number is not
/// greater than all before it, or if memory was refused.
pub fn add_event(
    problem: &mut Problem<Semaphore>,
    event: Event,
    number: u32,
) -> Result<(), EventFault>
    ensures ok { OnOk result (problem.new ≡ with_event problem.old event number) }
    ensures next { OnOk result (MayComeNext problem.old.calls event) }
    ensures err { IfErr result (IsFaultOf problem.old.calls event) }
    ensures kept { OnErr result (problem.new ≡ problem.old) }
{
    let added = match event {
        Event::Call(process, op) => {
            if pending_call(problem, process).is_some() {
                return Err(EventFault::Busy);
            }
            problem.add_call(process, op, number)
        }
        Event::Return(process, reply) => {
            let Some(call) = pending_call(problem, process) else {
                return Err(EventFault::NoCall);
            };
            problem.add_return(call, reply, number)
        }
    };
    match added {
        Ok(()) => Ok(()),
        Err(_) => Err(EventFault::Refused),
    }
}
