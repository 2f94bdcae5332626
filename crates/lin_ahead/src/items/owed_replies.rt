//! Replies that are owed to completed calls: a pending call that would take one is passed over.
ghost use Rattle.std.specs.Prelude.{true, Some, IfOk, IfSome, IsTrue};
ghost use Rattle.lin_history.specs.Problems.Configurations.{IsReachable};
ghost use Rattle.lin_history.specs.Problems.Problem.{problem_of};
ghost use Rattle.lin_ahead.specs.First.FirstProgress.{BeginsNone};
ghost use Rattle.lin_ahead.specs.Items.Owed.{IsPendingAnswer, HasReply, IsOwed, AreOwed};

use crate::first::calls_in_turn::CallsInTurn;
use crate::kept::kept;
use crate::sight::CALLS_IN_SIGHT;
use lin_history::Problem;
use lin_object::{SeqObject, lawful};
use lin_search::Config;
use std::alloc::{AllocError, Global};

// The calls with a flag, in order.
fn owed_in_turn(alloc: Global, owed: &[bool]) -> Result<CallsInTurn, AllocError> {
    let mut order = Vec::new(alloc);
    for call in 0..owed.len() {
        if owed[call] {
            order.push(kept(call))?;
        }
    }
    CallsInTurn::new(alloc, order, owed.len())
}

// The reply that the call would get in the configuration's state. `None` where it is not pending, or has no step.
fn pending_answer<O: SeqObject>(
    alloc: Global,
    problem: &Problem<O>,
    config: &Config<O>,
    call: usize,
) -> Result<Option<O::Reply>, AllocError>
    ensures { IfOk result (λ answer. IfSome answer (IsPendingAnswer
        (problem_of O.after O.State.eq O.Reply.eq problem.now) config.now.state call)) }
{
    if call >= problem.len() {
        return Ok(None);
    }
    let made = problem.call(call);
    if made.returned.is_some() {
        return Ok(None);
    }
    match problem
        .object()
        .step(alloc, config.state(), made.process, &made.op)?
    {
        Some((_, reply)) => Ok(Some(reply)),
        None => Ok(None),
    }
}

// Whether the call returned with a reply that equals this one.
fn has_reply<O: SeqObject>(problem: &Problem<O>, call: usize, reply: &O::Reply) -> bool
    ensures { IsTrue result → HasReply (problem_of O.after O.State.eq O.Reply.eq problem.now)
        call reply.now }
{
    if call >= problem.len() {
        return false;
    }
    match &problem.call(call).returned {
        Some((_, recorded)) => *reply == *recorded,
        None => false,
    }
}

// Whether the call is owed a reply that equals this one.
fn is_owed_to<O: SeqObject>(
    problem: &Problem<O>,
    owed: &[bool],
    call: usize,
    reply: &O::Reply,
) -> bool
    requires { AreOwed (problem_of O.after O.State.eq O.Reply.eq problem.now) owed.now }
    ensures { IsTrue result → IsOwed (problem_of O.after O.State.eq O.Reply.eq problem.now)
        reply.now }
{
    match owed.get(call) {
        Some(true) => has_reply(problem, call, reply),
        _ => false,
    }
}

// Whether the hint, or one of the next calls in turn, is owed a reply that equals this one.
fn is_owed<O: SeqObject>(
    problem: &Problem<O>,
    owed: &[bool],
    takers: &CallsInTurn,
    hint: Option<usize>,
    reply: &O::Reply,
) -> bool
    requires { AreOwed (problem_of O.after O.State.eq O.Reply.eq problem.now) owed.now }
    ensures { IsTrue result → IsOwed (problem_of O.after O.State.eq O.Reply.eq problem.now)
        reply.now }
{
    if let Some(call) = hint {
        if is_owed_to(problem, owed, call, reply) {
            return true;
        }
    }
    for count in 0..CALLS_IN_SIGHT {
        match takers.ahead(count) {
            Some(call) if is_owed_to(problem, owed, call, reply) => return true,
            Some(_) => {}
            None => return false,
        }
    }
    false
}

/// The calls that are owed their replies, in turn.
#[derive(Drop)]
pub(crate) struct OwedReplies {
    alloc: Global,
    in_turn: CallsInTurn,
}

impl OwedReplies {
    // The calls with a flag, none of which is lifted.
    pub(crate) fn new(alloc: Global, owed: &[bool]) -> Result<Self, AllocError> {
        Ok(OwedReplies {
            alloc,
            in_turn: owed_in_turn(alloc, owed)?,
        })
    }

    // Whether the call is pending, and would get a reply that is owed to another call: to the hint, or to one of the next in turn.
    pub(crate) fn takes_what_is_owed<O: SeqObject>(
        &self,
        problem: &Problem<O>,
        owed: &[bool],
        config: &Config<O>,
        call: usize,
        hint: Option<usize>,
    ) -> Result<bool, AllocError>
        requires right { AreOwed (problem_of O.after O.State.eq O.Reply.eq problem.now) owed.now }
        requires reachable { IsReachable (problem_of O.after O.State.eq O.Reply.eq problem.now)
            config.now.lifted config.now.state }
        ensures { IfOk result (λ takes. IsTrue takes → BeginsNone
            (problem_of O.after O.State.eq O.Reply.eq problem.now) config.now.lifted
            config.now.state call) }
    {
        lawful::<O>();
        match pending_answer(self.alloc, problem, config, call)? {
            Some(reply) => Ok(is_owed(problem, owed, &self.in_turn, hint, &reply)),
            None => Ok(false),
        }
    }

    // Goes on to the configuration, which has a call more.
    pub(crate) fn lifted<O: SeqObject>(&mut self, config: &Config<O>) {
        self.in_turn.lifted(config);
    }

    // Goes back to before the call, which was taken out again.
    pub(crate) fn unlifted(&mut self, call: usize) {
        self.in_turn.unlifted(call);
    }
}
