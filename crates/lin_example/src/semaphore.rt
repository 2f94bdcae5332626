//! A counting semaphore as a sequential object: what each of its operations does when they are called one at a time.
ghost use Rattle.std.specs.Prelude.{◌≡◌};
ghost use Rattle.lin_example.specs.Semaphore.{semaphore_step};

use lin_object::SeqObject;
use std::alloc::{AllocError, Global};
use std::fmt;

/// A semaphore with this number of permits. Its state is how many of them are free.
#[derive(Clone, Copy, PartialEq, Eq, Debug)]
pub struct Semaphore {
    pub permits: u32,
}

/// An operation of a semaphore.
#[derive(Clone, Copy, PartialEq, Eq, Debug)]
pub enum SemaphoreOp {
    /// Takes a permit. While none is free it waits, so it has no step.
    Acquire,
    /// Takes a permit if one is free.
    TryAcquire,
    /// Gives a permit back. If all are free it has no step.
    Release,
}

impl fmt::Display for SemaphoreOp {
    fn fmt<W: fmt::Write>(&self, f: &mut fmt::Formatter<W>) -> fmt::Result {
        match self {
            SemaphoreOp::Acquire => write!(f, "acquire"),
            SemaphoreOp::TryAcquire => write!(f, "try_acquire"),
            SemaphoreOp::Release => write!(f, "release"),
        }
    }
}

/// What a call on a semaphore answers.
#[derive(Clone, Copy, PartialEq, Eq, Debug)]
pub enum SemaphoreReply {
    /// Done.
    Done,
    /// No permit was free.
    Refused,
}

// What an operation does with this number of permits free: how many are free after it, and the reply.
fn step_from(permits: u32, free: u32, op: SemaphoreOp) -> Option<(u32, SemaphoreReply)>
    ensures { result ≡ semaphore_step permits free op }
{
    match op {
        SemaphoreOp::Acquire if free > 0 => Some((free - 1, SemaphoreReply::Done)),
        SemaphoreOp::Acquire => None,
        SemaphoreOp::TryAcquire if free > 0 => Some((free - 1, SemaphoreReply::Done)),
        SemaphoreOp::TryAcquire => Some((free, SemaphoreReply::Refused)),
        SemaphoreOp::Release if free < permits => Some((free + 1, SemaphoreReply::Done)),
        SemaphoreOp::Release => None,
    }
}

impl SeqObject for Semaphore {
    ghost use Rattle.lin_example.specs.Semaphore.{after as after_call};
    ghost use Rattle.lin_example.specs.SemaphoreLemmas.{alike};

    type State = u32;

    type Op = SemaphoreOp;

    type Reply = SemaphoreReply;

    ghost after = { after_call };

    fn step(
        &self,
        _alloc: Global,
        free: &u32,
        _process: u32,
        op: &SemaphoreOp,
    ) -> Result<Option<(u32, SemaphoreReply)>, AllocError> {
        Ok(step_from(self.permits, *free, *op))
    }

    fn copy_state(&self, _alloc: Global, free: &u32) -> Result<u32, AllocError> {
        Ok(*free)
    }

    // Any process may take a permit or give one back.
    fn ignores_process(
        &self,
        _op: &SemaphoreOp,
        _returned: &Option<(u32, SemaphoreReply)>,
    ) -> bool {
        true
    }

    ghost steps_alike = { λ x y s t process a b same_object same_state same_op. alike x y s t a b same_object same_state same_op };
}
