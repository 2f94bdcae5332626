//! The sections of a mutex: each begins with an acquire, a `lock` that returned or a `try_lock` that answered 'yes'.

ghost use Rattle.std.specs.Prelude.{◌≡◌, ℕ, IfNone, IfOk, IfSome};
ghost use Rattle.lin_history.specs.Problems.AnyProblem.{any_problem};
ghost use Rattle.lin_ahead.specs.Mutexes.Acquires.{acquired, IsAcquire};
ghost use Rattle.lin_ahead.specs.Mutexes.Sections.{AreInOrder, AreSections, IsSection};

use lin_history::{Problem, ProblemCall};
use lin_object::{AnyObject, Op, Reply};
use std::alloc::{AllocError, Global};

/// The section that an acquire begins: the acquire's number, its process, and when it returned.
#[derive(Clone, Copy, Drop)]
pub struct Section {
    /// The number of the acquire.
    pub acquire: usize,
    /// Its process.
    pub process: u32,
    /// The event at which it returned.
    pub from: u32,
}

/// When the call returned, if it is an acquire.
pub(crate) fn acquired_at(call: &ProblemCall<Op, Reply>) -> Option<u32>
    ensures { result ≡ acquired call.now.op call.now.returned }
{
    match (&call.op, &call.returned) {
        (Op::Lock, Some((event, _))) => Some(*event),
        (Op::TryLock, Some((event, Reply::Flag(true)))) => Some(*event),
        _ => None,
    }
}

/// The section that the call begins, if it is an acquire.
pub(crate) fn section_of(problem: &Problem<AnyObject>, call: usize) -> Option<Section>
    ensures some { IfSome result (λ section. IsSection (any_problem problem.now) section
        × (section.acquire ≡ call)) }
    ensures none { IfNone result ((event : ℕ) → IsAcquire (any_problem problem.now) call event
        → ⊥) }
{
    if call >= problem.len() {
        return None;
    }
    let one = problem.call(call);
    match acquired_at(one) {
        Some(from) => Some(Section {
            acquire: call,
            process: one.process,
            from,
        }),
        None => None,
    }
}

// The sections in the order of their acquires' calls.
fn sections_by_calls(
    alloc: Global,
    problem: &Problem<AnyObject>,
) -> Result<Vec<Section>, AllocError>
    ensures { IfOk result (λ sections. AreSections (any_problem problem.now) sections.items) }
{
    let mut sections = Vec::new(alloc);
    for call in 0..problem.len() {
        if let Some(section) = section_of(problem, call) {
            sections.push(section)?;
        }
    }
    Ok(sections)
}

/// The sections in the order of their acquires' returns. It takes O(n log n) for n calls.
pub(crate) fn sections_in_order(
    alloc: Global,
    problem: &Problem<AnyObject>,
) -> Result<Vec<Section>, AllocError>
    ensures sections { IfOk result (λ sections. AreSections (any_problem problem.now)
        sections.items) }
    ensures order { IfOk result (λ sections. AreInOrder sections.items) }
{
    let mut sections = sections_by_calls(alloc, problem)?;
    sections.sort_by_key(|one| one.from)?;
    Ok(sections)
}
