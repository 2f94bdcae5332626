//! The full search of an object, over a memo that names its problem, and what its end answers.
//!
//! A search that met the limit is not begun again: what follows are the tasks of workers, each with a limit of its own. What the
//! time ends is answered by what is known then.

ghost use Rattle.std.specs.Prelude.{◌≡◌, IfOk, IfSome, IfNone, IsSome, IsTrue, None};
ghost use Rattle.std.specs.ControlFlow.{ForBreak};
ghost use Rattle.lin_history.specs.Problems.Problem.{Problem as ProblemOf};
ghost use Rattle.lin_history.specs.Problems.AnyProblem.{any_problem};
ghost use Rattle.lin_workers.specs.Bounds.{Bounds as BoundsOf, without_time};
ghost use Rattle.lin_workers.specs.Verdict.{IsNumberStored, IsObjectVerdict, IsToldAlone};
ghost use Rattle.lincheck.specs.ObjectAnswer.{HasNoOrder, IsAnswered, IsObjectAnswer};

use crate::object_answer::{ObjectAnswer, Question};
use crate::setting::Setting;
use lin_history::Problem;
use lin_object::{AnyObject, ObjState, Op, Reply};
use lin_search::OwnMemo;
use lin_workers::{
    Alone, Bounds, Gate, ObjectVerdict, Patience, Watcher, Way, check_alone, check_over_table,
    patience_of,
};
use std::alloc::{AllocError, AllocGlobal};
use std::ops::ControlFlow;
use std::thread::Threads;

// What the calling thread tells by itself, with at most so many lifts where there is a limit.
pub(crate) fn search_alone<R: AllocGlobal, G: Gate, W: Watcher>(
    setting: &Setting<'_, '_, R, G, W>,
    problem: &Problem<AnyObject>,
    memo: &mut OwnMemo<'_, AnyObject>,
    patience: Patience,
    limit: Option<u64>,
) -> Result<Alone, AllocError>
    requires { memo.old.problem ≡ problem.now }
    ensures told { IfOk result (IsToldAlone (any_problem problem.now) setting.now.bounds) }
    ensures memo { memo.new.problem ≡ memo.old.problem }
{
    let bounds = Bounds::new(limit, setting.bounds.watcher());
    bounds.watcher().enter(Way::Full);
    check_alone(setting.rt.alloc(), problem, memo, patience, &bounds)
}

// What workers tell, over what the memo has: no verdict where the time was up.
fn search_shared<R: AllocGlobal + Threads + Sync, G: Gate, W: Watcher>(
    setting: &Setting<'_, '_, R, G, W>,
    memo: &OwnMemo<'_, AnyObject>,
) -> Result<(Option<ObjectVerdict>, u64), AllocError>
    ensures verdict { IfOk result (λ r. IfSome r.0 (IsObjectVerdict (any_problem memo.now.problem)
        (without_time setting.now.bounds))) }
    ensures time { IfOk result (λ r. IfNone r.0 (IsSome setting.now.bounds.seconds)) }
    ensures stored { IfOk result (λ r. IsNumberStored (any_problem memo.now.problem) r.1) }
{
    setting.bounds.watcher().enter(Way::Full);
    check_over_table(
        setting.rt,
        memo,
        &setting.options,
        &setting.bounds,
        setting.gate,
    )
}

// What a verdict answers.
fn answer_of(verdict: ObjectVerdict) -> ObjectAnswer
    ensures { (p : ProblemOf ObjState Op Reply) (question : Question) (bounds : BoundsOf)
        → IsObjectVerdict p bounds verdict → IsObjectAnswer p question bounds result }
{
    match verdict {
        ObjectVerdict::Yes(order) => ObjectAnswer::Yes(order),
        ObjectVerdict::No(run) => ObjectAnswer::No(Some(run)),
        ObjectVerdict::Undecided => ObjectAnswer::Undecided,
    }
}

// What a verdict answers; none where the time was up. Then it is still told what is known: that there is no linearization.
fn answer_by(verdict: Option<ObjectVerdict>, is_refuted: bool) -> ObjectAnswer
    ensures answer { (p : ProblemOf ObjState Op Reply) (question : Question) (bounds : BoundsOf)
        → IfSome verdict (IsObjectVerdict p (without_time bounds))
        → IfNone verdict (IsSome bounds.seconds)
        → (IsTrue is_refuted → HasNoOrder p) → IsObjectAnswer p question bounds result }
    ensures refuted { IfNone verdict (IsTrue is_refuted → result ≡ ObjectAnswer.No None) }
{
    match verdict {
        Some(verdict) => answer_of(verdict),
        None if is_refuted => ObjectAnswer::No(None),
        None => ObjectAnswer::Undecided,
    }
}

// What the calling thread answers by itself, with the number stored; where it does not, how many lifts it made: all of them where
// it met the limit.
pub(crate) fn answer_alone(alone: Alone, is_refuted: bool) -> ControlFlow<(ObjectAnswer, u64), u64>
    ensures { (p : ProblemOf ObjState Op Reply) (question : Question) (bounds : BoundsOf)
        → IsToldAlone p bounds alone → (IsTrue is_refuted → HasNoOrder p)
        → ForBreak result (IsAnswered p question bounds) }
{
    match alone {
        Alone::Decided(verdict, stored) => {
            ControlFlow::Break((answer_by(Some(verdict), is_refuted), stored))
        }
        Alone::TimeUp(stored) => ControlFlow::Break((answer_by(None, is_refuted), stored)),
        Alone::Stalled(lifts) => ControlFlow::Continue(lifts),
        Alone::LimitMet => ControlFlow::Continue(u64::MAX),
    }
}

// The answer by workers, over what the memo has.
pub(crate) fn by_workers<R: AllocGlobal + Threads + Sync, G: Gate, W: Watcher>(
    setting: &Setting<'_, '_, R, G, W>,
    memo: &OwnMemo<'_, AnyObject>,
    is_refuted: bool,
) -> Result<(ObjectAnswer, u64), AllocError>
    requires { IsTrue is_refuted → HasNoOrder (any_problem memo.now.problem) }
    ensures { (question : Question) → IfOk result (IsAnswered (any_problem memo.now.problem) question setting.now.bounds) }
{
    let (verdict, stored) = search_shared(setting, memo)?;
    Ok((answer_by(verdict, is_refuted), stored))
}

// The answer by the full search to its end: by the calling thread, as far as the limit leaves it lifts, and then by workers.
pub(crate) fn to_the_end<R: AllocGlobal + Threads + Sync, G: Gate, W: Watcher>(
    setting: &Setting<'_, '_, R, G, W>,
    problem: &Problem<AnyObject>,
    memo: &mut OwnMemo<'_, AnyObject>,
    is_refuted: bool,
    limit: Option<u64>,
) -> Result<(ObjectAnswer, u64), AllocError>
    requires memo { memo.old.problem ≡ problem.now }
    requires refuted { IsTrue is_refuted → HasNoOrder (any_problem problem.now) }
    ensures { (question : Question) → IfOk result (IsAnswered (any_problem problem.now) question setting.now.bounds) }
{
    if limit != Some(0) {
        let patience = patience_of(&setting.options);
        let alone = search_alone(setting, problem, memo, patience, limit)?;
        if let ControlFlow::Break(answer) = answer_alone(alone, is_refuted) {
            return Ok(answer);
        }
    }
    by_workers(setting, memo, is_refuted)
}
