//! What is found out about an object beside the searches for its answer, each thing once: sums that leave no room for a reply, that an order
//! shows, and what lets a reader see that there is none.

ghost use Rattle.std.specs.Prelude.{◌≡◌, List, IfOk, IsTrue, ℕ};
ghost use Rattle.lin_history.specs.Problems.AnyProblem.{any_problem};
ghost use Rattle.lin_history.specs.Problems.Linearizations.{IsLinearization};
ghost use Rattle.lincheck.specs.Known.{IsKnownOf};

use crate::known::{Known, Sought};
use crate::object_answer::{Question, asks_no_run};
use crate::object_fault::{calls_of_object, fault_of_object, sums_of_object};
use crate::setting::Setting;
use lin_decide::Ladder;
use lin_effort::Work;
use lin_effort::efforts::{ahead, is_small, prefixes_at_first, work_of_searches};
use lin_history::Problem;
use lin_object::AnyObject;
use lin_workers::{Gate, UntilUp, Watcher, Way};
use std::alloc::{AllocError, AllocGlobal};

/// Looks for a get of a counter for whose reply the adds leave no room: in one pass over the calls, where searches may take long.
pub(crate) fn look_for_sums<R: AllocGlobal, G: Gate, W: Watcher>(
    setting: &Setting<'_, '_, R, G, W>,
    problem: &Problem<AnyObject>,
    known: &mut Known,
) -> Result<(), AllocError>
    requires { IsKnownOf (any_problem problem.now) known.old }
    ensures { IsKnownOf (any_problem problem.now) known.new }
{
    if known.is_refuted || is_small(setting.bounds.limit()) || setting.gate.wants_workers() {
        return Ok(());
    }
    let mut stop = UntilUp::new(&setting.bounds);
    let mut ladder = Ladder::new(problem, Work::ANY, &mut stop);
    if let Some(fault) = sums_of_object(setting.rt.alloc(), problem, &mut ladder)? {
        known.is_refuted = true;
        known.fault = Sought::Found(fault);
    }
    Ok(())
}

// Whether a counter with many pending calls is found to have no order whatever these add, with as much work as searches of prefixes have
// in the first turn.
fn is_refuted_with_any_adds<R: AllocGlobal, G: Gate, W: Watcher>(
    setting: &Setting<'_, '_, R, G, W>,
    problem: &Problem<AnyObject>,
) -> Result<bool, AllocError>
    ensures { IfOk result (λ refuted. IsTrue refuted
        → (l : List ℕ) → IsLinearization (any_problem problem.now) l → ⊥) }
{
    let lifts = prefixes_at_first(problem, false, setting.bounds.limit());
    let mut stop = UntilUp::new(&setting.bounds);
    let mut ladder = Ladder::new(problem, work_of_searches(lifts), &mut stop);
    ladder.is_refuted_with_any_adds(setting.rt.alloc(), problem)
}

/// Asks once whether it shows that there is an order, while it is not known that there is none. Of a counter with many pending calls
/// it may show first that there is none: that is soon told, where the search for an order would go on for long in vain.
pub(crate) fn look_for_order<R: AllocGlobal, G: Gate, W: Watcher>(
    setting: &Setting<'_, '_, R, G, W>,
    problem: &Problem<AnyObject>,
    known: &mut Known,
) -> Result<(), AllocError>
    requires { IsKnownOf (any_problem problem.now) known.old }
    ensures { IsKnownOf (any_problem problem.now) known.new }
{
    let limit = setting.bounds.limit();
    if known.is_refuted || known.has_order.is_some() {
        return Ok(());
    }
    if is_small(limit) || setting.gate.wants_workers() {
        return Ok(());
    }
    if is_refuted_with_any_adds(setting, problem)? {
        known.refute(setting.rt.alloc());
        return Ok(());
    }
    let mut stop = UntilUp::new(&setting.bounds);
    let mut ladder = Ladder::new(problem, Work::ANY, &mut stop);
    let effort = ahead(problem.len(), limit);
    let shown = ladder.shows_order(setting.rt.alloc(), problem, &mut known.begun, &effort)?;
    known.has_order = Some(shown);
    Ok(())
}

/// Whether it shows that there is an order, where no more is asked for.
pub(crate) fn has_order<R: AllocGlobal, G: Gate, W: Watcher>(
    setting: &Setting<'_, '_, R, G, W>,
    problem: &Problem<AnyObject>,
    question: Question,
    known: &mut Known,
) -> Result<bool, AllocError>
    requires { IsKnownOf (any_problem problem.now) known.old }
    ensures order { IfOk result (λ yes. IsTrue yes → (question ≡ Question.Verdict)
        × ((l : List ℕ) × IsLinearization (any_problem problem.now) l)) }
    ensures known { IsKnownOf (any_problem problem.now) known.new }
{
    if !asks_no_run(question) {
        return Ok(false);
    }
    look_for_order(setting, problem, known)?;
    Ok(known.shows_order())
}

/// Looks once for calls that let a reader see that there is no order, while neither is known.
pub(crate) fn look_for_fault<R: AllocGlobal, G: Gate, W: Watcher>(
    setting: &Setting<'_, '_, R, G, W>,
    problem: &Problem<AnyObject>,
    known: &mut Known,
) -> Result<(), AllocError>
    requires { IsKnownOf (any_problem problem.now) known.old }
    ensures { IsKnownOf (any_problem problem.now) known.new }
{
    if known.is_refuted || known.shows_order() || !known.fault.is_not_yet() {
        return Ok(());
    }
    setting.bounds.watcher().enter(Way::Core);
    let mut stop = UntilUp::new(&setting.bounds);
    let mut ladder = Ladder::new(problem, Work::ANY, &mut stop);
    match calls_of_object(setting.rt.alloc(), problem, &mut ladder)? {
        Some(fault) => {
            known.refute(setting.rt.alloc());
            known.fault = Sought::Found(fault);
        }
        None => known.fault = Sought::InVain,
    }
    Ok(())
}

// Looks for what lets a reader see that there is no order, where that is known and is to be explained: so who waits for the run hears
// of it, and it is not looked for again.
fn look_for_explanation<R: AllocGlobal, G: Gate, W: Watcher>(
    setting: &Setting<'_, '_, R, G, W>,
    problem: &Problem<AnyObject>,
    known: &mut Known,
) -> Result<(), AllocError>
    requires { IsKnownOf (any_problem problem.now) known.old }
    ensures { IsKnownOf (any_problem problem.now) known.new }
{
    if setting.explained.is_none() || !known.fault.is_not_yet() {
        return Ok(());
    }
    setting.bounds.watcher().enter(Way::Core);
    let mut stop = UntilUp::new(&setting.bounds);
    let mut ladder = Ladder::new(problem, Work::ANY, &mut stop);
    known.fault = match fault_of_object(setting.rt.alloc(), problem, &mut ladder)? {
        Some(fault) => Sought::Found(fault),
        None if setting.bounds.watcher().is_up() => Sought::NotYet,
        None => Sought::InVain,
    };
    Ok(())
}

/// Where it is known that there is no order and a run is asked for, has that said should the run take long.
pub(crate) fn announce<R: AllocGlobal, G: Gate, W: Watcher>(
    setting: &Setting<'_, '_, R, G, W>,
    problem: &Problem<AnyObject>,
    question: Question,
    known: &mut Known,
) -> Result<(), AllocError>
    requires { IsKnownOf (any_problem problem.now) known.old }
    ensures { IsKnownOf (any_problem problem.now) known.new }
{
    if !known.is_refuted || asks_no_run(question) || is_small(setting.bounds.limit()) {
        return Ok(());
    }
    look_for_explanation(setting, problem, known)?;
    let alloc = setting.rt.alloc();
    let fault = known.fault.found();
    setting
        .notice
        .wait(alloc, setting.explained, problem, fault)
}

/// Looks with little work for what shows where the longest run ends, if it was not looked for. It is shown to nobody.
pub(crate) fn look_for_hint<R: AllocGlobal, G: Gate, W: Watcher>(
    setting: &Setting<'_, '_, R, G, W>,
    problem: &Problem<AnyObject>,
    known: &mut Known,
) -> Result<(), AllocError>
    requires { IsKnownOf (any_problem problem.now) known.old }
    ensures { IsKnownOf (any_problem problem.now) known.new }
{
    if setting.explained.is_some() || !known.fault.is_not_yet() {
        return Ok(());
    }
    let mut stop = UntilUp::new(&setting.bounds);
    let work = work_of_searches(problem.len() as u64);
    let mut ladder = Ladder::new(problem, work, &mut stop);
    known.fault = match fault_of_object(setting.rt.alloc(), problem, &mut ladder)? {
        Some(fault) => Sought::Found(fault),
        None => Sought::InVain,
    };
    Ok(())
}
