//! What a search of a queue or a stack may pass over.
//!
//! An item with which no call that is left returned need not be put in. Whoever took it was a pending call, which need not be made
//! either; and nobody who took another item met it, since then it would have come out first.

ghost use Rattle.std.specs.Prelude.{◌≡◌, ◌≢◌, ◌+◌, ◌<◌, ℕ, ℤ, false, Some, IfOk, IfSome, IsFalse, IsTrue, OnOk, length};
ghost use Rattle.std.specs.Ordering.{int_eq};
ghost use Rattle.indexmap.specs.IndexMap.{get};
ghost use Rattle.lin_history.specs.Problems.AnyProblem.{any_problem};
ghost use Rattle.lin_history.specs.Problems.Continuations.{has};
ghost use Rattle.lin_laws.specs.Items.{AddsItem};
ghost use Rattle.lin_fewer.specs.Fronts.{HasCompletedBelow};
ghost use Rattle.lin_fewer.specs.Items.{AreEndsTo, NobodyTakes, ReturnedWith, noted};

use crate::laws::fewer_law;
use crate::rules::Rules;
use crate::waiting::Waiting;
use indexmap::IndexMap;
use lin_history::Problem;
use lin_object::{AnyObject, Op, Reply, lawful};
use lin_search::{CallSet, Config};
use std::alloc::{AllocError, Global};
use std::marker::Model;

/// What a search of a queue or a stack may pass over: for each item, the number behind the last call that returned with it. Of any other
/// object it is nothing. Contracts see the problem.
#[derive(Drop)]
pub struct ItemRules<'p> {
    problem: &'p Problem<AnyObject>,
    ends: IndexMap<i64, usize>,
}

impl<'p> Model for ItemRules<'p> {
    ghost use Rattle.std.specs.Prelude.{length};
    ghost use Rattle.std.specs.Ordering.{int_eq};
    ghost use Rattle.indexmap.specs.IndexMap.{get};
    ghost use Rattle.lin_object.specs.declared.any.AnyObject.{AnyObject};
    ghost use Rattle.lin_object.specs.declared.op.Op.{Op};
    ghost use Rattle.lin_object.specs.declared.reply.Reply.{Reply};
    ghost use Rattle.lin_object.specs.declared.state.ObjState.{ObjState};
    ghost use Rattle.lin_history.specs.Problems.ProblemParts.{ProblemParts};
    ghost use Rattle.lin_history.specs.Problems.AnyProblem.{any_problem};
    ghost use Rattle.lin_fewer.specs.Items.{AreEndsTo};

    ghost Value = { ProblemParts AnyObject ObjState Op Reply };

    ghost view = { λ rules. rules.problem.now };

    ghost invariant = { λ rules. AreEndsTo (any_problem rules.problem.now) (get int_eq rules.ends)
        (length rules.problem.now.calls) };
}

// The item that the call puts in.
fn item_added(problem: &Problem<AnyObject>, call: usize) -> Option<i64>
    requires { call < length problem.now.calls }
    ensures { IfSome result (AddsItem (any_problem problem.now) call) }
{
    match &problem.call(call).op {
        Op::Enqueue(item) | Op::Push(item) => Some(*item),
        _ => None,
    }
}

// The item with which the call returned.
fn item_returned(problem: &Problem<AnyObject>, call: usize) -> Option<i64>
    requires { call < length problem.now.calls }
    ensures { (v : ℤ) → ReturnedWith (any_problem problem.now) call v → result ≡ Some v }
{
    let made = problem.call(call);
    match (&made.op, &made.returned) {
        (Op::Dequeue, Some((_, Reply::Int(item)))) => Some(*item),
        (Op::Pop, Some((_, Reply::Int(item)))) => Some(*item),
        _ => None,
    }
}

// The number that is noted of the item, or 0.
fn noted(ends: &IndexMap<i64, usize>, item: i64) -> usize
    ensures { result ≡ noted (get int_eq ends.now) item }
{
    match ends.get(&item) {
        Some(end) => *end,
        None => 0,
    }
}

// Notes this number of the item.
fn note(ends: &mut IndexMap<i64, usize>, item: i64, end: usize) -> Result<(), AllocError>
    ensures own { OnOk result (get int_eq ends.new item ≡ Some end) }
    ensures others { (v : ℤ) → v ≢ item → get int_eq ends.new v ≡ get int_eq ends.old v }
{
    ends.insert(item, end)?;
    Ok(())
}

// Notes that the call is the last one so far that returned with its item, if it did so.
fn note_end(
    problem: &Problem<AnyObject>,
    ends: &mut IndexMap<i64, usize>,
    call: usize,
) -> Result<(), AllocError>
    requires call { call < length problem.now.calls }
    requires ends { AreEndsTo (any_problem problem.now) (get int_eq ends.old) call }
    ensures { OnOk result (AreEndsTo (any_problem problem.now) (get int_eq ends.new) (call + 1)) }
{
    let _calls = problem.calls();
    let Some(item) = item_returned(problem, call) else {
        return Ok(());
    };
    note(ends, item, call + 1)?;
    Ok(())
}

// An item, and the number behind the last call that returned with it.
#[derive(Clone, Copy)]
struct Ended {
    item: i64,
    end: usize,
}

// Whether the call is not in the set and returned with the item.
fn is_taker_left(problem: &Problem<AnyObject>, set: &CallSet, call: usize, ended: Ended) -> bool
    requires { call < length problem.now.calls }
    ensures { IsFalse result → has set.now call ≡ false
        → ReturnedWith (any_problem problem.now) call ended.item → ⊥ }
{
    if set.has(call) {
        return false;
    }
    match item_returned(problem, call) {
        Some(item) => item == ended.item,
        None => false,
    }
}

// Whether no call that is left returned with the item: those below the first one are in the set.
fn nobody_takes(problem: &Problem<AnyObject>, set: &CallSet, first: usize, ended: Ended) -> bool
    requires below { HasCompletedBelow (any_problem problem.now) set.now first }
    requires end { (c : ℕ) → ReturnedWith (any_problem problem.now) c ended.item → c < ended.end }
    ensures { IsTrue result → NobodyTakes (any_problem problem.now) set.now ended.item }
{
    for call in first..problem.len() {
        if call >= ended.end {
            return true;
        }
        if is_taker_left(problem, set, call, ended) {
            return false;
        }
    }
    true
}

impl<'p> ItemRules<'p> {
    /// The rules for the problem. `AllocError` where memory was refused.
    pub fn of(alloc: Global, problem: &'p Problem<AnyObject>) -> Result<Self, AllocError>
        ensures { IfOk result (λ rules. rules ≡ problem.now) }
    {
        let mut ends = IndexMap::new(alloc);
        for call in 0..problem.len() {
            note_end(problem, &mut ends, call)?;
        }
        Ok(ItemRules { problem, ends })
    }
}

impl<'p> Rules<AnyObject> for ItemRules<'p> {
    ghost suits = { λ rules p. rules ≡ p };

    fn is_needless(
        &self,
        waiting: &Waiting<'_, AnyObject>,
        config: &Config<AnyObject>,
        first: usize,
        pending: usize,
    ) -> bool {
        let problem = waiting.problem();
        lawful::<AnyObject>();
        fewer_law(problem);
        let Some(item) = item_added(problem, pending) else {
            return false;
        };
        let end = noted(&self.ends, item);
        nobody_takes(problem, config.lifted(), first, Ended { item, end })
    }
}
