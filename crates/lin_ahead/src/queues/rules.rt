//! The rules of a first search of a queue: needs, enqueues that are too late, too early or hurried, replies that are owed, and takers.
ghost use Rattle.std.specs.Prelude.{◌≡◌, ℕ, List, IfOk, IsTrue};
ghost use Rattle.lin_history.specs.Problems.AnyProblem.{any_problem};
ghost use Rattle.lin_history.specs.Problems.Configurations.{IsReachable};
ghost use Rattle.lin_history.specs.Problems.Linearizations.{IsLinearization};
ghost use Rattle.lin_ahead.specs.Behind.{IsRightOfQueue};
ghost use Rattle.lin_ahead.specs.First.FirstProgress.{BeginsNone};
ghost use Rattle.lin_ahead.specs.Queues.CountedRows.{AreCountedRows};

use crate::first::calls_in_turn::CallsInTurn;
use crate::first::needed_calls::needed_in_turn;
use crate::first::rules::Rules;
use crate::items::late_hints::{LateHints, returned_at};
use crate::items::late_pushes::comes_too_late;
use crate::items::owed_replies::OwedReplies;
use crate::items::taker_hints::TakerHints;
use crate::items::takers::After;
use crate::queues::counted_rows::{CountedRow, counted_rows};
use crate::queues::early_enqueues::comes_too_early;
use crate::queues::hurried_enqueues::{Lying, comes_hurried, listed};
use crate::queues::inner_takers::InnerHints;
use crate::queues::item_rows::item_rows;
use crate::queues::lacking_enqueues::lacks_enqueues;
use crate::queues::needs::left_out;
use crate::queues::rows::QueueAhead;
use crate::queues::slots::{SlotHints, items_in_rows};
use crate::queues::takers::lacks_takers;
use lin_history::Problem;
use lin_object::{AnyObject, ObjState, lawful};
use lin_search::Config;
use std::alloc::{AllocError, Global};

/// What is known ahead, and by which calls to ask it: the calls by how early they are needed, those that are owed a reply, those that
/// make others too late, which takers are left; and where items repeat the calls on each item, the returns for which too few are in,
/// and the dequeues within others. All but what is known ahead and the calls on each item are hints.
#[derive(Drop)]
pub(crate) struct QueueRules<'a> {
    ahead: &'a QueueAhead,
    needed: CallsInTurn,
    owed: OwedReplies,
    late: LateHints,
    takers: TakerHints,
    rows: Vec<CountedRow>,
    slots: SlotHints,
    inner: InnerHints,
}

impl<'a> QueueRules<'a> {
    // Those of the problem, none of whose calls is lifted.
    pub(crate) fn new(
        alloc: Global,
        problem: &Problem<AnyObject>,
        ahead: &'a QueueAhead,
    ) -> Result<Self, AllocError>
        ensures ahead { IfOk result (λ rules. rules.ahead.now ≡ ahead.now) }
        ensures rows { IfOk result (λ rules. AreCountedRows problem.now.calls rules.rows.items) }
    {
        let calls = problem.calls();
        let items = items_in_rows(alloc, &ahead.items)?;
        let rows = item_rows(alloc, calls, items.as_slice())?;
        let slots = SlotHints::new(alloc, calls, rows.as_slice())?;
        let counted = counted_rows(alloc, calls, rows.as_slice())?;
        Ok(QueueRules {
            ahead,
            needed: needed_in_turn(alloc, &ahead.needs)?,
            owed: OwedReplies::new(alloc, ahead.items.owed.as_slice())?,
            late: LateHints::new(alloc, problem, &ahead.late)?,
            takers: TakerHints::of_queue(alloc, problem.calls(), &ahead.items, ahead.needs.by())?,
            inner: InnerHints::new(alloc, calls, rows.as_slice(), &slots)?,
            rows: counted,
            slots,
        })
    }

    // Whether the call is known to be an enqueue of an item that repeats, which would come out too early.
    fn comes_too_early(
        &self,
        problem: &Problem<AnyObject>,
        config: &Config<AnyObject>,
        call: usize,
    ) -> bool
        requires right { IsRightOfQueue (any_problem problem.now) self.now.ahead.now }
        requires rows { AreCountedRows problem.now.calls self.now.rows.items }
        requires reachable { IsReachable (any_problem problem.now) config.now.lifted
            config.now.state }
        ensures { IsTrue result → BeginsNone (any_problem problem.now) config.now.lifted
            config.now.state call }
    {
        lawful::<AnyObject>();
        let Some(own) = self.slots.row_of(call) else {
            return false;
        };
        let empty = match self.late.first_empty() {
            Some(call) => Some((call, returned_at(problem, call))),
            None => None,
        };
        let Some(wait) = self.slots.wait(own, empty) else {
            return false;
        };
        comes_too_early(problem.calls(), self.rows.as_slice(), wait, config, call)
    }

    /// Whether it is known that more calls returned with an item by some event than enqueues of it were called: then there is no
    /// linearization.
    pub(crate) fn are_in_vain(&self, problem: &Problem<AnyObject>) -> bool
        requires right { IsRightOfQueue (any_problem problem.now) self.now.ahead.now }
        requires rows { AreCountedRows problem.now.calls self.now.rows.items }
        ensures { IsTrue result → (l : List ℕ) → IsLinearization (any_problem problem.now) l → ⊥ }
    {
        let Some(lack) = self.slots.lack() else {
            return false;
        };
        lacks_enqueues(problem.calls(), self.rows.as_slice(), lack)
    }

    // Whether the call is known to be an enqueue of an item that repeats, which would have to be out too soon.
    fn comes_hurried(
        &self,
        problem: &Problem<AnyObject>,
        config: &Config<AnyObject>,
        call: usize,
    ) -> Result<bool, AllocError>
        requires right { IsRightOfQueue (any_problem problem.now) self.now.ahead.now }
        requires rows { AreCountedRows problem.now.calls self.now.rows.items }
        ensures { IfOk result (λ known. IsTrue known → BeginsNone (any_problem problem.now)
            config.now.lifted config.now.state call) }
    {
        let Some(own) = self.slots.row_of(call) else {
            return Ok(false);
        };
        let Some(hurry) = self.inner.hurry(&self.slots, config, own) else {
            return Ok(false);
        };
        let ObjState::Queue(items) = config.state() else {
            return Ok(false);
        };
        let list = listed(self.takers.alloc(), items)?;
        let lying = Lying {
            config,
            items: list.as_slice(),
        };
        Ok(comes_hurried(
            problem.calls(),
            self.rows.as_slice(),
            &lying,
            own,
            hurry,
            call,
        ))
    }
}

impl<'a> Rules<AnyObject> for QueueRules<'a> {
    ghost are_right = { λ rules p. IsRightOfQueue (any_problem p) rules.ahead.now
        × AreCountedRows p.calls rules.rows.items };

    fn lifted(&mut self, config: &Config<AnyObject>, call: usize) -> Result<(), AllocError> {
        self.late.lifted(config);
        self.takers.lifted(config, call)?;
        self.needed.lifted(config);
        self.owed.lifted(config);
        self.inner.lifted(config, call);
        self.slots.lifted(call)
    }

    fn unlifted(&mut self, call: usize) {
        self.needed.unlifted(call);
        self.owed.unlifted(call);
        self.late.unlifted(call);
        self.takers.unlifted(call);
        self.slots.unlifted(call);
        self.inner.unlifted(call);
    }

    // It needs a call that is not lifted, is an enqueue that is too late or too early, or would take a reply that is owed to another.
    fn begins_none(
        &self,
        problem: &Problem<AnyObject>,
        config: &Config<AnyObject>,
        call: usize,
    ) -> Result<bool, AllocError> {
        lawful::<AnyObject>();
        if left_out(problem, self.ahead, &self.needed, config, call).is_some() {
            return Ok(true);
        }
        if comes_too_late(problem, &self.ahead.late, &self.late, None, config, call) {
            return Ok(true);
        }
        if self.comes_too_early(problem, config, call)
            || self.comes_hurried(problem, config, call)?
        {
            return Ok(true);
        }
        let owed = self.ahead.items.owed.as_slice();
        self.owed
            .takes_what_is_owed(problem, owed, config, call, None)
    }

    fn looks_at_next(&self, config: &Config<AnyObject>, call: usize) -> bool {
        self.takers.concerns(call)
    }

    // It leaves too few dequeues that are pending for what must be taken out of the queue.
    fn leads_to_none(
        &self,
        problem: &Problem<AnyObject>,
        config: &Config<AnyObject>,
        call: usize,
        state: &ObjState,
    ) -> Result<bool, AllocError> {
        let ObjState::Queue(items) = state else {
            return Ok(false);
        };
        let after = After {
            config,
            call,
            items,
        };
        lacks_takers(
            problem,
            &self.ahead.items,
            &self.takers,
            &after,
            self.needed.ahead(0),
        )
    }
}
