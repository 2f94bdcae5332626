//! Looking for a core: first where practice has its faults, then wherever a search of some calls finds that they have no order.

ghost use Rattle.std.specs.Prelude.{◌≡◌, IfOk, IfSome};
ghost use Rattle.lin_history.specs.Problems.AnyProblem.{any_problem};
ghost use Rattle.lin_core.specs.Cores.{IsCoreOf, HasNone};

use crate::call_index::{CallIndex, selection_of, with_sources};
use crate::fronts::from_front;
use crate::gap_windows::{first_return, selections_of, windows_around_gaps};
use crate::item_faults::{item_faults, list_of};
use crate::item_times::return_of;
use crate::judge::Judge;
use crate::key_faults::forgotten;
use crate::lock_faults::{around_try, tries_in_vain, two_holders};
use crate::next_calls::NextCalls;
use crate::one_item::taken_too_often;
use crate::refuted_part::{Core, core_of_calls};
use crate::replies::odd_reply;
use crate::selection::{MapKey, Selection};
use crate::smaller::{make_smaller, needs_all, rounds_but_for, without_rounds};
use crate::value_faults::value_faults;
use crate::windows::{Window, suffix_core_of_calls};
use lin_effort::{Decide, Decision};
use lin_history::Problem;
use lin_object::{AnyObject, ObjState};
use std::alloc::{AllocError, Global};

// An event after every other.
const THE_END: u32 = u32::MAX;

// How many calls a reader takes in at once: so few are told with what came before them, as the write of a value that is found
// later.
const FEW_CALLS: usize = 8;

// A core of so few calls is answered at once.
const FEWEST_CALLS: usize = 3;

// How many keys without an order are compared, of which the one with the fewest calls is taken.
const MOST_KEYS: usize = 8;

// How many lists of values are tried where no fault is known: as many as 2^15 values have, and all their halves.
const MOST_FAMILIES: usize = 65_536;

// Selections of the calls on a map's key that may have no linearization.
fn faults_of_key(
    alloc: Global,
    problem: &Problem<AnyObject>,
    calls: &[usize],
    key: i64,
) -> Result<Vec<Selection>, AllocError> {
    let at = MapKey {
        key,
        nothing: false,
        later: None,
    };
    let index = CallIndex::new(alloc, problem, calls, Some(at))?;
    let mut found = Vec::new(alloc);
    for values in value_faults(alloc, problem, &index, None)? {
        found.push(selection_of(alloc, problem, &index, values, THE_END)?)?;
    }
    if let Some(selection) = forgotten(alloc, problem, calls, key)? {
        found.push(selection)?;
    }
    Ok(found)
}

// What a core is looked for with.
#[derive(Drop)]
struct Finder<'a, 's, D> {
    problem: &'a Problem<AnyObject>,
    next: NextCalls<'a>,
    index: CallIndex,
    judge: Judge<'a, 's, D>,
}

impl<'a, 's, D: Decide> Finder<'a, 's, D> {
    // The selection of all calls on these values, and on what the calls of `cas` on them expect.
    fn all_on(&self, alloc: Global, values: &[i64]) -> Result<Selection, AllocError> {
        let values = with_sources(alloc, self.problem, &self.index, values)?;
        selection_of(alloc, self.problem, &self.index, values, THE_END)
    }

    // That selection, if it is refuted.
    fn refuted_on(
        &mut self,
        alloc: Global,
        values: &[i64],
    ) -> Result<Option<Selection>, AllocError> {
        let selection = self.all_on(alloc, values)?;
        if self.judge.refutes_selection(alloc, &selection)? {
            Ok(Some(selection))
        } else {
            Ok(None)
        }
    }

    // The first of these lists of values on which the calls are refuted.
    fn first_refuted(
        &mut self,
        alloc: Global,
        lists: &[Vec<i64>],
    ) -> Result<Option<Selection>, AllocError> {
        for values in lists {
            if !self.judge.goes_on() {
                break;
            }
            if let Some(selection) = self.refuted_on(alloc, values.as_slice())? {
                return Ok(Some(selection));
            }
        }
        Ok(None)
    }

    // All values with a call, by the first call on each.
    fn values_in_turn(&self, alloc: Global) -> Result<Vec<i64>, AllocError> {
        let mut firsts = Vec::with_capacity(alloc, self.index.values.len())?;
        for on_value in &self.index.values {
            if let Some(first) = on_value.calls.first() {
                firsts.push((*first, on_value.value))?;
            }
        }
        firsts.sort_by_key(|one| one.0)?;
        firsts.iter().map(|one| one.1).collect(alloc)
    }

    // A refuted list of values: all of them, and where that is not known halves, quarters and so on. Where the calls on some values
    // have a linearization, so have those on fewer.
    fn refuted_family(&mut self, alloc: Global) -> Result<Option<Selection>, AllocError> {
        let values = self.values_in_turn(alloc)?;
        let mut families = Vec::new(alloc);
        families.push(values)?;
        for _ in 0..MOST_FAMILIES {
            if !self.judge.goes_on() {
                break;
            }
            let Some(values) = families.pop() else {
                break;
            };
            let selection = self.all_on(alloc, values.as_slice())?;
            match self
                .judge
                .answer(alloc, selection.calls.as_slice(), selection.event)?
            {
                Decision::Refuted => return Ok(Some(selection)),
                Decision::Spent if values.len() > 1 => {
                    for half in values.as_slice().chunks(values.len() - values.len() / 2) {
                        families.push(list_of(alloc, half)?)?;
                    }
                }
                Decision::Spent | Decision::Found(_) | Decision::Stopped => {}
            }
        }
        Ok(None)
    }

    // Of the first keys whose calls are refuted the one with the fewest calls, each cut and made as small as can be.
    fn refuted_key(&mut self, alloc: Global) -> Result<Option<Selection>, AllocError> {
        let keys = self.values_in_turn(alloc)?;
        let mut best: Option<Selection> = None;
        let mut tried = 0;
        for key in &keys {
            if tried >= MOST_KEYS || !self.judge.goes_on() {
                break;
            }
            if let Some(selection) = self.refuted_on(alloc, &[*key])? {
                tried += 1;
                let selection = match self.refuted_within_key(alloc, *key)? {
                    Some(less) => less,
                    None => selection,
                };
                best = Some(self.smaller_one(alloc, best, selection)?);
            }
        }
        Ok(best)
    }

    // Calls on some values of a map's key that are refuted, by a fault as practice has it.
    fn refuted_within_key(
        &mut self,
        alloc: Global,
        key: i64,
    ) -> Result<Option<Selection>, AllocError> {
        let ObjState::Map(_) = self.problem.start() else {
            return Ok(None);
        };
        let Some(on_key) = self.index.at(key) else {
            return Ok(None);
        };
        let calls = on_key.calls.as_slice();
        for selection in faults_of_key(alloc, self.problem, calls, key)? {
            if !self.judge.goes_on() {
                break;
            }
            if self.judge.refutes_selection(alloc, &selection)? {
                return Ok(Some(selection));
            }
        }
        Ok(None)
    }

    // The one of both with fewer calls, the second made as small as can be first.
    fn smaller_one(
        &mut self,
        alloc: Global,
        best: Option<Selection>,
        selection: Selection,
    ) -> Result<Selection, AllocError> {
        let mut selection = selection;
        make_smaller(alloc, &self.next, &mut self.judge, &mut selection)?;
        match best {
            Some(best) if best.calls.len() <= selection.calls.len() => Ok(best),
            _ => Ok(selection),
        }
    }

    // The calls of two processes that held a mutex at one moment, without all their other rounds.
    fn refuted_holders(&mut self, alloc: Global) -> Result<Option<Selection>, AllocError> {
        let Some(two) = two_holders(alloc, &self.next)? else {
            return Ok(None);
        };
        let calls = self.problem.calls();
        let (Some(first), Some(second)) = (calls.get(two.first), calls.get(two.second)) else {
            return Ok(None);
        };
        let values = [i64::from(first.process), i64::from(second.process)];
        let Some(selection) = self.refuted_on(alloc, &values)? else {
            return Ok(None);
        };
        let rounds = rounds_but_for(alloc, &self.next, &selection, &[two.first, two.second])?;
        let less = without_rounds(alloc, &self.next, &selection, rounds.as_slice())?;
        if self.judge.refutes_selection(alloc, &less)? {
            Ok(Some(less))
        } else {
            Ok(Some(selection))
        }
    }

    // A `try_lock` that answered 'no', with the calls that may hold the mutex meanwhile, which are refuted: as they stood when it
    // returned, or in the end.
    fn refuted_try(&mut self, alloc: Global) -> Result<Option<Selection>, AllocError> {
        let tries = tries_in_vain(alloc, &self.next)?;
        for try_lock in &tries {
            let event = match self.problem.calls().get(*try_lock) {
                Some(call) => return_of(call),
                None => THE_END,
            };
            for event in [event, THE_END] {
                if !self.judge.goes_on() {
                    return Ok(None);
                }
                let around = around_try(alloc, &self.next, *try_lock, event)?;
                if self.judge.refutes_selection(alloc, &around)? {
                    return Ok(Some(around));
                }
            }
        }
        Ok(None)
    }

    // A mutex that two processes held at one moment, or that was refused to one while it was free.
    fn refuted_lock(&mut self, alloc: Global) -> Result<Option<Selection>, AllocError> {
        match self.refuted_holders(alloc)? {
            Some(selection) => Ok(Some(selection)),
            None => self.refuted_try(alloc),
        }
    }

    // Values with a fault as practice has it, on which the calls are refuted.
    fn refuted_by_fault(&mut self, alloc: Global) -> Result<Option<Selection>, AllocError> {
        let lists = match self.problem.start() {
            ObjState::Queue(_) => item_faults(alloc, self.problem, &self.index, true)?,
            ObjState::Stack(_) => item_faults(alloc, self.problem, &self.index, false)?,
            ObjState::Register(start) => {
                value_faults(alloc, self.problem, &self.index, Some(*start))?
            },
            ObjState::Mutex(_) => return self.refuted_lock(alloc),
            _ => return Ok(None),
        };
        self.first_refuted(alloc, lists.as_slice())
    }

    // All calls, where a `cas` that answered 'no' is among them, if they are refuted: such a call may stay beside all that change
    // anything.
    fn refuted_with_cas(&mut self, alloc: Global) -> Result<Option<Selection>, AllocError> {
        let calls = (0..self.problem.len()).collect(alloc)?;
        let all = Selection::new(alloc, THE_END, None, Vec::new(alloc), calls);
        if needs_all(self.problem, &all) && self.judge.refutes_selection(alloc, &all)? {
            Ok(Some(all))
        } else {
            Ok(None)
        }
    }

    // Calls on some values that are refuted, or else all.
    fn refuted_values(&mut self, alloc: Global) -> Result<Option<Selection>, AllocError> {
        match self.refuted_family(alloc)? {
            Some(selection) => Ok(Some(selection)),
            None => self.refuted_with_cas(alloc),
        }
    }

    // Some calls that are refuted, by whatever way finds them first.
    fn refuted(&mut self, alloc: Global) -> Result<Option<Selection>, AllocError> {
        match self.problem.start() {
            ObjState::Map(_) | ObjState::Set(_) => self.refuted_key(alloc),
            ObjState::Counter(_) => self.refuted_on(alloc, &[]),
            _ => match self.refuted_by_fault(alloc)? {
                Some(selection) => Ok(Some(selection)),
                None => self.refuted_values(alloc),
            },
        }
    }

    // The selection from a place on before which nothing shows, and first the same made as small as can be; nothing where no such
    // place leaves calls that are refuted.
    fn from_front(
        &mut self,
        alloc: Global,
        selection: &Selection,
    ) -> Result<Vec<Selection>, AllocError> {
        let mut found = Vec::new(alloc);
        let Some(less) = from_front(alloc, self.problem, &mut self.judge, selection)? else {
            return Ok(found);
        };
        let mut least = less.copied(alloc)?;
        make_smaller(alloc, &self.next, &mut self.judge, &mut least)?;
        found.push(least)?;
        found.push(less)?;
        Ok(found)
    }

    // The same, made as small as can be: where it has many calls also from a place on before which nothing shows, which comes first.
    fn smallest(&mut self, alloc: Global) -> Result<Vec<Selection>, AllocError> {
        let Some(mut selection) = self.refuted(alloc)? else {
            return Ok(Vec::new(alloc));
        };
        make_smaller(alloc, &self.next, &mut self.judge, &mut selection)?;
        let mut found = if selection.key.is_none() && selection.calls.len() > FEW_CALLS {
            self.from_front(alloc, &selection)?
        } else {
            Vec::new(alloc)
        };
        found.push(selection)?;
        Ok(found)
    }
}

// Some calls that a search finds to have no linearization, made as few as can be: the fewest first.
fn selections_found<D: Decide>(
    alloc: Global,
    problem: &Problem<AnyObject>,
    index: CallIndex,
    decider: &mut D,
) -> Result<Vec<Selection>, AllocError> {
    let next = NextCalls::new(alloc, problem)?;
    let judge = Judge::new(problem, decider);
    let mut finder = Finder {
        problem,
        next,
        index,
        judge,
    };
    finder.smallest(alloc)
}

// The first of the selections that is a core.
fn core_of_selections<D: Decide>(
    alloc: Global,
    problem: &Problem<AnyObject>,
    selections: Vec<Selection>,
    decider: &mut D,
) -> Result<Option<Core>, AllocError>
    ensures core { IfOk result (λ answer. IfSome answer (λ core.
        IsCoreOf (any_problem problem.now) core.from core.event core.key core.values.items core.calls.items core.firsts.items)) }
    ensures none { IfOk result (λ answer. IfSome answer (λ core. HasNone (any_problem problem.now))) }
{
    for selection in selections {
        if let Some(core) = core_of_calls(alloc, problem, selection, decider)? {
            return Ok(Some(core));
        }
    }
    Ok(None)
}

// The first of the windows that is a core. Where no call had returned before one, what is known at the start counts, and it is none.
fn core_of_windows<D: Decide>(
    alloc: Global,
    problem: &Problem<AnyObject>,
    windows: Vec<Window>,
    decider: &mut D,
) -> Result<Option<Core>, AllocError>
    ensures core { IfOk result (λ answer. IfSome answer (λ core.
        IsCoreOf (any_problem problem.now) core.from core.event core.key core.values.items core.calls.items core.firsts.items)) }
    ensures none { IfOk result (λ answer. IfSome answer (λ core. HasNone (any_problem problem.now))) }
{
    let first = first_return(problem);
    for window in windows {
        if window.from <= first {
            continue;
        }
        if let Some(core) = suffix_core_of_calls(alloc, problem, window, decider)? {
            return Ok(Some(core));
        }
    }
    Ok(None)
}

// Whether so few calls are known to be a core that no other is looked for.
fn has_few(core: &Option<Core>) -> bool {
    match core {
        Some(core) => core.calls.len() <= FEWEST_CALLS,
        None => false,
    }
}

// Whether the core has no more calls than another, where there is one.
fn has_no_more_calls(core: &Core, other: &Option<Core>) -> bool {
    match other {
        Some(other) => core.calls.len() <= other.calls.len(),
        None => true,
    }
}

// A core of few calls around a gap: from the start where that has no more calls, as where the first of them begins anew.
fn core_in_gap<D: Decide>(
    alloc: Global,
    problem: &Problem<AnyObject>,
    index: &CallIndex,
    decider: &mut D,
) -> Result<Option<Core>, AllocError>
    ensures core { IfOk result (λ answer. IfSome answer (λ core.
        IsCoreOf (any_problem problem.now) core.from core.event core.key core.values.items core.calls.items core.firsts.items)) }
    ensures none { IfOk result (λ answer. IfSome answer (λ core. HasNone (any_problem problem.now))) }
{
    let windows = windows_around_gaps(alloc, problem, index)?;
    let selections = selections_of(alloc, windows.as_slice())?;
    let early = core_of_selections(alloc, problem, selections, decider)?;
    let late = core_of_windows(alloc, problem, windows, decider)?;
    let Some(early) = early else {
        return Ok(late);
    };
    if has_no_more_calls(&early, &late) {
        return Ok(Some(early));
    }
    Ok(late)
}

// A core of few calls that are looked up: around a gap, or on an item that was taken more often than it was put.
fn core_nearby<D: Decide>(
    alloc: Global,
    problem: &Problem<AnyObject>,
    index: &CallIndex,
    decider: &mut D,
) -> Result<Option<Core>, AllocError>
    ensures core { IfOk result (λ answer. IfSome answer (λ core.
        IsCoreOf (any_problem problem.now) core.from core.event core.key core.values.items core.calls.items core.firsts.items)) }
    ensures none { IfOk result (λ answer. IfSome answer (λ core. HasNone (any_problem problem.now))) }
{
    let near = core_in_gap(alloc, problem, index, decider)?;
    if has_few(&near) {
        return Ok(near);
    }
    let selections = taken_too_often(alloc, problem, index)?;
    let Some(taken) = core_of_selections(alloc, problem, selections, decider)? else {
        return Ok(near);
    };
    if has_no_more_calls(&taken, &near) {
        return Ok(Some(taken));
    }
    Ok(near)
}

/// A core of the problem; `None` where none is found: where the problem has a linearization, and else where all that is tried with as much
/// work as so many calls are worth finds none, or where what decides does not go on. `AllocError` where memory was refused.
///
/// It looks first for a call with a reply that its operation never gives, and for two or three calls that have no linearization
/// whatever the object held before them; then for faults as practice has them. That takes O(n log n) for n calls. Then it looks for any. What
/// decides is asked before each part whether it goes on.
pub fn core_of<D: Decide>(
    alloc: Global,
    problem: &Problem<AnyObject>,
    decider: &mut D,
) -> Result<Option<Core>, AllocError>
    ensures core { IfOk result (λ answer. IfSome answer (λ core.
        IsCoreOf (any_problem problem.now) core.from core.event core.key core.values.items core.calls.items core.firsts.items)) }
    ensures none { IfOk result (λ answer. IfSome answer (λ core. HasNone (any_problem problem.now))) }
{
    if let Some(odd) = odd_reply(alloc, problem)? {
        return core_of_calls(alloc, problem, odd, decider);
    }
    let calls: Vec<usize> = (0..problem.len()).collect(alloc)?;
    let index = CallIndex::new(alloc, problem, calls.as_slice(), None)?;
    let near = core_nearby(alloc, problem, &index, decider)?;
    if has_few(&near) {
        return Ok(near);
    }
    let selections = selections_found(alloc, problem, index, decider)?;
    let Some(core) = core_of_selections(alloc, problem, selections, decider)? else {
        return Ok(near);
    };
    if has_no_more_calls(&core, &near) {
        return Ok(Some(core));
    }
    Ok(near)
}
