//! Searches whose object or memo is refused memory: at each step and copy, and at each note, in turn.

use super::super::searches::{Part, THREE_MORE, writes_and_a_read_of};
use super::super::watched::{Watch, Watched, read_of_no_written_value};
use super::starved::{Attempt, is_refused};
use lin_history::Problem;
use lin_object::{AnyObject, ObjState, Op};
use lin_search::{
    CallSet, Config, Entries, Longest, Memo, NoStop, Noted, Outcome, OwnMemo, search, search_alone,
};
use lin_workers::cut;
use std::alloc::{AllocError, Global};
use std::sync::atomic::AtomicU64;
use std::sync::atomic::Ordering::SeqCst;

/// More steps and copies than there are.
pub const MUCH: u64 = 1_000_000;

/// Refuses memory to one step or copy.
#[derive(Drop)]
pub struct Refusing {
    // How many more are not refused.
    before: AtomicU64,
}

impl Refusing {
    /// So many steps and copies are not refused, and then one is.
    pub fn after(before: u64) -> Self {
        Refusing {
            before: AtomicU64::new(before),
        }
    }

    /// From now on so many steps and copies are not refused, and then one is.
    pub fn set(&self, before: u64) {
        self.before.store(before, SeqCst);
    }
}

impl Watch for Refusing {
    fn refuses(&self, _process: Option<u32>) -> bool {
        self.before.fetch_sub(1, SeqCst) == 0
    }
}

/// A problem whose object is refused memory.
pub type Refused = Problem<Watched<Refusing>>;

// How many steps and copies of a search by itself were refused in turn, each of which ended it, until none was.
fn refusals_alone(alloc: Global) -> Option<u64> {
    let refuted = (Outcome::Refuted(THREE_MORE), 13);
    for before in 0..1000u64 {
        let problem = read_of_no_written_value(alloc, Refusing::after(before));
        match search_alone(alloc, &problem) {
            Ok(told) if told == refuted => return Some(before),
            Ok(_) => return None,
            Err(AllocError) => {}
        }
    }
    None
}

// A search over a memo, one of whose steps and copies is refused, and then another over the same memo: whether the first was
// refused. `None` where the first answers otherwise, or the memo does not serve the second.
fn is_taken_up(alloc: Global, problem: &Refused, before: u64) -> Result<Option<bool>, AllocError> {
    let refuted = Outcome::Refuted(THREE_MORE);
    let root = Config::root(alloc, problem)?;
    let mut memo = OwnMemo::new(alloc, problem);
    problem.object().watch.set(before);
    let first = search(alloc, problem, &root, &mut memo, None, &mut NoStop);
    problem.object().watch.set(MUCH);
    let second = search(alloc, problem, &root, &mut memo, None, &mut NoStop)?;
    let is_right = match &first {
        Ok(told) => *told == refuted,
        Err(AllocError) => true,
    };
    if is_right && second == refuted && memo.count() == 13 {
        Ok(Some(first.is_err()))
    } else {
        Ok(None)
    }
}

// How many steps and copies of a search over a memo were refused in turn, until none was.
fn refusals_over_a_memo(alloc: Global) -> Option<u64> {
    let problem = read_of_no_written_value(alloc, Refusing::after(MUCH));
    for before in 0..1000u64 {
        match is_taken_up(alloc, &problem, before) {
            Ok(Some(true)) => {}
            Ok(Some(false)) => return Some(before),
            _ => return None,
        }
    }
    None
}

#[test]
fn a_search_ends_at_each_step_and_copy_that_is_refused(rt: HostRuntime) {
    let alone = refusals_alone(rt.alloc());
    assert!(rt; matches!(alone, Some(15..)), "{alone:?}");
    let over_a_memo = refusals_over_a_memo(rt.alloc());
    assert!(rt; matches!(over_a_memo, Some(15..)), "{over_a_memo:?}");
}

// What is made of a problem with calls before a step or copy is refused: nothing, the root, a copy of it too, or its first
// child too, unless there is none.
fn configs_made(alloc: Global, problem: &Refused) -> Option<usize> {
    if problem.len() == 0 {
        return None;
    }
    let child = {
        let Ok(root) = Config::root(alloc, problem) else {
            return Some(0);
        };
        if root.copy(alloc, problem).is_err() {
            return Some(1);
        }
        root.child(alloc, problem, 0)
    };
    match child {
        Ok(Some(_)) => Some(3),
        Ok(None) => None,
        Err(AllocError) => Some(2),
    }
}

#[test]
fn a_root_its_copy_and_its_child_are_refused_or_made(rt: HostRuntime) {
    let problem = read_of_no_written_value(rt.alloc(), Refusing::after(MUCH));
    for before in 0..4usize {
        problem.object().watch.set(before as u64);
        assert!(rt; configs_made(rt.alloc(), &problem) == Some(before));
    }
}

// So many reads at once that never return. A call that is refused is left out.
fn reads_at_once(alloc: Global, count: u32) -> Part {
    let mut problem = Problem::new(alloc, AnyObject, ObjState::Register(0));
    for process in 1..=count {
        let _ = problem.add_call(process, Op::Read, process);
    }
    problem
}

// Whether the last call leads from the root to a child, and this has a copy. Of many calls their sets take memory.
fn leads_to_a_child(alloc: Global, problem: &Part) -> Result<bool, AllocError> {
    let Some(last) = problem.len().checked_sub(1) else {
        return Ok(false);
    };
    let root = Config::root(alloc, problem)?;
    let Some(child) = root.child(alloc, problem, last)? else {
        return Ok(false);
    };
    child.copy(alloc, problem)?;
    Ok(true)
}

// What is made of a problem.
#[derive(Clone, Copy)]
enum Made {
    Child,
    Cut,
    Entries,
    Search,
}

// A problem of which something is made.
#[derive(Drop)]
struct Making {
    alloc: Global,
    problem: Part,
    made: Made,
}

impl Attempt for Making {
    fn attempt(&mut self) -> Result<bool, AllocError> {
        match self.made {
            Made::Child => leads_to_a_child(self.alloc, &self.problem),
            Made::Cut => Ok(cut(self.alloc, &self.problem, 2)?.len() == 3),
            Made::Entries => Ok(
                Entries::new(self.alloc, &self.problem)?.first_minimal() == Some(0),
            ),
            Made::Search => {
                let refuted = (Outcome::Refuted(THREE_MORE), 13);
                Ok(search_alone(self.alloc, &self.problem)? == refuted)
            }
        }
    }
}

// Whether it is made, after it was refused at least so often.
fn is_made(alloc: Global, problem: Part, made: Made, times: u64) -> bool {
    let mut making = Making {
        alloc,
        problem,
        made,
    };
    is_refused(alloc, &mut making, times)
}

const MADE: [(Made, u64); 3] = [(Made::Cut, 20), (Made::Entries, 10), (Made::Search, 20)];

#[test]
fn a_cut_entries_and_a_search_are_refused_or_made(rt: HostRuntime) {
    for (made, times) in MADE {
        let problem = writes_and_a_read_of(rt.alloc(), 9);
        assert!(rt; is_made(rt.alloc(), problem, made, times));
    }
}

#[test]
fn a_child_and_a_copy_are_refused_or_made(rt: HostRuntime) {
    let problem = reads_at_once(rt.alloc(), 200);
    assert!(rt; is_made(rt.alloc(), problem, Made::Child, 4));
}

// A memo that is refused memory for one note.
#[derive(Drop)]
struct Full<'p> {
    memo: OwnMemo<'p, AnyObject>,
    before: u64,
    refused: bool,
}

impl<'p> Memo<AnyObject> for Full<'p> {
    ghost changes = { λ old new. Unit {0} };

    ghost holds = { λ m set s. Unit {0} };

    ghost is_of = { λ m p. Unit {0} };

    ghost answers = { λ old p config longest noted new. Unit {0} };

    fn look(
        &mut self,
        problem: &Problem<AnyObject>,
        config: &Config<AnyObject>,
    ) -> Option<Longest> {
        Memo::look(&mut self.memo, problem, config)
    }

    fn note_parts(
        &mut self,
        problem: &Problem<AnyObject>,
        lifted: CallSet,
        state: ObjState,
        longest: Longest,
    ) -> Noted {
        if self.before == 0 && !self.refused {
            self.refused = true;
            return Noted::NoRoom;
        }
        self.before = self.before.saturating_sub(1);
        self.memo.note_parts(problem, lifted, state, longest)
    }

    ghost unchanged = { λ m. tt };

    ghost chained = { λ a b c first second. tt };

    ghost lasting = { λ a b k set s h. h };

    ghost at_equal = { λ m set s t same h. h };

    ghost keeps_problem = { λ a b k p h. h };
}

// Whether a search goes on where this note is refused, and refutes all the same.
fn goes_on(alloc: Global, problem: &Part, before: u64) -> Result<bool, AllocError> {
    let root = Config::root(alloc, problem)?;
    let mut full = Full {
        memo: OwnMemo::new(alloc, problem),
        before,
        refused: false,
    };
    let told = search(alloc, problem, &root, &mut full, None, &mut NoStop)?;
    Ok(told == Outcome::Refuted(THREE_MORE) && full.refused)
}

#[test]
fn a_search_goes_on_at_each_note_that_is_refused(rt: HostRuntime) {
    let problem = writes_and_a_read_of(rt.alloc(), 9);
    for before in 0..13 {
        assert!(rt; matches!(goes_on(rt.alloc(), &problem, before), Ok(true)));
    }
}
