//! A memo that watches the search over it, and a stop that ends the search where it says so. It is a hint: nothing is proved of
//! what is watched, and nothing that is proved depends on it.
ghost use Rattle.std.specs.Prelude.{◌≡◌, ◌<◌};

use crate::bounds::Watcher;
use lin_history::Problem;
use lin_object::SeqObject;
use lin_search::{CallSet, Config, Longest, Memo, Noted, Stop};
use std::sync::atomic::AtomicBool;
use std::sync::atomic::Ordering::SeqCst;

// How many lifts a search makes from one look at the flag to the next.
const LIFTS_BETWEEN: u32 = 32;

// How many lifts it makes from one look at the clock to the next.
const LIFTS_TO_CLOCK: u32 = 256;

// How many calls an object has at least whose search looks at the clock as often as at the flag. Where thousands of calls overlap, a
// lift may take a millisecond.
const MANY_CALLS: usize = 4_096;

/// What watches a search, by what it asks of its memo and what it is answered.
pub(crate) trait Watch {
    /// The search has come to this set of calls. Answers whether it is to end.
    fn look(&mut self, _lifted: &CallSet) -> bool {
        false
    }

    /// A refutation that it handed to the memo was answered so. Answers whether it is to end.
    fn note(&mut self, _noted: Noted) -> bool {
        false
    }
}

/// A memo of a search that is watched. It tells the search's stop, by a flag, where the search is to end. Contracts see the memo
/// below.
#[derive(Drop)]
pub(crate) struct WatchedMemo<'a, M, W> {
    memo: &'a mut M,
    watch: &'a mut W,
    is_over: &'a AtomicBool,
}

impl<'a, M, W: Watch> WatchedMemo<'a, M, W> {
    // Over this memo, of a search that begins; where it is to end is told there.
    pub(crate) fn new(memo: &'a mut M, watch: &'a mut W, is_over: &'a AtomicBool) -> Self
        ensures memo { result.memo.now ≡ memo.old }
        ensures same_reference { result.memo.ghost_name ≡ memo.entry.ghost_name }
    {
        WatchedMemo {
            memo,
            watch,
            is_over,
        }
    }

    // The search has come to this set of calls.
    fn watch_look(&mut self, lifted: &CallSet)
        ensures memo { self.new.memo.now ≡ self.old.memo.now }
        ensures same_reference { self.new.memo.ghost_name ≡ self.old.memo.ghost_name }
    {
        if self.watch.look(lifted) {
            self.is_over.store(true, SeqCst);
        }
    }

    // A refutation was answered so.
    fn watch_note(&mut self, noted: Noted)
        ensures memo { self.new.memo.now ≡ self.old.memo.now }
        ensures same_reference { self.new.memo.ghost_name ≡ self.old.memo.ghost_name }
    {
        if self.watch.note(noted) {
            self.is_over.store(true, SeqCst);
        }
    }
}

impl<'a, O: SeqObject, M: Memo<O>, W: Watch> Memo<O> for WatchedMemo<'a, M, W> {
    ghost use Rattle.std.specs.Prelude.{refl};
    ghost use Rattle.std.proofs.Common.{◌∙◌};

    ghost changes = { λ old new. (new.memo.ghost_name ≡ old.memo.ghost_name)
        × M.changes old.memo.now new.memo.now };

    ghost holds = { λ m. M.holds m.memo.now };

    ghost is_of = { λ m p. M.is_of m.memo.now p };

    ghost answers = { λ old p config longest noted new.
        M.answers old.memo.now p config longest noted new.memo.now };

    fn look(&mut self, problem: &Problem<O>, config: &Config<O>) -> Option<Longest> {
        self.watch_look(config.lifted());
        self.memo.look(problem, config)
    }

    fn note_parts(
        &mut self,
        problem: &Problem<O>,
        lifted: CallSet,
        state: O::State,
        longest: Longest,
    ) -> Noted {
        let noted = self.memo.note_parts(problem, lifted, state, longest);
        self.watch_note(noted);
        noted
    }

    fn is_for(&self, problem: &Problem<O>) -> bool {
        self.memo.is_for(problem)
    }

    fn look_here(&mut self, problem: &Problem<O>, config: &Config<O>) -> Option<Longest> {
        self.watch_look(config.lifted());
        self.memo.look_here(problem, config)
    }

    fn note_here(
        &mut self,
        problem: &Problem<O>,
        lifted: CallSet,
        state: O::State,
        longest: Longest,
    ) -> Noted {
        let noted = self.memo.note_here(problem, lifted, state, longest);
        self.watch_note(noted);
        noted
    }

    ghost unchanged = { λ m. (refl, M.unchanged m.memo.now) };

    ghost chained = { λ a b c first second. (
      second.0 ∙ first.0,
      M.chained a.memo.now b.memo.now c.memo.now first.1 second.1,
    ) };

    ghost lasting = { λ a b k set s h. M.lasting a.memo.now b.memo.now k.1 set s h };

    ghost at_equal = { λ m set s t same h. M.at_equal m.memo.now set s t same h };

    ghost keeps_problem = { λ a b k p h. M.keeps_problem a.memo.now b.memo.now k.1 p h };
}

/// The stop of a search over such a memo: it answers soon after the memo says that the search is to end, soon after the time is
/// up, and where the stop below answers. Contracts see the stop below.
#[derive(Drop)]
pub(crate) struct UntilOver<'a, 'b, 'c, S, W> {
    stop: &'a mut S,
    is_over: &'b AtomicBool,
    watcher: &'c W,
    has_many_calls: bool,
    lifts: u32,
}

impl<'a, 'b, 'c, S, W> UntilOver<'a, 'b, 'c, S, W> {
    // How many lifts are made from one look at the clock to the next.
    fn lifts_to_clock(&self) -> u32
        ensures { 0 < result }
    {
        if self.has_many_calls {
            LIFTS_BETWEEN
        } else {
            LIFTS_TO_CLOCK
        }
    }
}

impl<'a, 'b, 'c, S, W: Watcher> UntilOver<'a, 'b, 'c, S, W> {
    // Over this stop, of a search of so many calls.
    pub(crate) fn new(
        stop: &'a mut S,
        is_over: &'b AtomicBool,
        watcher: &'c W,
        calls: usize,
    ) -> Self
        ensures stop { result.stop.now ≡ stop.old }
        ensures same_reference { result.stop.ghost_name ≡ stop.entry.ghost_name }
    {
        UntilOver {
            stop,
            is_over,
            watcher,
            has_many_calls: calls >= MANY_CALLS,
            lifts: 0,
        }
    }

    // Tells how many lifts were made since that was last told: the search has ended.
    pub(crate) fn end(&self) {
        self.watcher
            .add_tried(u64::from(self.lifts % self.lifts_to_clock()));
    }
}

impl<'a, 'b, 'c, S: Stop, W: Watcher> Stop for UntilOver<'a, 'b, 'c, S, W> {
    ghost use Rattle.std.specs.Prelude.{refl};
    ghost use Rattle.std.proofs.Common.{◌∙◌};

    ghost tells = { λ s told. Unit {0} };

    ghost follows = { λ old new. (new.stop.ghost_name ≡ old.stop.ghost_name)
        × S.follows old.stop.now new.stop.now };

    // Once the search is to end, it answers so however often it is asked: the lifts are no longer counted.
    fn ask(&mut self) -> Option<u64> {
        let lifts = self.lifts;
        if lifts % LIFTS_BETWEEN == 0 {
            if lifts % self.lifts_to_clock() == 0 {
                if lifts > 0 {
                    self.watcher.add_tried(u64::from(self.lifts_to_clock()));
                }
                if self.watcher.is_up() {
                    return Some(0);
                }
            }
            if self.is_over.load(SeqCst) {
                return Some(0);
            }
        }
        self.lifts = lifts.wrapping_add(1);
        self.stop.ask()
    }

    fn ask_between(&mut self) -> Option<u64> {
        if self.watcher.is_up() || self.is_over.load(SeqCst) {
            return Some(0);
        }
        self.stop.ask_between()
    }

    ghost unchanged = { λ s. (refl, S.unchanged s.stop.now) };

    ghost chained = { λ a b c first second. (
      second.0 ∙ first.0,
      S.chained a.stop.now b.stop.now c.stop.now first.1 second.1,
    ) };
}
