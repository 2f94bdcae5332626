//! A memo that forgets, one that keeps copies of what is new, and a stop that counts down.

ghost use Rattle.std.specs.Prelude.{◌≡◌, if◌then◌else◌};
ghost use Rattle.lin_search.specs.declared.memo.Noted.TheVariants.{Busy, NoRoom};
ghost use Rattle.lin_table.specs.Shared.{HasGrown};

use lin_history::Problem;
use lin_object::{AnyObject, ObjState};
use lin_search::{CallSet, Config, Longest, Memo, Noted, Stop};
use lin_table::SharedMemo;
use std::alloc::{AllocError, Global};

/// A memo that keeps nothing: it knows no configuration, and is always busy, or has no room where it is full.
#[derive(Drop)]
pub struct Forgetful {
    pub is_full: bool,
}

impl Memo<AnyObject> for Forgetful {
    ghost changes = { λ old new. Unit {0} };

    ghost holds = { λ m set s. ⊥ };

    ghost is_of = { λ m p. Unit {0} };

    ghost answers = { λ old p config longest noted new. noted
        ≡ (if old.is_full then NoRoom else Busy) };

    fn look(
        &mut self,
        problem: &Problem<AnyObject>,
        config: &Config<AnyObject>,
    ) -> Option<Longest> {
        None
    }

    fn note_parts(
        &mut self,
        problem: &Problem<AnyObject>,
        lifted: CallSet,
        state: ObjState,
        longest: Longest,
    ) -> Noted {
        if self.is_full {
            Noted::NoRoom
        } else {
            Noted::Busy
        }
    }

    ghost unchanged = { λ m. tt };

    ghost chained = { λ a b c first second. tt };

    ghost lasting = { λ a b k set s h. h };

    ghost at_equal = { λ m set s t same h. h };

    ghost keeps_problem = { λ a b k p h. h };
}

// Keeps a copy that was made, where it is of what is new.
fn keep(
    kept: &mut Vec<Config<AnyObject>>,
    copy: Result<Config<AnyObject>, AllocError>,
    noted: Noted,
) {
    if noted == Noted::New
        && let Ok(copy) = copy
    {
        let _ = kept.push(copy);
    }
}

/// A memo over a table that keeps a copy of each configuration that is new there.
#[derive(Drop)]
pub struct Keeping<'a, 'p> {
    pub alloc: Global,
    pub memo: SharedMemo<'a, 'p, AnyObject>,
    pub kept: &'a mut Vec<Config<AnyObject>>,
}

impl<'a, 'p> Memo<AnyObject> for Keeping<'a, 'p> {
    ghost use Rattle.std.specs.Prelude.{refl};
    ghost use Rattle.std.proofs.Common.{◌∙◌};
    ghost use Rattle.lin_table.specs.SharedLemmas.{grown_itself, grown_twice};

    ghost changes = { λ old new. (new.memo.table.now ≡ old.memo.table.now)
        × (new.memo.hand.ghost_name ≡ old.memo.hand.ghost_name)
        × HasGrown old.memo.hand.now new.memo.hand.now };

    ghost holds = { λ m set s. Unit {0} };

    ghost is_of = { λ m p. Unit {0} };

    ghost answers = { λ old p config longest noted new. Unit {0} };

    fn look(
        &mut self,
        problem: &Problem<AnyObject>,
        config: &Config<AnyObject>,
    ) -> Option<Longest> {
        self.memo.look(problem, config)
    }

    fn note_parts(
        &mut self,
        problem: &Problem<AnyObject>,
        lifted: CallSet,
        state: ObjState,
        longest: Longest,
    ) -> Noted {
        let config = Config::from_parts(lifted, state);
        let copy = config.copy(self.alloc, problem);
        let (lifted, state) = config.into_parts();
        let noted = self.memo.note_parts(problem, lifted, state, longest);
        keep(self.kept, copy, noted);
        noted
    }

    ghost unchanged = { λ m. (refl, refl, grown_itself m.memo.hand.now) };

    ghost chained = { λ a b c first second. (
      second.0 ∙ first.0,
      second.1 ∙ first.1,
      grown_twice a.memo.hand.now b.memo.hand.now c.memo.hand.now first.2 second.2,
    ) };

    ghost lasting = { λ a b k set s h. h };

    ghost at_equal = { λ m set s t same h. h };

    ghost keeps_problem = { λ a b k p h. h };
}

/// A stop that lets a search make so many lifts, and then answers 0.
#[derive(Drop)]
pub struct Countdown {
    pub lifts: u64,
}

impl Stop for Countdown {
    ghost use Rattle.std.specs.Prelude.{◌≡◌, ◌≤◌, refl};
    ghost use Rattle.std.proofs.Common.{arith};

    ghost tells = { λ s told. (s.lifts ≡ 0) × (told ≡ 0) };

    ghost follows = { λ old new. new.lifts ≤ old.lifts };

    fn ask(&mut self) -> Option<u64> {
        if self.lifts == 0 {
            return Some(0);
        }
        self.lifts -= 1;
        None
    }

    ghost unchanged = { λ s. Prim.omega arith };

    ghost chained = { λ a b c first second. Prim.omega arith };
}
