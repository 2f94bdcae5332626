//! What may stop a search.
ghost use Rattle.std.specs.Prelude.{◌≡◌, ℕ, IfSome};

/// What a search asks before each lift, and now and then between lifts: whether it is to stop.
///
/// A stop names a fact about its state for each number that it may answer, and a relation from an old
/// state to a new one that each of its calls keeps.
pub trait Stop {
    // The fact that an answer of this number shows.
    ghost tells: { Self → ℕ → Type 0 };

    // What any number of calls may make of the stop: the old one, and then the new one.
    ghost follows: { Self → Self → Type 0 };

    /// `None` where the search is to go on; else the number that it answers.
    fn ask(&mut self) -> Option<u64>
        ensures told { IfSome result (λ told. tells self.new told) }
        ensures follows { follows self.old self.new };

    /// The same between lifts: a search that goes back, or passes calls over, may take long without a lift. It is asked seldom, and
    /// is no lift. A stop without a body of its own lets the search go on.
    fn ask_between(&mut self) -> Option<u64>
        ensures told { IfSome result (λ told. tells self.new told) }
        ensures follows { follows self.old self.new }
    {
        None
    }

    ghost unchanged: { (s : Self) → follows s s };

    ghost chained: { (a b c : Self) → follows a b → follows b c → follows a c };
}

/// The stop that never stops a search.
#[derive(Clone, Copy, PartialEq, Eq, Debug)]
pub struct NoStop;

impl Stop for NoStop {
    ghost use Rattle.std.specs.Prelude.{◌≡◌, refl};
    ghost use Rattle.std.proofs.Common.{◌∙◌};

    ghost tells = { λ _ _. ⊥ };

    ghost follows = { λ old new. new ≡ old };

    fn ask(&mut self) -> Option<u64> {
        None
    }

    ghost unchanged = { λ s. refl };

    ghost chained = { λ a b c first second. second ∙ first };
}

// How many times such a stop is asked before the one below is. A search asks before each lift or each step: where thousands of calls
// overlap, a lift may take a millisecond. One that is done before asks no clock.
const ASKED_BETWEEN: u32 = 256;

/// A stop that asks another one only after 256 times that it was asked itself: one that takes long to answer, as where it reads a
/// clock. Once that one has answered it is asked each time. Contracts see the stop below.
#[derive(Drop)]
pub struct AtTimes<'a, S> {
    stop: &'a mut S,
    left: u32,
}

impl<'a, S: Stop> AtTimes<'a, S> {
    /// Of a search that begins.
    pub fn new(stop: &'a mut S) -> Self
        ensures stop { result.stop.now ≡ stop.old }
        ensures same_reference { result.stop.ghost_name ≡ stop.entry.ghost_name }
    {
        AtTimes {
            stop,
            left: ASKED_BETWEEN,
        }
    }
}

impl<'a, S: Stop> Stop for AtTimes<'a, S> {
    ghost use Rattle.std.specs.Prelude.{◌≡◌, refl};
    ghost use Rattle.std.proofs.Common.{◌∙◌};

    ghost tells = { λ s told. S.tells s.stop.now told };

    ghost follows = { λ old new. (new.stop.ghost_name ≡ old.stop.ghost_name)
        × S.follows old.stop.now new.stop.now };

    fn ask(&mut self) -> Option<u64> {
        if self.left > 0 {
            self.left -= 1;
            return None;
        }
        let told = self.stop.ask();
        if told.is_none() {
            self.left = ASKED_BETWEEN;
        }
        told
    }

    fn ask_between(&mut self) -> Option<u64> {
        self.stop.ask_between()
    }

    ghost unchanged = { λ s. (refl, S.unchanged s.stop.now) };

    ghost chained = { λ a b c first second. (
      second.0 ∙ first.0,
      S.chained a.stop.now b.stop.now c.stop.now first.1 second.1,
    ) };
}
