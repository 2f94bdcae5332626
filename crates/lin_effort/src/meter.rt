//! Work that is counted.

ghost use Rattle.std.specs.Prelude.{◌≡◌, ◌⊎◌, ◌↔◌, ◌<◌, ◌≤◌, ◌-◌, ℕ, IsTrue};

use crate::work::Work;
use lin_search::Stop;

/// What a stop answers where no work is left.
pub(crate) const ENDED: u64 = 0;

/// Counts work, and is the stop of all that does it: each time that it is asked it takes the work of a lift, or of what else is done
/// from one asking to the next. It answers once no work is left, or once the stop below it has answered, which is asked now and then; from
/// then on it answers always.
#[derive(Drop)]
pub struct Meter<'a, S> {
    left: Work,
    each: Work,
    to_clock: Work,
    stop: &'a mut S,
}

impl<'a, S: Stop> Meter<'a, S> {
    /// So much work, until the stop answers.
    pub fn new(work: Work, stop: &'a mut S) -> Self
        ensures left { result.left ≡ work }
        ensures stop { result.stop.now ≡ stop.old }
        ensures same_reference { result.stop.ghost_name ≡ stop.entry.ghost_name }
    {
        Meter {
            left: work,
            each: Work::LIFT,
            to_clock: Work::TO_THE_CLOCK,
            stop,
        }
    }

    /// Whether nothing more is done: no work is left.
    pub fn has_ended(&self) -> bool
        ensures { IsTrue result ↔ self.now.left.looks ≡ 0 }
    {
        self.left.is_none()
    }

    /// How much work is left.
    pub fn left(&self) -> Work
        ensures { result ≡ self.now.left }
    {
        self.left
    }

    /// From now on each asking takes so much work.
    pub fn take_each(&mut self, work: Work)
        ensures left { self.new.left ≡ self.old.left }
        ensures stop { (self.new.stop.ghost_name ≡ self.old.stop.ghost_name)
            × (self.new.stop.now ≡ self.old.stop.now) }
    {
        self.each = work;
    }

    // Asks the stop below.
    fn ask_below(&mut self)
        ensures left { (self.new.left ≡ self.old.left) ⊎ ((self.new.left.looks ≡ 0) × (n : ℕ) × S.tells self.new.stop.now n) }
        ensures stop { (self.new.stop.ghost_name ≡ self.old.stop.ghost_name)
            × S.follows self.old.stop.now self.new.stop.now }
    {
        self.to_clock = Work::TO_THE_CLOCK;
        if self.stop.ask().is_some() {
            self.left = Work::NONE;
        }
    }

    /// Takes so much work off: whether more may be done. All that is left goes where the stop below answers.
    pub fn charge(&mut self, work: Work) -> bool
        ensures left { (self.new.left.looks ≡ self.old.left.looks - work.looks)
            ⊎ ((self.new.left.looks ≡ 0) × (n : ℕ) × S.tells self.new.stop.now n) }
        ensures goes_on { IsTrue result ↔ 0 < self.new.left.looks }
        ensures stop { (self.new.stop.ghost_name ≡ self.old.stop.ghost_name)
            × S.follows self.old.stop.now self.new.stop.now }
    {
        self.left = self.left.without(work);
        if work.is_less_than(self.to_clock) {
            self.to_clock = self.to_clock.without(work);
        } else {
            self.ask_below();
        }
        !self.left.is_none()
    }
}

impl<'a, S: Stop> Stop for Meter<'a, S> {
    ghost use Rattle.std.specs.Prelude.{refl};
    ghost use Rattle.std.proofs.Common.{◌∙◌};

    ghost tells = { λ m told. m.left.looks ≡ 0 };

    ghost follows = { λ old new. (new.stop.ghost_name ≡ old.stop.ghost_name)
        × S.follows old.stop.now new.stop.now };

    fn ask(&mut self) -> Option<u64> {
        if self.charge(self.each) {
            None
        } else {
            Some(ENDED)
        }
    }

    fn ask_between(&mut self) -> Option<u64> {
        if self.charge(Work::BETWEEN_LIFTS) {
            None
        } else {
            Some(ENDED)
        }
    }

    ghost unchanged = { λ s. (refl, S.unchanged s.stop.now) };

    ghost chained = { λ a b c first second. (
      second.0 ∙ first.0,
      S.chained a.stop.now b.stop.now c.stop.now first.1 second.1,
    ) };
}
