//! Work, in one unit: a look at one call.

ghost use Rattle.std.specs.Prelude.{◌≡◌, ◌↔◌, ◌<◌, ◌+◌, ◌-◌, ◌*◌, ◌/◌, ◌^◌, IsTrue, min};
ghost use Rattle.lin_effort.specs.declared.work.TheConstants.{LIFTS_FOR_A_ROW, LOOKS_FOR_A_LIFT, LOOKS_FOR_A_PLACE, LOOKS_FOR_A_STEP};

// How many looks at a call a lift counts as: about as long does it take.
const LOOKS_FOR_A_LIFT: u64 = 256;

// How many looks a call counts as that a first search tries: a lift takes four times as long as one that is passed over.
const LOOKS_FOR_A_TRY: u64 = 64;

// How many looks a step counts as of a search that tries pending calls only between completed ones.
const LOOKS_FOR_A_STEP: u64 = 8;

// How many looks a search makes that goes back, or passes calls over, from one asking of its stop to the next (`lin_search`).
const LOOKS_BETWEEN_LIFTS: u64 = 4_096;

// How many looks are made until a stop is asked that may read a clock: as many as 256 lifts count as.
const LOOKS_TO_THE_CLOCK: u64 = 65_536;

// How many looks it counts as to put a call into a problem that is made anew; the problem itself counts as a lift.
const LOOKS_FOR_A_PLACE: u64 = 4;

// How many lifts it counts as, for each call, to find out what the calls show ahead of a search.
const LIFTS_FOR_A_ROW: u64 = 2;

/// An amount of work. The unit is one look at one call. Sums and products that are too great for 64 bits are the greatest amount.
#[derive(Clone, Copy, PartialEq, Eq, Debug)]
pub struct Work {
    looks: u64,
}

impl Work {
    /// No work.
    pub const NONE: Work = Work { looks: 0 };

    /// More than any search makes.
    pub const ANY: Work = Work { looks: u64::MAX };

    /// That of one lift.
    pub const LIFT: Work = Work {
        looks: LOOKS_FOR_A_LIFT,
    };

    /// That of one call that a first search tries: most of what it tries it lifts, and the others it passes over.
    pub const TRY: Work = Work {
        looks: LOOKS_FOR_A_TRY,
    };

    /// That of one step of a search that tries pending calls only between completed ones.
    pub const STEP: Work = Work {
        looks: LOOKS_FOR_A_STEP,
    };

    // What a search does that makes no lift, from one asking of its stop to the next.
    pub(crate) const BETWEEN_LIFTS: Work = Work {
        looks: LOOKS_BETWEEN_LIFTS,
    };

    // What is done until a stop is asked that may read a clock: it takes some tenth of a millisecond.
    pub(crate) const TO_THE_CLOCK: Work = Work {
        looks: LOOKS_TO_THE_CLOCK,
    };

    /// So many looks at a call.
    pub fn of_looks(looks: u64) -> Self
        ensures { result.looks ≡ looks }
    {
        Work { looks }
    }

    /// So many lifts.
    pub fn of_lifts(lifts: u64) -> Self
        ensures { result.looks ≡ min (lifts * LOOKS_FOR_A_LIFT) (2 ^ 64 - 1) }
    {
        Work {
            looks: lifts.saturating_mul(LOOKS_FOR_A_LIFT),
        }
    }

    /// So many steps of a search that tries pending calls only between completed ones.
    pub fn of_steps(steps: u64) -> Self
        ensures { result.looks ≡ min (steps * LOOKS_FOR_A_STEP) (2 ^ 64 - 1) }
    {
        Work {
            looks: steps.saturating_mul(LOOKS_FOR_A_STEP),
        }
    }

    /// That of making a problem of so many calls.
    pub fn of_problem(calls: usize) -> Self
        ensures { result.looks ≡ min (min (calls * LOOKS_FOR_A_PLACE) (2 ^ 64 - 1) + LOOKS_FOR_A_LIFT) (2 ^ 64 - 1) }
    {
        Work {
            looks: (calls as u64)
                .saturating_mul(LOOKS_FOR_A_PLACE)
                .saturating_add(LOOKS_FOR_A_LIFT),
        }
    }

    /// That of what is found out ahead of a search of so many calls.
    pub fn of_rows(calls: usize) -> Self
        ensures { result.looks ≡ min (min (calls * LIFTS_FOR_A_ROW) (2 ^ 64 - 1) * LOOKS_FOR_A_LIFT) (2 ^ 64 - 1) }
    {
        Work::of_lifts((calls as u64).saturating_mul(LIFTS_FOR_A_ROW))
    }

    /// How many whole lifts it is worth.
    pub fn lifts(self) -> u64
        ensures { result ≡ self.looks / LOOKS_FOR_A_LIFT }
    {
        self.looks / LOOKS_FOR_A_LIFT
    }

    /// Whether it is none.
    pub fn is_none(self) -> bool
        ensures { IsTrue result ↔ self.looks ≡ 0 }
    {
        self.looks == 0
    }

    /// Whether it is less than the other.
    pub fn is_less_than(self, other: Work) -> bool
        ensures { IsTrue result ↔ self.looks < other.looks }
    {
        self.looks < other.looks
    }

    /// Both together.
    pub fn and(self, other: Work) -> Self
        ensures { result.looks ≡ min (self.looks + other.looks) (2 ^ 64 - 1) }
    {
        Work {
            looks: self.looks.saturating_add(other.looks),
        }
    }

    /// What is left of it without the other; none where that is more.
    pub fn without(self, other: Work) -> Self
        ensures { result.looks ≡ self.looks - other.looks }
    {
        Work {
            looks: self.looks.saturating_sub(other.looks),
        }
    }
}
