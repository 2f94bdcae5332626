//! What the longest continuations of a configuration show.
ghost use Rattle.std.specs.Prelude.{◌≡◌, ℕ, ◌+◌, ◌<◌, ◌≤◌, Some, None};
ghost use Rattle.lin_history.specs.declared.limits.TheConstants.{MAX_CALLS_ON_OBJECT};

/// What the longest continuations of a configuration show of it. A memo keeps one for each configuration, so it is
/// small: the calls of a problem are few enough to be numbered with 16 bits. `more` and `first` read the fields as numbers
/// of calls.
#[derive(Clone, Copy, PartialEq, Eq, Debug)]
pub struct Longest {
    /// The greatest number of calls of a continuation.
    pub more: u16,
    /// The least first call of a continuation of so many calls; `None` where `more` is 0.
    pub first: Option<u16>,
}

impl Longest {
    /// What is known before a call was tried: the continuation with no call.
    pub fn none() -> Longest
        ensures { result ≡ record { more = 0; first = None } }
    {
        Longest {
            more: 0,
            first: None,
        }
    }

    /// The greatest number of calls of a continuation.
    pub fn more(self) -> usize
        ensures { result ≡ self.more }
    {
        self.more as usize
    }

    /// The least first call of a continuation of so many calls, by its number in the problem; `None` where `more` is 0.
    pub fn first(self) -> Option<usize>
        ensures { result ≡ self.first }
    {
        match self.first {
            Some(call) => Some(call as usize),
            None => None,
        }
    }

    // With the continuations that begin with one call more, which leads to where `deep` is the longest.
    pub(crate) fn or_after(self, call: usize, deep: Longest) -> Longest
        requires call { call < MAX_CALLS_ON_OBJECT }
        requires deep { deep.more < MAX_CALLS_ON_OBJECT }
        ensures longer { self.more < deep.more + 1 → result
            ≡ record { more = deep.more + 1; first = Some call } }
        ensures not_longer { deep.more + 1 ≤ self.more → result ≡ self }
    {
        let more = deep.more + 1;
        if self.more < more {
            Longest {
                more,
                first: Some(call as u16),
            }
        } else {
            self
        }
    }
}
