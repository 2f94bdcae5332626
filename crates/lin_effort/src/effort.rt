//! How far each way to a decision goes.

ghost use Rattle.std.specs.Prelude.{◌≡◌, IsFalse, IsTrue};

use crate::work::Work;

/// When a map or a set is searched key by key.
#[derive(Clone, Copy, PartialEq, Eq, Debug)]
pub enum Keys {
    /// Never.
    Never,
    /// Before all else, with so many lifts for each key at most.
    AtFirst(u64),
    /// In each round, where nothing is known ahead.
    InRounds,
}

/// How far each way to a decision goes for one question: what shows without a search, and rounds of searches, each of which goes
/// several times as far as the one before.
#[derive(Clone, Copy, PartialEq, Eq, Debug)]
pub struct Effort {
    /// Whether it is asked first what shows without a search that there is no linearization.
    pub is_shown: bool,
    /// Whether a counter is asked first whether it has none whatever its pending calls add.
    pub with_any_adds: bool,
    /// When a search goes key by key.
    pub keys: Keys,
    /// How many lifts the searches of the first round make at most.
    pub lifts: u64,
    /// How many times as many they make in each next round.
    pub growth: u64,
    /// How many rounds there are at most where something is known ahead.
    pub rounds_ahead: usize,
    /// How many there are where nothing is.
    pub rounds: usize,
    /// How many steps a search makes, for each lift, that tries pending calls only between completed ones; 0 for no such search.
    pub steps_for_a_lift: u64,
    /// What making the problem was worth.
    pub made: Work,
}

impl Effort {
    /// How many rounds there are at most.
    pub fn rounds_for(&self, is_known_ahead: bool) -> usize
        ensures ahead { IsTrue is_known_ahead → result ≡ self.now.rounds_ahead }
        ensures nothing { IsFalse is_known_ahead → result ≡ self.now.rounds }
    {
        if is_known_ahead {
            self.rounds_ahead
        } else {
            self.rounds
        }
    }
}
