//! The stop of what is done between two questions.

use crate::decide::Decide;
use crate::meter::ENDED;
use crate::work::Work;
use lin_search::Stop;

/// A stop that answers once what decides does not go on. Each asking takes a lift's work.
#[derive(Drop)]
pub struct UntilSpent<'a, D> {
    decider: &'a mut D,
}

impl<'a, D: Decide> UntilSpent<'a, D> {
    /// The stop over this decider.
    pub fn new(decider: &'a mut D) -> Self {
        UntilSpent { decider }
    }
}

impl<'a, D: Decide> Stop for UntilSpent<'a, D> {
    ghost tells = { λ s told. D.has_ended s.decider.now };

    ghost follows = { λ _ _. Unit {0} };

    fn ask(&mut self) -> Option<u64> {
        if self.decider.goes_on(Work::LIFT) {
            None
        } else {
            Some(ENDED)
        }
    }

    ghost unchanged = { λ s. tt };

    ghost chained = { λ a b c first second. tt };
}
