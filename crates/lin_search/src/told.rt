//! What a search tells that looks for a linearization alone.
ghost use Rattle.std.specs.Prelude.{◌≡◌};
ghost use Rattle.lin_search.specs.Told.{told_by};

use crate::outcome::Outcome;
use lin_history::Order;

/// What is told of a problem by a search that looks for a linearization alone, and says nothing of its longest runs.
#[derive(Drop)]
pub enum Told {
    /// The least linearization.
    Found(Order),
    /// There is none.
    Refuted,
    /// Nothing is known.
    Nothing,
}

// What the outcome of a search from the root tells.
pub(crate) fn told_by(outcome: Outcome) -> Told
    ensures { result ≡ told_by outcome }
{
    match outcome {
        Outcome::Found(order) => Told::Found(order),
        Outcome::Refuted(_) => Told::Refuted,
        Outcome::Undecided => Told::Nothing,
        Outcome::Stopped(_) => Told::Nothing,
    }
}
