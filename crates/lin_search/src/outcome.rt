//! The outcomes of a search.
use crate::longest::Longest;
use lin_history::Order;

/// What a search from a configuration answers.
#[derive(PartialEq, Eq, Debug, Drop)]
pub enum Outcome {
    /// The least completion of the configuration.
    Found(Order),
    /// The configuration has no completion; what its longest continuations show.
    Refuted(Longest),
    /// As many lifts were made as the limit allows, and another was to be made.
    Undecided,
    /// The stop answered this number.
    Stopped(u64),
}
