//! The answers of a search by prefixes.
use lin_history::Order;

/// What a search by prefixes shows of a problem.
#[derive(Drop)]
pub enum WholeAnswer {
    /// The least linearization.
    Found(Order),
    /// There is none, and this is the first of the longest runs.
    Refuted(Order),
}
