//! What searches of all parts tell.
use lin_history::Order;

/// What searches of all parts tell.
#[derive(Drop)]
pub(crate) enum OrdersTold {
    /// An order of each.
    Found(Vec<Order>),
    /// One of them has no linearization.
    Refuted,
    /// Nothing is known.
    Nothing,
}
