//! The tasks that a search is cut into.

use lin_history::Order;
use lin_object::SeqObject;
use lin_search::Config;
use std::marker::Model;

/// A part of a search: a configuration, which is searched on, and a run that leads to it.
#[derive(Drop)]
pub struct Task<O: SeqObject> {
    /// The calls that lead to the configuration.
    pub path: Order,
    /// The configuration.
    pub config: Config<O>,
}

impl<O: SeqObject> Model for Task<O> {
    ghost use Rattle.lin_workers.specs.Cut.{Task};

    ghost Value = { Task O.State };

    ghost view = { λ t. record { path = t.path; config = t.config } };
}
