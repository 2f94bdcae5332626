//! With what the objects of a history are searched.
ghost use Rattle.std.specs.Prelude.{◌≡◌};

use crate::notice::{Explained, Notice};
use lin_workers::{Bounds, Options, Watcher};

/// With what an object is searched: the runtime, the options, the bounds, the gate of the
/// workers, and what is said and explained.
#[derive(Drop)]
pub(crate) struct Setting<'a, 'b, R, G, W: Watcher> {
    /// Where memory and threads come from.
    pub(crate) rt: &'a R,
    /// By how many workers it is searched, and with how many shards.
    pub(crate) options: Options,
    /// Within which bounds.
    pub(crate) bounds: Bounds<'b, W>,
    /// What a worker passes after each claim.
    pub(crate) gate: &'a G,
    /// What is said while a run is sought.
    pub(crate) notice: &'b Notice,
    /// What is explained, if the answer is to be.
    pub(crate) explained: Option<Explained<'b>>,
}
