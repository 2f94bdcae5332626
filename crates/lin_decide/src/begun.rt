//! What searches of one problem found out of its configurations.

use lin_ahead::RefutedSet;
use lin_fewer::Judged;
use lin_object::AnyObject;
use std::alloc::Global;

/// What searches of one problem found out of its configurations: later ones go on from there.
#[derive(Drop)]
pub struct Begun {
    /// Those that first searches refuted.
    pub(crate) refuted: RefutedSet<AnyObject>,
    /// Those that searches by blocks judged.
    pub(crate) judged: Judged<AnyObject>,
}

impl Begun {
    ghost use Rattle.lin_decide.specs.Begun.{IsBegunOf};

    /// Nothing. It takes no memory.
    pub fn nothing(alloc: Global) -> Self
        ensures { (p : _) → IsBegunOf p result }
    {
        Begun {
            refuted: RefutedSet::new(alloc),
            judged: Judged::none(alloc),
        }
    }
}
