//! What searches by blocks found out of configurations.

ghost use Rattle.std.specs.Prelude.{◌≡◌, []};

use crate::known::Known;
use lin_object::SeqObject;
use std::alloc::Global;
use std::marker::Model;
use std::mem;

/// Configurations of one problem of which searches by blocks found whether they have a completion. A later search goes on from there.
/// Contracts see those that have none and those that have one.
#[derive(Drop)]
pub struct Judged<O: SeqObject> {
    pub(crate) refuted: Known<O>,
    pub(crate) good: Known<O>,
}

impl<O: SeqObject> Model for Judged<O> {
    ghost use Rattle.lin_fewer.specs.Knowledge.{Judgements};

    ghost Value = { Judgements O.State };

    ghost view = { λ judged. record { refuted = judged.refuted; good = judged.good } };
}

impl<O: SeqObject> Judged<O> {
    /// None. It takes no memory.
    pub fn none(alloc: Global) -> Self
        ensures { result ≡ record { refuted = []; good = [] } }
    {
        Judged {
            refuted: Known::new(alloc),
            good: Known::new(alloc),
        }
    }

    /// All of them; none are left.
    pub(crate) fn take(&mut self, alloc: Global) -> Self
        ensures all { result ≡ self.old }
        ensures left { self.new ≡ record { refuted = []; good = [] } }
    {
        mem::replace(self, Judged::none(alloc))
    }
}
