//! An object whose steps and copies are watched: each may wait, or be refused memory.

ghost use Rattle.std.specs.Prelude.{◌≡◌};

use lin_history::Problem;
use lin_object::{AnyObject, ObjState, Op, Reply, SeqObject};
use std::alloc::{AllocError, Global};

/// What watches an object.
pub trait Watch: Drop {
    /// Called before each step, with its process, and before each copy, with none: whether it is refused memory.
    fn refuses(&self, process: Option<u32>) -> bool;
}

/// An object that answers as `AnyObject` does, but where what watches it refuses it memory.
#[derive(Drop)]
pub struct Watched<W: Watch> {
    pub watch: W,
}

impl<W: Watch> PartialEq for Watched<W> {
    ghost use Rattle.std.specs.Prelude.{true};
    ghost use Rattle.std.specs.Cmp.Rules.{comparing};
    ghost use Rattle.std.proofs.Common.{rules};

    ghost eq = { λ x y. true };

    ghost laws = { Prim.search (comparing, rules) };

    fn eq(&self, other: &Watched<W>) -> bool {
        true
    }
}

impl<W: Watch> Eq for Watched<W> {
    ghost use Rattle.std.specs.Cmp.Rules.{comparing};
    ghost use Rattle.std.proofs.Common.{rules};

    ghost laws = { Prim.search (comparing, rules) };
}

impl<W: Watch> SeqObject for Watched<W> {
    ghost use Rattle.lin_object.specs.Kinds.{after as step_of};

    type State = ObjState;

    type Op = Op;

    type Reply = Reply;

    ghost after = { λ _ state process op. step_of state process op };

    fn step(
        &self,
        alloc: Global,
        state: &ObjState,
        process: u32,
        op: &Op,
    ) -> Result<Option<(ObjState, Reply)>, AllocError> {
        if self.watch.refuses(Some(process)) {
            return Err(AllocError);
        }
        AnyObject.step(alloc, state, process, op)
    }

    fn copy_state(&self, alloc: Global, state: &ObjState) -> Result<ObjState, AllocError> {
        if self.watch.refuses(None) {
            return Err(AllocError);
        }
        AnyObject.copy_state(alloc, state)
    }

    ghost use Rattle.lin_object.specs.StepLemmas.{alike};

    ghost steps_alike = { λ x y s t process a b same_object same_state same_op. alike s t process a b same_state same_op };
}

/// Three writes at once, and after them a read of what nobody wrote. An event that is refused is left out.
pub fn read_of_no_written_value<W: Watch>(alloc: Global, watch: W) -> Problem<Watched<W>> {
    let mut problem = Problem::new(alloc, Watched { watch }, ObjState::Register(0));
    for value in 1..4u32 {
        let _ = problem.add_call(value, Op::Write(i64::from(value)), value);
    }
    for call in 0..3u32 {
        let _ = problem.add_return(call as usize, Reply::Okay, call + 4);
    }
    let _ = problem.add_call(4, Op::Read, 7);
    let _ = problem.add_return(3, Reply::Int(9), 8);
    problem
}
