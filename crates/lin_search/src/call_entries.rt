//! Where the call and return entries of a problem's calls are.
ghost use Rattle.std.specs.Prelude.{◌≡◌, ℕ, ◌<◌, ◌^◌, Some, length, slice_get, slice_index, IfOk};
ghost use Rattle.lin_history.specs.declared.problems.timeline.ProblemEvent.{ProblemEvent as Event};
ghost use Rattle.lin_history.specs.declared.problems.timeline.ProblemEvent.TheVariants.{Call, Return};
ghost use Rattle.lin_search.specs.CallEntries.{AreCallEntries};

use lin_history::ProblemEvent;
use std::alloc::{AllocError, Global};
use std::marker::Model;

/// Where the entries of a problem's calls are. Contracts see the two lists.
#[derive(Drop)]
pub(crate) struct CallEntries {
    called: Vec<u16>,
    returned: Vec<Option<u16>>,
}

impl Model for CallEntries {
    ghost use Rattle.lin_search.specs.CallEntries.{CallEntries};

    ghost Value = { CallEntries };

    ghost view = { λ p. record { called = p.called.items; returned = p.returned.items } };
}

impl CallEntries {
    /// The places of so many calls, whose events are these, each once.
    pub fn of(
        alloc: Global,
        calls: usize,
        events: &[ProblemEvent],
    ) -> Result<CallEntries, AllocError>
        requires room { length events.now < 2 ^ 16 }
        requires called { (i c : ℕ) → slice_get events.now i ≡ Some (Call c) → c < calls }
        requires returned { (i c : ℕ) → slice_get events.now i ≡ Some (Return c) → c < calls }
        requires once { (i j : ℕ) (e : Event) → slice_get events.now i ≡ Some e
            → slice_get events.now j ≡ Some e → i ≡ j }
        ensures { IfOk result (λ places. AreCallEntries calls events.now places) }
    {
        let mut called = vec![in alloc; 0; calls]?;
        let mut returned = vec![in alloc; None; calls]?;
        for place in 0..events.len() {
            match events[place] {
                ProblemEvent::Call(call) => called[call as usize] = (place + 1) as u16,
                ProblemEvent::Return(call) => returned[call as usize] = Some((place + 1) as u16),
            }
        }
        Ok(CallEntries { called, returned })
    }

    /// The call entry of the call.
    pub fn called(&self, call: usize) -> usize
        requires { call < length self.now.called }
        ensures { result ≡ slice_index self.now.called call }
    {
        self.called[call] as usize
    }

    /// The return entry of the call; `None` where it is pending.
    pub fn returned(&self, call: usize) -> Option<usize>
        requires { call < length self.now.returned }
        ensures { slice_get self.now.returned call ≡ Some result }
    {
        match self.returned[call] {
            Some(entry) => Some(entry as usize),
            None => None,
        }
    }
}
