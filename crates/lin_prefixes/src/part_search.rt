//! A search of the problem of some of a problem's calls.
ghost use Rattle.std.specs.Prelude.{◌≡◌, ◌<◌, ◌≤◌, ℕ, length, IfOk, IsTrue};
ghost use Rattle.lin_history.specs.Problems.Lists.{In};
ghost use Rattle.lin_history.specs.Problems.Problem.{problem_of};
ghost use Rattle.lin_laws.specs.StandIns.{AreStandIns};
ghost use Rattle.lin_parts.specs.Parts.{IsRising};
ghost use Rattle.lin_prefixes.specs.Prefixes.{StandsBefore};
ghost use Rattle.lin_prefixes.specs.RunsTold.{IsToldOfRuns};
ghost use Rattle.lin_prefixes.specs.PartAnswer.{IsPartAnswer};

use lin_effort::Decision;
use lin_history::Problem;
use lin_object::SeqObject;
use std::alloc::{AllocError, Global};

/// What a search tells of the runs of a call that have all of some calls.
#[derive(Clone, Copy)]
pub enum RunsTold {
    /// There is none.
    NoRun,
    /// One was found, as far as the question is exact. It is a hint.
    SomeRun,
    /// It is not known whether there is one.
    Nothing,
    /// The search has come to its end: it has made as many lifts as it may, or was stopped. There is no use in asking it more.
    Ended,
}

/// A search that is asked for parts of a problem. It may end for whatever reason with nothing known, as where it has made
/// as many lifts as it may.
pub trait PartSearch<O: SeqObject> {
    /// The least linearization of the problem of these calls, by their numbers in that problem; or that it has none; or
    /// nothing. `AllocError` where memory was refused.
    ///
    /// Conditions: the calls are calls of the problem, and are in increasing order.
    fn least_of_part(
        &mut self,
        alloc: Global,
        problem: &Problem<O>,
        kept: &[usize],
    ) -> Result<Decision, AllocError>
        requires rises { IsRising kept.now }
        requires within { (c : ℕ) → In c kept.now → c < length problem.now.calls }
        ensures { IfOk result (IsPartAnswer (problem_of O.after O.State.eq O.Reply.eq problem.now)
            kept.now) };

    /// What is told of the runs with calls up to this one alone, with every call that precedes it and with each of these calls.
    /// `AllocError` where memory was refused.
    ///
    /// Condition: it is a call of the problem.
    fn runs_with(
        &mut self,
        alloc: Global,
        problem: &Problem<O>,
        call: usize,
        calls: &[usize],
    ) -> Result<RunsTold, AllocError>
        requires { call < length problem.now.calls }
        ensures { IfOk result (IsToldOfRuns
            (problem_of O.after O.State.eq O.Reply.eq problem.now) call calls.now) };

    /// Whether the later call does what the earlier one did, so that a call of whose runs one has the later has a run with the earlier.
    fn is_repeated(&self, problem: &Problem<O>, earlier: usize, later: usize) -> bool
        ensures { IsTrue result → (k : ℕ) → StandsBefore
            (problem_of O.after O.State.eq O.Reply.eq problem.now) k earlier later };

    /// A number for each of the first calls, and 0 for the others: a run with calls up to `k` alone that has an open call whose number
    /// is greater than `k` may have each earlier call whose number is greater in its place, and has none beside it. `AllocError` where
    /// memory was refused.
    fn stand_ins(&self, alloc: Global, problem: &Problem<O>) -> Result<Vec<usize>, AllocError>
        ensures { IfOk result (λ until. AreStandIns
            (problem_of O.after O.State.eq O.Reply.eq problem.now) until.items) };

    /// Whether the search may go on, after so many looks at a call that were made between two questions.
    fn may_go_on(&mut self, looks: u64) -> bool;
}
