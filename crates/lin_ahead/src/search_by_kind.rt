//! A first search that goes by the rules of the object's kind.
ghost use Rattle.std.specs.Prelude.{IfOk};
ghost use Rattle.lin_history.specs.Problems.AnyProblem.{any_problem};
ghost use Rattle.lin_search.specs.Told.{IsRightOf, IsSpent, IsToldUnless};
ghost use Rattle.lin_ahead.specs.Behind.{IsRightAhead};
ghost use Rattle.lin_ahead.specs.First.FirstProgress.{AreRefuted};

use crate::counters::rules::CounterRules;
use crate::first::by_rules::search_by_rules;
use crate::first::refuted_set::RefutedSet;
use crate::look_ahead::KnownAhead;
use crate::mutexes::rules::MutexRules;
use crate::queues::rules::QueueRules;
use crate::stacks::rules::StackRules;
use crate::values::rules::ValueRules;
use lin_history::Problem;
use lin_object::AnyObject;
use lin_search::{Stop, Told};
use std::alloc::{AllocError, Global};

/// The search from the root that only asks whether there is a linearization, and for the least one (this project's
/// own). It makes at most so many lifts. It passes over each call that repeats one which is not lifted, each pending one behind a
/// completed one of its operation that can follow, and each with which the rules of the kind show that no completion begins. After a
/// call that changes nothing it tries no other. It keeps of a refuted configuration only
/// that it is refuted. So it may meet far fewer configurations than `search`, and what it keeps is of no use to that one.
///
/// What is told is the least linearization, or that there is none. Nothing is told only where as many lifts were made and another
/// was to be made, or where the stop answered. It is asked before each step: where a call is tried, and where the search goes back.
/// What it refutes is put to the configurations that are known to be refuted, so that a later search of the same problem goes on from
/// there. `AllocError` where memory was refused: these are lost then.
///
/// Conditions: what is known ahead is right for the problem, and the configurations are refuted in it.
pub fn search_first<S: Stop>(
    alloc: Global,
    problem: &Problem<AnyObject>,
    ahead: &KnownAhead,
    refuted: &mut RefutedSet<AnyObject>,
    lifts: u64,
    stop: &mut S,
) -> Result<Told, AllocError>
    requires ahead { IsRightAhead (any_problem problem.now) ahead.now }
    requires refuted { AreRefuted (any_problem problem.now) refuted.old }
    ensures refuted { AreRefuted (any_problem problem.now) refuted.new }
    ensures told { IfOk result (IsRightOf (any_problem problem.now)) }
    ensures nothing { IfOk result (IsToldUnless (IsSpent (any_problem problem.now) lifts
        (S.tells stop.new))) }
    ensures stop { S.follows stop.old stop.new }
{
    match ahead {
        KnownAhead::Queue(queue) => {
            let rules = QueueRules::new(alloc, problem, queue)?;
            if rules.are_in_vain(problem) {
                return Ok(Told::Refuted);
            }
            search_by_rules(alloc, problem, rules, refuted, lifts, stop)
        }
        KnownAhead::Stack(stack) => {
            let rules = StackRules::new(alloc, problem, stack)?;
            search_by_rules(alloc, problem, rules, refuted, lifts, stop)
        }
        KnownAhead::Values(values) => {
            if values.in_vain {
                return Ok(Told::Refuted);
            }
            let rules = ValueRules::new(alloc, values)?;
            search_by_rules(alloc, problem, rules, refuted, lifts, stop)
        }
        KnownAhead::Counter(sums) => {
            let rules = CounterRules::new(alloc, problem, sums)?;
            search_by_rules(alloc, problem, rules, refuted, lifts, stop)
        }
        KnownAhead::Mutex(mutex) => {
            if mutex.in_vain {
                return Ok(Told::Refuted);
            }
            let rules = MutexRules::new(alloc, problem, mutex)?;
            search_by_rules(alloc, problem, rules, refuted, lifts, stop)
        }
    }
}
