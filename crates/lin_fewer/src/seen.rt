//! What is known of a configuration before it is searched.

ghost use Rattle.std.specs.Prelude.{IfOk};
ghost use Rattle.lin_history.specs.Problems.Problem.{problem_of};
ghost use Rattle.lin_history.specs.Problems.Configurations.{IsReachable};
ghost use Rattle.lin_fewer.specs.Fronts.{HasCompletedBelow};
ghost use Rattle.lin_fewer.specs.Answers.{IsSeen};

use crate::front::first_left;
use crate::rules::Rules;
use crate::search::{Search, key_of};
use lin_object::SeqObject;
use lin_search::{CallSet, Config};
use std::alloc::AllocError;

/// What is known of a configuration before it is searched.
#[derive(Drop)]
pub enum Seen {
    /// It has a completion, and so has the configuration with this set, which used no fewer pending calls, and its state.
    Bears(CallSet),
    /// It has no completion.
    Refuted,
    /// That is not known. The first of its completed calls that are left is this one.
    Open(usize),
}

/// What is known of the configuration, of whose completed calls the mixed numbers make this sum. Condition: those below this one are
/// lifted.
pub(crate) fn known_of<O: SeqObject, R: Rules<O>>(
    search: &Search<'_, O, R>,
    config: &Config<O>,
    from: usize,
    completed: u64,
) -> Result<Seen, AllocError>
    requires reachable { IsReachable (problem_of O.after O.State.eq O.Reply.eq search.now) config.now.lifted config.now.state }
    requires below { HasCompletedBelow (problem_of O.after O.State.eq O.Reply.eq search.now) config.now.lifted from }
    ensures { IfOk result (IsSeen (problem_of O.after O.State.eq O.Reply.eq search.now) config.now) }
{
    let Some(first) = first_left(search.problem(), config.lifted(), from) else {
        let every = search.every_call()?;
        return Ok(Seen::Bears(every));
    };
    let key = key_of(completed, config);
    if let Some(borne) = search.known_borne(config, key)? {
        return Ok(Seen::Bears(borne));
    }
    if search.is_refuted(config, key) {
        return Ok(Seen::Refuted);
    }
    if search.rules().refutes(search.waiting(), config, first) {
        return Ok(Seen::Refuted);
    }
    Ok(Seen::Open(first))
}
