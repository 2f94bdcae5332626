//! What the nodes bear, once one of them leads to a configuration that has a completion.

ghost use Rattle.std.specs.Prelude.{◌≡◌, ℕ, List, ◌<◌, length, IsTrue, OnOk};
ghost use Rattle.lin_history.specs.Problems.Problem.{problem_of};
ghost use Rattle.lin_history.specs.Problems.Continuations.{IsCompletion};
ghost use Rattle.lin_history.specs.Problems.Configurations.{IsReachable};
ghost use Rattle.lin_fewer.specs.Fronts.{IsFirstLeft, IsLeastReturn};
ghost use Rattle.lin_fewer.specs.Knowledge.{IsBorne, IsStandIn};
ghost use Rattle.lin_fewer.specs.Nodes.{AreNodes, BearsBy, IsAt};

use crate::front::{is_completed, is_later, least_return};
use crate::laws::fewer_law;
use crate::node::{Node, at};
use crate::rules::Rules;
use crate::search::{Search, key_of};
use lin_history::Problem;
use lin_object::{SeqObject, lawful};
use lin_search::{CallSet, Config, repeats};
use std::alloc::AllocError;

// The last pending call behind this one that is identical to it, was called by the event, and is in the set and not in the
// configuration; or else the call itself. It is a hint.
fn last_twin<O: SeqObject, R: Rules<O>>(
    search: &Search<'_, O, R>,
    config: &Config<O>,
    call: usize,
    bound: u32,
    borne: &CallSet,
) -> usize {
    let problem = search.problem();
    let mut last = call;
    let mut here = call;
    for _ in 0..problem.len() {
        let next = search.twins().behind(here);
        if next <= here || next >= problem.len() {
            return last;
        }
        if is_later(problem, next, bound) {
            return last;
        }
        if borne.has(next) && !config.has(next) {
            last = next;
        }
        here = next;
    }
    last
}

// Whether the other call, which is in the set, may follow the configuration in place of this one.
fn stands_in<O: SeqObject>(
    problem: &Problem<O>,
    config: &Config<O>,
    bound: u32,
    call: usize,
    other: usize,
    borne: &CallSet,
) -> bool
    requires call { call < length problem.now.calls }
    requires bound { IsLeastReturn (problem_of O.after O.State.eq O.Reply.eq problem.now) config.now.lifted bound }
    ensures { IsTrue result → IsStandIn (problem_of O.after O.State.eq O.Reply.eq problem.now)
        config.now.lifted call other borne.now }
{
    if other <= call || other >= problem.len() {
        return false;
    }
    if is_completed(problem, call) || config.has(other) || !borne.has(other) {
        return false;
    }
    if is_later(problem, other, bound) {
        return false;
    }
    repeats(problem, call, other)
}

// Takes the call out of what its child bears, or one that is identical to it, the last one: so much the configuration bears. What is
// left says more of others where the last one goes, since the first of identical calls are tried first.
fn take_out<O: SeqObject, R: Rules<O>>(
    search: &Search<'_, O, R>,
    node: &Node<O>,
    call: usize,
    borne: &mut CallSet,
) -> Result<(), AllocError>
    requires reachable { IsReachable (problem_of O.after O.State.eq O.Reply.eq search.now)
        node.now.config.lifted node.now.config.state }
    requires first { IsFirstLeft (problem_of O.after O.State.eq O.Reply.eq search.now)
        node.now.config.lifted node.now.first }
    requires bears { BearsBy (problem_of O.after O.State.eq O.Reply.eq search.now) node.now.config call
        borne.old }
    ensures { OnOk result (IsBorne (problem_of O.after O.State.eq O.Reply.eq search.now)
        node.now.config.lifted node.now.config.state borne.new) }
{
    lawful::<O>();
    if search.twins().behind(call) == call {
        borne.remove(call)?;
        return Ok(());
    }
    let config = node.config();
    let bound = least_return(search.problem(), config.lifted(), node.first());
    let other = last_twin(search, config, call, bound, borne);
    if stands_in(search.problem(), config, bound, call, other, borne) {
        borne.remove(other)?;
        return Ok(());
    }
    borne.remove(call)?;
    Ok(())
}

// Notes what the node bears, if it is the base of a block.
fn note_base<O: SeqObject, R: Rules<O>>(
    search: &mut Search<'_, O, R>,
    nodes: &[Node<O>],
    index: usize,
    borne: &CallSet,
) -> Result<(), AllocError>
    requires index { index < length nodes.now }
    requires borne { IsAt nodes.now index (λ x. IsBorne (problem_of O.after O.State.eq O.Reply.eq search.old) x.config.lifted x.config.state
        borne.now) }
    ensures { search.new ≡ search.old }
{
    let node = at(nodes, index);
    let link = node.link();
    if link.base != index {
        return Ok(());
    }
    let key = key_of(link.completed, node.config());
    search.note_borne(borne, node.config().state(), key)
}

/// Notes what the nodes bear from which the configuration came that bears this: the call led to it from the node at the index. So the
/// first node has a completion.
pub(crate) fn note_borne<O: SeqObject, R: Rules<O>>(
    search: &mut Search<'_, O, R>,
    nodes: &[Node<O>],
    index: usize,
    call: usize,
    borne: CallSet,
) -> Result<(), AllocError>
    requires nodes { AreNodes (problem_of O.after O.State.eq O.Reply.eq search.old) nodes.now }
    requires index { index < length nodes.now }
    requires bears { IsAt nodes.now index (λ x. BearsBy (problem_of O.after O.State.eq O.Reply.eq search.old) x.config call borne) }
    ensures completes { OnOk result (IsAt nodes.now 0 (λ x. (l : List ℕ) × IsCompletion (problem_of O.after O.State.eq O.Reply.eq search.old)
        x.config.lifted x.config.state l)) }
    ensures search { search.new ≡ search.old }
{
    lawful::<O>();
    fewer_law(search.problem());
    let mut borne = borne;
    let mut k = index;
    take_out(search, at(nodes, k), call, &mut borne)?;
    note_base(search, nodes, k, &borne)?;
    while k > 0 {
        let link = at(nodes, k).link();
        k = link.from;
        take_out(search, at(nodes, k), link.by, &mut borne)?;
        note_base(search, nodes, k, &borne)?;
    }
    Ok(())
}
