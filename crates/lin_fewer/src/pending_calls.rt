//! What pending calls alone lead to from a node.

ghost use Rattle.std.specs.Prelude.{ℕ, ◌<◌, length, OnOk, IsTrue};
ghost use Rattle.lin_history.specs.Problems.Problem.{problem_of};
ghost use Rattle.lin_history.specs.Problems.Precedence.{IsCompleted};
ghost use Rattle.lin_fewer.specs.Fronts.{IsCalledBy, IsLeastReturn};
ghost use Rattle.lin_fewer.specs.Nodes.{AreNodes, HasNoWorse, IsAt, IsChild, IsCoveredAt, IsMoreOf, NoneBegins};

use crate::front::{is_completed, is_later};
use crate::laws::fewer_law;
use crate::node::{Link, Node, at, child_of};
use crate::rules::Rules;
use crate::search::{Search, key_of};
use crate::states::States;
use lin_object::{SeqObject, lawful};
use lin_search::Config;
use std::alloc::AllocError;

// Whether all pending calls that led from the base of the block to the node at the index are in the configuration. It is a hint.
fn has_all_between<O: SeqObject>(
    nodes: &[Node<O>],
    base: usize,
    index: usize,
    config: &Config<O>,
) -> bool {
    let mut here = index;
    for _ in base..nodes.len() {
        if here <= base || here >= nodes.len() {
            return true;
        }
        let link = at(nodes, here).link();
        if !config.has(link.by) {
            return false;
        }
        here = link.from;
    }
    true
}

// Whether the node at the index, which is of the block of this base, is no worse than the configuration.
fn is_no_worse_at<O: SeqObject, R: Rules<O>>(
    search: &Search<'_, O, R>,
    nodes: &[Node<O>],
    base: usize,
    index: usize,
    config: &Config<O>,
) -> bool
    ensures { IsTrue result → HasNoWorse (problem_of O.after O.State.eq O.Reply.eq search.now)
        nodes.now base (length nodes.now) config.now }
{
    if index < base {
        return false;
    }
    if index >= nodes.len() {
        return false;
    }
    search.is_no_worse(at(nodes, index).config(), config)
}

// Whether one of the nodes from the base on is no worse than the configuration: the base, or one that is found by this key.
fn has_no_worse<O: SeqObject, R: Rules<O>>(
    search: &Search<'_, O, R>,
    nodes: &[Node<O>],
    states: &States,
    base: usize,
    config: &Config<O>,
    key: u64,
) -> bool
    ensures { IsTrue result → HasNoWorse (problem_of O.after O.State.eq O.Reply.eq search.now)
        nodes.now base (length nodes.now) config.now }
{
    if is_no_worse_at(search, nodes, base, base, config) {
        return true;
    }
    let mut number = states.last_of(key);
    for _ in base..nodes.len() {
        let Some(found) = states.get(number) else {
            return false;
        };
        if found.node < base {
            return false;
        }
        if found.key == key && has_all_between(nodes, base, found.node, config) {
            if is_no_worse_at(search, nodes, base, found.node, config) {
                return true;
            }
        }
        number = found.earlier;
    }
    false
}

// Puts what the pending call leads to from the node at the index behind the nodes, unless one of the block is no worse.
fn add_child<O: SeqObject, R: Rules<O>>(
    search: &Search<'_, O, R>,
    nodes: &mut Vec<Node<O>>,
    states: &mut States,
    index: usize,
    call: usize,
    child: Config<O>,
) -> Result<(), AllocError>
    requires nodes { AreNodes (problem_of O.after O.State.eq O.Reply.eq search.now) nodes.old.items }
    requires index { index < length nodes.old.items }
    requires child { IsAt nodes.old.items index (λ x. IsChild (problem_of O.after O.State.eq O.Reply.eq search.now) x.config call child) }
    requires pending { IsCompleted (problem_of O.after O.State.eq O.Reply.eq search.now) call → ⊥ }
    ensures more { OnOk result (IsMoreOf (problem_of O.after O.State.eq O.Reply.eq search.now) nodes.old.items
        nodes.new.items index) }
    ensures covered { OnOk result (IsCoveredAt (problem_of O.after O.State.eq O.Reply.eq search.now)
        nodes.new.items index call) }
{
    lawful::<O>();
    fewer_law(search.problem());
    let from = at(nodes.as_slice(), index);
    let first = from.first();
    let link = from.link();
    let key = key_of(link.completed, &child);
    if has_no_worse(search, nodes.as_slice(), states, link.base, &child, key) {
        return Ok(());
    }
    if search.rules().refutes(search.waiting(), &child, first) {
        return Ok(());
    }
    states.add(nodes.len(), key)?;
    let link = Link {
        from: index,
        by: call,
        alone: false,
        base: link.base,
        completed: link.completed,
    };
    nodes.push(Node::new(child, first, link))?;
    Ok(())
}

// The same for a call called before all that is left returned, if it is pending and can follow.
fn add_call<O: SeqObject, R: Rules<O>>(
    search: &Search<'_, O, R>,
    nodes: &mut Vec<Node<O>>,
    states: &mut States,
    index: usize,
    call: usize,
    bound: u32,
) -> Result<(), AllocError>
    requires nodes { AreNodes (problem_of O.after O.State.eq O.Reply.eq search.now) nodes.old.items }
    requires index { index < length nodes.old.items }
    requires call { call < length search.now.calls }
    requires none { IsAt nodes.old.items index (λ x. IsCompleted (problem_of O.after O.State.eq O.Reply.eq search.now) call
        → NoneBegins (problem_of O.after O.State.eq O.Reply.eq search.now) x.config.lifted x.config.state call) }
    requires bound { IsAt nodes.old.items index (λ x. IsLeastReturn (problem_of O.after O.State.eq O.Reply.eq search.now)
        x.config.lifted bound) }
    requires called { IsCalledBy (problem_of O.after O.State.eq O.Reply.eq search.now) call bound }
    requires covered { (d : ℕ) → d < call → IsCoveredAt (problem_of O.after O.State.eq O.Reply.eq search.now) nodes.old.items index d }
    ensures more { OnOk result (IsMoreOf (problem_of O.after O.State.eq O.Reply.eq search.now) nodes.old.items nodes.new.items index) }
    ensures covered { OnOk result (IsCoveredAt (problem_of O.after O.State.eq O.Reply.eq search.now) nodes.new.items index call) }
{
    lawful::<O>();
    fewer_law(search.problem());
    let from = at(nodes.as_slice(), index);
    if is_completed(search.problem(), call) {
        return Ok(());
    }
    if from.config().has(call) {
        return Ok(());
    }
    if search.has_earlier(from.config().lifted(), call) {
        return Ok(());
    }
    if search
        .rules()
        .is_needless(search.waiting(), from.config(), from.first(), call)
    {
        return Ok(());
    }
    let Some(child) = child_of(search.alloc(), search.problem(), from.config(), call)? else {
        return Ok(());
    };
    add_child(search, nodes, states, index, call, child)?;
    Ok(())
}

// The same for each call.
fn add_pending<O: SeqObject, R: Rules<O>>(
    search: &Search<'_, O, R>,
    nodes: &mut Vec<Node<O>>,
    states: &mut States,
    index: usize,
    bound: u32,
) -> Result<(), AllocError>
    requires nodes { AreNodes (problem_of O.after O.State.eq O.Reply.eq search.now) nodes.old.items }
    requires index { index < length nodes.old.items }
    requires none { IsAt nodes.old.items index (λ x. (c : ℕ) → IsCompleted (problem_of O.after O.State.eq O.Reply.eq search.now) c
        → NoneBegins (problem_of O.after O.State.eq O.Reply.eq search.now) x.config.lifted x.config.state c) }
    requires bound { IsAt nodes.old.items index (λ x. IsLeastReturn (problem_of O.after O.State.eq O.Reply.eq search.now)
        x.config.lifted bound) }
    ensures more { OnOk result (IsMoreOf (problem_of O.after O.State.eq O.Reply.eq search.now) nodes.old.items nodes.new.items index) }
    ensures covered { OnOk result ((c : ℕ) → IsCoveredAt (problem_of O.after O.State.eq O.Reply.eq search.now) nodes.new.items index c) }
{
    let problem = search.problem();
    let _calls = problem.calls();
    let waiting = search.waiting();
    let mut call = waiting.from(0);
    'calls: for turn in 0..problem.len() {
        if call >= problem.len() {
            return Ok(());
        }
        if is_later(problem, call, bound) {
            return Ok(());
        }
        add_call(search, nodes, states, index, call, bound)?;
        call = waiting.from(call + 1);
    }
    Ok(())
}

/// Puts what pending calls lead to from the node at the index behind the nodes, unless one of its block is no worse, or no pending call
/// need be tried there. Then each call is covered there.
///
/// Condition: no completed call begins a completion there.
pub(crate) fn cover_pending<O: SeqObject, R: Rules<O>>(
    search: &Search<'_, O, R>,
    nodes: &mut Vec<Node<O>>,
    states: &mut States,
    index: usize,
    bound: u32,
) -> Result<(), AllocError>
    requires nodes { AreNodes (problem_of O.after O.State.eq O.Reply.eq search.now) nodes.old.items }
    requires index { index < length nodes.old.items }
    requires none { IsAt nodes.old.items index (λ x. (c : ℕ) → IsCompleted (problem_of O.after O.State.eq O.Reply.eq search.now) c
        → NoneBegins (problem_of O.after O.State.eq O.Reply.eq search.now) x.config.lifted x.config.state c) }
    requires bound { IsAt nodes.old.items index (λ x. IsLeastReturn (problem_of O.after O.State.eq O.Reply.eq search.now)
        x.config.lifted bound) }
    ensures more { OnOk result (IsMoreOf (problem_of O.after O.State.eq O.Reply.eq search.now) nodes.old.items nodes.new.items index) }
    ensures covered { OnOk result ((c : ℕ) → IsCoveredAt (problem_of O.after O.State.eq O.Reply.eq search.now) nodes.new.items index c) }
{
    let node = at(nodes.as_slice(), index);
    let config = node.config();
    if search
        .rules()
        .begins_completed(search.waiting(), config, node.first(), bound)
    {
        return Ok(());
    }
    add_pending(search, nodes, states, index, bound)
}
