//! Which completed call is tried next at a node.

ghost use Rattle.std.specs.Prelude.{◌≡◌, ℕ, ◌<◌, false, IfOk, IfSome, IfNone, IsFalse, IsTrue, length};
ghost use Rattle.lin_history.specs.Problems.Problem.{problem_of};
ghost use Rattle.lin_history.specs.Problems.Precedence.{IsCompleted};
ghost use Rattle.lin_history.specs.Problems.Continuations.{has};
ghost use Rattle.lin_history.specs.Problems.Configurations.{IsReachable};
ghost use Rattle.lin_search.specs.Entries.{IsMinimal};
ghost use Rattle.lin_search.specs.NeedlessCalls.{LeavesStates};
ghost use Rattle.lin_fewer.specs.Fronts.{IsCalledBy, IsLeastReturn};
ghost use Rattle.lin_fewer.specs.Nodes.{IsAt, IsChild, IsSearch, NoneBegins, NoneBeginsBelow};

use crate::front::{is_completed, is_later};
use crate::node::{Node, Place, at, child_of};
use crate::rules::Rules;
use crate::search::Search;
use lin_object::{SeqObject, lawful};
use lin_search::{Config, ends_the_list};
use std::alloc::AllocError;

// What the call leads to, if it is completed, can follow, and changes nothing.
fn still_child_by<O: SeqObject, R: Rules<O>>(
    search: &Search<'_, O, R>,
    node: &Node<O>,
    bound: u32,
    call: usize,
) -> Result<Option<Config<O>>, AllocError>
    requires reachable { IsReachable (problem_of O.after O.State.eq O.Reply.eq search.now) node.now.config.lifted node.now.config.state }
    requires bound { IsLeastReturn (problem_of O.after O.State.eq O.Reply.eq search.now) node.now.config.lifted bound }
    requires call { call < length search.now.calls }
    requires called { IsCalledBy (problem_of O.after O.State.eq O.Reply.eq search.now) call bound }
    ensures child { IfOk result (λ answer. IfSome answer (IsChild (problem_of O.after O.State.eq O.Reply.eq search.now) node.now.config call)) }
    ensures leaves { IfOk result (λ answer. IfSome answer (λ child. LeavesStates (problem_of O.after O.State.eq O.Reply.eq search.now) call)) }
{
    let problem = search.problem();
    let config = node.config();
    if !is_completed(problem, call) || config.has(call) || !ends_the_list(problem, call) {
        return Ok(None);
    }
    let Some(child) = child_of(search.alloc(), problem, config, call)? else {
        return Ok(None);
    };
    Ok(Some(child))
}

/// A completed call that can follow the node and changes nothing, so that it alone is tried, and what it leads to.
pub(crate) fn still_child<O: SeqObject, R: Rules<O>>(
    search: &Search<'_, O, R>,
    node: &Node<O>,
    bound: u32,
) -> Result<Option<(usize, Config<O>)>, AllocError>
    requires reachable { IsReachable (problem_of O.after O.State.eq O.Reply.eq search.now) node.now.config.lifted node.now.config.state }
    requires bound { IsLeastReturn (problem_of O.after O.State.eq O.Reply.eq search.now) node.now.config.lifted bound }
    ensures child { IfOk result (λ answer. IfSome answer (λ r. IsChild (problem_of O.after O.State.eq O.Reply.eq search.now) node.now.config r.0
        r.1)) }
    ensures leaves { IfOk result (λ answer. IfSome answer (λ r. LeavesStates (problem_of O.after O.State.eq O.Reply.eq search.now) r.0)) }
{
    let problem = search.problem();
    for call in node.first()..problem.len() {
        if is_later(problem, call, bound) {
            return Ok(None);
        }
        if let Some(child) = still_child_by(search, node, bound, call)? {
            return Ok(Some((call, child)));
        }
    }
    Ok(None)
}

// Whether the completed call was tried in front of the pending one by which the search came to the node, and may as well stand there.
fn came_first<O: SeqObject, R: Rules<O>>(
    search: &Search<'_, O, R>,
    nodes: &[Node<O>],
    place: Place,
    call: usize,
) -> bool
    requires search { IsSearch (problem_of O.after O.State.eq O.Reply.eq search.now) nodes.now place.base place.index place.next }
    requires index { place.index < length nodes.now }
    requires call { call < length search.now.calls }
    ensures { IsTrue result → IsCompleted (problem_of O.after O.State.eq O.Reply.eq search.now) call → IsAt nodes.now place.index
        (λ x. NoneBegins (problem_of O.after O.State.eq O.Reply.eq search.now) x.config.lifted x.config.state call) }
{
    let link = at(nodes, place.index).link();
    if link.base == place.index {
        return false;
    }
    let from = at(nodes, link.from).config();
    search
        .rules()
        .comes_first(search.problem(), from, link.by, call)
}

// Whether the completed call is to be tried at the node at hand: it is left, no identical call before it is, and it was not tried in
// front of the pending one.
fn is_to_be_tried<O: SeqObject, R: Rules<O>>(
    search: &Search<'_, O, R>,
    nodes: &[Node<O>],
    place: Place,
    call: usize,
) -> bool
    requires search { IsSearch (problem_of O.after O.State.eq O.Reply.eq search.now) nodes.now place.base place.index place.next }
    requires index { place.index < length nodes.now }
    requires call { call < length search.now.calls }
    requires before { IsAt nodes.now place.index (λ x. NoneBeginsBelow (problem_of O.after O.State.eq O.Reply.eq search.now) x.config call) }
    ensures yes { IsTrue result → IsAt nodes.now place.index (λ x. has x.config.lifted call ≡ false) }
    ensures no { IsFalse result → IsCompleted (problem_of O.after O.State.eq O.Reply.eq search.now) call → IsAt nodes.now place.index
        (λ x. NoneBegins (problem_of O.after O.State.eq O.Reply.eq search.now) x.config.lifted x.config.state call) }
{
    lawful::<O>();
    let config = at(nodes, place.index).config();
    if !is_completed(search.problem(), call) {
        return false;
    }
    if config.has(call) {
        return false;
    }
    if search.has_earlier(config.lifted(), call) {
        return false;
    }
    if came_first(search, nodes, place, call) {
        return false;
    }
    true
}

/// The first completed call that is to be tried at the node at hand, from the place's call on. `None` where there is none.
pub(crate) fn next_call<O: SeqObject, R: Rules<O>>(
    search: &Search<'_, O, R>,
    nodes: &[Node<O>],
    place: Place,
    bound: u32,
) -> Option<usize>
    requires search { IsSearch (problem_of O.after O.State.eq O.Reply.eq search.now) nodes.now place.base place.index place.next }
    requires index { place.index < length nodes.now }
    requires bound { IsAt nodes.now place.index (λ x. IsLeastReturn (problem_of O.after O.State.eq O.Reply.eq search.now) x.config.lifted bound) }
    ensures minimal { IfSome result (λ call. IsAt nodes.now place.index (λ x. IsMinimal (problem_of O.after O.State.eq O.Reply.eq search.now) x.config.lifted call)) }
    ensures before { IfSome result (λ call. IsAt nodes.now place.index (λ x. NoneBeginsBelow (problem_of O.after O.State.eq O.Reply.eq search.now) x.config call)) }
    ensures none { IfNone result (IsAt nodes.now place.index (λ x. (c : ℕ) → IsCompleted (problem_of O.after O.State.eq O.Reply.eq search.now) c
        → NoneBegins (problem_of O.after O.State.eq O.Reply.eq search.now) x.config.lifted x.config.state c)) }
{
    let problem = search.problem();
    let node = at(nodes, place.index);
    for call in usize::max(place.next, node.first())..problem.len() {
        if is_later(problem, call, bound) {
            return None;
        }
        if is_to_be_tried(search, nodes, place, call) {
            return Some(call);
        }
    }
    None
}
