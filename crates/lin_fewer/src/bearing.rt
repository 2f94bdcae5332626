//! Whether a configuration has a completion.
//!
//! Each step tries one call at the node at hand. A configuration to which a completed call leads is the base of a block; the nodes of
//! the block are it and what pending calls alone lead to from there. Where all of them are covered the block is closed: none of its
//! nodes has a completion, and its base is noted.

ghost use Rattle.std.specs.Prelude.{◌≡◌, ◌<◌, ◌+◌, ◌-◌, ◌^◌, length, slice_get, IfOk, IfSome, IfNone, IsTrue, IsFalse};
ghost use Rattle.lin_history.specs.Problems.Problem.{problem_of};
ghost use Rattle.lin_history.specs.Problems.Configurations.{IsReachable};
ghost use Rattle.lin_search.specs.NeedlessCalls.{LeavesStates};
ghost use Rattle.lin_fewer.specs.Fronts.{HasCompletedBelow};
ghost use Rattle.lin_fewer.specs.Nodes.{IsAt, IsChild, IsSearch, NoneBeginsBelow};
ghost use Rattle.lin_fewer.specs.Answers.{IsVerdict};

use crate::borne::note_borne;
use crate::completed_calls::{next_call, still_child};
use crate::front::least_return;
use crate::laws::fewer_law;
use crate::node::{Link, Node, Place, at, child_of};
use crate::pending_calls::cover_pending;
use crate::rules::Rules;
use crate::search::{Search, key_of, mixed};
use crate::seen::{Seen, known_of};
use crate::states::States;
use crate::verdict::Verdict;
use lin_object::{SeqObject, lawful};
use lin_search::{Config, Stop};
use std::alloc::AllocError;

// A call that is tried, and whether it alone is.
#[derive(Clone, Copy)]
struct Try {
    call: usize,
    alone: bool,
}

// The place after the call, which begins no completion: the next node where it alone was tried.
fn after(place: Place, tried: Try) -> Place
    requires index { place.index < 2 ^ 64 - 1 }
    requires call { tried.call < 2 ^ 64 - 1 }
    ensures alone { IsTrue tried.alone → result ≡ record {
      base = place.base;
      index = place.index
          + 1;
      next = 0;
    } }
    ensures other { IsFalse tried.alone → result ≡ record {
      base = place.base;
      index = place.index;
      next = tried.call + 1;
    } }
{
    if tried.alone {
        Place {
            base: place.base,
            index: place.index + 1,
            next: 0,
        }
    } else {
        Place {
            base: place.base,
            index: place.index,
            next: tried.call + 1,
        }
    }
}

// Goes on with what the call leads to from the node at hand: a new block, unless something is known of it.
fn enter<O: SeqObject, R: Rules<O>>(
    search: &mut Search<'_, O, R>,
    nodes: &mut Vec<Node<O>>,
    place: &mut Place,
    tried: Try,
    child: Config<O>,
) -> Result<Option<Verdict>, AllocError>
    requires search { IsSearch (problem_of O.after O.State.eq O.Reply.eq search.old) nodes.old.items place.old.base place.old.index place.old.next }
    requires index { place.old.index < length nodes.old.items }
    requires child { IsAt nodes.old.items place.old.index (λ x. IsChild (problem_of O.after O.State.eq O.Reply.eq search.old) x.config tried.call
        child) }
    requires alone { IsTrue tried.alone → LeavesStates (problem_of O.after O.State.eq O.Reply.eq search.old) tried.call }
    requires below { IsFalse tried.alone → IsAt nodes.old.items place.old.index
        (λ x. NoneBeginsBelow (problem_of O.after O.State.eq O.Reply.eq search.old) x.config tried.call) }
    ensures verdict { IfOk result (λ told. IfSome told (λ verdict. IsAt nodes.old.items 0
        (λ x. IsVerdict (problem_of O.after O.State.eq O.Reply.eq search.old) x.config verdict))) }
    ensures goes_on { IfOk result (λ told. IfNone told (IsSearch (problem_of O.after O.State.eq O.Reply.eq search.old) nodes.new.items place.new.base
        place.new.index place.new.next)) }
    ensures first { IfOk result (λ told. IfNone told (slice_get nodes.new.items 0
        ≡ slice_get nodes.old.items 0)) }
    ensures same { search.new ≡ search.old }
{
    lawful::<O>();
    let node = at(nodes.as_slice(), place.index);
    let completed = node.link().completed.wrapping_add(mixed(tried.call as u64));
    match known_of(search, &child, node.first(), completed)? {
        Seen::Bears(borne) => {
            note_borne(search, nodes.as_slice(), place.index, tried.call, borne)?;
            Ok(Some(Verdict::Completes))
        }
        Seen::Refuted => {
            let _count = nodes.len();
            let _calls = search.problem().calls();
            *place = after(*place, tried);
            Ok(None)
        }
        Seen::Open(first) => {
            let base = nodes.len();
            let link = Link {
                from: place.index,
                by: tried.call,
                alone: tried.alone,
                base,
                completed,
            };
            nodes.push(Node::new(child, first, link))?;
            *place = Place {
                base,
                index: base,
                next: 0,
            };
            Ok(None)
        }
    }
}

// Closes the block, each node of which is covered, and goes on where its base came from.
fn close<O: SeqObject, R: Rules<O>>(
    search: &mut Search<'_, O, R>,
    nodes: &mut Vec<Node<O>>,
    states: &mut States,
    place: &mut Place,
) -> Result<Option<Verdict>, AllocError>
    requires search { IsSearch (problem_of O.after O.State.eq O.Reply.eq search.old) nodes.old.items place.old.base place.old.index place.old.next }
    requires index { place.old.index ≡ length nodes.old.items }
    ensures verdict { IfOk result (λ told. IfSome told (λ verdict. IsAt nodes.old.items 0
        (λ x. IsVerdict (problem_of O.after O.State.eq O.Reply.eq search.old) x.config verdict))) }
    ensures goes_on { IfOk result (λ told. IfNone told (IsSearch (problem_of O.after O.State.eq O.Reply.eq search.old) nodes.new.items place.new.base
        place.new.index place.new.next)) }
    ensures first { IfOk result (λ told. IfNone told (slice_get nodes.new.items 0
        ≡ slice_get nodes.old.items 0)) }
    ensures same { search.new ≡ search.old }
{
    lawful::<O>();
    let base = at(nodes.as_slice(), place.base);
    let link = base.link();
    search.note_refuted(base.config(), key_of(link.completed, base.config()))?;
    if place.base == 0 {
        return Ok(Some(Verdict::Refuted));
    }
    let _count = nodes.len();
    let _calls = search.problem().calls();
    let below = at(nodes.as_slice(), link.from).link().base;
    states.take_from(place.base);
    nodes.truncate(place.base);
    let from = Place {
        base: below,
        index: link.from,
        next: 0,
    };
    let tried = Try {
        call: link.by,
        alone: link.alone,
    };
    *place = after(from, tried);
    Ok(None)
}

// Tries the next call at the node at hand. Where there is none left to try, its pending calls are followed.
fn try_next<O: SeqObject, R: Rules<O>>(
    search: &mut Search<'_, O, R>,
    nodes: &mut Vec<Node<O>>,
    states: &mut States,
    place: &mut Place,
) -> Result<Option<Verdict>, AllocError>
    requires search { IsSearch (problem_of O.after O.State.eq O.Reply.eq search.old) nodes.old.items place.old.base place.old.index place.old.next }
    requires index { place.old.index < length nodes.old.items }
    ensures verdict { IfOk result (λ told. IfSome told (λ verdict. IsAt nodes.old.items 0
        (λ x. IsVerdict (problem_of O.after O.State.eq O.Reply.eq search.old) x.config verdict))) }
    ensures goes_on { IfOk result (λ told. IfNone told (IsSearch (problem_of O.after O.State.eq O.Reply.eq search.old) nodes.new.items place.new.base
        place.new.index place.new.next)) }
    ensures first { IfOk result (λ told. IfNone told (slice_get nodes.new.items 0
        ≡ slice_get nodes.old.items 0)) }
    ensures same { search.new ≡ search.old }
{
    lawful::<O>();
    let node = at(nodes.as_slice(), place.index);
    let bound = least_return(search.problem(), node.config().lifted(), node.first());
    let Some(call) = next_call(search, nodes.as_slice(), *place, bound) else {
        cover_pending(search, nodes, states, place.index, bound)?;
        place.index += 1;
        place.next = 0;
        return Ok(None);
    };
    let Some(child) = child_of(search.alloc(), search.problem(), node.config(), call)? else {
        let _calls = search.problem().calls();
        place.next = call + 1;
        return Ok(None);
    };
    let tried = Try { call, alone: false };
    enter(search, nodes, place, tried, child)
}

// Makes one step: the verdict on the first node, where it is known then.
fn step<O: SeqObject, R: Rules<O>>(
    search: &mut Search<'_, O, R>,
    nodes: &mut Vec<Node<O>>,
    states: &mut States,
    place: &mut Place,
) -> Result<Option<Verdict>, AllocError>
    requires { IsSearch (problem_of O.after O.State.eq O.Reply.eq search.old) nodes.old.items place.old.base place.old.index place.old.next }
    ensures verdict { IfOk result (λ told. IfSome told (λ verdict. IsAt nodes.old.items 0
        (λ x. IsVerdict (problem_of O.after O.State.eq O.Reply.eq search.old) x.config verdict))) }
    ensures goes_on { IfOk result (λ told. IfNone told (IsSearch (problem_of O.after O.State.eq O.Reply.eq search.old) nodes.new.items place.new.base
        place.new.index place.new.next)) }
    ensures first { IfOk result (λ told. IfNone told (slice_get nodes.new.items 0
        ≡ slice_get nodes.old.items 0)) }
    ensures same { search.new ≡ search.old }
{
    if place.index == nodes.len() {
        return close(search, nodes, states, place);
    }
    if place.next > 0 {
        return try_next(search, nodes, states, place);
    }
    let node = at(nodes.as_slice(), place.index);
    let bound = least_return(search.problem(), node.config().lifted(), node.first());
    match still_child(search, node, bound)? {
        Some((call, child)) => {
            let tried = Try { call, alone: true };
            enter(search, nodes, place, tried, child)
        }
        None => try_next(search, nodes, states, place),
    }
}

/// Whether the configuration has a completion. Nothing is told where no step is left, or the stop answers.
///
/// Conditions: it is reachable, and the completed calls below this one are lifted.
pub(crate) fn bears<O: SeqObject, R: Rules<O>, S: Stop>(
    search: &mut Search<'_, O, R>,
    stop: &mut S,
    config: Config<O>,
    from: usize,
    completed: u64,
) -> Result<Verdict, AllocError>
    requires reachable { IsReachable (problem_of O.after O.State.eq O.Reply.eq search.old) config.lifted config.state }
    requires below { HasCompletedBelow (problem_of O.after O.State.eq O.Reply.eq search.old) config.lifted from }
    ensures verdict { IfOk result (IsVerdict (problem_of O.after O.State.eq O.Reply.eq search.old) config) }
    ensures same { search.new ≡ search.old }
    ensures stop { S.follows stop.old stop.new }
{
    lawful::<O>();
    fewer_law(search.problem());
    let first = match known_of(search, &config, from, completed)? {
        Seen::Bears(_) => return Ok(Verdict::Completes),
        Seen::Refuted => return Ok(Verdict::Refuted),
        Seen::Open(first) => first,
    };
    let link = Link {
        from: 0,
        by: 0,
        alone: false,
        base: 0,
        completed,
    };
    let mut nodes = Vec::new(search.alloc());
    nodes.push(Node::new(config, first, link))?;
    let mut states = States::new(search.alloc());
    let mut place = Place {
        base: 0,
        index: 0,
        next: 0,
    };
    for _ in 0..usize::MAX {
        if !search.takes_step() {
            return Ok(Verdict::Unknown);
        }
        if stop.ask().is_some() {
            return Ok(Verdict::Unknown);
        }
        if let Some(verdict) = step(search, &mut nodes, &mut states, &mut place)? {
            return Ok(verdict);
        }
    }
    Ok(Verdict::Unknown)
}
