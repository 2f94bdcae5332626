//! The configurations that a search has open.

ghost use Rattle.std.specs.Prelude.{◌≡◌, ℕ, ◌<◌, Some, length, slice_get, IfOk, IfSome, IfNone};
ghost use Rattle.lin_history.specs.Problems.Problem.{problem_of};
ghost use Rattle.lin_history.specs.Problems.Configurations.{IsReachable};
ghost use Rattle.lin_search.specs.Entries.{IsMinimal};
ghost use Rattle.lin_search.specs.NextCall.{IsNext};
ghost use Rattle.lin_fewer.specs.Nodes.{IsChild};

use lin_history::Problem;
use lin_object::SeqObject;
use lin_search::Config;
use std::alloc::{AllocError, Global};
use std::marker::Model;

/// Where a configuration came from: the node and the call, whether that call alone was tried there, and the base of its block; and
/// the sum of its completed calls' mixed numbers, which is a hint.
#[derive(Clone, Copy)]
pub(crate) struct Link {
    pub(crate) from: usize,
    pub(crate) by: usize,
    pub(crate) alone: bool,
    pub(crate) base: usize,
    pub(crate) completed: u64,
}

/// A configuration that a search has open, with its first completed call that is left, and where it came from.
#[derive(Drop)]
pub(crate) struct Node<O: SeqObject> {
    config: Config<O>,
    first: usize,
    link: Link,
}

impl<O: SeqObject> Model for Node<O> {
    ghost use Rattle.lin_fewer.specs.Nodes.{Node as NodeOf};

    ghost Value = { NodeOf O.State };

    ghost view = { λ node. record {
      config = node.config;
      first = node.first;
      from = node.link.from;
      by = node.link.by;
      alone = node.link.alone;
      base = node.link.base;
    } };
}

impl<O: SeqObject> Node<O> {
    /// The configuration with its first completed call that is left, and where it came from.
    pub(crate) fn new(config: Config<O>, first: usize, link: Link) -> Self
        ensures { result ≡ record {
          config = config;
          first = first;
          from = link.from;
          by = link.by;
          alone = link.alone;
          base = link.base;
        } }
    {
        Node {
            config,
            first,
            link,
        }
    }

    /// The configuration.
    pub(crate) fn config(&self) -> &Config<O>
        ensures { result.now ≡ self.now.config }
    {
        &self.config
    }

    /// Its first completed call that is left.
    pub(crate) fn first(&self) -> usize
        ensures { result ≡ self.now.first }
    {
        self.first
    }

    /// Where it came from.
    pub(crate) fn link(&self) -> Link
        ensures from { result.from ≡ self.now.from }
        ensures by { result.by ≡ self.now.by }
        ensures alone { result.alone ≡ self.now.alone }
        ensures base { result.base ≡ self.now.base }
    {
        self.link
    }
}

/// Where a search is: the base of its block, the node at hand, and below which call its completed calls were tried.
#[derive(Clone, Copy)]
pub(crate) struct Place {
    pub(crate) base: usize,
    pub(crate) index: usize,
    pub(crate) next: usize,
}

/// The node at the index.
pub(crate) fn at<O: SeqObject>(nodes: &[Node<O>], index: usize) -> &Node<O>
    requires { index < length nodes.now }
    ensures { slice_get nodes.now index ≡ Some result.now }
{
    &nodes[index]
}

/// What the call, which is minimal, leads to from the configuration. `None` exactly where it can't follow.
pub(crate) fn child_of<O: SeqObject>(
    alloc: Global,
    problem: &Problem<O>,
    from: &Config<O>,
    call: usize,
) -> Result<Option<Config<O>>, AllocError>
    requires reachable { IsReachable (problem_of O.after O.State.eq O.Reply.eq problem.now)
        from.now.lifted from.now.state }
    requires minimal { IsMinimal (problem_of O.after O.State.eq O.Reply.eq problem.now)
        from.now.lifted call }
    ensures some { IfOk result (λ answer. IfSome answer (IsChild
        (problem_of O.after O.State.eq O.Reply.eq problem.now) from.now call)) }
    ensures none { IfOk result (λ answer. IfNone answer
        ((t : O.State) → IsNext (problem_of O.after O.State.eq O.Reply.eq problem.now)
        from.now.lifted from.now.state call t → ⊥)) }
{
    let Some(state) = from.next_state(alloc, problem, call)? else {
        return Ok(None);
    };
    let lifted = from.lifted().copy_with(alloc, call)?;
    Ok(Some(Config::from_parts(lifted, state)))
}
