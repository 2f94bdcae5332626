//! The room that each `get` of a counter leaves, in the order of their calls, and the least of them. All of it is a hint.

use std::alloc::{AllocError, Global};

// More room than any call adds.
const BEYOND: i64 = 0x1FFF_FFFF_FFFF_FFFF;

// Of neighbouring places: by how much the room before them is greater than that behind them, the least room in them over that
// behind them, and the place where it is.
#[derive(Clone, Copy)]
struct Node {
    sum: i64,
    least: i64,
    place: usize,
}

// Of two neighbours, the second of which comes after the first.
fn joined(first: Node, second: Node) -> Node {
    let through = first.least.saturating_add(second.sum);
    let (least, place) = if through < second.least {
        (through, first.place)
    } else {
        (second.least, second.place)
    };
    Node {
        sum: first.sum.wrapping_add(second.sum),
        least,
        place,
    }
}

// The one found, or the other with so much room behind it, which has less.
fn lesser(found: Option<Node>, other: Node, behind: i64) -> Option<Node> {
    let least = other.least.saturating_add(behind);
    match found {
        Some(node) if node.least <= least => found,
        _ => Some(Node { least, ..other }),
    }
}

// A tree over so many places: that of a node has those of its two children.
#[derive(Drop)]
pub(crate) struct SumTree {
    nodes: Vec<Node>,
    levels: usize,
    leaves: usize,
}

impl SumTree {
    // The tree over these places.
    pub(crate) fn new(alloc: Global, rooms: &[i64]) -> Result<Self, AllocError> {
        let mut levels = 0;
        let mut leaves: usize = 1;
        for level in 0..32 {
            if leaves < rooms.len() {
                levels = level + 1;
                leaves = leaves.saturating_mul(2);
            }
        }
        let empty = Node {
            sum: 0,
            least: BEYOND,
            place: 0,
        };
        let mut tree = SumTree {
            nodes: vec![in alloc; empty; leaves.saturating_mul(2)]?,
            levels,
            leaves,
        };
        for place in 0..rooms.len() {
            let behind = rooms.get(place + 1).copied().unwrap_or(0);
            tree.put(place, rooms[place].wrapping_sub(behind), true);
        }
        for node in (1..leaves).rev() {
            tree.join(node);
        }
        Ok(tree)
    }

    // Puts the place's own node in.
    fn put(&mut self, place: usize, sum: i64, counts: bool) {
        if let Some(node) = self.nodes.get_mut(self.leaves.saturating_add(place)) {
            *node = Node {
                sum,
                least: if counts { sum } else { BEYOND },
                place,
            };
        }
    }

    // Joins the two children of the node.
    fn join(&mut self, node: usize) {
        let first = self.nodes.get(node.saturating_mul(2)).copied();
        let second = self
            .nodes
            .get(node.saturating_mul(2).saturating_add(1))
            .copied();
        if let (Some(first), Some(second)) = (first, second)
            && let Some(slot) = self.nodes.get_mut(node)
        {
            *slot = joined(first, second);
        }
    }

    // Joins all nodes above the place.
    fn join_above(&mut self, place: usize) {
        let mut node = self.leaves.saturating_add(place);
        for _ in 0..self.levels {
            node /= 2;
            self.join(node);
        }
    }

    // Makes the room of the places before this one greater by so much.
    pub(crate) fn add(&mut self, before: usize, more: i64) {
        if before == 0 {
            return;
        }
        let place = before - 1;
        let Some(node) = self.nodes.get(self.leaves.saturating_add(place)).copied() else {
            return;
        };
        self.put(place, node.sum.wrapping_add(more), node.least < BEYOND);
        self.join_above(place);
    }

    // Says whether the place counts.
    pub(crate) fn set(&mut self, place: usize, counts: bool) {
        let Some(node) = self.nodes.get(self.leaves.saturating_add(place)).copied() else {
            return;
        };
        self.put(place, node.sum, counts);
        self.join_above(place);
    }

    // The place before this one that has the least room, in a node of its own.
    fn least(&self, before: usize) -> Option<Node> {
        if before >= self.leaves {
            return self.nodes.get(1).copied();
        }
        let mut found: Option<Node> = None;
        let mut node: usize = 1;
        let mut half = self.leaves / 2;
        let mut left = before;
        let mut behind: i64 = 0;
        for _ in 0..self.levels {
            let first = *self.nodes.get(node.saturating_mul(2))?;
            let second = *self.nodes.get(node.saturating_mul(2).saturating_add(1))?;
            node = node.saturating_mul(2);
            if left < half {
                behind = behind.wrapping_add(second.sum);
            } else {
                left -= half;
                node = node.saturating_add(1);
                found = lesser(found, first, second.sum.wrapping_add(behind));
            }
            half /= 2;
        }
        found
    }

    // A place before this one with less room than so much.
    pub(crate) fn narrow(&self, before: usize, room: i64) -> Option<usize> {
        let node = self.least(before)?;
        if node.least < room {
            Some(node.place)
        } else {
            None
        }
    }
}
