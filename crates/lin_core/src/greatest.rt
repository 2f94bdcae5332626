//! The greatest of the values noted above a key, as more and more are noted: a binary indexed tree (Fenwick 1994). It is a hint.

use std::alloc::{AllocError, Global};

// How often a place of the tree can be halved.
const LEVELS: usize = 64;

/// Values noted at keys, each with a name.
#[derive(Drop)]
pub(crate) struct Greatest {
    // The keys, in increasing order.
    keys: Vec<u32>,
    // For each place of the tree, which counts the keys from the greatest one down, the greatest value noted, and its name.
    tree: Vec<Option<(u32, i64)>>,
}

impl Greatest {
    /// Nothing noted at any of these keys yet.
    pub(crate) fn new(alloc: Global, keys: Vec<u32>) -> Result<Self, AllocError> {
        let mut keys = keys;
        keys.sort_unstable();
        let mut tree = Vec::with_capacity(alloc, keys.len())?;
        for _ in 0..keys.len() {
            tree.push(None)?;
        }
        Ok(Greatest { keys, tree })
    }

    /// Notes the value at the key.
    pub(crate) fn note(&mut self, key: u32, value: u32, name: i64) {
        let below = self.keys.partition_point(|one| *one < key);
        let mut place = self.keys.len().saturating_sub(below);
        for _ in 0..LEVELS {
            if place == 0 {
                break;
            }
            let Some(slot) = self.tree.get_mut(place - 1) else {
                break;
            };
            match slot {
                Some((greatest, _)) if *greatest >= value => {}
                _ => *slot = Some((value, name)),
            }
            place = place.saturating_add(lowest_bit(place));
        }
    }

    /// The greatest value noted at a key above this one, with its name.
    pub(crate) fn greatest_above(&self, key: u32) -> Option<(u32, i64)> {
        let up_to = self.keys.partition_point(|one| *one <= key);
        let mut place = self.keys.len().saturating_sub(up_to);
        let mut best = None;
        for _ in 0..LEVELS {
            if place == 0 {
                break;
            }
            best = greater(best, self.tree.get(place - 1).copied().flatten());
            place = place.saturating_sub(lowest_bit(place));
        }
        best
    }
}

// The lowest bit of the number that is set.
fn lowest_bit(number: usize) -> usize {
    number & number.wrapping_neg()
}

// The one with the greater value.
fn greater(a: Option<(u32, i64)>, b: Option<(u32, i64)>) -> Option<(u32, i64)> {
    match (a, b) {
        (Some(first), Some(second)) if first.0 >= second.0 => Some(first),
        (Some(first), None) => Some(first),
        (_, second) => second,
    }
}
