//! The nodes of the open blocks that pending calls alone led to, found by keys of their states.
//!
//! What is found is a hint: it is compared.

use std::alloc::{AllocError, Global};

// To how many places keys lead at first. There are always at least as many as nodes: a block may have a hundred thousand.
const PLACES: usize = 1 << 6;

// The number of no node.
const NONE: u32 = u32::MAX;

/// A node: its number, its key, and the one before it whose key led to the same place.
#[derive(Clone, Copy)]
pub(crate) struct Found {
    pub(crate) node: usize,
    pub(crate) key: u64,
    pub(crate) earlier: u32,
}

/// The nodes in the order of their numbers, and for each place the last whose key led to it.
#[derive(Drop)]
pub(crate) struct States {
    nodes: Vec<Found>,
    last: Vec<u32>,
}

impl States {
    /// None. It takes no memory.
    pub(crate) fn new(alloc: Global) -> Self {
        States {
            nodes: Vec::new(alloc),
            last: Vec::new(alloc),
        }
    }

    // The place to which a key leads. The number of places is a power of two.
    fn place_of(&self, key: u64) -> usize {
        (key ^ (key >> 32)) as usize & self.last.len().saturating_sub(1)
    }

    /// The last one whose key leads to the same place.
    pub(crate) fn last_of(&self, key: u64) -> u32 {
        let place = self.place_of(key);
        self.last.get(place).copied().unwrap_or(NONE)
    }

    /// The one of this number.
    pub(crate) fn get(&self, number: u32) -> Option<Found> {
        self.nodes.get(number as usize).copied()
    }

    /// Adds the node, whose number is above those of all others.
    pub(crate) fn add(&mut self, node: usize, key: u64) -> Result<(), AllocError> {
        let number = self.nodes.len();
        if number >= self.last.len() {
            self.make_places()?;
        }
        let earlier = NONE;
        self.nodes.push(Found { node, key, earlier })?;
        self.link(number);
        Ok(())
    }

    // Makes twice as many places, and has the keys lead to them.
    fn make_places(&mut self) -> Result<(), AllocError> {
        let places = usize::max(PLACES, self.last.len().saturating_mul(2));
        self.last.clear();
        self.last.resize(places, NONE)?;
        for number in 0..self.nodes.len() {
            self.link(number);
        }
        Ok(())
    }

    // Makes the one of this number the last of its place.
    fn link(&mut self, number: usize) {
        let Some(found) = self.nodes.get(number).copied() else {
            return;
        };
        let earlier = self.last_of(found.key);
        if let Some(node) = self.nodes.get_mut(number) {
            node.earlier = earlier;
        }
        self.put(found.key, usize::min(number, NONE as usize) as u32);
    }

    // Makes the one of this number the last of the place to which the key leads.
    fn put(&mut self, key: u64, number: u32) {
        let place = self.place_of(key);
        if let Some(last) = self.last.get_mut(place) {
            *last = number;
        }
    }

    /// Takes out the nodes from this one on, the last one first.
    pub(crate) fn take_from(&mut self, node: usize) {
        for _ in 0..self.nodes.len() {
            let Some(found) = self.nodes.last().copied() else {
                return;
            };
            if found.node < node {
                return;
            }
            self.put(found.key, found.earlier);
            self.nodes.pop();
        }
    }
}
