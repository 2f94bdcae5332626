//! The links of a list both ways, by index.
ghost use Rattle.std.specs.Prelude.{◌≡◌, ◌<◌, ◌+◌, ◌^◌, length, slice_index, IfOk};
ghost use Rattle.lin_search.specs.Links.{without, with_entry, HasLinks, IsRow};

use std::alloc::{AllocError, Global};
use std::marker::Model;

/// Entries in a row, linked both ways by index: no more than a `u16` can name. Contracts see the two lists of links.
#[derive(Drop)]
pub(crate) struct Links {
    next: Vec<u16>,
    previous: Vec<u16>,
}

impl Model for Links {
    ghost use Rattle.std.specs.Prelude.{◌≤◌, ◌^◌, length};
    ghost use Rattle.lin_search.specs.Links.{Linked};

    ghost Value = { Linked };

    ghost view = { λ l. record { next = l.next.items; previous = l.previous.items } };

    ghost invariant = { λ l. length l.next.items ≤ 2 ^ 16 };
}

impl Links {
    /// So many entries in a row, from 1 on, between 0 and the number after them.
    pub fn row(alloc: Global, count: usize) -> Result<Links, AllocError>
        requires { count + 2 < 2 ^ 16 }
        ensures { IfOk result (λ links. IsRow count links) }
    {
        let mut next = Vec::with_capacity(alloc, count + 2)?;
        let mut previous = Vec::with_capacity(alloc, count + 2)?;
        for entry in 0..count + 2 {
            next.push((entry + 1) as u16)?;
            previous.push(entry.saturating_sub(1) as u16)?;
        }
        Ok(Links { next, previous })
    }

    /// The entry after this one.
    pub fn next(&self, entry: usize) -> usize
        requires { entry < length self.now.next }
        ensures { result ≡ slice_index self.now.next entry }
    {
        self.next[entry] as usize
    }

    /// Takes the entry out: links its neighbours to each other.
    pub fn take_out(&mut self, entry: usize)
        requires { HasLinks self.old entry }
        ensures { self.new ≡ without self.old entry }
    {
        let next = self.next[entry];
        let previous = self.previous[entry];
        self.next[previous as usize] = next;
        self.previous[next as usize] = previous;
    }

    /// Puts the entry that was taken out last in again: links its neighbours to it.
    pub fn put_back(&mut self, entry: usize)
        requires { HasLinks self.old entry }
        ensures { self.new ≡ with_entry self.old entry }
    {
        let next = self.next[entry];
        let previous = self.previous[entry];
        self.next[previous as usize] = entry as u16;
        self.previous[next as usize] = entry as u16;
    }
}
