//! Spans of a history in which something was surely there: an item, a value, a holder of a mutex. All of it is hints.

use std::alloc::{AllocError, Global};

/// A span from one event to another, in which this was there.
#[derive(Clone, Copy)]
pub(crate) struct Span {
    pub(crate) from: u32,
    pub(crate) until: u32,
    pub(crate) name: i64,
}

/// Spans in the order of their beginnings.
#[derive(Drop)]
pub(crate) struct Spans {
    spans: Vec<Span>,
    // For each span which one of those up to it ends last.
    last: Vec<usize>,
}

// For each span which one of those up to it ends last.
fn last_of(alloc: Global, spans: &[Span]) -> Result<Vec<usize>, AllocError> {
    let mut last = Vec::with_capacity(alloc, spans.len())?;
    let mut best = 0;
    let mut until = 0;
    for i in 0..spans.len() {
        if spans[i].until >= until {
            best = i;
            until = spans[i].until;
        }
        last.push(best)?;
    }
    Ok(last)
}

impl Spans {
    /// These spans.
    pub(crate) fn new(alloc: Global, spans: Vec<Span>) -> Result<Self, AllocError> {
        let mut spans = spans;
        spans.sort_by_key(|span| span.from)?;
        let last = last_of(alloc, spans.as_slice())?;
        Ok(Spans { spans, last })
    }

    /// Of the spans that began before the event the one that ends last.
    pub(crate) fn last_before(&self, event: u32) -> Option<Span> {
        let count = self.spans.partition_point(|span| span.from < event);
        let index = self.last.get(count.checked_sub(1)?)?;
        self.spans.get(*index).copied()
    }

    // Of the spans that began by the event the one that ends last, by its place, if it ends later.
    fn over(&self, event: u32) -> Option<usize> {
        let count = self.spans.partition_point(|span| span.from <= event);
        let place = *self.last.get(count.checked_sub(1)?)?;
        if self.spans.get(place)?.until > event {
            Some(place)
        } else {
            None
        }
    }

    /// How far spans go on from each span without leaving a moment out, by its place. It takes O(n log n) for n spans.
    pub(crate) fn reach(&self, alloc: Global) -> Result<Vec<u32>, AllocError> {
        let mut reach: Vec<u32> = self.spans.iter().map(|span| span.until).collect(alloc)?;
        let mut places: Vec<usize> = (0..self.spans.len()).collect(alloc)?;
        places.sort_by_key(|place| self.until_at(*place))?;
        for place in places.iter().rev() {
            let next = self.over(self.until_at(*place));
            let further = next.and_then(|next| reach.get(next).copied());
            if let (Some(further), Some(slot)) = (further, reach.get_mut(*place)) {
                *slot = further;
            }
        }
        Ok(reach)
    }

    // When the span of this place ends.
    fn until_at(&self, place: usize) -> u32 {
        self.spans.get(place).map_or(0, |span| span.until)
    }

    /// Names of spans that cover all moments from the one event to the other, where it is known how far spans go on from each. `None`
    /// where they leave a moment out: that takes O(log n) for n spans.
    pub(crate) fn cover(
        &self,
        alloc: Global,
        reach: &[u32],
        from: u32,
        until: u32,
    ) -> Result<Option<Vec<i64>>, AllocError> {
        let Some(first) = self.over(from) else {
            return Ok(None);
        };
        if reach.get(first).copied().unwrap_or(0) < until {
            return Ok(None);
        }
        let mut names = Vec::new(alloc);
        let mut next = Some(first);
        for _ in 0..self.spans.len() {
            let Some(span) = next.and_then(|place| self.spans.get(place)) else {
                break;
            };
            names.push(span.name)?;
            if span.until >= until {
                break;
            }
            next = self.over(span.until);
        }
        Ok(Some(names))
    }
}
