//! Calls in an order in which a search is to lift them.

use crate::kept::kept;
use lin_object::SeqObject;
use lin_search::Config;
use std::alloc::{AllocError, Global};

// Calls in an order, and the place of the first of them that is not lifted. That place is a hint: where it is wrong, a call
// that could be passed over is not.
#[derive(Drop)]
pub(crate) struct CallsInTurn {
    order: Vec<u16>,
    places: Vec<u16>,
    first: usize,
}

// The place in the order of each of so many calls; one behind all, where a call has none.
fn places_in(alloc: Global, order: &[u16], calls: usize) -> Result<Vec<u16>, AllocError> {
    let mut places = vec![in alloc; kept(order.len()); calls]?;
    for place in 0..order.len() {
        if let Some(slot) = places.get_mut(order[place] as usize) {
            *slot = kept(place);
        }
    }
    Ok(places)
}

impl CallsInTurn {
    // Those in the order, of so many calls, none of which is lifted.
    pub(crate) fn new(alloc: Global, order: Vec<u16>, calls: usize) -> Result<Self, AllocError> {
        let places = places_in(alloc, order.as_slice(), calls)?;
        Ok(CallsInTurn {
            order,
            places,
            first: 0,
        })
    }

    // Goes on to the first call that the configuration does not have.
    pub(crate) fn lifted<O: SeqObject>(&mut self, config: &Config<O>) {
        for place in self.first..self.order.len() {
            if !config.has(self.order[place] as usize) {
                self.first = place;
                return;
            }
        }
        self.first = self.order.len();
    }

    // Goes back to the call, which was taken out again.
    pub(crate) fn unlifted(&mut self, call: usize) {
        if let Some(place) = self.places.get(call) {
            self.first = self.first.min(*place as usize);
        }
    }

    // The place of the first that is not lifted.
    pub(crate) fn first(&self) -> usize {
        self.first
    }

    // The call that is so many behind the first that is not lifted.
    pub(crate) fn ahead(&self, count: usize) -> Option<usize> {
        Some(*self.order.get(self.first.saturating_add(count))? as usize)
    }
}
