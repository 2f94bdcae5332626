//! The items that queues, stacks and sets hold.
ghost use Rattle.std.specs.Prelude.{◌≡◌, ◌≤◌, ◌∷◌, [], ◌++◌, length, slice_get, int_lt, position, ◌<◌, ◌+◌, drop, false, IsTrue, IfSome, IfOk, IfErr};
ghost use Rattle.std.specs.List.{position_or_len};
ghost use Rattle.std.specs.Ordering.{int_eq};
ghost use Rattle.lin_object.specs.Items.{is_in};

use crate::reply::Reply;
use std::alloc::{AllocError, Global};
use std::hash::{Hash, Hasher};
use std::marker::Model;

// So much room is made in front of items at least.
const LEAST_ROOM: usize = 4;

/// Items in an order: the state of a queue, a stack or a set.
///
/// In front of them may be room for others, so that an item can be put first, or taken from there, in place.
#[derive(Debug, Drop)]
pub struct Items {
    items: Vec<i64>,
    // So many places in front are room.
    room: usize,
}

impl Model for Items {
    ghost use Rattle.std.specs.Prelude.{◌≤◌, List, ℤ, length, drop};

    ghost Value = { List ℤ };

    ghost view = { λ items. drop items.room items.items.items };

    ghost invariant = { λ items. items.room ≤ length items.items.items };
}

impl PartialEq for Items {
    ghost use Rattle.std.specs.Ordering.{int_eq};
    ghost use Rattle.std.specs.Cmp.Lexicographic.{pointwise};
    ghost use Rattle.std.specs.Cmp.Rules.{comparing};
    ghost use Rattle.std.proofs.Common.{rules};

    ghost eq = { pointwise int_eq };

    ghost laws = { Prim.search (comparing, rules) };

    fn eq(&self, other: &Items) -> bool {
        self.as_slice() == other.as_slice()
    }
}

impl Eq for Items {
    ghost use Rattle.std.specs.Cmp.Rules.{comparing};
    ghost use Rattle.std.proofs.Common.{rules};

    ghost laws = { Prim.search (comparing, rules) };
}

impl Hash for Items {
    ghost use Rattle.std.proofs.Common.{ap};
    ghost use Rattle.std.specs.Hash as fed;
    ghost use Rattle.lin_object.specs.ItemLemmas.{items_same};

    ghost hash_input = { fed.slice fed.i64 };

    ghost respects_eq = { λ x y same. ap (fed.slice fed.i64) (items_same x y same) };

    fn hash<H: Hasher>(&self, state: &mut H) {
        self.as_slice().hash(state);
    }
}

// The first item that is greater.
fn first_greater(items: &[i64], item: i64) -> Option<usize>
    ensures value { result ≡ position (λ x. int_lt item x) items.now }
    ensures within { IfSome result (λ place. place < length items.now) }
{
    items.iter().position(|other| item < *other)
}

// Where the item goes among items in increasing order: in front of the first that is greater.
fn place_of(items: &[i64], item: i64) -> usize
    ensures place { result ≡ position_or_len (λ x. int_lt item x) items.now }
    ensures within { result ≤ length items.now }
{
    first_greater(items, item).unwrap_or(items.len())
}

// The first place of the item.
fn first_place_of(items: &[i64], item: i64) -> Option<usize>
    ensures value { result ≡ position (λ x. int_eq x item) items.now }
    ensures within { IfSome result (λ place. place < length items.now) }
{
    items.iter().position(|other| *other == item)
}

// Whether the item is not behind the place.
fn is_only_at(items: &[i64], item: i64, place: usize) -> bool
    requires { place < length items.now }
    ensures { IsTrue result → is_in item (drop (place + 1) items.now) ≡ false }
{
    let (_, behind) = items.split_at(place + 1);
    !behind.contains(&item)
}

// The items in front, this one, and the items behind it. Room for all of them is made at once.
fn joined(alloc: Global, front: &[i64], item: i64, behind: &[i64]) -> Result<Items, AllocError>
    ensures { IfOk result (λ items. items ≡ front.now ++ item ∷ behind.now) }
{
    let mut items = Vec::with_capacity(alloc, front.len() + behind.len() + 1)?;
    items.extend_from_slice(front)?;
    items.push(item)?;
    items.extend_from_slice(behind)?;
    Ok(Items::of(items))
}

impl Items {
    ghost use Rattle.std.specs.Prelude.{◌-◌, take, insert, remove};
    ghost use Rattle.lin_object.specs.Items.{reply_to_first, with_in_order, without_item};

    // These items, with no room in front.
    fn of(items: Vec<i64>) -> Items
        ensures { result ≡ items.items }
    {
        Items { items, room: 0 }
    }

    // The items.
    fn as_slice(&self) -> &[i64]
        ensures { result.now ≡ self.now }
    {
        let (_, items) = self.items.as_slice().split_at(self.room);
        items
    }

    /// No item. It takes no memory.
    pub fn none(alloc: Global) -> Self
        ensures { result ≡ [] }
    {
        Items::of(Vec::new(alloc))
    }

    /// The same items.
    pub fn copy(&self, alloc: Global) -> Result<Items, AllocError>
        ensures { IfOk result (λ copy. copy ≡ self.now) }
    {
        let items = Vec::from_slice(alloc, self.as_slice())?;
        Ok(Items::of(items))
    }

    /// The items, and this one behind them.
    pub fn with_last(&self, alloc: Global, item: i64) -> Result<Items, AllocError>
        ensures { IfOk result (λ items. items ≡ self.now ++ item ∷ []) }
    {
        let mut longer = Vec::with_capacity(alloc, self.as_slice().len() + 1)?;
        longer.extend_from_slice(self.as_slice())?;
        longer.push(item)?;
        Ok(Items::of(longer))
    }

    /// This item, and the items behind it.
    pub fn with_first(&self, alloc: Global, item: i64) -> Result<Items, AllocError>
        ensures { IfOk result (λ items. items ≡ item ∷ self.now) }
    {
        let mut items = Vec::with_capacity(alloc, self.as_slice().len() + 1)?;
        items.push(item)?;
        items.extend_from_slice(self.as_slice())?;
        Ok(Items::of(items))
    }

    /// The first item, where there is one.
    pub fn first(&self) -> Option<i64>
        ensures { result ≡ slice_get self.now 0 }
    {
        self.as_slice().first().copied()
    }

    /// What taking the first item out replies: the item, or `Empty` where there is none.
    pub(crate) fn reply_to_first(&self) -> Reply
        ensures { result ≡ reply_to_first self.now }
    {
        match self.first() {
            Some(item) => Reply::Int(item),
            None => Reply::Empty,
        }
    }

    /// The items but the first.
    pub fn without_first(&self, alloc: Global) -> Result<Items, AllocError>
        ensures { IfOk result (λ items. items ≡ drop 1 self.now) }
    {
        let items = match self.as_slice().split_first() {
            Some((_, rest)) => Vec::from_slice(alloc, rest)?,
            None => Vec::new(alloc),
        };
        Ok(Items::of(items))
    }

    /// Whether the item is among them.
    pub fn has(&self, item: i64) -> bool
        ensures { result ≡ is_in item self.now }
    {
        self.as_slice().contains(&item)
    }

    /// The items, and this one in front of the first that is greater.
    pub fn with_in_order(&self, alloc: Global, item: i64) -> Result<Items, AllocError>
        ensures { IfOk result (λ items. items ≡ with_in_order item self.now) }
    {
        let items = self.as_slice();
        let (front, behind) = items.split_at(place_of(items, item));
        joined(alloc, front, item, behind)
    }

    /// The items that are not this one.
    pub fn without(&self, alloc: Global, item: i64) -> Result<Items, AllocError>
        ensures { IfOk result (λ items. items ≡ without_item item self.now) }
    {
        let mut items = Vec::from_slice(alloc, self.as_slice())?;
        items.retain(|other| *other != item);
        Ok(Items::of(items))
    }

    /// Puts the item last. `AllocError` where memory was refused; the items stay as they are then.
    pub(crate) fn put_last(&mut self, item: i64) -> Result<(), AllocError>
        ensures done { IfOk result (λ done. self.new ≡ self.old ++ item ∷ []) }
        ensures kept { IfErr result (λ _. self.new ≡ self.old) }
    {
        self.items.push(item)?;
        Ok(())
    }

    /// Takes the last item out, where there is one.
    pub(crate) fn take_last(&mut self)
        ensures { self.new ≡ take (length self.old - 1) self.old }
    {
        if self.room < self.items.len() {
            self.items.pop();
        }
    }

    // Makes room in front, for as many items as there are.
    fn make_room(&mut self, alloc: Global) -> Result<(), AllocError>
        ensures { self.new ≡ self.old }
    {
        let items = self.as_slice();
        let room = items.len().max(LEAST_ROOM);
        let mut longer = Vec::new(alloc);
        longer.resize(room, 0)?;
        longer.extend_from_slice(items)?;
        *self = Items {
            items: longer,
            room,
        };
        Ok(())
    }

    // Puts the item first where there is room: whether there is.
    fn put_into_room(&mut self, item: i64) -> bool
        ensures done { IsTrue result → self.new ≡ item ∷ self.old }
        ensures kept { (IsTrue result → ⊥) → self.new ≡ self.old }
    {
        if self.room == 0 {
            return false;
        }
        let place = self.room - 1;
        self.items[place] = item;
        self.room = place;
        true
    }

    /// Puts the item first. `AllocError` where memory was refused; the items stay as they are then.
    pub(crate) fn put_first(&mut self, alloc: Global, item: i64) -> Result<(), AllocError>
        ensures done { IfOk result (λ done. self.new ≡ item ∷ self.old) }
        ensures kept { IfErr result (λ _. self.new ≡ self.old) }
    {
        if self.room == 0 {
            self.make_room(alloc)?;
        }
        self.put_first_again(item)
    }

    /// Puts an item that was the first there again. No memory is asked for: `AllocError` where there is no room.
    pub(crate) fn put_first_again(&mut self, item: i64) -> Result<(), AllocError>
        ensures done { IfOk result (λ done. self.new ≡ item ∷ self.old) }
        ensures kept { IfErr result (λ _. self.new ≡ self.old) }
    {
        if self.put_into_room(item) {
            Ok(())
        } else {
            Err(AllocError)
        }
    }

    /// Takes the first item out, where there is one.
    pub(crate) fn take_first(&mut self)
        ensures { self.new ≡ drop 1 self.old }
    {
        if self.room < self.items.len() {
            self.room += 1;
        }
    }

    /// Puts the item in front of the first that is greater: at which place that is. `AllocError` where memory was
    /// refused; the items stay as they are then.
    pub(crate) fn put_in_order(&mut self, item: i64) -> Result<usize, AllocError>
        ensures done { IfOk result (λ place. self.new ≡ with_in_order item self.old) }
        ensures back { IfOk result (λ place. (place < length self.new)
            × (remove self.new place ≡ self.old)) }
        ensures kept { IfErr result (λ _. self.new ≡ self.old) }
    {
        let place = place_of(self.as_slice(), item);
        self.items.insert(self.room + place, item)?;
        Ok(place)
    }

    /// The place of the item, where it is among them once. `None` where it is not, or more than once.
    pub(crate) fn only_place_of(&self, item: i64) -> Option<usize>
        ensures within { IfSome result (λ place. place < length self.now) }
        ensures without { IfSome result (λ place. without_item item self.now ≡ remove self.now place) }
    {
        let items = self.as_slice();
        match first_place_of(items, item) {
            Some(place) if is_only_at(items, item, place) => Some(place),
            _ => None,
        }
    }

    /// Takes the item at the place out.
    ///
    /// Condition: there is one.
    pub(crate) fn take_out(&mut self, place: usize) -> i64
        requires { place < length self.old }
        ensures rest { self.new ≡ remove self.old place }
        ensures back { (place ≤ length self.new) × (insert self.new place result ≡ self.old) }
    {
        self.items.remove(self.room + place)
    }

    /// Puts an item that was at the place in again. No memory is asked for: `AllocError` where there is no room.
    ///
    /// Condition: the place is within the items, or behind the last.
    pub(crate) fn put_in_again(&mut self, place: usize, item: i64) -> Result<(), AllocError>
        requires { place ≤ length self.old }
        ensures done { IfOk result (λ done. self.new ≡ insert self.old place item) }
        ensures kept { IfErr result (λ _. self.new ≡ self.old) }
    {
        if self.items.len() >= self.items.capacity() {
            return Err(AllocError);
        }
        self.items.insert(self.room + place, item)?;
        Ok(())
    }

    /// How many items there are.
    pub(crate) fn count(&self) -> usize
        ensures { result ≡ length self.now }
    {
        self.as_slice().len()
    }
}
