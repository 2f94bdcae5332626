//! The pairs of a key and its value that maps hold.
ghost use Rattle.std.specs.Prelude.{◌≡◌, ◌≤◌, ◌+◌, ◌∷◌, [], ◌++◌, not, length, int_lt, position, ◌<◌, drop, false, IsTrue, IfSome, IfNone, IfOk, IfErr};
ghost use Rattle.std.specs.List.{list_any};
ghost use Rattle.std.specs.Ordering.{int_eq};
ghost use Rattle.lin_object.specs.Pairs.{place_of_key, behind_key};

use crate::reply::Reply;
use std::alloc::{AllocError, Global};
use std::hash::{Hash, Hasher};
use std::marker::Model;

/// A key of a map, and the value that it has there.
#[derive(Clone, Copy, PartialEq, Eq, Hash, Debug)]
pub struct Pair {
    /// The key.
    pub key: i64,
    /// Its value.
    pub value: i64,
}

/// Pairs in an order: the state of a map.
#[derive(Debug, Drop)]
pub struct Pairs {
    pairs: Vec<Pair>,
}

impl Model for Pairs {
    ghost use Rattle.std.specs.Prelude.{List};
    ghost use Rattle.lin_object.specs.declared.pairs.Pair as declared;

    ghost Value = { List declared.Pair };

    ghost view = { λ pairs. pairs.pairs.items };
}

impl PartialEq for Pairs {
    ghost use Rattle.std.specs.Cmp.{partial_equiv_from_equiv};
    ghost use Rattle.std.specs.Cmp.Lexicographic.{pointwise};
    ghost use Rattle.lin_object.specs.PairLemmas.{pairs_equiv};

    ghost eq = { pointwise ⟦<Pair as PartialEq>⟧.eq };

    ghost laws = { partial_equiv_from_equiv pairs_equiv };

    fn eq(&self, other: &Pairs) -> bool {
        self.pairs.as_slice() == other.pairs.as_slice()
    }
}

impl Eq for Pairs {
    ghost use Rattle.lin_object.specs.PairLemmas.{pairs_equiv};

    ghost laws = { pairs_equiv };
}

impl Hash for Pairs {
    ghost use Rattle.std.proofs.Common.{ap};
    ghost use Rattle.std.specs.Hash as fed;
    ghost use Rattle.lin_object.specs.PairLemmas.{pairs_same};

    ghost hash_input = { fed.slice ⟦<Pair as Hash>⟧.hash_input };

    ghost respects_eq = { λ x y same. ap (fed.slice ⟦<Pair as Hash>⟧.hash_input) (pairs_same x y same) };

    fn hash<H: Hasher>(&self, state: &mut H) {
        self.pairs.as_slice().hash(state);
    }
}

// The first pair whose key is not lower.
fn first_not_lower(pairs: &[Pair], key: i64) -> Option<usize>
    ensures value { result ≡ position (λ pair. not (int_lt pair.key key)) pairs.now }
    ensures within { IfSome result (λ place. place < length pairs.now) }
{
    pairs.iter().position(|pair| !(pair.key < key))
}

// Where the key is, or goes, among keys in increasing order: at the first that is not lower.
fn place_of_key(pairs: &[Pair], key: i64) -> usize
    ensures place { result ≡ place_of_key key pairs.now }
    ensures within { result ≤ length pairs.now }
{
    first_not_lower(pairs, key).unwrap_or(pairs.len())
}

// The first place of the key.
fn first_place_of(pairs: &[Pair], key: i64) -> Option<usize>
    ensures value { result ≡ position (λ pair. int_eq pair.key key) pairs.now }
    ensures within { IfSome result (λ place. place < length pairs.now) }
{
    pairs.iter().position(|pair| pair.key == key)
}

// Whether one of the pairs has the key.
fn has_key(pairs: &[Pair], key: i64) -> bool
    ensures { result ≡ list_any (λ pair. int_eq pair.key key) pairs.now }
{
    pairs.iter().any(|pair| pair.key == key)
}

// Whether the key is not behind the place.
fn is_only_at(pairs: &[Pair], key: i64, place: usize) -> bool
    requires { place < length pairs.now }
    ensures { IsTrue result → list_any (λ pair. int_eq pair.key key) (drop (place + 1) pairs.now)
        ≡ false }
{
    let (_, behind) = pairs.split_at(place + 1);
    !has_key(behind, key)
}

// The pair at the place, where it has the key.
fn pair_with_key(pairs: &[Pair], place: usize, key: i64) -> Option<Pair>
    ensures within { IfSome result (λ pair. place < length pairs.now) }
    ensures some { IfSome result (λ pair. behind_key key (drop place pairs.now)
        ≡ drop (place + 1) pairs.now) }
    ensures none { IfNone result (behind_key key (drop place pairs.now) ≡ drop place pairs.now) }
{
    match pairs.get(place) {
        Some(pair) if pair.key == key => Some(*pair),
        _ => None,
    }
}

// The pairs, without the first where it has the key.
fn behind_key(pairs: &[Pair], key: i64) -> &[Pair]
    ensures { result.now ≡ behind_key key pairs.now }
{
    match pairs.split_first() {
        Some((first, rest)) if first.key == key => rest,
        _ => pairs,
    }
}

// The pairs in front, this one, and the pairs behind it. Room for all of them is made at once.
fn joined(alloc: Global, front: &[Pair], pair: Pair, behind: &[Pair]) -> Result<Pairs, AllocError>
    ensures { IfOk result (λ pairs. pairs ≡ front.now ++ pair ∷ behind.now) }
{
    let mut pairs = Vec::with_capacity(alloc, front.len() + behind.len() + 1)?;
    pairs.extend_from_slice(front)?;
    pairs.push(pair)?;
    pairs.extend_from_slice(behind)?;
    Ok(Pairs { pairs })
}

impl Pairs {
    ghost use Rattle.std.specs.Prelude.{is_some, insert, remove, set};
    ghost use Rattle.lin_object.specs.Pairs.{value_at, reply_to_lookup, with_value, without_key};

    /// No pair. It takes no memory.
    pub fn none(alloc: Global) -> Self
        ensures { result ≡ [] }
    {
        Pairs {
            pairs: Vec::new(alloc),
        }
    }

    /// The same pairs.
    pub fn copy(&self, alloc: Global) -> Result<Pairs, AllocError>
        ensures { IfOk result (λ copy. copy ≡ self.now) }
    {
        let pairs = Vec::from_slice(alloc, self.pairs.as_slice())?;
        Ok(Pairs { pairs })
    }

    /// The value of the key, where it has one.
    pub fn value_at(&self, key: i64) -> Option<i64>
        ensures { result ≡ value_at key self.now }
    {
        let found = self.pairs.as_slice().iter().find(|pair| pair.key == key);
        found.map(|pair| pair.value)
    }

    /// Whether the key has a value.
    pub fn has(&self, key: i64) -> bool
        ensures { result ≡ is_some (value_at key self.now) }
    {
        self.value_at(key).is_some()
    }

    /// What looking the key up replies: its value, or `Empty` where it has none.
    pub(crate) fn reply_to_lookup(&self, key: i64) -> Reply
        ensures { result ≡ reply_to_lookup (value_at key self.now) }
    {
        match self.value_at(key) {
            Some(value) => Reply::Int(value),
            None => Reply::Empty,
        }
    }

    /// The pairs, where the key now has this value: in place of its pair, or in front of the first
    /// greater key.
    pub fn with_value(&self, alloc: Global, key: i64, value: i64) -> Result<Pairs, AllocError>
        ensures { IfOk result (λ pairs. pairs ≡ with_value key value self.now) }
    {
        let pairs = self.pairs.as_slice();
        let (front, rest) = pairs.split_at(place_of_key(pairs, key));
        joined(alloc, front, Pair { key, value }, behind_key(rest, key))
    }

    /// The pairs of the other keys.
    pub fn without_key(&self, alloc: Global, key: i64) -> Result<Pairs, AllocError>
        ensures { IfOk result (λ pairs. pairs ≡ without_key key self.now) }
    {
        let mut pairs = Vec::from_slice(alloc, self.pairs.as_slice())?;
        pairs.retain(|pair| pair.key != key);
        Ok(Pairs { pairs })
    }

    /// The place of the key, or where it would be put in, and the pair there where it has the key.
    pub(crate) fn find(&self, key: i64) -> (usize, Option<Pair>)
        ensures place { result.0 ≡ place_of_key key self.now }
        ensures within { result.0 ≤ length self.now }
        ensures there { IfSome result.1 (λ pair. result.0 < length self.now) }
        ensures some { IfSome result.1 (λ pair. behind_key key (drop result.0 self.now)
            ≡ drop (result.0 + 1) self.now) }
        ensures none { IfNone result.1 (behind_key key (drop result.0 self.now)
            ≡ drop result.0 self.now) }
    {
        let pairs = self.pairs.as_slice();
        let place = place_of_key(pairs, key);
        (place, pair_with_key(pairs, place, key))
    }

    /// Puts the pair in place of that at the place, which is returned.
    ///
    /// Condition: there is one.
    pub(crate) fn replace(&mut self, place: usize, pair: Pair) -> Pair
        requires { place < length self.old }
        ensures done { self.new ≡ set self.old place pair }
        ensures back { (place < length self.new) × (set self.new place result ≡ self.old) }
    {
        let before = self.pairs[place];
        self.pairs[place] = pair;
        before
    }

    /// Whether no pair has the key.
    pub(crate) fn lacks(&self, key: i64) -> bool
        ensures { IsTrue result → without_key key self.now ≡ self.now }
    {
        !has_key(self.pairs.as_slice(), key)
    }

    /// Puts the pair in at the place. `AllocError` where memory was refused; the pairs stay as they are then.
    ///
    /// Condition: the place is within the pairs, or behind the last.
    pub(crate) fn put_in(&mut self, place: usize, pair: Pair) -> Result<(), AllocError>
        requires { place ≤ length self.old }
        ensures done { IfOk result (λ done. self.new ≡ insert self.old place pair) }
        ensures back { IfOk result (λ done. (place < length self.new)
            × (remove self.new place ≡ self.old)) }
        ensures kept { IfErr result (λ _. self.new ≡ self.old) }
    {
        self.pairs.insert(place, pair)?;
        Ok(())
    }

    /// Puts a pair that was at the place in again. No memory is asked for: `AllocError` where there is no room.
    ///
    /// Condition: the place is within the pairs, or behind the last.
    pub(crate) fn put_in_again(&mut self, place: usize, pair: Pair) -> Result<(), AllocError>
        requires { place ≤ length self.old }
        ensures done { IfOk result (λ done. self.new ≡ insert self.old place pair) }
        ensures kept { IfErr result (λ _. self.new ≡ self.old) }
    {
        if self.pairs.len() >= self.pairs.capacity() {
            return Err(AllocError);
        }
        self.put_in(place, pair)
    }

    /// The place of the key, where one pair has it. `None` where none has, or more than one.
    pub(crate) fn only_place_of(&self, key: i64) -> Option<usize>
        ensures within { IfSome result (λ place. place < length self.now) }
        ensures without { IfSome result (λ place. without_key key self.now ≡ remove self.now place) }
    {
        let pairs = self.pairs.as_slice();
        match first_place_of(pairs, key) {
            Some(place) if is_only_at(pairs, key, place) => Some(place),
            _ => None,
        }
    }

    /// Takes the pair at the place out.
    ///
    /// Condition: there is one.
    pub(crate) fn take_out(&mut self, place: usize) -> Pair
        requires { place < length self.old }
        ensures rest { self.new ≡ remove self.old place }
        ensures back { (place ≤ length self.new) × (insert self.new place result ≡ self.old) }
    {
        self.pairs.remove(place)
    }

    /// How many pairs there are.
    pub(crate) fn count(&self) -> usize
        ensures { result ≡ length self.now }
    {
        self.pairs.len()
    }
}
