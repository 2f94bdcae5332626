//! Sets of calls, kept as words of bits.
ghost use Rattle.std.specs.Prelude.{◌≡◌, ◌≢◌, ℕ, ◌+◌, ◌-◌, ◌*◌, ◌/◌, ◌%◌, ◌^◌, ◌<◌, ◌≤◌, ◌==◌, ◌↔◌, Bool, false, true, max, length, replicate, drop, slice_index, slice_set, bit_and, bit_or, IfOk, OnErr, IsTrue};
ghost use Rattle.std.specs.Int.{bit_at, bit_not, w64};
ghost use Rattle.lin_history.specs.Problems.Continuations.{has};
ghost use Rattle.lin_search.specs.CallSet.{with_call, sum_of, folded, weight_of};
ghost use Rattle.lin_search.specs.Window.{word_at};
ghost use Rattle.lin_search.specs.FewerCalls.{IsFewerAt, IsFewerWord};

use lin_history::MAX_CALLS_ON_OBJECT;
use smallvec::SmallVec;
use std::alloc::{AllocError, Global};
use std::hash::{Hash, Hasher};
use std::marker::Model;

/// A set of calls of a problem, by their numbers. Contracts see a flag for each call of the problem.
///
/// A search lifts calls nearly in the order of their numbers, so that a set is a run of calls from the first on, and
/// a few more. The set keeps a bit for each call, in words of 64 calls, but of the leading words that are full only how
/// many they are, and no words after the last call. Two sets are equal exactly where their fields are.
#[derive(Drop)]
pub struct CallSet {
    // The sum of the weights of the calls in the set.
    hash: u64,
    // The sum of the numbers of the calls in the set.
    sum: u32,
    // How many calls the problem has.
    calls: u16,
    // How many leading words are full.
    full: u16,
    // The words after those, up to the last that is not 0. Two of them take as much room as where more words lie.
    words: SmallVec<u64, 2>,
}

impl Model for CallSet {
    ghost use Rattle.std.specs.Prelude.{List, Bool};

    ghost Value = { List Bool };

    ghost use Rattle.lin_search.specs.Window.{flags_of, IsCallSet};

    ghost view = { λ set. flags_of set.calls set.full set.words.items };

    ghost invariant = { λ set. IsCallSet set.calls set.full set.words.items set.hash set.sum };
}

impl PartialEq for CallSet {
    ghost use Rattle.std.specs.Cmp.Lexicographic.{pointwise};
    ghost use Rattle.std.specs.Cmp.Rules.{comparing};
    ghost use Rattle.std.proofs.Common.{rules};
    ghost use mathlib.Core.Bool.{beq};

    ghost eq = { pointwise beq };

    ghost laws = { Prim.search (comparing, rules) };

    fn eq(&self, other: &CallSet) -> bool {
        if self.hash != other.hash || self.calls != other.calls || self.full != other.full {
            return false;
        }
        are_same(self.words.as_slice(), other.words.as_slice())
    }
}

impl Eq for CallSet {
    ghost use Rattle.std.specs.Cmp.Rules.{comparing};
    ghost use Rattle.std.proofs.Common.{rules};

    ghost laws = { Prim.search (comparing, rules) };
}

impl Hash for CallSet {
    ghost use Rattle.std.proofs.Common.{ap};
    ghost use Rattle.lin_search.specs.CallSet.{fed_set};
    ghost use Rattle.lin_search.specs.CallSetLemmas.{flags_same};

    ghost hash_input = { fed_set };

    ghost respects_eq = { λ x y same. ap fed_set (flags_same x y same) };

    fn hash<H: Hasher>(&self, state: &mut H) {
        self.hash.hash(state);
    }
}

// A number whose lower half depends on its upper half too.
fn fold(n: u64) -> u64
    ensures { result ≡ folded n }
{
    n ^ (n >> 32)
}

// The weight of a call in the hash of a set: 64 bits that look drawn at random.
fn weight(call: usize) -> u64
    ensures { result ≡ weight_of call }
{
    let spread = (call as u64)
        .wrapping_add(1)
        .wrapping_mul(0x9E37_79B9_7F4A_7C15);
    fold(fold(spread).wrapping_mul(0xBF58_476D_1CE4_E5B9))
}

// The bit of a call in its word.
fn bit(call: usize) -> u64
    ensures { result ≡ 1 * 2 ^ (call % 64) % 2 ^ 64 }
{
    1 << (call % 64)
}

// The word at an index, which is 0 past the end.
fn word_or_zero(words: &[u64], index: usize) -> u64
    ensures { result ≡ slice_index words.now index }
{
    if index < words.len() { words[index] } else { 0 }
}

// The word at an index of a set of which so many leading words are full, and those come next.
fn word(full: usize, words: &[u64], index: usize) -> u64
    ensures { result ≡ word_at full words.now index }
{
    if index < full {
        u64::MAX
    } else {
        word_or_zero(words, index - full)
    }
}

// Whether the two are the same words.
fn are_same(a: &[u64], b: &[u64]) -> bool
    ensures { IsTrue result ↔ (a.now ≡ b.now) }
{
    a == b
}

// Puts words of 0 at the end, up to one at the index.
fn lengthen(words: &mut SmallVec<u64, 2>, index: usize) -> Result<(), AllocError>
    requires { index < 2 ^ 63 }
    ensures len { IfOk result (λ done. length words.new.items
        ≡ max (length words.old.items) (index + 1)) }
    ensures same { (i : ℕ) → slice_index words.new.items i ≡ slice_index words.old.items i }
    ensures err { OnErr result (words.new ≡ words.old) }
{
    if index < words.len() {
        return Ok(());
    }
    words.reserve(index + 1 - words.len())?;
    while words.len() <= index {
        words.push_reserved(0);
    }
    Ok(())
}

// Sets the call's bit in the word at the index.
fn set_bit(words: &mut SmallVec<u64, 2>, index: usize, call: usize)
    requires { index < length words.old.items }
    ensures { words.new.items ≡ slice_set words.old.items index
        (bit_or (slice_index words.old.items index) (1 * 2 ^ (call % 64) % 2 ^ 64)) }
{
    words.as_mut_slice()[index] |= bit(call);
}

// Whether there is a first word, and it is full.
fn starts_full(words: &[u64]) -> bool
    ensures { IsTrue result ↔ ((0 < length words.now)
        × (slice_index words.now 0 ≡ 2 ^ 64 - 1)) }
{
    !words.is_empty() && words[0] == u64::MAX
}

// Takes the leading full words out, and returns how many they were. There is seldom one, so that is asked first.
fn drop_full(words: &mut SmallVec<u64, 2>) -> usize
    ensures within { result ≤ length words.old.items }
    ensures rest { words.new.items ≡ drop result words.old.items }
    ensures full { (i : ℕ) → i < result → slice_index words.old.items i ≡ 2 ^ 64 - 1 }
    ensures stops { result < length words.old.items
        → slice_index words.old.items result ≢ 2 ^ 64 - 1 }
{
    if !starts_full(words.as_slice()) {
        return 0;
    }
    let len = words.len();
    let mut count = 0;
    while count < len && words.as_slice()[0] == u64::MAX {
        words.remove(0);
        count += 1;
    }
    count
}

// Puts full words in front, from the one at the index on, where so many leading words are full.
fn open_full(full: &mut u16, words: &mut SmallVec<u64, 2>, index: usize) -> Result<(), AllocError>
    ensures same { (i : ℕ) → word_at full.new words.new.items i
        ≡ word_at full.old words.old.items i }
    ensures opened { IfOk result (λ done. index < full.old → full.new ≡ index) }
    ensures kept { full.old ≤ index → (full.new ≡ full.old)
        × (words.new.items ≡ words.old.items) }
    ensures err { OnErr result ((full.new ≡ full.old) × (words.new ≡ words.old)) }
{
    if *full as usize <= index {
        return Ok(());
    }
    words.reserve(*full as usize - index)?;
    while *full as usize > index {
        words.insert(0, u64::MAX)?;
        *full -= 1;
    }
    Ok(())
}

// Clears the call's bit, which is set, in the word at the index.
fn clear_bit(words: &mut SmallVec<u64, 2>, index: usize, call: usize)
    requires { index < length words.old.items }
    ensures { words.new.items ≡ slice_set words.old.items index
        (bit_and (slice_index words.old.items index)
        (bit_not w64 (1 * 2 ^ (call % 64) % 2 ^ 64))) }
{
    words.as_mut_slice()[index] &= !bit(call);
}

// Takes the words of 0 at the end out.
fn drop_empty(words: &mut SmallVec<u64, 2>)
    ensures same { (i : ℕ) → slice_index words.new.items i ≡ slice_index words.old.items i }
    ensures last { 0 < length words.new.items
        → slice_index words.new.items (length words.new.items - 1) ≢ 0 }
{
    while words.len() > 0 && words.as_slice()[words.len() - 1] == 0 {
        words.pop();
    }
}

// Whether every bit of the first word is in the second, and every further one of that in the third.
fn is_fewer_word(a: u64, b: u64, of: u64) -> bool
    ensures { IsTrue result → IsFewerWord a b of }
{
    a | b == b && b | (a | of) == a | of
}

// The word of a set at an index.
fn word_of(set: &CallSet, index: usize) -> u64
    ensures { (c : ℕ) → c / 64 ≡ index → (bit_at result (c % 64) == 1) ≡ has set.now c }
{
    word(set.full as usize, set.words.as_slice(), index)
}

// How many words a set has, full ones and others.
fn count_words(set: &CallSet) -> usize
    ensures { (c : ℕ) → result ≤ c / 64 → has set.now c ≡ false }
{
    (set.full as usize).saturating_add(set.words.len())
}

// Whether that holds of the word at an index of each set.
fn is_fewer_at(a: &CallSet, b: &CallSet, of: &CallSet, index: usize) -> bool
    ensures { IsTrue result → (c : ℕ) → c / 64 ≡ index → IsFewerAt a.now b.now of.now c }
{
    is_fewer_word(word_of(a, index), word_of(b, index), word_of(of, index))
}

impl CallSet {
    /// The set with none of so many calls. `AllocError` where memory was refused.
    ///
    /// Condition: they are no more than a problem may have.
    pub fn none(alloc: Global, calls: usize) -> Result<CallSet, AllocError>
        requires { calls ≤ MAX_CALLS_ON_OBJECT }
        ensures { IfOk result (λ set. set ≡ replicate calls false) }
    {
        Ok(CallSet {
            hash: 0,
            sum: 0,
            calls: calls as u16,
            full: 0,
            words: SmallVec::new(alloc),
        })
    }

    /// The same set. `AllocError` where memory was refused.
    pub fn copy(&self, alloc: Global) -> Result<CallSet, AllocError>
        ensures { IfOk result (λ set. set ≡ self.now) }
    {
        Ok(CallSet {
            hash: self.hash,
            sum: self.sum,
            calls: self.calls,
            full: self.full,
            words: SmallVec::from_slice(alloc, self.words.as_slice())?,
        })
    }

    /// A copy of the set with the call put in. `AllocError` where memory was refused.
    ///
    /// Conditions: the call is one of the problem, and not in the set.
    pub fn copy_with(&self, alloc: Global, call: usize) -> Result<CallSet, AllocError>
        requires within { call < length self.now }
        requires outside { has self.now call ≡ false }
        ensures { IfOk result (λ set. set ≡ with_call self.now call) }
    {
        let mut set = self.copy(alloc)?;
        set.insert(call)?;
        Ok(set)
    }

    /// Whether the call is in the set.
    pub fn has(&self, call: usize) -> bool
        ensures { result ≡ has self.now call }
    {
        word(self.full as usize, self.words.as_slice(), call / 64) & bit(call) != 0
    }

    /// The sum of the numbers of the calls in the set.
    pub fn sum(&self) -> u64
        ensures { result ≡ sum_of self.now }
    {
        self.sum as u64
    }

    /// Puts the call in. Where memory was refused nothing changes.
    ///
    /// Conditions: the call is one of the problem, and not in the set.
    pub fn insert(&mut self, call: usize) -> Result<(), AllocError>
        requires within { call < length self.old }
        requires outside { has self.old call ≡ false }
        ensures lifted { IfOk result (λ done. self.new ≡ with_call self.old call) }
        ensures err { OnErr result (self.new ≡ self.old) }
    {
        let index = call / 64 - self.full as usize;
        lengthen(&mut self.words, index)?;
        set_bit(&mut self.words, index, call);
        self.full += drop_full(&mut self.words) as u16;
        self.hash = self.hash.wrapping_add(weight(call));
        self.sum += call as u32;
        Ok(())
    }

    /// Takes the call, which is in the set, out. Where memory was refused nothing changes.
    pub fn remove(&mut self, call: usize) -> Result<(), AllocError>
        requires { has self.old call ≡ true }
        ensures before { IfOk result (λ done. with_call self.new call ≡ self.old) }
        ensures outside { IfOk result (λ done. has self.new call ≡ false) }
        ensures err { OnErr result (self.new ≡ self.old) }
    {
        open_full(&mut self.full, &mut self.words, call / 64)?;
        clear_bit(&mut self.words, call / 64 - self.full as usize, call);
        drop_empty(&mut self.words);
        self.hash = self.hash.wrapping_sub(weight(call));
        self.sum -= call as u32;
        Ok(())
    }

    /// Whether every call of the set is in the other, and every call that only the other has is one of these.
    pub fn is_fewer(&self, other: &CallSet, of: &CallSet) -> bool
        ensures { IsTrue result → (c : ℕ) → IsFewerAt self.now other.now of.now c }
    {
        let words = usize::max(count_words(self), count_words(other));
        for index in 0..words {
            if !is_fewer_at(self, other, of, index) {
                return false;
            }
        }
        true
    }
}
