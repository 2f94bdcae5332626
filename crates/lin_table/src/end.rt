//! What is left of a table at its end: shards, which are lawful, and hands, which know how much they stored.

ghost use Rattle.std.specs.Prelude.{◌≡◌, ℕ, ◌*◌, ◌%◌, ◌^◌, ◌≤◌, length};
ghost use Rattle.std.specs.Mem.Slots.{IsFull, slots_items};
ghost use mathlib.Core.Option.{some};
ghost use lib.ListN.{get_elem?};
ghost use Rattle.lin_history.specs.Problems.Problem.{problem_of};
ghost use Rattle.lin_search.specs.Store.{IsStore};
ghost use Rattle.lin_table.specs.Gather.{entries_in};

use crate::hand::{Hand, MAX_STORED};
use crate::shard::Shard;
use atomic_table::Closed;
use lin_object::SeqObject;
use std::alloc::Global;

// Lets a shard go, which is lawful.
fn let_go<O: SeqObject>(shard: Shard<'_, O>)
    ensures { IsStore (problem_of O.after O.State.eq O.Reply.eq shard.entry.problem)
        shard.entry.pairs }
{
    shard.len();
}

// Takes all shards out of a table that is closed, and frees its memory. Each was lawful.
pub(crate) fn free_shards<O: SeqObject>(mut closed: Closed<Shard<'_, O>, Global>)
    requires { IsFull closed.slots }
    ensures { (k : ℕ) (shard : _) → get_elem? (slots_items closed.entry.slots) k ≡ some shard
        → IsStore (problem_of O.after O.State.eq O.Reply.eq shard.problem) shard.pairs }
{
    let mut at = 0;
    while at < closed.slot_count() {
        let_go(closed.take(at));
        at += 1;
    }
    closed.free();
}

// How many configurations the hands stored, modulo 2^64.
pub(crate) fn stored_by<O: SeqObject>(hands: &[Hand<O>]) -> u64
    ensures sum { result ≡ length (entries_in hands.now) % 2 ^ 64 }
    ensures few { length (entries_in hands.now) ≤ length hands.now * MAX_STORED }
{
    let mut stored = 0u64;
    for hand in hands {
        stored = stored.wrapping_add(hand.count());
    }
    stored
}
