//! All hands' views become one, one hand at a time, when a table is closed.

ghost use Rattle.std.specs.Prelude.{◌≡◌, ◌<◌, [], None, All};
ghost use Rattle.lin_table.specs.Gather.{Gathered};
ghost use Rattle.lin_table.specs.Hand.{CameWith};

use crate::hand::Hand;
use crate::rule::Parts;
use crate::steps::{Shards, Token};
use lin_object::SeqObject;

// All that the hands stored goes into the view of `first`, one hand at a time.
pub(crate) fn gather<'p, O: SeqObject>(
    shards: &Shards<'p, O>,
    mut first: Token<'p, O>,
    mut hands: Vec<Hand<O>>,
) -> Token<'p, O>
    requires words { 0 < shards.now.table_id.words }
    requires first { (first.table_id ≡ shards.now.table_id) × (0 < first.me.0.parts)
        × (first.me.0.out ≡ None) }
    requires hands { All (CameWith shards.now.table_id) hands.items }
    ensures table { (result.table_id ≡ shards.now.table_id) × (result.me.1 ≡ first.entry.me.1) }
    ensures gathered { Gathered first.entry.me.0 hands.items result.me.0 [] }
{
    while let Some(hand) = hands.pop() {
        shards.join_seat::<Parts>(&mut first, hand.into_token());
    }
    hands.destroy_empty();
    first
}
