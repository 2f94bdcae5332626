//! What a worker steps on a table with.

ghost use Rattle.std.specs.Prelude.{◌≡◌, ◌↔◌, ◌<◌, ◌≤◌, [], None, IsTrue, All, length, vec_len, vec_capacity};
ghost use Rattle.lin_table.specs.Gather.{IsViewOf};
ghost use Rattle.lin_table.specs.Rule.{view};
ghost use Rattle.lin_table.specs.Steps.{one_part};

use crate::rule::{Parts, View};
use crate::steps::{Shards, Token};
use atomic_table::Badge;
use lin_object::SeqObject;
use std::marker::Model;

/// The most configurations that one hand stores.
pub(crate) const MAX_STORED: u64 = 140_737_488_355_328;

/// What a worker looks and notes with; each worker has one of its own. Contracts see the table that it came with, and
/// an entry for each configuration that it stored: the shard, the place in it and the configuration. At run time a
/// hand keeps their number alone.
#[derive(Drop)]
pub struct Hand<O: SeqObject> {
    pub(crate) badge: Badge<View<O>>,
    pub(crate) count: u64,
}

impl<O: SeqObject> Model for Hand<O> {
    ghost use Rattle.lin_table.specs.Hand.{HandFacts, facts_of, IsFree};

    ghost Value = { HandFacts O O.State O.Op O.Reply };

    ghost view = { λ h. facts_of h.badge.table_id h.badge.views };

    ghost invariant = { λ h. IsFree h.badge.views h.count };
}

impl<O: SeqObject> Hand<O> {
    /// How many configurations this hand stored: 2^47 at most.
    pub fn count(&self) -> u64
        ensures count { result ≡ length self.now.entries }
        ensures few { result ≤ MAX_STORED }
    {
        self.count
    }

    // Whether it may store one configuration more.
    pub(crate) fn has_room(&self) -> bool
        ensures { IsTrue result ↔ length self.now.entries < MAX_STORED }
    {
        MAX_STORED > self.count()
    }

    // A hand that has stored nothing yet.
    pub(crate) fn of(token: Token<'_, O>) -> Hand<O>
        requires { token.me ≡ (one_part token.me.0, []) }
        ensures { result ≡ record {
          table = token.entry.table_id;
          problem = token.entry.me.0.problem;
          entries = [];
        } }
    {
        Hand {
            badge: token.into_badge(),
            count: 0,
        }
    }

    // The token, whose view has all that the hand stored.
    pub(crate) fn into_token<'p>(self) -> Token<'p, O>
        ensures table { result.table_id ≡ self.table }
        ensures empty { result.me.1 ≡ [] }
        ensures view { IsViewOf result.me.0 self }
    {
        let Hand { badge, count: _ } = self;
        badge.into_seat()
    }
}

// Deals out the parts of the first view: so many hands.
pub(crate) fn deal<'p, O: SeqObject>(
    shards: &Shards<'p, O>,
    mut first: Token<'p, O>,
    mut hands: Vec<Hand<O>>,
    count: usize,
) -> Vec<Hand<O>>
    requires words { 0 < shards.now.table_id.words }
    requires count { 1 ≤ count }
    requires room { (hands.items ≡ []) × (count ≤ vec_capacity hands) }
    requires first { (first.table_id ≡ shards.now.table_id)
        × (first.me ≡ (view first.me.0.problem count [] None, [])) }
    ensures count { vec_len result ≡ count }
    ensures hands { All (λ hand. hand ≡ record {
      table = first.entry.table_id;
      problem = first.entry.me.0.problem;
      entries = [];
    }) result.items }
{
    for _ in 1..count {
        let token = shards.split_seat::<Parts>(&mut first);
        hands.push_reserved(Hand::of(token));
    }
    hands.push_reserved(Hand::of(first));
    hands
}
