//! The rule of a table's words and its hands' views, and what each step answers its caller.

use crate::shard::Shard;
use atomic_table::{Join, Play, Split, TableRule};
use lin_history::Problem;
use lin_object::SeqObject;
use lin_search::{Config, Longest, OwnMemo};
use std::collections::LinkedList;

/// What a table is told once, when it is made: its problem, what was known before, and how many shards and hands it has.
#[derive(Drop)]
pub struct Plan<'p, O: SeqObject> {
    pub problem: &'p Problem<O>,
    pub known: Option<&'p OwnMemo<'p, O>>,
    pub shards: u64,
    pub hands: u64,
}

/// A configuration that a hand stored: in which shard, and at which place there.
pub struct Entry<O: SeqObject> {
    pub shard: u64,
    pub place: u64,
    pub config: Config<O>,
}

/// A shard that a hand has out, with its pairs as they were when it was taken.
pub struct ShardOut<O: SeqObject> {
    pub shard: u64,
    pub pairs: LinkedList<(Config<O>, Longest)>,
}

/// What a hand has done so far. It exists in proofs alone: no value of it is made. The first view has a part for each
/// hand of the table, and `Parts` deals them out; a view with no part need not name the problem.
pub struct View<O: SeqObject> {
    pub problem: Option<Problem<O>>,
    pub parts: u64,
    pub entries: LinkedList<Entry<O>>,
    pub out: Option<ShardOut<O>>,
}

/// What holds of the words, the shards at home and all views between any two steps.
pub struct ShardRule;

impl<'p, O: SeqObject> TableRule<Shard<'p, O>, View<O>, Plan<'p, O>> for ShardRule {
    ghost use Rattle.lin_table.specs.Rule.{KeepsRule, opening_view};

    ghost holds = { KeepsRule O.State.eq };

    ghost first = { opening_view };
}

/// A shard is taken out, by an exchange of its word from 0 to 1.
pub struct TakeStep;

impl<'p, O: SeqObject> Play<Shard<'p, O>, View<O>> for TakeStep {
    ghost use Rattle.lin_table.specs.Steps.{TakeTells};

    ghost then = { TakeTells };
}

/// A shard goes home as it was taken: its word becomes 0.
pub struct GiveBackStep;

impl<'p, O: SeqObject> Play<Shard<'p, O>, View<O>> for GiveBackStep {
    ghost use Rattle.lin_table.specs.Steps.{GiveBackTells};

    ghost then = { GiveBackTells };
}

/// A shard goes home with one pair more: its word becomes 0.
pub struct GiveMoreStep;

impl<'p, O: SeqObject> Play<Shard<'p, O>, View<O>> for GiveMoreStep {
    ghost use Rattle.lin_table.specs.Steps.{GiveMoreTells};

    ghost then = { GiveMoreTells };
}

/// One part of a view becomes a new hand's, or two views become one.
pub struct Parts;

impl<O: SeqObject> Split<View<O>> for Parts {
    ghost use Rattle.lin_table.specs.Steps.{one_part_less, one_part};

    ghost left = { one_part_less };

    ghost right = { one_part };
}

impl<O: SeqObject> Join<View<O>> for Parts {
    ghost use Rattle.lin_table.specs.Steps.{both_views, no_part};

    ghost both = { both_views };

    ghost spent = { no_part };
}
