//! The rule of a board's two words and its seats' views, and what each step answers its caller.

use atomic_table::{Join, Play, Split, TableRule};
use std::collections::LinkedList;

/// The number in the second word while nothing was found.
pub const NOTHING_FOUND: u64 = u64::MAX;

/// What a board is told once, when it is made: how many tasks and how many seats it has.
#[derive(Drop)]
pub struct Plan {
    pub tasks: u64,
    pub seats: u64,
}

/// What a seat has done so far. It exists in proofs alone: no value of it is made. The first view has
/// a part for each seat of the board, and `Parts` deals them out; `ends` counts the claims for which
/// there was no task.
pub struct View {
    pub plan: Plan,
    pub parts: u64,
    pub ends: u64,
    pub claimed: LinkedList<u64>,
    pub found: LinkedList<u64>,
    pub told: LinkedList<u64>,
}

/// What holds of the two words and all views between any two steps.
pub struct BoardRule;

impl TableRule<(), View, Plan> for BoardRule {
    ghost use Rattle.lin_board.specs.Rule.{KeepsRule, opening_view};

    ghost holds = { KeepsRule };

    ghost first = { opening_view };
}

/// The step of `claim`: one is added to the first word.
pub struct ClaimStep;

impl Play<(), View> for ClaimStep {
    ghost use Rattle.lin_board.specs.Steps.{ClaimTells};

    ghost then = { λ step before number after. ClaimTells before number after };
}

/// The step of `found`: the second word becomes the lesser of itself and the task.
pub struct FoundStep;

impl Play<(), View> for FoundStep {
    ghost use Rattle.lin_board.specs.Steps.{FoundTells};

    ghost then = { λ step before number after. FoundTells step.first before after };
}

/// The step of `least`: the second word is read.
pub struct LeastStep;

impl Play<(), View> for LeastStep {
    ghost use Rattle.lin_board.specs.Steps.{LeastTells};

    ghost then = { λ step before number after. LeastTells before number after };
}

/// One part of a view becomes a new seat's, or two views become one.
pub struct Parts;

impl Split<View> for Parts {
    ghost use Rattle.lin_board.specs.Steps.{one_part_less, one_part};

    ghost left = { one_part_less };

    ghost right = { one_part };
}

impl Join<View> for Parts {
    ghost use Rattle.lin_board.specs.Steps.{both_views, no_part};

    ghost both = { both_views };

    ghost spent = { no_part };
}
