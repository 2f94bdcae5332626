//! A table and a hand, as the memo of a search.

ghost use Rattle.std.specs.Prelude.{◌≡◌, ◌↔◌, Bool, List, IfSome, IsSome, IsTrue};
ghost use Rattle.lin_history.specs.Problems.Problem.{problem_of};
ghost use Rattle.lin_history.specs.Problems.SameProblem.{SameProblem};
ghost use Rattle.lin_search.specs.Refutation.{IsRefutedWith};
ghost use Rattle.lin_search.specs.Store.{Holds};
ghost use Rattle.lin_table.specs.Hand.{IsHandOf};
ghost use Rattle.lin_table.specs.Shared.{HasGrown, IsToldTo};

use crate::hand::Hand;
use crate::table::Table;
use lin_history::Problem;
use lin_object::SeqObject;
use lin_search::{CallSet, Config, Longest, Memo, Noted};

/// A table with one worker's hand, as the memo of that worker's searches. What other hands store it shows too, so it
/// can't say which configurations it holds. Contracts see the table and the hand.
///
/// To `note` it answers as the table does: `Stranger` exactly where the table names a problem that is not the `same`;
/// `Known`, `Busy`, or `NoRoom`; and `New`, which alone changes anything: the hand has an entry more.
#[derive(Drop)]
pub struct SharedMemo<'a, 'p, O: SeqObject> {
    table: &'a Table<'p, O>,
    hand: &'a mut Hand<O>,
    ghost came: { IsHandOf table.now hand.now },
}

impl<'a, 'p, O: SeqObject> SharedMemo<'a, 'p, O> {
    /// The memo of this table and this hand. It takes no memory.
    ///
    /// Condition: the hand came with this table.
    pub fn new(table: &'a Table<'p, O>, hand: &'a mut Hand<O>) -> Self
        requires { IsHandOf table.now hand.old }
        ensures table { result.table.now ≡ table.now }
        ensures hand { result.hand.now ≡ hand.old }
        ensures same_reference { result.hand.ghost_name ≡ hand.entry.ghost_name }
    {
        SharedMemo { table, hand }
    }
}

impl<'a, 'p, O: SeqObject> Memo<O> for SharedMemo<'a, 'p, O> {
    ghost use Rattle.std.specs.Prelude.{refl};
    ghost use Rattle.std.proofs.Common.{◌∙◌, sym, subst};
    ghost use Rattle.lin_table.specs.SharedLemmas.{grown_itself, grown_twice};

    ghost changes = { λ old new. (new.table.now ≡ old.table.now)
        × (new.hand.ghost_name ≡ old.hand.ghost_name) × HasGrown old.hand.now new.hand.now };

    ghost holds = { λ m set s. Unit {0} };

    ghost is_of = { λ m. SameProblem O.eq O.State.eq O.Op.eq O.Reply.eq m.table.now.problem };

    ghost answers = { λ old p config longest noted new. IsToldTo
        (SameProblem O.eq O.State.eq O.Op.eq O.Reply.eq old.table.now.problem p)
        old.table.now.shards config old.hand.now noted new.hand.now };

    fn look(&mut self, problem: &Problem<O>, config: &Config<O>) -> Option<Longest>
        ensures refuted { IfSome result (λ longest. IsRefutedWith
            (problem_of O.after O.State.eq O.Reply.eq problem.now) config.now.lifted
            config.now.state longest) }
        ensures held { IfSome result (λ longest. Unit {0}) }
        ensures only { (set : List Bool) (s : O.State) → Unit {0} → Unit {0} }
        ensures changes { (self.new.table.now ≡ self.old.table.now)
            × (self.new.hand.ghost_name ≡ self.old.hand.ghost_name)
            × HasGrown self.old.hand.now self.new.hand.now }
        ensures same { self.new.hand.now ≡ self.old.hand.now }
        ensures ours { IsSome result → SameProblem O.eq O.State.eq O.Op.eq O.Reply.eq
            self.old.table.now.problem problem.now }
        ensures known { SameProblem O.eq O.State.eq O.Op.eq O.Reply.eq self.old.table.now.problem
            problem.now → Holds O.State.eq self.old.table.now.known config.now.lifted
            config.now.state → IsSome result }
    {
        self.table.look(self.hand, problem, config)
    }

    fn note_parts(
        &mut self,
        problem: &Problem<O>,
        lifted: CallSet,
        state: O::State,
        longest: Longest,
    ) -> Noted {
        if !self.is_for(problem) {
            return Noted::Stranger;
        }
        self.note_here(problem, lifted, state, longest)
    }

    fn is_for(&self, problem: &Problem<O>) -> bool
        ensures { IsTrue result
            ↔ SameProblem O.eq O.State.eq O.Op.eq O.Reply.eq self.now.table.now.problem
            problem.now }
    {
        self.table.problem().same(problem)
    }

    fn look_here(&mut self, problem: &Problem<O>, config: &Config<O>) -> Option<Longest>
        requires { SameProblem O.eq O.State.eq O.Op.eq O.Reply.eq self.old.table.now.problem
            problem.now }
        ensures refuted { IfSome result (λ longest. IsRefutedWith
            (problem_of O.after O.State.eq O.Reply.eq problem.now) config.now.lifted
            config.now.state longest) }
        ensures held { IfSome result (λ longest. Unit {0}) }
        ensures only { (set : List Bool) (s : O.State) → Unit {0} → Unit {0} }
        ensures changes { (self.new.table.now ≡ self.old.table.now)
            × (self.new.hand.ghost_name ≡ self.old.hand.ghost_name)
            × HasGrown self.old.hand.now self.new.hand.now }
        ensures same { self.new.hand.now ≡ self.old.hand.now }
        ensures known { Holds O.State.eq self.old.table.now.known config.now.lifted
            config.now.state → IsSome result }
    {
        self.table.look_here(self.hand, problem, config)
    }

    fn note_here(
        &mut self,
        problem: &Problem<O>,
        lifted: CallSet,
        state: O::State,
        longest: Longest,
    ) -> Noted {
        let table = self.table;
        table.note_here(self.hand, problem, lifted, state, longest)
    }

    ghost unchanged = { λ m. (refl, refl, grown_itself m.hand.now) };

    ghost chained = { λ a b c first second. (
      second.0 ∙ first.0,
      second.1 ∙ first.1,
      grown_twice a.hand.now b.hand.now c.hand.now first.2 second.2,
    ) };

    ghost lasting = { λ a b k set s h. h };

    ghost at_equal = { λ m set s t same h. h };

    ghost keeps_problem = { λ a b k p h. subst (λ t. SameProblem O.eq O.State.eq O.Op.eq
        O.Reply.eq t.problem p) (sym k.0) h };
}
