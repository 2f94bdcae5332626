//! A memo that keeps all that it is handed, in a map.
ghost use Rattle.std.specs.Prelude.{◌≡◌, ◌++◌, ◌∷◌, ◌⊎◌, ◌↔◌, [], Bool, List, true, IfSome, IsSome, IsTrue, length};
ghost use Rattle.lin_history.specs.Problems.Problem.{problem_of};
ghost use Rattle.lin_history.specs.Problems.SameProblem.{SameProblem};
ghost use Rattle.lin_search.specs.Refutation.{IsRefutedWith};
ghost use Rattle.lin_search.specs.Memo.{IsKept};
ghost use Rattle.lin_search.specs.Store.{Holds, IsNoted, IsStore, IsGrown};
ghost use Rattle.lin_search.specs.declared.memo.Noted.TheVariants.{New};

use crate::call_set::CallSet;
use crate::config::Config;
use crate::longest::Longest;
use crate::memo::{Memo, Noted};
use indexmap::IndexMap;
use lin_history::Problem;
use lin_object::{SeqObject, lawful};
use std::alloc::Global;
use std::marker::Model;

/// A memo of one problem that keeps all that it is handed, each configuration once, and shows all that it
/// has. Contracts see the problem, and the pairs in order of storing.
///
/// To `note` it answers `Stranger` exactly where it names a problem that is not the `same`; `Known` exactly
/// where the configuration is stored; else `New`, or `NoRoom` where memory was refused; never `Busy`. Only
/// `New` changes anything, and adds the pair.
#[derive(Drop)]
pub struct OwnMemo<'p, O: SeqObject> {
    problem: &'p Problem<O>,
    pairs: IndexMap<Config<O>, Longest>,
}

impl<'p, O: SeqObject> Model for OwnMemo<'p, O> {
    ghost use Rattle.lin_search.specs.Store.{Store};

    ghost Value = { Store O O.State O.Op O.Reply };

    ghost use Rattle.lin_history.specs.Problems.Problem.{problem_of};
    ghost use Rattle.lin_search.specs.Store.{IsStore};

    ghost view = { λ m. record { problem = m.problem.now; pairs = m.pairs.entries } };

    ghost invariant = { λ m. IsStore (problem_of O.after O.State.eq O.Reply.eq m.problem.now)
        m.pairs.entries };
}

impl<'p, O: SeqObject> OwnMemo<'p, O> {
    /// A memo that names the problem, with nothing in it. It takes no memory.
    pub fn new(alloc: Global, problem: &'p Problem<O>) -> Self
        ensures { result ≡ record { problem = problem.now; pairs = [] } }
    {
        OwnMemo {
            problem,
            pairs: IndexMap::new(alloc),
        }
    }

    /// The problem that the memo names.
    pub fn problem(&self) -> &'p Problem<O>
        ensures { result.now ≡ self.now.problem }
    {
        self.problem
    }

    /// How many configurations are stored.
    pub fn count(&self) -> u64
        ensures count { result ≡ length self.now.pairs }
        ensures store { IsStore (problem_of O.after O.State.eq O.Reply.eq self.now.problem)
            self.now.pairs }
    {
        self.pairs.len() as u64
    }

    /// What the longest continuations of the configuration show in the problem that the memo names: `Some`
    /// exactly where the configuration is stored. No problems are compared. It takes no memory.
    pub fn find(&self, config: &Config<O>) -> Option<Longest>
        ensures refuted { IfSome result (λ longest. IsRefutedWith
            (problem_of O.after O.State.eq O.Reply.eq self.now.problem) config.now.lifted
            config.now.state longest) }
        ensures exact { IsSome result ↔ Holds O.State.eq self.now.pairs config.now.lifted
            config.now.state }
    {
        lawful::<O>();
        self.pairs.get(config).copied()
    }

    // Stores a configuration of the problem that the memo names.
    fn add(&mut self, config: Config<O>, longest: Longest) -> Noted
        requires { IsRefutedWith (problem_of O.after O.State.eq O.Reply.eq self.old.problem)
            config.lifted config.state longest }
        ensures problem { self.new.problem ≡ self.old.problem }
        ensures exact { IsNoted O.State.eq (Unit {0}) self.old.pairs self.new.pairs config longest
            result }
    {
        lawful::<O>();
        // Where the configuration is stored, its longest is this one, and the pair stays what it is.
        match self.pairs.insert(config, longest) {
            Ok(None) => Noted::New,
            Ok(Some(_)) => Noted::Known,
            Err(_) => Noted::NoRoom,
        }
    }

    /// What the longest continuations of the configuration show: `Some` exactly where the configuration is
    /// stored and the problem that the memo names is the `same` as this one. It takes no memory.
    pub fn look(&self, problem: &Problem<O>, config: &Config<O>) -> Option<Longest>
        ensures refuted { IfSome result (λ longest. IsRefutedWith
            (problem_of O.after O.State.eq O.Reply.eq problem.now) config.now.lifted
            config.now.state longest) }
        ensures exact { IsSome result
            ↔ (SameProblem O.eq O.State.eq O.Op.eq O.Reply.eq self.now.problem problem.now
            × Holds O.State.eq self.now.pairs config.now.lifted config.now.state) }
    {
        lawful::<O>();
        if self.problem.same(problem) {
            self.find(config)
        } else {
            None
        }
    }
}

impl<'p, O: SeqObject> Memo<O> for OwnMemo<'p, O> {
    ghost use Rattle.lin_search.specs.StoreLemmas.{grown_itself, grown_twice, held_grown, held_at_equal, named_still};

    ghost changes = { IsGrown };

    ghost holds = { λ m. Holds O.State.eq m.pairs };

    ghost answers = { λ old p config longest noted new. IsNoted O.State.eq
        (SameProblem O.eq O.State.eq O.Op.eq O.Reply.eq old.problem p) old.pairs new.pairs config
        longest noted };

    ghost is_of = { λ m. SameProblem O.eq O.State.eq O.Op.eq O.Reply.eq m.problem };

    fn look(&mut self, problem: &Problem<O>, config: &Config<O>) -> Option<Longest>
        ensures refuted { IfSome result (λ longest. IsRefutedWith
            (problem_of O.after O.State.eq O.Reply.eq problem.now) config.now.lifted
            config.now.state longest) }
        ensures held { IfSome result (λ longest. Holds O.State.eq self.new.pairs config.now.lifted
            config.now.state) }
        ensures only { (set : List Bool) (s : O.State) → Holds O.State.eq self.new.pairs set s
            → Holds O.State.eq self.old.pairs set s }
        ensures changes { IsGrown self.old self.new }
        ensures exact { IsSome result
            ↔ (SameProblem O.eq O.State.eq O.Op.eq O.Reply.eq self.old.problem problem.now
            × Holds O.State.eq self.old.pairs config.now.lifted config.now.state) }
        ensures same { self.new ≡ self.old }
    {
        OwnMemo::look(self, problem, config)
    }

    fn note_parts(
        &mut self,
        problem: &Problem<O>,
        lifted: CallSet,
        state: O::State,
        longest: Longest,
    ) -> Noted
        requires { IsRefutedWith (problem_of O.after O.State.eq O.Reply.eq problem.now) lifted state
            longest }
        ensures held { IsKept result → Holds O.State.eq self.new.pairs lifted state }
        ensures exact { IsNoted O.State.eq (SameProblem O.eq O.State.eq O.Op.eq O.Reply.eq
            self.old.problem problem.now) self.old.pairs self.new.pairs
            (record { lifted = lifted; state = state }) longest result }
        ensures only { (set : List Bool) (s : O.State) → Holds O.State.eq self.new.pairs set s
            → Holds O.State.eq self.old.pairs set s
            ⊎ ((result ≡ New) × (set ≡ lifted) × (O.State.eq s state ≡ true)) }
        ensures changes { IsGrown self.old self.new }
    {
        lawful::<O>();
        if !self.problem.same(problem) {
            return Noted::Stranger;
        }
        self.add(Config::from_parts(lifted, state), longest)
    }

    fn is_for(&self, problem: &Problem<O>) -> bool
        ensures { IsTrue result ↔ SameProblem O.eq O.State.eq O.Op.eq O.Reply.eq self.now.problem
            problem.now }
    {
        let named = self.problem;
        named.same(problem)
    }

    fn look_here(&mut self, problem: &Problem<O>, config: &Config<O>) -> Option<Longest>
        requires { SameProblem O.eq O.State.eq O.Op.eq O.Reply.eq self.old.problem problem.now }
        ensures refuted { IfSome result (λ longest. IsRefutedWith
            (problem_of O.after O.State.eq O.Reply.eq problem.now) config.now.lifted
            config.now.state longest) }
        ensures held { IfSome result (λ longest. Holds O.State.eq self.new.pairs config.now.lifted
            config.now.state) }
        ensures only { (set : List Bool) (s : O.State) → Holds O.State.eq self.new.pairs set s
            → Holds O.State.eq self.old.pairs set s }
        ensures changes { IsGrown self.old self.new }
        ensures exact { IsSome result ↔ Holds O.State.eq self.old.pairs config.now.lifted
            config.now.state }
        ensures same { self.new ≡ self.old }
    {
        lawful::<O>();
        self.find(config)
    }

    fn note_here(
        &mut self,
        problem: &Problem<O>,
        lifted: CallSet,
        state: O::State,
        longest: Longest,
    ) -> Noted
        requires here { SameProblem O.eq O.State.eq O.Op.eq O.Reply.eq self.old.problem
            problem.now }
        requires refuted { IsRefutedWith (problem_of O.after O.State.eq O.Reply.eq problem.now)
            lifted state longest }
        ensures held { IsKept result → Holds O.State.eq self.new.pairs lifted state }
        ensures exact { IsNoted O.State.eq (SameProblem O.eq O.State.eq O.Op.eq O.Reply.eq
            self.old.problem problem.now) self.old.pairs self.new.pairs
            (record { lifted = lifted; state = state }) longest result }
        ensures only { (set : List Bool) (s : O.State) → Holds O.State.eq self.new.pairs set s
            → Holds O.State.eq self.old.pairs set s
            ⊎ ((result ≡ New) × (set ≡ lifted) × (O.State.eq s state ≡ true)) }
        ensures changes { IsGrown self.old self.new }
    {
        lawful::<O>();
        self.add(Config::from_parts(lifted, state), longest)
    }

    ghost unchanged = { λ m. grown_itself m };

    ghost chained = { λ a b c first second. grown_twice a b c first second };

    ghost lasting = { λ a b k set s h. held_grown O.State.eq a b k set s h };

    ghost at_equal = { λ m set s t same h. held_at_equal O.State.eq O.State.Eq.laws m.pairs set s t
        same h };

    ghost keeps_problem = { λ a b k p h. named_still (λ q.
        SameProblem O.eq O.State.eq O.Op.eq O.Reply.eq q p) a b k h };
}
