//! Memos of refuted configurations (Lowe 2017), and what they answer.
ghost use Rattle.std.specs.Prelude.{◌≡◌, ◌↔◌, ◌⊎◌, Bool, List, true, IfSome, IsTrue};
ghost use Rattle.lin_history.specs.Problems.ProblemParts.{ProblemParts};
ghost use Rattle.lin_history.specs.Problems.Problem.{problem_of};
ghost use Rattle.lin_search.specs.Configuration.{Configuration};
ghost use Rattle.lin_search.specs.Refutation.{IsRefutedWith};
ghost use Rattle.lin_search.specs.Memo.{IsKept};
ghost use Rattle.lin_search.specs.declared.longest.Longest.{Longest};
ghost use Rattle.lin_search.specs.declared.memo.Noted.{Noted};
ghost use Rattle.lin_search.specs.declared.memo.Noted.TheVariants.{New};

use crate::call_set::CallSet;
use crate::config::Config;
use crate::longest::Longest;
use crate::refutation::Refutation;
use lin_history::Problem;
use lin_object::SeqObject;

/// What became of a refutation that was handed to a memo. Only `New` changes what the memo holds.
#[derive(Clone, Copy, PartialEq, Eq, Debug)]
pub enum Noted {
    /// It was not there, and is now.
    New,
    /// It was there.
    Known,
    /// The memo was not free to take it.
    Busy,
    /// Memory for it was refused.
    NoRoom,
    /// The memo names another problem.
    Stranger,
}

impl Noted {
    /// Whether the memo has the configuration now.
    pub fn is_kept(self) -> bool
        ensures { IsTrue result ↔ IsKept self }
    {
        match self {
            Noted::New | Noted::Known => true,
            Noted::Busy | Noted::NoRoom | Noted::Stranger => false,
        }
    }
}

/// A store of refuted configurations (Lowe 2017). It need not keep what it is handed, nor show all that it
/// has; what it shows is true.
///
/// A memo names a relation from an old state to a new one that each of its calls keeps, and says which
/// configurations it holds; one that does not know says that it holds all.
pub trait Memo<O: SeqObject> {
    // What any calls may make of the memo: the old one, and then the new one.
    ghost changes: { Self → Self → Type 0 };

    // The memo holds the configuration of this set and this state.
    ghost holds: { Self → List Bool → O.State → Type 0 };

    // The memo names this very problem, so that nothing has to be compared.
    ghost is_of: { Self → ProblemParts O O.State O.Op O.Reply → Type 0 };

    // What the memo's answer to a refutation says, of the memo before and after it. A memo that promises no
    // more than the clauses below says nothing.
    ghost answers: { Self → ProblemParts O O.State O.Op O.Reply → Configuration O.State → Longest
        → Noted → Self → Type 0 };

    /// What the longest continuations of the configuration show, where the memo has it and names a problem
    /// that is the same: then the configuration is refuted in the asker's problem.
    fn look(&mut self, problem: &Problem<O>, config: &Config<O>) -> Option<Longest>
        ensures refuted { IfSome result (λ longest. IsRefutedWith
            (problem_of O.after O.State.eq O.Reply.eq problem.now) config.now.lifted
            config.now.state longest) }
        ensures held { IfSome result (λ longest. holds self.new config.now.lifted
            config.now.state) }
        ensures only { (set : List Bool) (s : O.State) → holds self.new set s
            → holds self.old set s }
        ensures changes { changes self.old self.new };

    /// Hands a refutation to the memo by its parts. Condition: they are one.
    fn note_parts(
        &mut self,
        problem: &Problem<O>,
        lifted: CallSet,
        state: O::State,
        longest: Longest,
    ) -> Noted
        requires { IsRefutedWith (problem_of O.after O.State.eq O.Reply.eq problem.now) lifted state
            longest }
        ensures held { IsKept result → holds self.new lifted state }
        ensures exact { answers self.old problem.now (record { lifted = lifted; state = state })
            longest result self.new }
        ensures only { (set : List Bool) (s : O.State) → holds self.new set s
            → holds self.old set s ⊎ ((result ≡ New) × (set ≡ lifted)
            × (O.State.eq s state ≡ true)) }
        ensures changes { changes self.old self.new };

    /// Whether the memo names this problem, so that `look_here` and `note_here` may be called for it. A search
    /// asks once; a memo that does not care says no, and is then asked by `look` and `note_parts`.
    fn is_for(&self, problem: &Problem<O>) -> bool
        ensures { IsTrue result → is_of self.now problem.now }
    {
        false
    }

    /// `look`, for the problem that the memo names; nothing is compared. Condition: it names this one.
    fn look_here(&mut self, problem: &Problem<O>, config: &Config<O>) -> Option<Longest>
        requires { is_of self.old problem.now }
        ensures refuted { IfSome result (λ longest. IsRefutedWith
            (problem_of O.after O.State.eq O.Reply.eq problem.now) config.now.lifted
            config.now.state longest) }
        ensures held { IfSome result (λ longest. holds self.new config.now.lifted
            config.now.state) }
        ensures only { (set : List Bool) (s : O.State) → holds self.new set s
            → holds self.old set s }
        ensures changes { changes self.old self.new }
    {
        self.look(problem, config)
    }

    /// `note_parts`, for the problem that the memo names; nothing is compared. A memo whose `answers` says that
    /// `Stranger` means another problem, as that of `OwnMemo` and of a table does, never answers it here.
    /// Conditions: it names this one, and the parts are a refutation.
    fn note_here(
        &mut self,
        problem: &Problem<O>,
        lifted: CallSet,
        state: O::State,
        longest: Longest,
    ) -> Noted
        requires here { is_of self.old problem.now }
        requires refuted { IsRefutedWith (problem_of O.after O.State.eq O.Reply.eq problem.now)
            lifted state longest }
        ensures held { IsKept result → holds self.new lifted state }
        ensures exact { answers self.old problem.now (record { lifted = lifted; state = state })
            longest result self.new }
        ensures only { (set : List Bool) (s : O.State) → holds self.new set s
            → holds self.old set s ⊎ ((result ≡ New) × (set ≡ lifted)
            × (O.State.eq s state ≡ true)) }
        ensures changes { changes self.old self.new }
    {
        self.note_parts(problem, lifted, state, longest)
    }

    /// Hands a refutation to the memo, which may keep it. No answer ends a search.
    final fn note(&mut self, refutation: Refutation<'_, O>) -> Noted
        ensures held { IsKept result → holds self.new refutation.entry.config.lifted
            refutation.entry.config.state }
        ensures exact { answers self.old refutation.entry.problem refutation.entry.config
            refutation.entry.longest result self.new }
        ensures only { (set : List Bool) (s : O.State) → holds self.new set s
            → holds self.old set s ⊎ ((result ≡ New) × (set ≡ refutation.entry.config.lifted)
            × (O.State.eq s refutation.entry.config.state ≡ true)) }
        ensures changes { changes self.old self.new }
    {
        let (problem, config, longest) = refutation.into_parts();
        let (calls, state) = config.into_parts();
        self.note_parts(problem, calls, state, longest)
    }

    ghost unchanged: { (m : Self) → changes m m };

    ghost chained: { (a b c : Self) → changes a b → changes b c → changes a c };

    // What the memo holds stays there.
    ghost lasting: { (a b : Self) → changes a b → (set : List Bool) (s : O.State) → holds a set s
        → holds b set s };

    // It is held whichever of the equal states is asked for.
    ghost at_equal: { (m : Self) (set : List Bool) (s t : O.State) → O.State.eq s t ≡ true
        → holds m set s → holds m set t };

    // The memo goes on naming the problem.
    ghost keeps_problem: { (a b : Self) → changes a b → (p : ProblemParts O O.State O.Op O.Reply)
        → is_of a p → is_of b p };
}
