//! One shard: refuted configurations of one problem.

ghost use Rattle.std.specs.Prelude.{◌≡◌, ◌≢◌, ◌↔◌, ◌++◌, ◌∷◌, [], IfOk, IfSome, IsSome, IsTrue, length, replicate};
ghost use Rattle.lin_history.specs.Problems.Problem.{problem_of};
ghost use Rattle.lin_history.specs.Problems.SameProblem.{SameProblem};
ghost use Rattle.lin_search.specs.Refutation.{IsRefutedWith};
ghost use Rattle.lin_search.specs.Store.{Holds, IsNoted, IsStore};

use lin_history::Problem;
use lin_object::SeqObject;
use lin_search::{Config, Longest, Memo, Noted, OwnMemo, Refutation};
use std::alloc::{AllocError, Global};
use std::marker::Model;

/// Refuted configurations of one problem, each once. Contracts see the problem, and the pairs of a configuration and
/// what its longest continuations show, in order of storing.
#[derive(Drop)]
pub struct Shard<'p, O: SeqObject> {
    memo: OwnMemo<'p, O>,
}

impl<'p, O: SeqObject> Model for Shard<'p, O> {
    ghost use Rattle.lin_search.specs.Store.{Store};

    ghost Value = { Store O O.State O.Op O.Reply };

    ghost view = { λ s. s.memo };
}

impl<'p, O: SeqObject> Shard<'p, O> {
    /// A shard that names the problem, with nothing in it. It takes no memory.
    pub fn new(alloc: Global, problem: &'p Problem<O>) -> Self
        ensures { result ≡ record { problem = problem.now; pairs = [] } }
    {
        Shard {
            memo: OwnMemo::new(alloc, problem),
        }
    }

    /// How many pairs there are. They are lawful: refuted configurations of the problem, no two of them the same.
    pub fn len(&self) -> u64
        ensures count { result ≡ length self.now.pairs }
        ensures lawful { IsStore (problem_of O.after O.State.eq O.Reply.eq self.now.problem)
            self.now.pairs }
    {
        self.memo.count()
    }

    /// What the longest continuations of the configuration show: `Some` exactly where the configuration is there and
    /// the problem that the shard names is the `same` as this one. It takes no memory.
    pub fn look(&self, problem: &Problem<O>, config: &Config<O>) -> Option<Longest>
        ensures refuted { IfSome result (λ longest. IsRefutedWith
            (problem_of O.after O.State.eq O.Reply.eq problem.now) config.now.lifted
            config.now.state longest) }
        ensures exact { IsSome result
            ↔ (SameProblem O.eq O.State.eq O.Op.eq O.Reply.eq self.now.problem problem.now
            × Holds O.State.eq self.now.pairs config.now.lifted config.now.state) }
    {
        OwnMemo::look(&self.memo, problem, config)
    }

    /// Adds a refutation. `Stranger` exactly where the shard names a problem that is not the `same`; `Known` exactly
    /// where the configuration is there; else `New`, or `NoRoom` where memory was refused; never `Busy`. Only `New`
    /// changes anything, and adds the pair at the end.
    pub fn add(&mut self, refutation: Refutation<'_, O>) -> Noted
        ensures problem { self.new.problem ≡ self.old.problem }
        ensures exact { IsNoted O.State.eq (SameProblem O.eq O.State.eq O.Op.eq O.Reply.eq
            self.old.problem refutation.entry.problem) self.old.pairs self.new.pairs
            refutation.entry.config refutation.entry.longest result }
    {
        self.memo.note(refutation)
    }

    // `look` for a problem that is the same as the shard's: nothing is compared.
    pub(crate) fn look_here(&mut self, problem: &Problem<O>, config: &Config<O>) -> Option<Longest>
        requires { SameProblem O.eq O.State.eq O.Op.eq O.Reply.eq self.old.problem problem.now }
        ensures refuted { IfSome result (λ longest. IsRefutedWith
            (problem_of O.after O.State.eq O.Reply.eq problem.now) config.now.lifted
            config.now.state longest) }
        ensures exact { IsSome result ↔ Holds O.State.eq self.old.pairs config.now.lifted
            config.now.state }
        ensures same { self.new ≡ self.old }
    {
        self.memo.look_here(problem, config)
    }

    // `add` for a problem that is the same as the shard's: nothing is compared.
    fn add_here(&mut self, refutation: Refutation<'_, O>) -> Noted
        requires { SameProblem O.eq O.State.eq O.Op.eq O.Reply.eq self.old.problem
            refutation.problem }
        ensures problem { self.new.problem ≡ self.old.problem }
        ensures exact { IsNoted O.State.eq (Unit {0}) self.old.pairs self.new.pairs
            refutation.entry.config refutation.entry.longest result }
    {
        let (problem, config, longest) = refutation.into_parts();
        let (lifted, state) = config.into_parts();
        self.memo.note_here(problem, lifted, state, longest)
    }

    // What `add_here` answers where there is no room for one more: `Known` or `NoRoom`.
    fn add_to_full(&mut self, refutation: Refutation<'_, O>) -> Noted
        requires { SameProblem O.eq O.State.eq O.Op.eq O.Reply.eq self.old.problem
            refutation.problem }
        ensures exact { IsNoted O.State.eq (Unit {0}) self.old.pairs self.new.pairs
            refutation.entry.config refutation.entry.longest result }
        ensures room { result ≢ Noted.New }
        ensures same { self.new ≡ self.old }
    {
        match self.look_here(refutation.problem(), refutation.config()) {
            Some(_) => Noted::Known,
            None => Noted::NoRoom,
        }
    }

    // The same where there may be room, or not.
    pub(crate) fn add_within(&mut self, refutation: Refutation<'_, O>, has_room: bool) -> Noted
        requires { SameProblem O.eq O.State.eq O.Op.eq O.Reply.eq self.old.problem
            refutation.problem }
        ensures problem { self.new.problem ≡ self.old.problem }
        ensures new { result ≡ Noted.New → self.new.pairs ≡ self.old.pairs
            ++ (refutation.entry.config, refutation.entry.longest) ∷ [] }
        ensures same { result ≢ Noted.New → self.new ≡ self.old }
        ensures exact { IsNoted O.State.eq (Unit {0}) self.old.pairs self.new.pairs
            refutation.entry.config refutation.entry.longest result }
        ensures room { result ≡ Noted.New → IsTrue has_room }
    {
        if has_room {
            self.add_here(refutation)
        } else {
            self.add_to_full(refutation)
        }
    }
}

// So many shards of the problem, with nothing in them.
pub(crate) fn empty_shards<'p, O: SeqObject>(
    alloc: Global,
    problem: &'p Problem<O>,
    count: usize,
) -> Result<Vec<Shard<'p, O>>, AllocError>
    ensures { IfOk result (λ shards. shards.items ≡ replicate count (record {
      problem = problem.now;
      pairs = [];
    })) }
{
    let mut shards = Vec::with_capacity(alloc, count)?;
    for _ in 0..count {
        shards.push_reserved(Shard::new(alloc, problem));
    }
    Ok(shards)
}
