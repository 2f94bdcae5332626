//! What a hand does with a shard: it is taken out, looked at or added to, and given back.

ghost use Rattle.std.specs.Prelude.{◌≡◌, ◌≢◌, ℕ, ◌<◌, ◌∷◌, [], None, Some, IfSome, IsTrue, false};
ghost use Rattle.lin_history.specs.Problems.Problem.{problem_of};
ghost use Rattle.lin_history.specs.Problems.SameProblem.{SameProblem};
ghost use Rattle.lin_search.specs.Refutation.{IsRefutedWith};
ghost use Rattle.lin_search.specs.Store.{Holds, IsNoted};
ghost use Rattle.lin_table.specs.Home.{home_of};
ghost use Rattle.lin_table.specs.Rule.{Pairs, known_in};
ghost use Rattle.lin_table.specs.Steps.{HasOut, HasMore, with_out, with_none_out, with_entry, with_added};

use crate::rule::{GiveBackStep, GiveMoreStep, Plan, ShardRule, TakeStep, View};
use crate::shard::Shard;
use atomic_table::{Seat, Shared};
use lin_history::Problem;
use lin_object::SeqObject;
use lin_search::{Config, Longest, Noted, Refutation};

/// What all hands of a table share: a word and a place for each shard.
pub(crate) type Shards<'p, O> = Shared<Shard<'p, O>, View<O>, Plan<'p, O>, ShardRule>;

/// What a hand steps with.
pub(crate) type Token<'p, O> = Seat<Shard<'p, O>, View<O>>;

// How often a hand tries to take a shard out.
const TRIES: u32 = 64;

/// Takes a shard out, if it is got within so many tries.
pub(crate) fn take_out<'p, O: SeqObject>(
    shards: &Shards<'p, O>,
    token: &mut Token<'p, O>,
    shard: usize,
) -> bool
    requires table { (token.old.table_id ≡ shards.now.table_id)
        × (shard < shards.now.table_id.words) × (shard < shards.now.key.shards) }
    requires free { (0 < token.old.me.0.parts) × (token.old.me.0.out ≡ None) }
    ensures table { token.new.table_id ≡ token.old.table_id }
    ensures yes { IsTrue result → HasOut shard token.old.me token.new.me }
    ensures no { result ≡ false → token.new.me ≡ token.old.me }
{
    for _ in 0..TRIES {
        let found = shards.compare_exchange::<TakeStep>(token, shard, 0, 1);
        if found == 0 {
            return true;
        }
    }
    false
}

/// Gives back the shard that is out, as it was taken.
pub(crate) fn give_back<'p, O: SeqObject>(
    shards: &Shards<'p, O>,
    token: &mut Token<'p, O>,
    shard: usize,
)
    requires table { (token.old.table_id ≡ shards.now.table_id)
        × (shard < shards.now.table_id.words) × (0 < token.old.me.0.parts) }
    requires out { (y : _) × (token.old.me.1 ≡ (shard, y) ∷ [])
        × (Some y.problem ≡ token.old.me.0.problem)
        × (token.old.me.0.out ≡ Some (record { shard = shard; pairs = y.pairs })) }
    ensures table { token.new.table_id ≡ token.old.table_id }
    ensures me { token.new.me ≡ (with_none_out token.old.me.0, []) }
{
    shards.store::<GiveBackStep>(token, shard, 0);
}

/// Looks into the shard that is out.
pub(crate) fn look_out<'p, O: SeqObject>(
    shards: &Shards<'p, O>,
    token: &mut Token<'p, O>,
    shard: usize,
    problem: &Problem<O>,
    config: &Config<O>,
) -> Option<Longest>
    requires table { token.old.table_id ≡ shards.now.table_id }
    requires out { (y : _) × (token.old.me.1 ≡ (shard, y) ∷ [])
        × SameProblem O.eq O.State.eq O.Op.eq O.Reply.eq y.problem problem.now }
    ensures refuted { IfSome result (λ longest. IsRefutedWith
        (problem_of O.after O.State.eq O.Reply.eq problem.now) config.now.lifted
        config.now.state longest) }
    ensures table { token.new.table_id ≡ token.old.table_id }
    ensures same { token.new.me ≡ token.old.me }
{
    let it = token.slot_mut(shards, shard);
    it.look_here(problem, config)
}

/// Gives back the shard that is out, which has one pair more than when it was taken, of a configuration whose home it is
/// and that was not known before.
pub(crate) fn give_more<'p, O: SeqObject>(
    shards: &Shards<'p, O>,
    token: &mut Token<'p, O>,
    shard: usize,
)
    requires table { (token.old.table_id ≡ shards.now.table_id)
        × (shard < shards.now.table_id.words) × (0 < token.old.me.0.parts) }
    requires out { HasMore (Holds O.State.eq (known_in shards.now.key.known)) shard
        shards.now.key.shards token.old.me }
    ensures table { token.new.table_id ≡ token.old.table_id }
    ensures me { token.new.me ≡ (with_added shard token.old.me, []) }
{
    shards.store::<GiveMoreStep>(token, shard, 0);
}

/// Adds a refutation to the shard that is out, where the hand has room for one more, and gives it back. `Known` exactly
/// where the shard has its configuration, which was not known before; `NoRoom` only in place of `New`.
pub(crate) fn note_out<'p, O: SeqObject>(
    shards: &Shards<'p, O>,
    token: &mut Token<'p, O>,
    shard: usize,
    refutation: Refutation<'_, O>,
    has_room: bool,
) -> Noted
    requires table { (token.old.table_id ≡ shards.now.table_id)
        × (shard < shards.now.table_id.words) × (0 < token.old.me.0.parts) }
    requires out { (y : _) × (token.old.me.1 ≡ (shard, y) ∷ [])
        × (Some y.problem ≡ token.old.me.0.problem)
        × (token.old.me.0.out ≡ Some (record { shard = shard; pairs = y.pairs })) }
    requires here { (own : _) × (token.old.me.0.problem ≡ Some own)
        × SameProblem O.eq O.State.eq O.Op.eq O.Reply.eq own refutation.problem }
    requires home { home_of refutation.config.lifted shards.now.key.shards ≡ shard }
    requires fresh { Holds O.State.eq (known_in shards.now.key.known) refutation.config.lifted
        refutation.config.state → ⊥ }
    ensures table { token.new.table_id ≡ token.old.table_id }
    ensures empty { token.new.me.1 ≡ [] }
    ensures new { result ≡ Noted.New → (p : ℕ) × (token.new.me.0 ≡ with_entry token.old.me.0
        (record { shard = shard; place = p; config = refutation.entry.config })) }
    ensures same { result ≢ Noted.New → token.new.me.0 ≡ with_none_out token.old.me.0 }
    ensures room { result ≡ Noted.New → IsTrue has_room }
    ensures own { result ≢ Noted.Stranger }
    ensures told { (y : _) → token.old.me.1 ≡ (shard, y) ∷ [] → (pairs : Pairs O.State)
        × IsNoted O.State.eq (Unit {0}) y.pairs pairs refutation.entry.config
        refutation.entry.longest result }
{
    let it = token.slot_mut(&*shards, shard);
    let noted = it.add_within(refutation, has_room);
    if noted == Noted::New {
        give_more(&*shards, &mut *token, shard);
    } else {
        give_back(&*shards, &mut *token, shard);
    }
    noted
}

/// Looks for a configuration in this shard. `None` where it is not there, or the shard was not got.
pub(crate) fn look_in<'p, O: SeqObject>(
    shards: &Shards<'p, O>,
    token: &mut Token<'p, O>,
    shard: usize,
    problem: &Problem<O>,
    config: &Config<O>,
) -> Option<Longest>
    requires table { (token.old.table_id ≡ shards.now.table_id)
        × (shard < shards.now.table_id.words) × (shard < shards.now.key.shards) }
    requires free { (0 < token.old.me.0.parts) × (token.old.me.0.out ≡ None)
        × (token.old.me.1 ≡ []) }
    requires here { (own : _) × (token.old.me.0.problem ≡ Some own)
        × SameProblem O.eq O.State.eq O.Op.eq O.Reply.eq own problem.now }
    ensures refuted { IfSome result (λ longest. IsRefutedWith
        (problem_of O.after O.State.eq O.Reply.eq problem.now) config.now.lifted
        config.now.state longest) }
    ensures table { token.new.table_id ≡ token.old.table_id }
    ensures same { token.new.me ≡ token.old.me }
{
    if !take_out(&*shards, &mut *token, shard) {
        return None;
    }
    let found = look_out(&*shards, &mut *token, shard, problem, config);
    give_back(&*shards, &mut *token, shard);
    found
}

/// Adds a refutation to this shard, which is its configuration's home, where the hand has room for one more. `Busy`
/// exactly where the shard was not got; else as `note_out` answers. The configuration was not known before.
pub(crate) fn note_in<'p, O: SeqObject>(
    shards: &Shards<'p, O>,
    token: &mut Token<'p, O>,
    shard: usize,
    refutation: Refutation<'_, O>,
    has_room: bool,
) -> Noted
    requires table { (token.old.table_id ≡ shards.now.table_id)
        × (shard < shards.now.table_id.words) × (shard < shards.now.key.shards) }
    requires free { (0 < token.old.me.0.parts) × (token.old.me.0.out ≡ None)
        × (token.old.me.1 ≡ []) }
    requires here { (own : _) × (token.old.me.0.problem ≡ Some own)
        × SameProblem O.eq O.State.eq O.Op.eq O.Reply.eq own refutation.problem }
    requires home { home_of refutation.config.lifted shards.now.key.shards ≡ shard }
    requires fresh { Holds O.State.eq (known_in shards.now.key.known) refutation.config.lifted
        refutation.config.state → ⊥ }
    ensures table { token.new.table_id ≡ token.old.table_id }
    ensures empty { token.new.me.1 ≡ [] }
    ensures new { result ≡ Noted.New → (p : ℕ) × (token.new.me.0 ≡ with_entry token.old.me.0
        (record { shard = shard; place = p; config = refutation.entry.config })) }
    ensures same { result ≢ Noted.New → token.new.me.0 ≡ token.old.me.0 }
    ensures room { result ≡ Noted.New → IsTrue has_room }
    ensures own { result ≢ Noted.Stranger }
{
    if !take_out(&*shards, &mut *token, shard) {
        return Noted::Busy;
    }
    note_out(&*shards, &mut *token, shard, refutation, has_room)
}
