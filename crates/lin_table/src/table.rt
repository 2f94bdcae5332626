//! The table as its callers see it.

ghost use Rattle.std.specs.Prelude.{◌≡◌, ◌≢◌, ◌↔◌, ℕ, ◌+◌, ◌%◌, ◌<◌, ◌≤◌, [], None, Some, All, length, vec_len, IfOk, IfErr, IsErr, IfSome, IsSome, IsTrue};
ghost use Rattle.lin_history.specs.Problems.Problem.{problem_of};
ghost use Rattle.lin_history.specs.Problems.SameProblem.{SameProblem};
ghost use Rattle.lin_search.specs.Count.{HasReachable, IsNumberReachable};
ghost use Rattle.lin_search.specs.Refutation.{IsRefutedWith};
ghost use Rattle.lin_search.specs.Store.{Holds, IsStore};
ghost use Rattle.lin_table.specs.Gather.{AreStored, entries_in};
ghost use Rattle.lin_table.specs.Rule.{Pairs, known_in, view};
ghost use Rattle.lin_table.specs.Hand.{IsHandOf, IsKnownOf, CameWith, HasStored, new_hand};
ghost use Rattle.lin_table.specs.Home.{home_of};

use crate::end::{free_shards, stored_by};
use crate::gather::gather;
use crate::hand::{Hand, MAX_STORED, deal};
use crate::rule::{Plan, ShardRule, View};
use crate::shard::{Shard, empty_shards};
use crate::steps::{Token, look_in, note_in};
use atomic_table::{Badge, Table as AtomicTable};
use lin_history::Problem;
use lin_object::{SeqObject, lawful};
use lin_search::{CallSet, Config, Longest, Noted, OwnMemo, Refutation};
use std::alloc::{AllocError, Global};
use std::marker::Model;
use std::mem;

// The words and the shards, under their rule.
type Inner<'p, O> = AtomicTable<Shard<'p, O>, View<O>, Plan<'p, O>, ShardRule, Global>;

// A memo that has 2^52 configurations or more is not taken for what was known before.
pub(crate) const MAX_KNOWN: u64 = 4_503_599_627_370_496;

/// The number of configurations stored, in the memo that a table is over and by its hands, is less than this: 2^54.
pub const STORED_BOUND: u64 = 18_014_398_509_481_984;

/// Refuted configurations of one problem, which several threads share. They are kept in shards, each of which one hand
/// at a time takes out. What was known before the table was made is in a memo, which all only read. Contracts see
/// which table it is, its problem, what was known, and how many shards it has.
#[derive(Drop)]
pub struct Table<'p, O: SeqObject> {
    inner: Inner<'p, O>,
    problem: &'p Problem<O>,
    known: Option<&'p OwnMemo<'p, O>>,
    shards: u64,
    hands: u64,
}

impl<'p, O: SeqObject> Model for Table<'p, O> {
    ghost use Rattle.std.specs.Prelude.{◌≡◌, ◌<◌, ◌≤◌};
    ghost use Rattle.lin_table.specs.Hand.{TableFacts, IsKnownOf};
    ghost use Rattle.lin_table.specs.Rule.{known_in};

    ghost Value = { TableFacts O O.State O.Op O.Reply };

    ghost view = { λ t. record {
      id = t.inner.shared.table_id;
      problem = t.problem.now;
      known = known_in t.known;
      shards = t.shards;
      hands = t.hands;
    } };

    ghost invariant = { λ t. (t.inner.shared.table_id.words ≡ t.shards)
        × (t.inner.shared.key.shards ≡ t.shards) × (t.inner.shared.key.hands ≡ t.hands)
        × (t.inner.shared.key.problem.now ≡ t.problem.now) × (0 < t.shards) × (t.hands ≤ 65)
        × (0 < t.hands) × (known_in t.inner.shared.key.known ≡ known_in t.known)
        × IsKnownOf O.after O.State.eq O.Reply.eq t.problem.now t.known };
}

/// Fewer hands came back than the table has. Table and hands are as they were.
#[derive(Drop)]
pub struct HandsMissing<'p, O: SeqObject> {
    /// The table, still open.
    pub table: Table<'p, O>,
    /// The hands that came back.
    pub hands: Vec<Hand<O>>,
}

// So many empty shards of the problem, all at home, and the token that has the parts of all hands.
fn open_shards<'p, O: SeqObject>(
    alloc: Global,
    problem: &'p Problem<O>,
    known: Option<&'p OwnMemo<'p, O>>,
    shards: usize,
    hands: usize,
) -> Result<(Inner<'p, O>, Token<'p, O>), AllocError>
    ensures words { IfOk result (λ made. made.0.shared.table_id.words ≡ shards) }
    ensures plan { IfOk result (λ made. (made.0.shared.key.problem.now ≡ problem.now)
        × (made.0.shared.key.shards ≡ shards) × (made.0.shared.key.hands ≡ hands)
        × (made.0.shared.key.known ≡ known.entry)) }
    ensures table { IfOk result (λ made. made.1.table_id ≡ made.0.shared.table_id) }
    ensures view { IfOk result (λ made. made.1.me
        ≡ (view (Some problem.now) hands [] None, [])) }
{
    let plan = Plan {
        problem,
        known,
        shards: shards as u64,
        hands: hands as u64,
    };
    let words = vec![in alloc; 0u64; shards]?;
    let homes = empty_shards(alloc, problem, shards)?;
    match AtomicTable::new(alloc, words.as_slice(), homes, &plan) {
        Ok(opened) => Ok(opened),
        Err(_) => Err(AllocError),
    }
}

// Closes a table with all its hands: their views become one, and the shards go, each of which was lawful.
fn close_shards<'p, O: SeqObject>(inner: Inner<'p, O>, mut hands: Vec<Hand<O>>)
    requires words { 0 < inner.shared.table_id.words }
    requires hands { All (CameWith inner.shared.table_id) hands.items }
    requires all { (0 < inner.shared.key.hands) × (inner.shared.key.hands ≤ vec_len hands) }
    ensures few { vec_len hands ≤ inner.entry.shared.key.hands }
    ensures stored { (lists : ℕ → Pairs O.State) × AreStored
        (problem_of O.after O.State.eq O.Reply.eq inner.entry.shared.key.problem.now)
        (known_in inner.entry.shared.key.known) inner.entry.shared.key.shards lists
        (entries_in hands.items) }
{
    let Some(last) = hands.pop() else {
        unreachable!()
    };
    let all = gather(&inner.shared, last.into_token(), hands);
    free_shards(inner.close_with(all));
}

impl<'p, O: SeqObject> Table<'p, O> {
    // A table of the problem over this memo, where there is one, and its hands.
    fn opened(
        alloc: Global,
        problem: &'p Problem<O>,
        known: Option<&'p OwnMemo<'p, O>>,
        shards: usize,
        hands: usize,
    ) -> Result<(Table<'p, O>, Vec<Hand<O>>), AllocError>
        requires shards { (1 ≤ shards) × (shards ≤ 256) }
        requires hands { (1 ≤ hands) × (hands ≤ 65) }
        requires known { IsKnownOf O.after O.State.eq O.Reply.eq problem.now known }
        ensures table { IfOk result (λ made. (made.0.problem ≡ problem.now)
            × (made.0.shards ≡ shards) × (made.0.hands ≡ hands)) }
        ensures known { IfOk result (λ made. made.0.known ≡ known_in known.entry) }
        ensures count { IfOk result (λ made. vec_len made.1 ≡ hands) }
        ensures hands { IfOk result (λ made. All (λ hand. hand ≡ new_hand made.0) made.1.items) }
    {
        let dealt = Vec::with_capacity(alloc, hands)?;
        let (inner, first) = open_shards(alloc, problem, known, shards, hands)?;
        let dealt = deal(&inner.shared, first, dealt, hands);
        let table = Table {
            inner,
            problem,
            known,
            shards: shards as u64,
            hands: hands as u64,
        };
        Ok((table, dealt))
    }

    /// A table of the problem with so many empty shards, and its hands, none of which has stored anything. There are
    /// 1 to 256 shards and 1 to 65 hands. `AllocError` where memory was refused.
    pub fn new(
        alloc: Global,
        problem: &'p Problem<O>,
        shards: usize,
        hands: usize,
    ) -> Result<(Table<'p, O>, Vec<Hand<O>>), AllocError>
        requires shards { (1 ≤ shards) × (shards ≤ 256) }
        requires hands { (1 ≤ hands) × (hands ≤ 65) }
        ensures table { IfOk result (λ made. (made.0.problem ≡ problem.now)
            × (made.0.shards ≡ shards) × (made.0.hands ≡ hands)) }
        ensures known { IfOk result (λ made. made.0.known ≡ []) }
        ensures count { IfOk result (λ made. vec_len made.1 ≡ hands) }
        ensures hands { IfOk result (λ made. All (λ hand. hand ≡ new_hand made.0) made.1.items) }
    {
        Table::opened(alloc, problem, None, shards, hands)
    }

    /// A table of the memo's problem over that memo, with so many empty shards, and its hands. What the memo has is known
    /// to every hand from the start, and is read without taking a shard out; no shard keeps it once more. A memo with
    /// 2^52 configurations or more is left out. There are 1 to 256 shards and 1 to 65 hands. `AllocError` where memory
    /// was refused.
    pub fn over(
        alloc: Global,
        known: &'p OwnMemo<'p, O>,
        shards: usize,
        hands: usize,
    ) -> Result<(Table<'p, O>, Vec<Hand<O>>), AllocError>
        requires shards { (1 ≤ shards) × (shards ≤ 256) }
        requires hands { (1 ≤ hands) × (hands ≤ 65) }
        ensures table { IfOk result (λ made. (made.0.problem ≡ known.now.problem)
            × (made.0.shards ≡ shards) × (made.0.hands ≡ hands)) }
        ensures known { IfOk result (λ made. length known.now.pairs < MAX_KNOWN
            → made.0.known ≡ known.now.pairs) }
        ensures left_out { IfOk result (λ made. MAX_KNOWN ≤ length known.now.pairs
            → made.0.known ≡ []) }
        ensures count { IfOk result (λ made. vec_len made.1 ≡ hands) }
        ensures hands { IfOk result (λ made. All (λ hand. hand ≡ new_hand made.0) made.1.items) }
    {
        let problem = known.problem();
        if known.count() < MAX_KNOWN {
            Table::opened(alloc, problem, Some(known), shards, hands)
        } else {
            Table::opened(alloc, problem, None, shards, hands)
        }
    }

    /// The problem. It takes no memory.
    pub fn problem(&self) -> &'p Problem<O>
        ensures { result.now ≡ self.now.problem }
    {
        self.problem
    }

    // Whether hands are missing where so many came back.
    fn misses_hands(&self, came: usize) -> bool
        ensures { IsTrue result ↔ came < self.now.hands }
    {
        (came as u64) < self.hands
    }

    // How many configurations were known before the table was made.
    fn known_count(&self) -> u64
        ensures count { result ≡ length self.now.known }
        ensures few { result < MAX_KNOWN }
        ensures store { IsStore (problem_of O.after O.State.eq O.Reply.eq self.now.problem)
            self.now.known }
    {
        match self.known {
            Some(memo) => memo.count(),
            None => 0,
        }
    }

    /// Takes all hands back and returns how many configurations are stored: those that were known before, and those that
    /// the hands stored. That is below 2^54, and at most the number of the problem's reachable configurations. Each hand
    /// came with this table. `HandsMissing` where fewer hands
    /// are there than were made: it gives table and hands back as they were. It takes no memory.
    pub fn total(self, hands: Vec<Hand<O>>) -> Result<u64, HandsMissing<'p, O>>
        requires { All (IsHandOf self) hands.items }
        ensures missing { IsErr result ↔ (vec_len hands < self.entry.hands) }
        ensures unchanged { IfErr result (λ e. (e.table ≡ self.entry) × (e.hands ≡ hands)) }
        ensures count { IfOk result (λ n. n ≡ length self.entry.known
            + length (entries_in hands.items)) }
        ensures stored { IfOk result (λ _. (lists : ℕ → Pairs O.State) × AreStored
            (problem_of O.after O.State.eq O.Reply.eq self.entry.problem) self.entry.known
            self.entry.shards lists (entries_in hands.items)) }
        ensures bound { IfOk result (λ n. n < STORED_BOUND) }
        ensures reachable { IfOk result (λ n. HasReachable
            (problem_of O.after O.State.eq O.Reply.eq self.entry.problem) n) }
        ensures at_most { IfOk result (λ n. (m : ℕ) → IsNumberReachable
            (problem_of O.after O.State.eq O.Reply.eq self.entry.problem) m → n ≤ m) }
    {
        lawful::<O>();
        if self.misses_hands(hands.len()) {
            return Err(HandsMissing { table: self, hands });
        }
        let known = self.known_count();
        let stored = stored_by(hands.as_slice());
        let Table {
            inner,
            problem: _,
            known: _,
            shards: _,
            hands: _,
        } = self;
        close_shards(inner, hands);
        Ok(known + stored)
    }

    // Whether the table's problem is the same as this one.
    fn is_for(&self, problem: &Problem<O>) -> bool
        ensures { IsTrue result
            ↔ SameProblem O.eq O.State.eq O.Op.eq O.Reply.eq self.now.problem problem.now }
    {
        self.problem.same(problem)
    }

    // The number of the shard that is the configuration's home.
    fn home(&self, config: &Config<O>) -> usize
        ensures bound { result < self.now.shards }
        ensures is { result ≡ home_of config.now.lifted self.now.shards }
    {
        (config.sum() % self.shards) as usize
    }

    // What was known of the configuration before the table was made.
    fn known_of(&self, problem: &Problem<O>, config: &Config<O>) -> Option<Longest>
        requires { SameProblem O.eq O.State.eq O.Op.eq O.Reply.eq self.now.problem problem.now }
        ensures refuted { IfSome result (λ longest. IsRefutedWith
            (problem_of O.after O.State.eq O.Reply.eq problem.now) config.now.lifted
            config.now.state longest) }
        ensures exact { IsSome result ↔ Holds O.State.eq self.now.known config.now.lifted
            config.now.state }
    {
        lawful::<O>();
        match self.known {
            Some(memo) => memo.find(config),
            None => None,
        }
    }

    // What the configuration's home shows of it, for a problem that is the same as the table's.
    fn look_home(
        &self,
        hand: &mut Hand<O>,
        problem: &Problem<O>,
        config: &Config<O>,
    ) -> Option<Longest>
        requires hand { IsHandOf self.now hand.old }
        requires here { SameProblem O.eq O.State.eq O.Op.eq O.Reply.eq self.now.problem
            problem.now }
        ensures refuted { IfSome result (λ longest. IsRefutedWith
            (problem_of O.after O.State.eq O.Reply.eq problem.now) config.now.lifted
            config.now.state longest) }
        ensures hand { hand.new ≡ hand.old }
    {
        let shard = self.home(config);
        let mut token = mem::replace(&mut hand.badge, Badge::blank()).into_seat();
        let found = look_in(&self.inner.shared, &mut token, shard, problem, config);
        hand.badge = token.into_badge();
        found
    }

    /// `look` for a problem that is the `same` as the table's: nothing is compared.
    ///
    /// Conditions: the hand came with this table, and the problem is the same.
    pub fn look_here(
        &self,
        hand: &mut Hand<O>,
        problem: &Problem<O>,
        config: &Config<O>,
    ) -> Option<Longest>
        requires hand { IsHandOf self.now hand.old }
        requires here { SameProblem O.eq O.State.eq O.Op.eq O.Reply.eq self.now.problem
            problem.now }
        ensures refuted { IfSome result (λ longest. IsRefutedWith
            (problem_of O.after O.State.eq O.Reply.eq problem.now) config.now.lifted
            config.now.state longest) }
        ensures known { Holds O.State.eq self.now.known config.now.lifted config.now.state
            → IsSome result }
        ensures hand { hand.new ≡ hand.old }
    {
        match self.known_of(problem, config) {
            Some(longest) => Some(longest),
            None => self.look_home(hand, problem, config),
        }
    }

    /// What the longest continuations of the configuration show, where it was known before or its shard has it, and the
    /// table's problem is the `same` as this one: then the configuration is refuted in the asker's problem. `None` where
    /// the problem is not the `same`. A shard that is not got within 64 tries has nothing. It takes no memory.
    ///
    /// Condition: the hand came with this table.
    pub fn look(
        &self,
        hand: &mut Hand<O>,
        problem: &Problem<O>,
        config: &Config<O>,
    ) -> Option<Longest>
        requires hand { IsHandOf self.now hand.old }
        ensures refuted { IfSome result (λ longest. IsRefutedWith
            (problem_of O.after O.State.eq O.Reply.eq problem.now) config.now.lifted
            config.now.state longest) }
        ensures ours { IsSome result
            → SameProblem O.eq O.State.eq O.Op.eq O.Reply.eq self.now.problem problem.now }
        ensures known { SameProblem O.eq O.State.eq O.Op.eq O.Reply.eq self.now.problem problem.now
            → Holds O.State.eq self.now.known config.now.lifted config.now.state → IsSome result }
        ensures hand { hand.new ≡ hand.old }
    {
        if self.is_for(problem) {
            self.look_here(hand, problem, config)
        } else {
            None
        }
    }

    // Stores a refutation in its home, where the hand has room for one more. Its configuration was not known before.
    fn store(&self, hand: &mut Hand<O>, refutation: Refutation<'_, O>) -> Noted
        requires hand { IsHandOf self.now hand.old }
        requires here { SameProblem O.eq O.State.eq O.Op.eq O.Reply.eq self.now.problem
            refutation.problem }
        requires fresh { Holds O.State.eq self.now.known refutation.config.lifted
            refutation.config.state → ⊥ }
        ensures new { result ≡ Noted.New → HasStored hand.old
            (home_of refutation.entry.config.lifted self.now.shards) refutation.entry.config
            hand.new }
        ensures room { result ≡ Noted.New → length hand.old.entries < MAX_STORED }
        ensures same { result ≢ Noted.New → hand.new ≡ hand.old }
        ensures came { IsHandOf self.now hand.new }
        ensures own { result ≢ Noted.Stranger }
    {
        let shard = self.home(refutation.config());
        let has_room = hand.has_room();
        let mut token = mem::replace(&mut hand.badge, Badge::blank()).into_seat();
        let noted = note_in(&self.inner.shared, &mut token, shard, refutation, has_room);
        if noted == Noted::New {
            hand.count += 1;
        }
        hand.badge = token.into_badge();
        noted
    }

    // Whether the refutation's configuration was known before the table was made.
    fn is_known(&self, refutation: &Refutation<'_, O>) -> bool
        requires { SameProblem O.eq O.State.eq O.Op.eq O.Reply.eq self.now.problem
            refutation.now.problem }
        ensures { IsTrue result ↔ Holds O.State.eq self.now.known refutation.now.config.lifted
            refutation.now.config.state }
    {
        self.known_of(refutation.problem(), refutation.config())
            .is_some()
    }

    // `note` for a problem that is the same as the table's: nothing is compared.
    fn keep(&self, hand: &mut Hand<O>, refutation: Refutation<'_, O>) -> Noted
        requires hand { IsHandOf self.now hand.old }
        requires here { SameProblem O.eq O.State.eq O.Op.eq O.Reply.eq self.now.problem
            refutation.problem }
        ensures new { result ≡ Noted.New → HasStored hand.old
            (home_of refutation.entry.config.lifted self.now.shards) refutation.entry.config
            hand.new }
        ensures room { result ≡ Noted.New → length hand.old.entries < MAX_STORED }
        ensures same { result ≢ Noted.New → hand.new ≡ hand.old }
        ensures came { IsHandOf self.now hand.new }
        ensures known { Holds O.State.eq self.now.known refutation.entry.config.lifted
            refutation.entry.config.state → result ≡ Noted.Known }
        ensures own { result ≢ Noted.Stranger }
    {
        if self.is_known(&refutation) {
            return Noted::Known;
        }
        self.store(hand, refutation)
    }

    /// `note` for a problem that is the `same` as the table's, by the parts of a refutation: nothing is compared.
    ///
    /// Conditions: the hand came with this table, the problem is the same, and the parts are a refutation.
    pub fn note_here(
        &self,
        hand: &mut Hand<O>,
        problem: &Problem<O>,
        lifted: CallSet,
        state: O::State,
        longest: Longest,
    ) -> Noted
        requires hand { IsHandOf self.now hand.old }
        requires here { SameProblem O.eq O.State.eq O.Op.eq O.Reply.eq self.now.problem
            problem.now }
        requires refuted { IsRefutedWith (problem_of O.after O.State.eq O.Reply.eq problem.now)
            lifted state longest }
        ensures new { result ≡ Noted.New → HasStored hand.old (home_of lifted self.now.shards)
            (record { lifted = lifted; state = state }) hand.new }
        ensures room { result ≡ Noted.New → length hand.old.entries < MAX_STORED }
        ensures same { result ≢ Noted.New → hand.new ≡ hand.old }
        ensures came { IsHandOf self.now hand.new }
        ensures known { Holds O.State.eq self.now.known lifted state → result ≡ Noted.Known }
        ensures own { result ≢ Noted.Stranger }
    {
        let config = Config::from_parts(lifted, state);
        self.keep(hand, Refutation::new(problem, config, longest))
    }

    /// Hands a refutation to the table, which keeps it in its home. `Stranger` exactly where the table's problem is
    /// not the `same` as the refutation's; `Known` where it was known before; else `Busy` where its shard was not got
    /// within 64 tries; else `Known` where it was there; else `NoRoom` where memory was refused, or the hand has stored
    /// 2^47 configurations; else `New`, which alone changes anything: the hand has an entry more.
    ///
    /// Condition: the hand came with this table.
    pub fn note(&self, hand: &mut Hand<O>, refutation: Refutation<'_, O>) -> Noted
        requires hand { IsHandOf self.now hand.old }
        ensures new { result ≡ Noted.New → HasStored hand.old
            (home_of refutation.entry.config.lifted self.now.shards) refutation.entry.config
            hand.new }
        ensures room { result ≡ Noted.New → length hand.old.entries < MAX_STORED }
        ensures same { result ≢ Noted.New → hand.new ≡ hand.old }
        ensures came { IsHandOf self.now hand.new }
        ensures known { SameProblem O.eq O.State.eq O.Op.eq O.Reply.eq self.now.problem
            refutation.entry.problem → Holds O.State.eq self.now.known
            refutation.entry.config.lifted refutation.entry.config.state → result ≡ Noted.Known }
        ensures stranger { result ≡ Noted.Stranger
            → SameProblem O.eq O.State.eq O.Op.eq O.Reply.eq self.now.problem
            refutation.entry.problem → ⊥ }
        ensures ours { result ≢ Noted.Stranger
            → SameProblem O.eq O.State.eq O.Op.eq O.Reply.eq self.now.problem
            refutation.entry.problem }
    {
        let problem = refutation.problem();
        if !self.is_for(problem) {
            return Noted::Stranger;
        }
        self.keep(hand, refutation)
    }
}
