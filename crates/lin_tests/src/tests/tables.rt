//! Shards and tables: what they keep and show, and two threads that search over one table.

ghost use Rattle.std.specs.Prelude.{All, IfOk};
ghost use Rattle.lin_table.specs.Hand.{IsHandOf};

use super::fakes::Keeping;
use super::searches::{Part, THREE_MORE, refuted_root, writes_and_a_read_of};
use lin_object::AnyObject;
use lin_search::{Config, Longest, Memo, NoStop, Noted, Outcome, OwnMemo, search, search_over};
use lin_table::{Hand, HandsMissing, Shard, SharedMemo, Table};
use std::alloc::{AllocError, Global};
use std::thread;
use std::thread::Threads;

// Three problems that differ in what their last call reads.
#[derive(Drop)]
struct Problems {
    // Its root is refuted.
    own: Part,
    // So is this one's.
    other: Part,
    // This one has a linearization.
    found: Part,
}

// The three problems.
fn three_problems(alloc: Global) -> Problems {
    Problems {
        own: writes_and_a_read_of(alloc, 9),
        other: writes_and_a_read_of(alloc, 8),
        found: writes_and_a_read_of(alloc, 3),
    }
}

// What a shard answers to the refuted root of the problem.
fn added(
    alloc: Global,
    shard: &mut Shard<'_, AnyObject>,
    problem: &Part,
) -> Result<Option<Noted>, AllocError> {
    match refuted_root(alloc, problem)? {
        Some(refutation) => Ok(Some(shard.add(refutation))),
        None => Ok(None),
    }
}

// What a shard shows of the problem's root.
fn kept(
    alloc: Global,
    shard: &Shard<'_, AnyObject>,
    problem: &Part,
) -> Result<Option<Longest>, AllocError> {
    Ok(shard.look(problem, &Config::root(alloc, problem)?))
}

// Whether the shard refuses a stranger, keeps the root of its problem once, and shows it of no other problem.
fn shard_keeps_once(
    alloc: Global,
    shard: &mut Shard<'_, AnyObject>,
    problems: &Problems,
) -> Result<bool, AllocError> {
    let strange = added(alloc, shard, &problems.other)?;
    let empty = shard.len();
    let first = added(alloc, shard, &problems.own)?;
    let second = added(alloc, shard, &problems.own)?;
    let told = kept(alloc, shard, &problems.own)?;
    let untold = kept(alloc, shard, &problems.found)?;
    Ok(
        strange == Some(Noted::Stranger)
            && (first, second) == (Some(Noted::New), Some(Noted::Known))
            && (told, untold) == (Some(THREE_MORE), None)
            && (empty, shard.len()) == (0, 1),
    )
}

// Whether a new shard does so.
fn a_shard_keeps_once(alloc: Global, problems: &Problems) -> Result<bool, AllocError> {
    shard_keeps_once(alloc, &mut Shard::new(alloc, &problems.own), problems)
}

#[test]
fn a_shard_keeps_a_configuration_once(rt: HostRuntime) {
    assert!(rt;
        matches!(
            a_shard_keeps_once(rt.alloc(), &three_problems(rt.alloc())),
            Ok(true)
        )
    );
}

// What a table answers to the refuted root of the problem.
fn noted(
    alloc: Global,
    table: &Table<'_, AnyObject>,
    hand: &mut Hand<AnyObject>,
    problem: &Part,
) -> Result<Option<Noted>, AllocError>
    requires { IsHandOf table.now hand.old }
    ensures { IsHandOf table.now hand.new }
{
    match refuted_root(alloc, problem)? {
        Some(refutation) => Ok(Some(table.note(hand, refutation))),
        None => Ok(None),
    }
}

// What a table shows of the problem's root.
fn told(
    alloc: Global,
    table: &Table<'_, AnyObject>,
    hand: &mut Hand<AnyObject>,
    problem: &Part,
) -> Result<Option<Longest>, AllocError>
    requires { IsHandOf table.now hand.old }
    ensures { IsHandOf table.now hand.new }
{
    Ok(table.look(hand, problem, &Config::root(alloc, problem)?))
}

// Whether the table refuses a stranger, keeps the root of its problem once, and shows it of no other problem.
fn keeps_once(
    alloc: Global,
    table: &Table<'_, AnyObject>,
    hand: &mut Hand<AnyObject>,
    problems: &Problems,
) -> Result<bool, AllocError>
    requires { IsHandOf table.now hand.old }
    ensures { IsHandOf table.now hand.new }
{
    let strange = noted(alloc, table, hand, &problems.other)?;
    let first = noted(alloc, table, hand, &problems.own)?;
    let second = noted(alloc, table, hand, &problems.own)?;
    let own = told(alloc, table, hand, &problems.own)?;
    let found = told(alloc, table, hand, &problems.found)?;
    Ok(
        strange == Some(Noted::Stranger)
            && (first, second) == (Some(Noted::New), Some(Noted::Known))
            && (own, found) == (Some(THREE_MORE), None)
            && hand.count() == 1,
    )
}

// Whether the table stored so many configurations with these hands.
pub(super) fn stored(table: Table<'_, AnyObject>, hands: Vec<Hand<AnyObject>>, count: u64) -> bool
    requires { All (IsHandOf table) hands.items }
{
    matches!(table.total(hands), Ok(told) if told == count)
}

// Whether the table stored so many configurations with these two hands.
pub(super) fn stored_by_both(
    alloc: Global,
    table: Table<'_, AnyObject>,
    one: Hand<AnyObject>,
    other: Hand<AnyObject>,
    count: u64,
) -> Result<bool, AllocError>
    requires one { IsHandOf table one }
    requires other { IsHandOf table other }
{
    let mut hands = Vec::with_capacity(alloc, 2)?;
    hands.push_reserved(one);
    hands.push_reserved(other);
    Ok(stored(table, hands, count))
}

// Whether a table is given back without its hand, and says so many configurations with it.
fn totals(
    alloc: Global,
    table: Table<'_, AnyObject>,
    hand: Hand<AnyObject>,
    count: u64,
) -> Result<bool, AllocError>
    requires { IsHandOf table hand }
{
    let Err(HandsMissing { table, mut hands }) = table.total(Vec::new(alloc)) else {
        return Ok(false);
    };
    hands.push(hand)?;
    Ok(stored(table, hands, count))
}

// Whether a table with one hand does so.
fn a_table_keeps_once(alloc: Global, problems: &Problems) -> Result<bool, AllocError> {
    let (table, mut hands) = Table::new(alloc, &problems.own, 16, 1)?;
    let Some(mut hand) = hands.pop() else {
        return Ok(false);
    };
    let kept = keeps_once(alloc, &table, &mut hand, problems)?;
    Ok(kept && totals(alloc, table, hand, 1)?)
}

#[test]
fn a_table_keeps_a_configuration_once(rt: HostRuntime) {
    assert!(rt;
        matches!(
            a_table_keeps_once(rt.alloc(), &three_problems(rt.alloc())),
            Ok(true)
        )
    );
}

// Whether the search from the root of the problem over this table and hand refutes it within the limit.
fn refutes(
    alloc: Global,
    table: &Table<'_, AnyObject>,
    hand: &mut Hand<AnyObject>,
    problem: &Part,
    limit: Option<u64>,
) -> Result<bool, AllocError>
    requires { IsHandOf table.now hand.old }
    ensures { IsHandOf table.now hand.new }
{
    let root = Config::root(alloc, problem)?;
    let mut memo = SharedMemo::new(table, hand);
    let outcome = search(alloc, problem, &root, &mut memo, limit, &mut NoStop)?;
    Ok(outcome == Outcome::Refuted(THREE_MORE))
}

// What a memo over the table shows of the problem's root.
fn told_by_memo(
    alloc: Global,
    table: &Table<'_, AnyObject>,
    hand: &mut Hand<AnyObject>,
    problem: &Part,
) -> Result<Option<Longest>, AllocError>
    requires { IsHandOf table.now hand.old }
    ensures { IsHandOf table.now hand.new }
{
    let root = Config::root(alloc, problem)?;
    Ok(SharedMemo::new(table, hand).look(problem, &root))
}

// Whether this hand, which stored nothing, is told what another hand stored, and stores none of it again.
fn knows(
    alloc: Global,
    table: &Table<'_, AnyObject>,
    hand: &mut Hand<AnyObject>,
    problem: &Part,
) -> Result<bool, AllocError>
    requires { IsHandOf table.now hand.old }
    ensures { IsHandOf table.now hand.new }
{
    // Each of the three calls that may come first leads to what is known.
    let refuted = refutes(alloc, table, hand, problem, Some(3))?;
    let own = told_by_memo(alloc, table, hand, problem)?;
    let again = noted(alloc, table, hand, problem)?;
    Ok(refuted && (own, again) == (Some(THREE_MORE), Some(Noted::Known)) && hand.count() == 0)
}

// What the table answers to the refuted root of the problem from one hand, and then from the other.
fn noted_by_both(
    alloc: Global,
    table: &Table<'_, AnyObject>,
    one: &mut Hand<AnyObject>,
    other: &mut Hand<AnyObject>,
    problem: &Part,
) -> Result<(Option<Noted>, Option<Noted>), AllocError>
    requires one { IsHandOf table.now one.old }
    requires other { IsHandOf table.now other.old }
    ensures one { IsHandOf table.now one.new }
    ensures other { IsHandOf table.now other.new }
{
    let first = noted(alloc, table, one, problem)?;
    let second = noted(alloc, table, other, problem)?;
    Ok((first, second))
}

// Whether the one shard of a table keeps once what both of its hands hand it.
fn one_shard_keeps_once(alloc: Global, problem: &Part) -> Result<bool, AllocError> {
    let (table, mut hands) = Table::new(alloc, problem, 1, 2)?;
    let (Some(mut b), Some(mut a)) = (hands.pop(), hands.pop()) else {
        return Ok(false);
    };
    let told = noted_by_both(alloc, &table, &mut a, &mut b, problem)?;
    Ok(stored_by_both(alloc, table, a, b, 1)? && told == (Some(Noted::New), Some(Noted::Known)))
}

#[test]
fn one_shard_keeps_once_what_two_hands_note(rt: HostRuntime) {
    let problem = writes_and_a_read_of(rt.alloc(), 9);
    assert!(rt; matches!(one_shard_keeps_once(rt.alloc(), &problem), Ok(true)));
}

// Whether a hand of a table over the memo knows what the memo has, and the table has no more than that.
fn knows_all_of(
    alloc: Global,
    memo: &OwnMemo<'_, AnyObject>,
    count: u64,
) -> Result<bool, AllocError> {
    let (table, mut hands) = Table::over(alloc, memo, 16, 1)?;
    let Some(mut hand) = hands.pop() else {
        return Ok(false);
    };
    let known = knows(alloc, &table, &mut hand, memo.problem())?;
    Ok(totals(alloc, table, hand, count)? && known)
}

// Whether it does so where the memo has all 13 configurations of the problem.
fn a_table_knows(alloc: Global, problem: &Part) -> Result<bool, AllocError> {
    let mut memo = OwnMemo::new(alloc, problem);
    let (_outcome, stored) = search_over(alloc, &mut memo)?;
    Ok(stored == 13 && knows_all_of(alloc, &memo, stored)?)
}

#[test]
fn a_table_knows_what_the_memo_below_it_has(rt: HostRuntime) {
    let problem = writes_and_a_read_of(rt.alloc(), 9);
    assert!(rt; matches!(a_table_knows(rt.alloc(), &problem), Ok(true)));
}

// What a thread brings back: whether its search refuted the problem, what it was told to be new, and its hand.
#[derive(Drop)]
struct Searched {
    refuted: bool,
    kept: Vec<Config<AnyObject>>,
    hand: Hand<AnyObject>,
}

// Searches over the table, and keeps a copy of each configuration that is new there.
fn search_keeping(
    alloc: Global,
    table: &Table<'_, AnyObject>,
    hand: &mut Hand<AnyObject>,
    problem: &Part,
    kept: &mut Vec<Config<AnyObject>>,
) -> Result<bool, AllocError>
    requires { IsHandOf table.now hand.old }
    ensures { IsHandOf table.now hand.new }
{
    let root = Config::root(alloc, problem)?;
    let mut memo = Keeping {
        alloc,
        memo: SharedMemo::new(table, hand),
        kept,
    };
    let outcome = search(alloc, problem, &root, &mut memo, None, &mut NoStop)?;
    Ok(outcome == Outcome::Refuted(THREE_MORE))
}

// What a thread brings back. Where memory is refused it did not refute the problem.
fn search_with(
    alloc: Global,
    table: &Table<'_, AnyObject>,
    mut hand: Hand<AnyObject>,
    problem: &Part,
) -> Searched
    requires { IsHandOf table.now hand }
    ensures { IsHandOf table.now result.hand }
{
    let mut kept = Vec::new(alloc);
    let refuted = search_keeping(alloc, table, &mut hand, problem, &mut kept);
    Searched {
        refuted: matches!(refuted, Ok(true)),
        kept,
        hand,
    }
}

// Whether no two of the configurations are the same.
fn are_apart(configs: &[Config<AnyObject>]) -> bool {
    for place in 0..configs.len() {
        if configs[..place].contains(&configs[place]) {
            return false;
        }
    }
    true
}

// Whether none of these configurations is one of those.
fn share_none(these: &[Config<AnyObject>], those: &[Config<AnyObject>]) -> bool {
    for config in these {
        if those.contains(config) {
            return false;
        }
    }
    true
}

// Whether no two of all these configurations are the same.
fn are_all_apart(these: &[Config<AnyObject>], those: &[Config<AnyObject>]) -> bool {
    are_apart(these) && are_apart(those) && share_none(these, those)
}

// Whether both refuted the problem, and the table has what they kept, at most 13, each once.
fn brought_each_once(
    alloc: Global,
    table: Table<'_, AnyObject>,
    one: Searched,
    other: Searched,
) -> Result<bool, AllocError>
    requires one { IsHandOf table one.hand }
    requires other { IsHandOf table other.hand }
{
    let refuted = one.refuted && other.refuted;
    let apart = are_all_apart(&one.kept, &other.kept);
    let count = one.kept.len().saturating_add(other.kept.len());
    let told = stored_by_both(alloc, table, one.hand, other.hand, count as u64)?;
    Ok(told && refuted && apart && count <= 13)
}

// Searches over the table with each of the hands, in threads.
fn search_with_all<R: Threads + Sync>(
    rt: &R,
    alloc: Global,
    table: &Table<'_, AnyObject>,
    hands: Vec<Hand<AnyObject>>,
    problem: &Part,
) -> Result<Vec<Searched>, AllocError>
    requires { All (IsHandOf table.now) hands.items }
    ensures { IfOk result (λ all. All (λ searched. IsHandOf table.now searched.hand) all.items) }
{
    thread::map_vec(
        rt,
        hands,
        &|hand: Hand<AnyObject>| -> Searched
            requires { IsHandOf table.now hand }
            ensures { IsHandOf table.entry.now result.hand }
        { search_with(alloc, table, hand, problem) },
    )
}

// Whether two threads search over one table so.
fn two_threads_search<R: Threads + Sync>(
    rt: &R,
    alloc: Global,
    problem: &Part,
) -> Result<bool, AllocError> {
    let (table, hands) = Table::new(alloc, problem, 16, 2)?;
    let mut all = search_with_all(rt, alloc, &table, hands, problem)?;
    let (Some(one), Some(other)) = (all.pop(), all.pop()) else {
        return Ok(false);
    };
    brought_each_once(alloc, table, one, other)
}

#[test]
fn two_threads_search_over_one_table(rt: HostRuntime) {
    let problem = writes_and_a_read_of(rt.alloc(), 9);
    assert!(rt; matches!(two_threads_search(&rt, rt.alloc(), &problem), Ok(true)));
}
