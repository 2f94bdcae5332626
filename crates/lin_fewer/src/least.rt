//! The least linearization, by asking at each configuration which call is the least with which a completion begins.

ghost use Rattle.std.specs.Prelude.{◌≡◌, ℕ, ◌<◌, List, length, IfOk, IfSome, IsTrue};
ghost use Rattle.lin_history.specs.Problems.Problem.{problem_of};
ghost use Rattle.lin_history.specs.Problems.Linearizations.{IsLinearization};
ghost use Rattle.lin_history.specs.Problems.Lists.{IsLeast};
ghost use Rattle.lin_history.specs.Problems.Continuations.{IsCompletion};
ghost use Rattle.lin_history.specs.Problems.Configurations.{IsReachable};
ghost use Rattle.lin_search.specs.Told.{IsRightOf};
ghost use Rattle.lin_fewer.specs.Fronts.{IsCalledBy, IsFirstLeft, IsLeastReturn};
ghost use Rattle.lin_fewer.specs.Nodes.{NoneBegins};
ghost use Rattle.lin_fewer.specs.Answers.{IsLeastCall, IsVerdictBy};
ghost use Rattle.lin_fewer.specs.Knowledge.{AreJudged};

use crate::bearing::bears;
use crate::front::{first_left, is_completed, is_later, least_return};
use crate::judged::Judged;
use crate::laws::fewer_law;
use crate::node::child_of;
use crate::rules::Rules;
use crate::search::{Search, mixed};
use crate::verdict::{Verdict, is_completion, is_refutation};
use lin_history::{Order, Problem};
use lin_object::{SeqObject, lawful};
use lin_search::{Config, Stop, Told};
use std::alloc::{AllocError, Global};

// How many calls are pending at least where a search by blocks of pending calls is a good bet.
const MANY_PENDING: usize = 4;

// The sum of the mixed numbers of the completed calls, with the call, if it is completed.
fn with_completed<O: SeqObject>(problem: &Problem<O>, completed: u64, call: usize) -> u64
    requires { call < length problem.now.calls }
{
    if is_completed(problem, call) {
        completed.wrapping_add(mixed(call as u64))
    } else {
        completed
    }
}

// The configurations of which one is asked: this one, the first of its completed calls that are left, the least number of their
// return events, and a hint.
#[derive(Drop)]
struct Asked<'c, O: SeqObject> {
    config: &'c Config<O>,
    first: usize,
    bound: u32,
    completed: u64,
}

// Whether a completion begins with the call.
fn begins<O: SeqObject, R: Rules<O>, S: Stop>(
    search: &mut Search<'_, O, R>,
    stop: &mut S,
    asked: &Asked<'_, O>,
    call: usize,
) -> Result<Verdict, AllocError>
    requires reachable { IsReachable (problem_of O.after O.State.eq O.Reply.eq search.old) asked.now.config.now.lifted asked.now.config.now.state }
    requires first { IsFirstLeft (problem_of O.after O.State.eq O.Reply.eq search.old) asked.now.config.now.lifted asked.now.first }
    requires bound { IsLeastReturn (problem_of O.after O.State.eq O.Reply.eq search.old) asked.now.config.now.lifted asked.now.bound }
    requires call { call < length search.old.calls }
    requires called { IsCalledBy (problem_of O.after O.State.eq O.Reply.eq search.old) call asked.now.bound }
    requires least { (d : ℕ) → d < call → NoneBegins (problem_of O.after O.State.eq O.Reply.eq search.old) asked.now.config.now.lifted
        asked.now.config.now.state d }
    ensures verdict { IfOk result (IsVerdictBy (problem_of O.after O.State.eq O.Reply.eq search.old) asked.now.config.now call) }
    ensures same { search.new ≡ search.old }
    ensures stop { S.follows stop.old stop.new }
{
    lawful::<O>();
    let problem = search.problem();
    let config = asked.config;
    if config.has(call) {
        return Ok(Verdict::Refuted);
    }
    if search.has_earlier(config.lifted(), call) {
        return Ok(Verdict::Refuted);
    }
    let Some(child) = child_of(search.alloc(), problem, config, call)? else {
        return Ok(Verdict::Refuted);
    };
    let completed = with_completed(problem, asked.completed, call);
    let verdict = bears(search, stop, child, asked.first, completed)?;
    Ok(verdict)
}

// The least call with which a completion begins. `None` where that is not known.
fn least_call<O: SeqObject, R: Rules<O>, S: Stop>(
    search: &mut Search<'_, O, R>,
    stop: &mut S,
    config: &Config<O>,
    first: usize,
    completed: u64,
) -> Result<Option<usize>, AllocError>
    requires reachable { IsReachable (problem_of O.after O.State.eq O.Reply.eq search.old) config.now.lifted config.now.state }
    requires first { IsFirstLeft (problem_of O.after O.State.eq O.Reply.eq search.old) config.now.lifted first }
    ensures least { IfOk result (λ answer. IfSome answer (IsLeastCall (problem_of O.after O.State.eq O.Reply.eq search.old) config.now)) }
    ensures same { search.new ≡ search.old }
    ensures stop { S.follows stop.old stop.new }
{
    let problem = search.problem();
    let bound = least_return(problem, config.lifted(), first);
    let asked = Asked {
        config,
        first,
        bound,
        completed,
    };
    for call in 0..problem.len() {
        if is_later(problem, call, bound) {
            return Ok(None);
        }
        let verdict = begins(search, stop, &asked, call)?;
        if is_completion(verdict) {
            return Ok(Some(call));
        }
        if !is_refutation(verdict) {
            return Ok(None);
        }
    }
    Ok(None)
}

// The same from the root on, which has a completion.
fn least_order<O: SeqObject, R: Rules<O>, S: Stop>(
    search: &mut Search<'_, O, R>,
    stop: &mut S,
    root: Config<O>,
) -> Result<Option<Vec<usize>>, AllocError>
    requires reachable { IsReachable (problem_of O.after O.State.eq O.Reply.eq search.old) root.lifted root.state }
    ensures least { IfOk result (λ answer. IfSome answer (λ calls. IsLeast (IsCompletion (problem_of O.after O.State.eq O.Reply.eq search.old) root.lifted
        root.state) calls.items)) }
    ensures same { search.new ≡ search.old }
    ensures stop { S.follows stop.old stop.new }
{
    let alloc = search.alloc();
    let problem = search.problem();
    let mut calls = Vec::new(alloc);
    let mut config = root;
    let mut from = 0;
    let mut completed = 0;
    'calls: for _ in 0..usize::MAX {
        let Some(first) = first_left(problem, config.lifted(), from) else {
            return Ok(Some(calls));
        };
        let Some(call) = least_call(search, stop, &config, first, completed)? else {
            return Ok(None);
        };
        let Some(child) = child_of(alloc, problem, &config, call)? else {
            return Ok(None);
        };
        calls.push(call)?;
        completed = with_completed(problem, completed, call);
        config = child;
        from = first;
    }
    Ok(None)
}

// What is told by the search.
fn told_by<O: SeqObject, R: Rules<O>, S: Stop>(
    search: &mut Search<'_, O, R>,
    stop: &mut S,
) -> Result<Told, AllocError>
    ensures told { IfOk result (IsRightOf (problem_of O.after O.State.eq O.Reply.eq search.old)) }
    ensures same { search.new ≡ search.old }
    ensures stop { S.follows stop.old stop.new }
{
    let alloc = search.alloc();
    let problem = search.problem();
    lawful::<O>();
    fewer_law(problem);
    let root = Config::root(alloc, problem)?;
    let copy = root.copy(alloc, problem)?;
    match bears(search, stop, copy, 0, 0)? {
        Verdict::Refuted => return Ok(Told::Refuted),
        Verdict::Unknown => return Ok(Told::Nothing),
        Verdict::Completes => {}
    }
    match least_order(search, stop, root)? {
        Some(calls) => Ok(Told::Found(Order::new(calls))),
        None => Ok(Told::Nothing),
    }
}

/// Whether so many calls are pending that `least_linearization` is a good bet: with fewer of them a search in the order of the calls is
/// as quick.
pub fn has_many_pending<O: SeqObject>(problem: &Problem<O>) -> bool {
    let mut pending: usize = 0;
    for call in 0..problem.len() {
        if !is_completed(problem, call) {
            pending = pending.saturating_add(1);
        }
    }
    pending >= MANY_PENDING
}

/// Whether the problem is found to have a linearization, within so many steps and before the stop answers: which is the least is not
/// asked. It goes on from the configurations that are judged, and puts to them those that it judges. `AllocError` where memory was
/// refused: they are lost then.
///
/// Conditions: the rules are made for the problem, and the configurations are rightly judged in it.
pub fn shows_linearization<O: SeqObject, R: Rules<O>, S: Stop>(
    alloc: Global,
    problem: &Problem<O>,
    rules: &R,
    judged: &mut Judged<O>,
    steps: u64,
    stop: &mut S,
) -> Result<bool, AllocError>
    requires suits { R.suits rules.now problem.now }
    requires judged { AreJudged (problem_of O.after O.State.eq O.Reply.eq problem.now) judged.old }
    ensures judged { AreJudged (problem_of O.after O.State.eq O.Reply.eq problem.now) judged.new }
    ensures some { IfOk result (λ yes. IsTrue yes → (l : List ℕ)
        × IsLinearization (problem_of O.after O.State.eq O.Reply.eq problem.now) l) }
    ensures stop { S.follows stop.old stop.new }
{
    lawful::<O>();
    fewer_law(problem);
    let root = Config::root(alloc, problem)?;
    let mut search = Search::new(alloc, problem, rules, judged.take(alloc), steps)?;
    let verdict = bears(&mut search, stop, root, 0, 0)?;
    *judged = search.into_judged();
    Ok(is_completion(verdict))
}

/// The least linearization of the problem, in lexicographic order, or that there is none, where that is told within so many steps and
/// before the stop answers. It goes on from the configurations that are judged, and puts to them those that it judges. `AllocError`
/// where memory was refused: they are lost then.
///
/// Conditions: the rules are made for the problem, and the configurations are rightly judged in it.
pub fn least_linearization<O: SeqObject, R: Rules<O>, S: Stop>(
    alloc: Global,
    problem: &Problem<O>,
    rules: &R,
    judged: &mut Judged<O>,
    steps: u64,
    stop: &mut S,
) -> Result<Told, AllocError>
    requires suits { R.suits rules.now problem.now }
    requires judged { AreJudged (problem_of O.after O.State.eq O.Reply.eq problem.now) judged.old }
    ensures judged { AreJudged (problem_of O.after O.State.eq O.Reply.eq problem.now) judged.new }
    ensures told { IfOk result (IsRightOf (problem_of O.after O.State.eq O.Reply.eq problem.now)) }
    ensures stop { S.follows stop.old stop.new }
{
    let mut search = Search::new(alloc, problem, rules, judged.take(alloc), steps)?;
    let told = told_by(&mut search, stop)?;
    *judged = search.into_judged();
    Ok(told)
}
