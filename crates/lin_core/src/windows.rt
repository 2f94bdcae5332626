//! Calls of a problem as they stood in a window of its events: whether they have no linearization, whatever the object held before.

ghost use Rattle.std.specs.Prelude.{◌≡◌, ◌⊎◌, ◌<◌, ◌≤◌, ℕ, ℤ, pos, nat_abs, Some, None, [], ◌∷◌, true, false, IfOk, IfSome, IsTrue, length, slice_get, slice_index, slice_index_or};
ghost use Rattle.lin_object.specs.Items.{is_in};
ghost use Rattle.lin_object.specs.declared.state.ObjState.TheVariants.{Set, Mutex, Map};
ghost use Rattle.lin_object.specs.declared.op.Op.{Op};
ghost use Rattle.lin_object.specs.declared.reply.Reply.{Reply};
ghost use Rattle.lin_history.specs.declared.problems.problem.ProblemCall.{ProblemCall};
ghost use Rattle.lin_history.specs.Problems.Lists.{In};
ghost use Rattle.lin_history.specs.Problems.AnyProblem.{any_problem};
ghost use Rattle.lin_core.specs.Windows.{returned_in, call_in, is_over, OthersMayGo, AreEnoughWithin};
ghost use Rattle.lin_core.specs.Suffixes.{is_at_key, is_away, IsBesideKey, is_back_by, IsAtKeyUntil, IsBesideKeyAfter};
ghost use Rattle.lin_core.specs.KeyValues.{IsOnKey, IsOffKey};
ghost use Rattle.lin_core.specs.SuffixCores.{MayStayAt, MayGoAt, MayStayUntil, MayGoAfter, IsLaterIn, MayStayIn, MayGoIn, HasBeginningsIn, holding, holding_none, IsRefutedFrom, IsSuffixCore};
ghost use Rattle.lin_core.specs.Cores.{IsCoreOf, HasNone};

use crate::key_tables::{is_on_key, may_go_by_key, may_tell};
use crate::laws::suffix_core_law;
use crate::part_anew::made_within;
use crate::part_check::{is_kept, is_return_by, is_rising, same_start, same_state};
use crate::part_search::decided;
use crate::refuted_part::Core;
use crate::selection::{Later, MapKey};
use crate::value_tables::{has, is_on, may_go};
use lin_effort::{Decide, UntilSpent, Work};
use lin_history::{Problem, ProblemCall};
use lin_object::{AnyObject, Items, ObjState, Op, Pairs, Reply, SeqObject};
use lin_parts::flags_of;
use lin_search::{AtTimes, Stop};
use std::alloc::{AllocError, Global};

// Among so many numbers one is looked for that is none of the values.
const NUMBERS: i64 = 65_536;

/// Some calls of a problem, as they stood in a window of its events.
#[derive(Debug, Drop)]
pub struct Window {
    /// The number of the event with which the window begins: what returned before it is over.
    pub from: u32,
    /// The number of its last event.
    pub event: u32,
    /// The key of a map that is looked at: some of its values, or all that it has, where 'no value' is looked at too.
    pub key: Option<MapKey>,
    /// The values: those of a register, the item of a set, processes of a mutex, or values of the key.
    pub values: Vec<i64>,
    /// The numbers of the calls, in increasing order.
    pub calls: Vec<usize>,
}

// Whether a call with this return returned before the window.
fn is_over(from: u32, returned: &Option<(u32, Reply)>) -> bool
    ensures { result ≡ is_over from returned.now }
{
    match returned {
        Some((number, _)) => *number < from,
        None => false,
    }
}

// Whether the part's return is that of the whole's call in the window.
fn is_return_in(
    from: u32,
    event: u32,
    called: u32,
    whole: &Option<(u32, Reply)>,
    part: &Option<(u32, Reply)>,
) -> bool
    ensures { IsTrue result → part.now ≡ returned_in from event called whole.now }
{
    if called < from {
        return part.is_none();
    }
    is_return_by(event, whole, part)
}

// Whether the call is the other one, as it stood in the window.
fn is_call_in(
    from: u32,
    event: u32,
    whole: &ProblemCall<Op, Reply>,
    part: &ProblemCall<Op, Reply>,
) -> bool
    ensures { IsTrue result → part.now ≡ call_in from event whole.now }
{
    same_start(part, whole)
        && is_return_in(from, event, whole.called, &whole.returned, &part.returned)
}

// Whether the part has the calls of these numbers, as they stood in the window.
fn has_calls_within(
    problem: &Problem<AnyObject>,
    from: u32,
    event: u32,
    kept: &[usize],
    part: &Problem<AnyObject>,
) -> bool
    ensures count { IsTrue result → length part.now.calls ≡ length kept.now }
    ensures each { IsTrue result → (i : ℕ) → i < length kept.now → (x : ProblemCall Op Reply)
        × (slice_get problem.now.calls (slice_index kept.now i) ≡ Some x) × (x.called ≤ event)
        × (slice_get part.now.calls i ≡ Some (call_in from event x)) }
{
    if part.len() != kept.len() {
        return false;
    }
    for i in 0..kept.len() {
        if kept[i] >= problem.len() {
            return false;
        }
        let call = problem.call(kept[i]);
        if call.called > event || !is_call_in(from, event, call, part.call(i)) {
            return false;
        }
    }
    true
}

// Whether the call is on the key, and tells of no value but one of those seen.
fn is_at_key(key: i64, seen: &[i64], call: &ProblemCall<Op, Reply>) -> bool
    ensures { result ≡ is_at_key key seen.now call.now.op call.now.returned }
{
    match &call.op {
        Op::Put(at, _) => *at == key,
        Op::Lookup(at) => *at == key && may_tell(true, seen, &call.returned),
        Op::Delete(at) => *at == key,
        _ => false,
    }
}

// Whether it is a put or a delete of another key.
fn is_away(key: i64, op: &Op) -> bool
    ensures { result ≡ is_away key op.now }
{
    match op {
        Op::Put(at, _) => !(*at == key),
        Op::Delete(at) => !(*at == key),
        _ => false,
    }
}

// Whether it changes nothing of the key.
fn is_beside_key(key: i64, call: &ProblemCall<Op, Reply>) -> bool
    ensures { IsTrue result → IsBesideKey key call.now }
{
    is_away(key, &call.op) || AnyObject.changes_nothing(&call.op, &call.returned)
}

// Whether a call with this return returned by the event.
fn is_back_by(event: u32, returned: &Option<(u32, Reply)>) -> bool
    ensures { result ≡ is_back_by event returned.now }
{
    match returned {
        Some((number, _)) => *number <= event,
        None => false,
    }
}

// The key, where no more of it is looked at than its values.
fn by_values(key: i64) -> MapKey
    ensures { (result.key ≡ key) × (result.nothing ≡ false) }
{
    MapKey {
        key,
        nothing: false,
        later: None,
    }
}

// Whether the call puts this value at the key, or finds it.
fn is_on_value(key: i64, value: i64, call: &ProblemCall<Op, Reply>) -> bool
    ensures { IsTrue result → IsOnKey key false (value ∷ []) call.now }
{
    is_on_key(&by_values(key), &[value], call)
}

// Whether it changes nothing of what is known of the value there.
fn is_off_value(key: i64, value: i64, call: &ProblemCall<Op, Reply>) -> bool
    ensures { IsTrue result → IsOffKey key false (value ∷ []) call.now }
{
    may_go_by_key(&by_values(key), &[value], call)
}

// Whether the call is on the key, and returned by the event from which on one value counts alone, or is on that.
fn is_at_key_until(key: i64, seen: &[i64], later: &Later, call: &ProblemCall<Op, Reply>) -> bool
    ensures { IsTrue result → IsAtKeyUntil key seen.now later.now.value later.now.event call.now }
{
    if !is_at_key(key, seen, call) {
        return false;
    }
    is_back_by(later.event, &call.returned) || is_on_value(key, later.value, call)
}

// Whether it changes nothing of the key, or was called after that event and does not put the value.
fn is_beside_key_after(key: i64, later: &Later, call: &ProblemCall<Op, Reply>) -> bool
    ensures { IsTrue result → IsBesideKeyAfter key later.now.value later.now.event call.now }
{
    if is_beside_key(key, call) {
        return true;
    }
    call.called > later.event && is_off_value(key, later.value, call)
}

// Whether the call on a map may be kept.
fn may_stay_at(key: &MapKey, values: &[i64], call: &ProblemCall<Op, Reply>) -> bool
    ensures { IsTrue result → MayStayAt key.now.nothing key.now.key values.now call.now }
{
    if key.nothing {
        is_at_key(key.key, values, call)
    } else {
        is_on_key(key, values, call)
    }
}

// Whether it may be left out.
fn may_go_at(key: &MapKey, values: &[i64], call: &ProblemCall<Op, Reply>) -> bool
    ensures { IsTrue result → MayGoAt key.now.nothing key.now.key values.now call.now }
{
    if key.nothing {
        is_beside_key(key.key, call)
    } else {
        may_go_by_key(key, values, call)
    }
}

// Whether the call on a map may be kept, where one value may count alone from an event on.
fn may_stay_until(key: &MapKey, values: &[i64], call: &ProblemCall<Op, Reply>) -> bool
    ensures { IsTrue result → MayStayUntil key.now.later key.now.nothing key.now.key values.now call.now }
{
    match &key.later {
        Some(later) => is_at_key_until(key.key, values, later, call),
        None => may_stay_at(key, values, call),
    }
}

// Whether it may be left out then.
fn may_go_after(key: &MapKey, values: &[i64], call: &ProblemCall<Op, Reply>) -> bool
    ensures { IsTrue result → MayGoAfter key.now.later key.now.nothing key.now.key values.now call.now }
{
    match &key.later {
        Some(later) => is_beside_key_after(key.key, later, call),
        None => may_go_at(key, values, call),
    }
}

/// Whether the call may be kept.
pub(crate) fn may_stay_in(
    key: &Option<MapKey>,
    values: &[i64],
    call: &ProblemCall<Op, Reply>,
) -> bool
    ensures { IsTrue result → MayStayIn key.now values.now call.now }
{
    match key {
        Some(at) => may_stay_until(at, values, call),
        None => is_on(values, call),
    }
}

/// Whether it may be left out.
pub(crate) fn may_go_in(key: &Option<MapKey>, values: &[i64], call: &ProblemCall<Op, Reply>) -> bool
    ensures { IsTrue result → MayGoIn key.now values.now call.now }
{
    match key {
        Some(at) => may_go_after(at, values, call),
        None => may_go(values, call),
    }
}

// Whether the call is over before the window, or may be left out.
fn is_needless(
    from: u32,
    key: &Option<MapKey>,
    values: &[i64],
    call: &ProblemCall<Op, Reply>,
) -> bool
    ensures { IsTrue result → (is_over from call.now.returned ≡ true) ⊎ MayGoIn key.now values.now call.now }
{
    is_over(from, &call.returned) || may_go_in(key, values, call)
}

// Whether all calls of the part may be kept.
fn all_may_stay(key: &Option<MapKey>, values: &[i64], part: &Problem<AnyObject>) -> bool
    ensures { IsTrue result → (i : ℕ) (x : ProblemCall Op Reply) → slice_get part.now.calls i ≡ Some x
        → MayStayIn key.now values.now x }
{
    for i in 0..part.len() {
        if !may_stay_in(key, values, part.call(i)) {
            return false;
        }
    }
    true
}

// Whether each other call that was called by the event is over before the window, or may be left out; not where the stop answers.
fn others_may_go_within<S: Stop>(
    problem: &Problem<AnyObject>,
    window: &Window,
    flags: &[bool],
    stop: &mut S,
) -> bool
    requires { (c : ℕ) → slice_index_or flags.now c false ≡ true → In c window.now.calls.items }
    ensures { IsTrue result → OthersMayGo (any_problem problem.now) window.now.from window.now.event
        window.now.calls.items (MayGoIn window.now.key window.now.values.items) }
{
    let kept = window.calls.as_slice();
    let values = window.values.as_slice();
    for c in 0..problem.len() {
        if stop.ask().is_some() {
            return false;
        }
        let call = problem.call(c);
        if call.called <= window.event
            && !is_needless(window.from, &window.key, values, call)
            && !is_kept(kept, flags, c)
        {
            return false;
        }
    }
    true
}

// Whether the part is the problem of the window's calls from this state on, where each other call may be left out.
fn is_part_from(
    problem: &Problem<AnyObject>,
    window: &Window,
    start: &ObjState,
    part: &Problem<AnyObject>,
) -> bool
    requires { OthersMayGo (any_problem problem.now) window.now.from window.now.event window.now.calls.items
        (MayGoIn window.now.key window.now.values.items) }
    ensures start { IsTrue result → part.now.start ≡ start.now }
    ensures enough { IsTrue result → AreEnoughWithin (any_problem problem.now) window.now.from
        window.now.event window.now.calls.items part.now.calls
        (MayStayIn window.now.key window.now.values.items) (MayGoIn window.now.key window.now.values.items) }
{
    let kept = window.calls.as_slice();
    let values = window.values.as_slice();
    if !same_state(part.start(), start) {
        return false;
    }
    if !is_rising(kept) || !has_calls_within(problem, window.from, window.event, kept, part) {
        return false;
    }
    all_may_stay(&window.key, values, part)
}

// Whether the calls have no linearization from this state on, where each other call may be left out.
fn is_refuted_from<D: Decide>(
    alloc: Global,
    problem: &Problem<AnyObject>,
    window: &Window,
    start: &ObjState,
    decider: &mut D,
) -> Result<bool, AllocError>
    requires { OthersMayGo (any_problem problem.now) window.now.from window.now.event window.now.calls.items
        (MayGoIn window.now.key window.now.values.items) }
    ensures { IfOk result (λ yes. IsTrue yes → IsRefutedFrom (any_problem problem.now) window.now.from
        window.now.event window.now.key window.now.values.items window.now.calls.items start.now) }
{
    let kept = window.calls.as_slice();
    let Some(part) = made_within(alloc, problem, kept, window.from, window.event, start)? else {
        return Ok(false);
    };
    if !is_part_from(problem, window, start, &part) {
        return Ok(false);
    }
    let decision = decided(alloc, &part, decider)?;
    Ok(decision.is_refuted())
}

// The process of this number, if it is one.
fn process_of(value: i64) -> Option<u32>
    ensures { IfSome result (λ process. value ≡ pos process) }
{
    u32::try_from(value).ok()
}

// The state of a set that has this item alone.
fn set_holding(alloc: Global, item: i64) -> Result<ObjState, AllocError>
    ensures { IfOk result (λ state. state ≡ Set (item ∷ [])) }
{
    let nothing = Items::none(alloc);
    let items = nothing.with_last(alloc, item)?;
    Ok(ObjState::Set(items))
}

// The state of a mutex that the process of this number holds, if it is one.
fn mutex_holding(value: i64) -> Option<ObjState>
    ensures { IfSome result (λ state. state ≡ Mutex (Some (nat_abs value))) }
{
    let process = process_of(value)?;
    Some(ObjState::Mutex(Some(process)))
}

// The state of a map that has this value at the key.
fn map_holding(alloc: Global, key: i64, value: i64) -> Result<ObjState, AllocError>
    ensures { IfOk result (λ state. state ≡ Map (record { key = key; value = value } ∷ [])) }
{
    let nothing = Pairs::none(alloc);
    let pairs = nothing.with_value(alloc, key, value)?;
    Ok(ObjState::Map(pairs))
}

// The state of an object that starts so, where it holds this value alone; `None` where nothing is known of such states.
fn state_holding(
    alloc: Global,
    key: &Option<MapKey>,
    start: &ObjState,
    value: i64,
) -> Result<Option<ObjState>, AllocError>
    ensures { IfOk result (λ found. IfSome found (λ state. state ≡ holding key.now start.now value)) }
{
    match (start, key) {
        (ObjState::Register(_), _) => Ok(Some(ObjState::Register(value))),
        (ObjState::Set(_), _) => Ok(Some(set_holding(alloc, value)?)),
        (ObjState::Mutex(_), _) => Ok(mutex_holding(value)),
        (ObjState::Map(_), Some(at)) => Ok(Some(map_holding(alloc, at.key, value)?)),
        _ => Ok(None),
    }
}

// The same where it holds none of the values.
fn state_holding_none(alloc: Global, start: &ObjState) -> Option<ObjState>
    ensures { IfSome result (λ state. state ≡ holding_none start.now) }
{
    match start {
        ObjState::Register(value) => Some(ObjState::Register(*value)),
        ObjState::Set(_) => Some(ObjState::Set(Items::none(alloc))),
        ObjState::Mutex(_) => Some(ObjState::Mutex(None)),
        ObjState::Map(_) => Some(ObjState::Map(Pairs::none(alloc))),
        _ => None,
    }
}

// Whether the calls have no linearization where the object held nothing.
fn is_refuted_holding_none<D: Decide>(
    alloc: Global,
    problem: &Problem<AnyObject>,
    window: &Window,
    decider: &mut D,
) -> Result<bool, AllocError>
    requires { OthersMayGo (any_problem problem.now) window.now.from window.now.event window.now.calls.items
        (MayGoIn window.now.key window.now.values.items) }
    ensures { IfOk result (λ yes. IsTrue yes → IsRefutedFrom (any_problem problem.now) window.now.from
        window.now.event window.now.key window.now.values.items window.now.calls.items
        (holding_none problem.now.start)) }
{
    let Some(start) = state_holding_none(alloc, problem.start()) else {
        return Ok(false);
    };
    is_refuted_from(alloc, problem, window, &start, decider)
}

// Whether they have none where it held this value.
fn is_refuted_holding<D: Decide>(
    alloc: Global,
    problem: &Problem<AnyObject>,
    window: &Window,
    value: i64,
    decider: &mut D,
) -> Result<bool, AllocError>
    requires { OthersMayGo (any_problem problem.now) window.now.from window.now.event window.now.calls.items
        (MayGoIn window.now.key window.now.values.items) }
    ensures { IfOk result (λ yes. IsTrue yes → IsRefutedFrom (any_problem problem.now) window.now.from
        window.now.event window.now.key window.now.values.items window.now.calls.items
        (holding window.now.key problem.now.start value)) }
{
    let Some(start) = state_holding(alloc, &window.key, problem.start(), value)? else {
        return Ok(false);
    };
    is_refuted_from(alloc, problem, window, &start, decider)
}

// Whether they have none where it held one of the values.
fn is_refuted_holding_each<D: Decide>(
    alloc: Global,
    problem: &Problem<AnyObject>,
    window: &Window,
    decider: &mut D,
) -> Result<bool, AllocError>
    requires { OthersMayGo (any_problem problem.now) window.now.from window.now.event window.now.calls.items
        (MayGoIn window.now.key window.now.values.items) }
    ensures { IfOk result (λ yes. IsTrue yes → (i : ℕ) (v : ℤ) → slice_get window.now.values.items i ≡ Some v
        → IsRefutedFrom (any_problem problem.now) window.now.from window.now.event window.now.key
        window.now.values.items window.now.calls.items (holding window.now.key problem.now.start v)) }
{
    for i in 0..window.values.len() {
        if !is_refuted_holding(alloc, problem, window, window.values[i], decider)? {
            return Ok(false);
        }
    }
    Ok(true)
}

// A number that is none of these; `None` where none was met.
fn other_than(values: &[i64]) -> Option<i64>
    ensures { IfSome result (λ v. is_in v values.now ≡ false) }
{
    for value in 0..NUMBERS {
        if !has(values, value) {
            return Some(value);
        }
    }
    None
}

// Whether the value that counts alone from an event on, where there is one, is among these.
fn is_later_in(later: &Option<Later>, values: &[i64]) -> bool
    ensures { IsTrue result → IsLaterIn later.now values.now }
{
    match later {
        Some(later) => has(values, later.value),
        None => true,
    }
}

// Whether the values stand for all that the object may have held.
fn has_beginnings(window: &Window, start: &ObjState) -> bool
    ensures { IsTrue result → HasBeginningsIn window.now.key window.now.values.items start.now }
{
    match (&window.key, start) {
        (None, ObjState::Register(_)) => true,
        (None, ObjState::Mutex(_)) => true,
        (None, ObjState::Set(_)) => window.values.len() == 1,
        (Some(at), ObjState::Map(_)) => is_later_in(&at.later, window.values.as_slice()),
        _ => false,
    }
}

// Whether the calls have no linearization, whatever the object held: nothing, one of the values, or another; where each other call may
// be left out.
fn is_refuted_anyhow<D: Decide>(
    alloc: Global,
    problem: &Problem<AnyObject>,
    window: &Window,
    decider: &mut D,
) -> Result<bool, AllocError>
    requires { OthersMayGo (any_problem problem.now) window.now.from window.now.event window.now.calls.items
        (MayGoIn window.now.key window.now.values.items) }
    ensures { IfOk result (λ yes. IsTrue yes → IsSuffixCore (any_problem problem.now) window.now.from
        window.now.event window.now.key window.now.values.items window.now.calls.items) }
{
    if !has_beginnings(window, problem.start()) {
        return Ok(false);
    }
    let Some(other) = other_than(window.values.as_slice()) else {
        return Ok(false);
    };
    if !is_refuted_holding_none(alloc, problem, window, decider)? {
        return Ok(false);
    }
    if !is_refuted_holding(alloc, problem, window, other, decider)? {
        return Ok(false);
    }
    is_refuted_holding_each(alloc, problem, window, decider)
}

// Whether the calls of the window are a core; not where what decides does not go on.
fn is_suffix_core<D: Decide>(
    alloc: Global,
    problem: &Problem<AnyObject>,
    window: &Window,
    decider: &mut D,
) -> Result<bool, AllocError>
    ensures { IfOk result (λ yes. IsTrue yes → IsSuffixCore (any_problem problem.now) window.now.from
        window.now.event window.now.key window.now.values.items window.now.calls.items) }
{
    if !decider.goes_on(Work::NONE) {
        return Ok(false);
    }
    let flags = flags_of(alloc, window.calls.as_slice(), problem.len())?;
    let mut stop = UntilSpent::new(decider);
    if !others_may_go_within(
        problem,
        window,
        flags.as_slice(),
        &mut AtTimes::new(&mut stop),
    ) {
        return Ok(false);
    }
    is_refuted_anyhow(alloc, problem, window, decider)
}

/// The core of the calls of this window, if they are one: alone they have no linearization, whatever the object held right before
/// it. `None` where they are none, or where that is not known: where a search of them ends with nothing, or what decides does not go on.
/// `AllocError` where memory was refused.
pub fn suffix_core_of_calls<D: Decide>(
    alloc: Global,
    problem: &Problem<AnyObject>,
    window: Window,
    decider: &mut D,
) -> Result<Option<Core>, AllocError>
    ensures asked { IfOk result (λ answer. IfSome answer (λ core. (core.from ≡ Some window.from)
        × (core.event ≡ window.event) × (core.key ≡ window.key) × (core.values.items ≡ window.values.items)
        × (core.calls.items ≡ window.calls.items))) }
    ensures core { IfOk result (λ answer. IfSome answer (λ core. IsCoreOf (any_problem problem.now) core.from
        core.event core.key core.values.items core.calls.items core.firsts.items)) }
    ensures none { IfOk result (λ answer. IfSome answer (λ core. HasNone (any_problem problem.now))) }
{
    suffix_core_law(problem);
    if !is_suffix_core(alloc, problem, &window, decider)? {
        return Ok(None);
    }
    let Window {
        from,
        event,
        key,
        values,
        calls,
    } = window;
    Ok(Some(Core {
        from: Some(from),
        event,
        key,
        values,
        calls,
        firsts: Vec::new(alloc),
        lasts: Vec::new(alloc),
    }))
}
