//! The builder: it accepts exactly the events with which a history stays well-formed.

ghost use Rattle.std.specs.Prelude.{◌≡◌, ◌≢◌, ℕ, ◌<◌, ◌≤◌, ◌+◌, ◌^◌, ◌++◌, ◌∷◌, [], ◌||◌, nat_le, Some, None, nat_eq, length, map, option_map, option_and_then, filter, find, position, bytes_eq, slice_get, slice_set, is_some, true, false, OnOk, OnErr, IfOk, IfErr, IfSome, IfNone, IsTrue, IsFalse, IsSomeAnd};
ghost use Rattle.indexmap.specs.IndexMap.{get};
ghost use Rattle.lin_history.specs.Refusals.{first_that_holds};
ghost use Rattle.lin_history.specs.Recorder.Events.{calls, returns_, fails, ends, is_kept, calls_of};
ghost use Rattle.lin_history.specs.Recorder.Names.{is_name};
ghost use Rattle.lin_history.specs.Recorder.Recording.{is_pending, is_unknown, is_last_of, count_made_on, index_named, kind_named, declaration_refusals, end_refusals};
ghost use Rattle.lin_history.specs.Recorder.Found.{IsFound};
ghost use Rattle.lin_history.specs.Recorder.Views.{object_view, call_view, AreFinished, AreWithinLimit};
ghost use Rattle.lin_history.specs.Recorder.BuilderState.{recorded, made_view, name_refusals, process_refusals, pending_refusals, KnowsLast, AreCounts, AreMadeWithinLimit, IsPendingOn};

use crate::limits::{MAX_CALLS, MAX_CALLS_ON_OBJECT, MAX_OBJECTS};
use crate::recorder::fault::BuildFault;
use crate::recorder::found::FoundObject;
use crate::recorder::history::{CallInfo, Declaration, History, Mark};
use crate::recorder::name::is_name;
use indexmap::IndexMap;
use lin_object::{Kind, Op, Reply};
use std::alloc::{AllocError, Global};
use std::marker::Model;

/// Builds a history from its events, one after another. It accepts exactly the events with which the
/// history stays well-formed, as long as there is room: a process has at most one pending call; a
/// return, a failure or the end of a process is of the pending call of its process, on the same
/// object; and a process that has ended has no event more.
#[derive(Drop)]
pub struct Builder {
    objects: IndexMap<String, Declaration>,
    // the calls that were made, also those that failed
    calls: Vec<CallInfo>,
    // how many calls and returns were accepted
    events: u32,
    // how many calls were made on each object
    counts: Vec<usize>,
    // the index of the last call of each process: where one has neither returned nor failed, it is this one
    last: IndexMap<u32, usize>,
    // the object of the last event, where the next one is looked for first
    recent: usize,
}

// Contracts see what is recorded so far; the rest says which call of a process is its last, and how many calls were
// made on each object.
impl Model for Builder {
    ghost use Rattle.std.specs.Prelude.{map, nat_eq};
    ghost use Rattle.indexmap.specs.IndexMap.{get};
    ghost use Rattle.lin_history.specs.Recorder.Recording.{Recording};
    ghost use Rattle.lin_history.specs.Recorder.Views.{object_view};
    ghost use Rattle.lin_history.specs.Recorder.BuilderState.{IsBuilderState, recorded};

    ghost Value = { Recording };

    ghost view = { λ b. recorded (map object_view b.objects.entries) b.calls.items b.events };

    ghost invariant = { λ b. IsBuilderState (map object_view b.objects.entries) b.calls.items
        b.events (get nat_eq b.last) b.counts.items };
}

// The index of the object of this name.
fn index_in(objects: &IndexMap<String, Declaration>, name: &str) -> Option<usize>
    ensures { result ≡ index_named (recorded (map object_view objects.now.entries) [] 0) name.now }
{
    objects.get_index_of(name)
}

// Whether the object of this index has this name.
fn is_named(objects: &IndexMap<String, Declaration>, object: usize, name: &str) -> bool
    ensures { IsTrue result → index_named (recorded (map object_view objects.now.entries) [] 0)
        name.now ≡ Some object }
{
    if object >= objects.len() {
        return false;
    }
    match objects.get_index(object) {
        Some((key, _)) => name == key.as_str(),
        None => false,
    }
}

// The same index. The object at `likely` is looked at first, which is quicker than by the name.
fn index_near(objects: &IndexMap<String, Declaration>, likely: usize, name: &str) -> Option<usize>
    ensures { result ≡ index_named (recorded (map object_view objects.now.entries) [] 0) name.now }
{
    if is_named(objects, likely, name) {
        Some(likely)
    } else {
        index_in(objects, name)
    }
}

// Why a declaration of this name is refused.
fn declaration_fault(objects: &IndexMap<String, Declaration>, name: &str) -> Option<BuildFault>
    ensures fault { result ≡ first_that_holds (declaration_refusals
        (recorded (map object_view objects.now.entries) [] 0) name.now) }
    ensures valid { IfNone result (is_name name.now ≡ true) }
    ensures absent { IfNone result (index_named
        (recorded (map object_view objects.now.entries) [] 0) name.now ≡ None) }
    ensures room { IfNone result (length objects.now.entries < MAX_OBJECTS) }
{
    if !is_name(name) {
        Some(BuildFault::BadName)
    } else if index_in(objects, name).is_some() {
        Some(BuildFault::Declared)
    } else if objects.len() >= MAX_OBJECTS {
        Some(BuildFault::TooManyObjects)
    } else {
        None
    }
}

// The object of this name. The object at `likely` is looked at first.
fn find_in<'n>(
    objects: &IndexMap<String, Declaration>,
    likely: usize,
    name: &'n str,
) -> Option<FoundObject<'n>>
    ensures name { IfSome result (λ found. found.name.now ≡ name.now) }
    ensures index { option_map (λ found. found.index) result
        ≡ index_named (recorded (map object_view objects.now.entries) [] 0) name.now }
    ensures kind { option_map (λ found. found.kind) result
        ≡ kind_named (recorded (map object_view objects.now.entries) [] 0) name.now }
{
    match index_near(objects, likely, name) {
        Some(index) => match objects.get_index(index) {
            Some((_, declaration)) => Some(FoundObject {
                name,
                index,
                kind: declaration.kind(),
            }),
            None => None,
        },
        None => None,
    }
}

// Whether the process has ended with the call.
fn has_ended(call: &CallInfo) -> bool
    ensures { result ≡ is_unknown (made_view call.now).outcome }
{
    match call.returned {
        None => matches!(call.mark, Mark::Ended),
        Some(_) => false,
    }
}

// Whether the call is one of the history: it did not fail.
fn is_kept(call: &CallInfo) -> bool
    ensures { result ≡ is_kept (made_view call.now) }
{
    match call.returned {
        None => !matches!(call.mark, Mark::Failed),
        Some(_) => true,
    }
}

// Whether the call has neither returned nor failed.
fn is_open(call: &CallInfo) -> bool
    ensures { result ≡ (is_pending (made_view call.now).outcome
        || is_unknown (made_view call.now).outcome) }
{
    match call.returned {
        None => !matches!(call.mark, Mark::Failed),
        Some(_) => false,
    }
}

// Whether the call of this index is there, is the process's, and has neither returned nor failed.
fn is_last_at(calls: &[CallInfo], call: usize, process: u32) -> bool
    ensures last { IsTrue result → IsSomeAnd (slice_get calls.now call)
        (λ c. is_last_of process (made_view c) ≡ true) }
    ensures not_last { IsFalse result → IfSome (slice_get calls.now call)
        (λ c. is_last_of process (made_view c) ≡ false) }
{
    match calls.get(call) {
        Some(call) => call.process == process && is_open(call),
        None => false,
    }
}

// The index of the call of the process that has neither returned nor failed.
fn last_in(calls: &[CallInfo], last: &IndexMap<u32, usize>, process: u32) -> Option<usize>
    requires { KnowsLast (get nat_eq last.now) calls.now }
    ensures none { IfNone result (find (is_last_of process) (map made_view calls.now) ≡ None) }
    ensures some { IfSome result (λ call. IsSomeAnd (slice_get calls.now call)
        (λ c. is_last_of process (made_view c) ≡ true)) }
    ensures within { IfSome result (λ call. call < length calls.now) }
    ensures found { IfSome result (λ call. find (is_last_of process) (map made_view calls.now)
        ≡ option_map made_view (slice_get calls.now call)) }
{
    match last.get(&process) {
        Some(call) if is_last_at(calls, *call, process) => Some(*call),
        _ => None,
    }
}

// Why the process may not call.
fn process_fault(
    calls: &[CallInfo],
    last: &IndexMap<u32, usize>,
    process: u32,
) -> Option<BuildFault>
    requires { KnowsLast (get nat_eq last.now) calls.now }
    ensures fault { result ≡ first_that_holds (process_refusals
        (find (is_last_of process) (map made_view calls.now)) process) }
    ensures idle { IfNone result (find (is_last_of process) (map made_view calls.now) ≡ None) }
    ensures busy { IfSome result (λ _. is_some (find (is_last_of process)
        (map made_view calls.now)) ≡ true) }
{
    match last_in(calls, last, process) {
        Some(call) => {
            if has_ended(&calls[call]) {
                Some(BuildFault::ProcessEnded(process))
            } else {
                Some(BuildFault::Busy(process))
            }
        }
        None => None,
    }
}

// The index of the pending call of the process on the object of this index, or why it has none there.
fn find_pending(
    calls: &[CallInfo],
    last: &IndexMap<u32, usize>,
    process: u32,
    object: usize,
) -> Result<usize, BuildFault>
    requires { KnowsLast (get nat_eq last.now) calls.now }
    ensures ok { IfOk result (IsPendingOn calls.now process object) }
    ensures within { IfOk result (λ call. call < length calls.now) }
    ensures err { IfErr result (λ fault. first_that_holds (pending_refusals
        (find (is_last_of process) (map made_view calls.now)) process object) ≡ Some fault) }
{
    let Some(call) = last_in(calls, last, process) else {
        return Err(BuildFault::NoCall(process));
    };
    if has_ended(&calls[call]) {
        return Err(BuildFault::ProcessEnded(process));
    }
    if calls[call].object as usize != object {
        return Err(BuildFault::OtherObject(process));
    }
    Ok(call)
}

// Whether there is no room for another call on the object.
fn is_full(calls: &[CallInfo], counts: &[usize], object: usize) -> bool
    requires within { object < length counts.now }
    requires counted { AreCounts counts.now calls.now }
    ensures full { result ≡ (nat_le MAX_CALLS (length (map made_view calls.now)) || nat_le
        MAX_CALLS_ON_OBJECT (count_made_on object (map made_view calls.now))) }
    ensures room { IsFalse result → length calls.now < MAX_CALLS }
    ensures room_on { IsFalse result → IfSome (slice_get counts.now object)
        (λ count. count < MAX_CALLS_ON_OBJECT) }
{
    calls.len() >= MAX_CALLS || counts[object] >= MAX_CALLS_ON_OBJECT
}

// Puts one object more in. After an error nothing has changed.
fn put(
    alloc: Global,
    objects: &mut IndexMap<String, Declaration>,
    counts: &mut Vec<usize>,
    name: &str,
    declaration: Declaration,
) -> Result<(), AllocError>
    requires { index_named (recorded (map object_view objects.old.entries) [] 0) name.now ≡ None }
    ensures objects { OnOk result (map object_view objects.new.entries
        ≡ map object_view objects.old.entries
        ++ (record { name = name.now; kind = declaration.kind; start = declaration.start }) ∷ []) }
    ensures counts { OnOk result (counts.new.items ≡ counts.old.items ++ 0 ∷ []) }
    ensures same_objects { OnErr result (objects.new.entries ≡ objects.old.entries) }
    ensures same_counts { OnErr result (counts.new.items ≡ counts.old.items) }
{
    let key = String::from_str(alloc, name)?;
    counts.push(0)?;
    if objects.insert(key, declaration).is_err() {
        counts.pop();
        return Err(AllocError);
    }
    Ok(())
}

// The call that comes next: its number is how many calls its object has, and its event is the next.
fn next_call(counts: &[usize], events: u32, process: u32, object: usize, op: Op) -> CallInfo
    requires within { object < length counts.now }
    requires declared { length counts.now ≤ MAX_OBJECTS }
    requires room { IfSome (slice_get counts.now object) (λ count. count < MAX_CALLS_ON_OBJECT) }
    requires few { events + 1 < 2 ^ 32 }
    ensures number { slice_get counts.now object ≡ Some result.number }
    ensures call { result ≡ record {
      process = process;
      object = object;
      number = result.number;
      op = op;
      called = events + 1;
      returned = None;
      mark = Mark.Unmarked;
    } }
{
    let number = counts[object] as u16;
    CallInfo {
        process,
        object: object as u16,
        number,
        op,
        called: events + 1,
        returned: None,
        mark: Mark::Unmarked,
    }
}

// Adds one call. After an error nothing has changed but what is kept as the last call of the process, which
// is then no call that is there.
fn add(
    calls: &mut Vec<CallInfo>,
    last: &mut IndexMap<u32, usize>,
    counts: &mut Vec<usize>,
    events: &mut u32,
    call: CallInfo,
) -> Result<(), AllocError>
    requires within { call.object < length counts.old.items }
    requires room { call.number < MAX_CALLS_ON_OBJECT }
    ensures calls { OnOk result (calls.new.items ≡ calls.old.items ++ call ∷ []) }
    ensures counts { OnOk result (counts.new.items
        ≡ slice_set counts.old.items call.object (call.number + 1)) }
    ensures events { OnOk result (events.new ≡ call.called) }
    ensures own { OnOk result (get nat_eq last.new call.process ≡ Some (length calls.old.items)) }
    ensures others { (process : ℕ) → process ≢ call.process
        → get nat_eq last.new process ≡ get nat_eq last.old process }
    ensures same { OnErr result (calls.new.items ≡ calls.old.items) }
    ensures same_counts { OnErr result (counts.new.items ≡ counts.old.items) }
    ensures same_events { OnErr result (events.new ≡ events.old) }
{
    // Before the push: where that fails, the process has no pending call and this names none.
    last.insert(call.process, calls.len())?;
    calls.push(call)?;
    counts[call.object as usize] = call.number as usize + 1;
    *events = call.called;
    Ok(())
}

// Completes the pending call of this index: the next event is its return.
fn complete(calls: &mut Vec<CallInfo>, events: &mut u32, call: usize, reply: Reply)
    requires within { call < length calls.old.items }
    requires few { events.old + 1 < 2 ^ 32 }
    ensures calls { IfSome (slice_get calls.old.items call)
        (λ c. calls.new.items ≡ slice_set calls.old.items call
        (record c { returned = Some (events.old + 1, reply) })) }
    ensures events { events.new ≡ events.old + 1 }
{
    let number = *events + 1;
    calls[call].returned = Some((number, reply));
    *events = number;
}

// Marks the call of this index.
fn mark_call(calls: &mut Vec<CallInfo>, call: usize, mark: Mark)
    requires { call < length calls.old.items }
    ensures { IfSome (slice_get calls.old.items call)
        (λ c. calls.new.items ≡ slice_set calls.old.items call (record c { mark = mark })) }
{
    calls[call].mark = mark;
}

// Sets each count to 0.
fn clear(counts: &mut [usize])
    ensures count { length counts.new ≡ length counts.old }
    ensures zero { (object : ℕ) (n : ℕ) → slice_get counts.new object ≡ Some n → n ≡ 0 }
{
    for index in 0..counts.len() {
        counts[index] = 0;
    }
}

// Gives the call of this index its number, which is the count of its object, and counts it. Its mark is forgotten: in a
// history it is pending or completed.
fn number_call(calls: &mut [CallInfo], counts: &mut [usize], call: usize)
    requires within { IsSomeAnd (slice_get calls.old call) (λ c. c.object < length counts.old) }
    requires room { IfSome (slice_get calls.old call) (λ c. IfSome
        (slice_get counts.old c.object) (λ n. n < MAX_CALLS_ON_OBJECT)) }
    ensures { IfSome (slice_get calls.old call) (λ c. IfSome (slice_get counts.old c.object)
        (λ n. (calls.new ≡ slice_set calls.old call (record c
        { number = n; mark = Mark.Unmarked }))
        × (counts.new ≡ slice_set counts.old c.object (n + 1)))) }
{
    let object = calls[call].object as usize;
    let mark = Mark::Unmarked;
    calls[call] = CallInfo {
        number: counts[object] as u16,
        mark,
        ..calls[call]
    };
    counts[object] += 1;
}

// Numbers the calls on each object from 0. The counts have room for it, and are lost.
fn number_calls(calls: &mut [CallInfo], counts: &mut [usize])
    requires counted { (i : ℕ) (c : CallInfo) → slice_get calls.old i ≡ Some c
        → c.object < length counts.old }
    requires limited { AreWithinLimit (map call_view calls.old) }
    ensures same { map call_view calls.new ≡ map call_view calls.old }
    ensures numbered { AreFinished calls.new }
{
    clear(counts);
    for call in 0..calls.len() {
        number_call(calls, counts, call);
    }
}

// The calls that did not fail.
fn without_failed(calls: Vec<CallInfo>) -> Vec<CallInfo>
    ensures { result.items ≡ filter (λ c. is_kept (made_view c)) calls.items }
{
    let mut kept = calls;
    kept.retain(|call| is_kept(call));
    kept
}

// The calls that did not fail, with their numbers. It takes no memory.
fn kept_calls(calls: Vec<CallInfo>, counts: Vec<usize>) -> Vec<CallInfo>
    requires counted { (i : ℕ) (c : CallInfo) → slice_get calls.items i ≡ Some c
        → c.object < length counts.items }
    requires limited { AreMadeWithinLimit calls.items }
    ensures kept { map call_view result.items ≡ calls_of (map made_view calls.items) }
    ensures numbered { AreFinished result.items }
{
    let mut kept = without_failed(calls);
    let mut counts = counts;
    number_calls(kept.as_mut_slice(), counts.as_mut_slice());
    kept
}

impl Builder {
    ghost use Rattle.lin_history.specs.Recorder.RecordedHistory.{IsHistoryOf, IsHistory};
    ghost use Rattle.lin_history.specs.Recorder.Recording.{IsRecordingOf, history_of, no_event, call_refusals, with_object, with_call, with_return, with_fail, with_end};
    ghost use Rattle.lin_history.specs.Recorder.NextEvents.{Adds, AddsNone, CannotFollow};

    /// The builder of the history of no event. It takes no memory.
    pub fn new(alloc: Global) -> Self
        ensures { result ≡ no_event }
    {
        Builder {
            objects: IndexMap::new(alloc),
            calls: Vec::new(alloc),
            events: 0,
            counts: Vec::new(alloc),
            last: IndexMap::new(alloc),
            recent: 0,
        }
    }

    /// Declares an object. `start` is the value of a register and the sum of a counter at the start.
    /// Refusals, in order: `BadName` where the name is not 1 to 64 bytes out of `A-Z a-z 0-9 _ . / : -`,
    /// `Declared` where an object of that name is declared, `TooManyObjects` where there is no room for
    /// one more, `OutOfMemory`. After a refusal nothing has changed.
    pub fn declare(
        &mut self,
        alloc: Global,
        name: &str,
        kind: Kind,
        start: i64,
    ) -> Result<(), BuildFault>
        ensures sound { OnOk result (first_that_holds (declaration_refusals self.old name.now)
            ≡ None) }
        ensures ok { OnOk result (self.new ≡ with_object self.old name.now kind start) }
        ensures history { OnOk result (AddsNone self.old self.new) }
        ensures err { IfErr result (λ fault. fault ≢ BuildFault.OutOfMemory
            → first_that_holds (declaration_refusals self.old name.now) ≡ Some fault) }
        ensures memory { IfErr result (λ fault. fault ≡ BuildFault.OutOfMemory
            → first_that_holds (declaration_refusals self.old name.now) ≡ None) }
        ensures same { OnErr result (self.new ≡ self.old) }
    {
        if let Some(fault) = declaration_fault(&self.objects, name) {
            return Err(fault);
        }
        let declaration = Declaration::new(kind, start);
        if put(
            alloc,
            &mut self.objects,
            &mut self.counts,
            name,
            declaration,
        )
        .is_err()
        {
            return Err(BuildFault::OutOfMemory);
        }
        Ok(())
    }

    /// Records the call of an operation of the named object by a process. Refusals, in order: `BadName`
    /// as above, `UnknownObject` where no object of that name is declared, `ProcessEnded` where the
    /// process has ended, `Busy` where it has a pending call, `TooManyCalls` where 262,144 calls were
    /// made or 16,384 on this object, also those that failed, `OutOfMemory`. After a refusal nothing has
    /// changed.
    pub fn call(&mut self, process: u32, name: &str, op: Op) -> Result<(), BuildFault>
        ensures sound { OnOk result (first_that_holds (call_refusals self.old process name.now)
            ≡ None) }
        ensures ok { OnOk result (IsSomeAnd (index_named self.old name.now)
            (λ object. self.new ≡ with_call self.old process object op)) }
        ensures history { OnOk result (IsSomeAnd (index_named self.old name.now)
            (λ object. Adds self.old (calls process object op) self.new)) }
        ensures err { IfErr result (λ fault. fault ≢ BuildFault.OutOfMemory
            → first_that_holds (call_refusals self.old process name.now) ≡ Some fault) }
        ensures memory { IfErr result (λ fault. fault ≡ BuildFault.OutOfMemory
            → first_that_holds (call_refusals self.old process name.now) ≡ None) }
        ensures ended { IfErr result (λ fault. fault ≡ BuildFault.ProcessEnded process
            → (object : ℕ) → CannotFollow self.old (calls process object op)) }
        ensures busy { IfErr result (λ fault. fault ≡ BuildFault.Busy process → (object : ℕ)
            → CannotFollow self.old (calls process object op)) }
        ensures same { OnErr result (self.new ≡ self.old) }
    {
        let found = self.find_named(name)?;
        self.call_on(process, found, op)
    }

    /// Records the call of an operation of an object by a process, where the object was found in this
    /// builder: `call` for one that is named. Refusals, in order: `ProcessEnded`, `Busy`, `TooManyCalls`
    /// and `OutOfMemory` as those of `call`. After a refusal nothing has changed.
    pub fn call_on(
        &mut self,
        process: u32,
        found: FoundObject<'_>,
        op: Op,
    ) -> Result<(), BuildFault>
        requires { IsFound self.old found }
        ensures sound { OnOk result (first_that_holds (call_refusals self.old process found.entry.name.now)
            ≡ None) }
        ensures ok { OnOk result (IsSomeAnd (index_named self.old found.entry.name.now)
            (λ object. self.new ≡ with_call self.old process object op)) }
        ensures history { OnOk result (IsSomeAnd (index_named self.old found.entry.name.now)
            (λ object. Adds self.old (calls process object op) self.new)) }
        ensures err { IfErr result (λ fault. fault ≢ BuildFault.OutOfMemory
            → first_that_holds (call_refusals self.old process found.entry.name.now) ≡ Some fault) }
        ensures memory { IfErr result (λ fault. fault ≡ BuildFault.OutOfMemory
            → first_that_holds (call_refusals self.old process found.entry.name.now) ≡ None) }
        ensures ended { IfErr result (λ fault. fault ≡ BuildFault.ProcessEnded process
            → (object : ℕ) → CannotFollow self.old (calls process object op)) }
        ensures busy { IfErr result (λ fault. fault ≡ BuildFault.Busy process → (object : ℕ)
            → CannotFollow self.old (calls process object op)) }
        ensures same { OnErr result (self.new ≡ self.old) }
    {
        if let Some(fault) = process_fault(self.calls.as_slice(), &self.last, process) {
            return Err(fault);
        }
        if is_full(self.calls.as_slice(), self.counts.as_slice(), found.index) {
            return Err(BuildFault::TooManyCalls);
        }
        let call = next_call(
            self.counts.as_slice(),
            self.events,
            process,
            found.index,
            op,
        );
        if add(
            &mut self.calls,
            &mut self.last,
            &mut self.counts,
            &mut self.events,
            call,
        )
        .is_err()
        {
            return Err(BuildFault::OutOfMemory);
        }
        self.recent = found.index;
        Ok(())
    }

    /// Records the return of the pending call of a process from the named object, with its reply.
    /// Refusals, in order: `BadName` and `UnknownObject` as above, `ProcessEnded` where the process has
    /// ended, `NoCall` where it has no pending call, `OtherObject` where its pending call is on another
    /// object. After a refusal nothing has changed. It takes no memory.
    pub fn ret(&mut self, process: u32, name: &str, reply: Reply) -> Result<(), BuildFault>
        ensures sound { OnOk result (first_that_holds (end_refusals self.old process name.now)
            ≡ None) }
        ensures ok { OnOk result (self.new ≡ with_return self.old process reply) }
        ensures history { OnOk result (IsSomeAnd (index_named self.old name.now)
            (λ object. Adds self.old (returns_ process object reply) self.new)) }
        ensures err { IfErr result (λ fault. first_that_holds
            (end_refusals self.old process name.now) ≡ Some fault) }
        ensures ended { IfErr result (λ fault. fault ≡ BuildFault.ProcessEnded process
            → (object : ℕ) → CannotFollow self.old (returns_ process object reply)) }
        ensures no_call { IfErr result (λ fault. fault ≡ BuildFault.NoCall process → (object : ℕ)
            → CannotFollow self.old (returns_ process object reply)) }
        ensures other_object { IfErr result (λ fault. fault ≡ BuildFault.OtherObject process
            → IsSomeAnd (index_named self.old name.now)
            (λ object. CannotFollow self.old (returns_ process object reply))) }
        ensures same { OnErr result (self.new ≡ self.old) }
    {
        let found = self.find_named(name)?;
        self.ret_on(process, found, reply)
    }

    /// Records the return of the pending call of a process from an object that was found in this builder,
    /// with its reply: `ret` for one that is named. Refusals, in order: `ProcessEnded`, `NoCall` and
    /// `OtherObject` as those of `ret`. After a refusal nothing has changed. It takes no memory.
    pub fn ret_on(
        &mut self,
        process: u32,
        found: FoundObject<'_>,
        reply: Reply,
    ) -> Result<(), BuildFault>
        requires { IsFound self.old found }
        ensures sound { OnOk result (first_that_holds (end_refusals self.old process found.entry.name.now)
            ≡ None) }
        ensures ok { OnOk result (self.new ≡ with_return self.old process reply) }
        ensures history { OnOk result (IsSomeAnd (index_named self.old found.entry.name.now)
            (λ object. Adds self.old (returns_ process object reply) self.new)) }
        ensures err { IfErr result (λ fault. first_that_holds
            (end_refusals self.old process found.entry.name.now) ≡ Some fault) }
        ensures ended { IfErr result (λ fault. fault ≡ BuildFault.ProcessEnded process
            → (object : ℕ) → CannotFollow self.old (returns_ process object reply)) }
        ensures no_call { IfErr result (λ fault. fault ≡ BuildFault.NoCall process → (object : ℕ)
            → CannotFollow self.old (returns_ process object reply)) }
        ensures other_object { IfErr result (λ fault. fault ≡ BuildFault.OtherObject process
            → IsSomeAnd (index_named self.old found.entry.name.now)
            (λ object. CannotFollow self.old (returns_ process object reply))) }
        ensures same { OnErr result (self.new ≡ self.old) }
    {
        match find_pending(self.calls.as_slice(), &self.last, process, found.index) {
            Ok(call) => {
                complete(&mut self.calls, &mut self.events, call, reply);
                Ok(())
            }
            Err(fault) => Err(fault),
        }
    }

    /// Records that the pending call of a process on the named object failed: it was not done and will
    /// not be. It is no call of the history, and the process may call again; the event has no number.
    /// Refusals as those of `ret`. After a refusal nothing has changed. It takes no memory.
    pub fn fail(&mut self, process: u32, name: &str) -> Result<(), BuildFault>
        ensures sound { OnOk result (first_that_holds (end_refusals self.old process name.now)
            ≡ None) }
        ensures ok { OnOk result (self.new ≡ with_fail self.old process) }
        ensures history { OnOk result (IsSomeAnd (index_named self.old name.now)
            (λ object. Adds self.old (fails process object) self.new)) }
        ensures err { IfErr result (λ fault. first_that_holds
            (end_refusals self.old process name.now) ≡ Some fault) }
        ensures ended { IfErr result (λ fault. fault ≡ BuildFault.ProcessEnded process
            → (object : ℕ) → CannotFollow self.old (fails process object)) }
        ensures no_call { IfErr result (λ fault. fault ≡ BuildFault.NoCall process → (object : ℕ)
            → CannotFollow self.old (fails process object)) }
        ensures other_object { IfErr result (λ fault. fault ≡ BuildFault.OtherObject process
            → IsSomeAnd (index_named self.old name.now)
            (λ object. CannotFollow self.old (fails process object))) }
        ensures same { OnErr result (self.new ≡ self.old) }
    {
        let found = self.find_named(name)?;
        self.fail_on(process, found)
    }

    /// Records that the pending call of a process on an object that was found in this builder failed:
    /// `fail` for one that is named. Refusals as those of `ret_on`. After a refusal nothing has changed.
    /// It takes no memory.
    pub fn fail_on(&mut self, process: u32, found: FoundObject<'_>) -> Result<(), BuildFault>
        requires { IsFound self.old found }
        ensures sound { OnOk result (first_that_holds (end_refusals self.old process found.entry.name.now)
            ≡ None) }
        ensures ok { OnOk result (self.new ≡ with_fail self.old process) }
        ensures history { OnOk result (IsSomeAnd (index_named self.old found.entry.name.now)
            (λ object. Adds self.old (fails process object) self.new)) }
        ensures err { IfErr result (λ fault. first_that_holds
            (end_refusals self.old process found.entry.name.now) ≡ Some fault) }
        ensures ended { IfErr result (λ fault. fault ≡ BuildFault.ProcessEnded process
            → (object : ℕ) → CannotFollow self.old (fails process object)) }
        ensures no_call { IfErr result (λ fault. fault ≡ BuildFault.NoCall process → (object : ℕ)
            → CannotFollow self.old (fails process object)) }
        ensures other_object { IfErr result (λ fault. fault ≡ BuildFault.OtherObject process
            → IsSomeAnd (index_named self.old found.entry.name.now)
            (λ object. CannotFollow self.old (fails process object))) }
        ensures same { OnErr result (self.new ≡ self.old) }
    {
        match find_pending(self.calls.as_slice(), &self.last, process, found.index) {
            Ok(call) => {
                mark_call(&mut self.calls, call, Mark::Failed);
                Ok(())
            }
            Err(fault) => Err(fault),
        }
    }

    /// Records that nobody will know whether the pending call of a process on the named object was done:
    /// it stays pending, and the process has no event more; the event has no number. Refusals as those
    /// of `ret`. After a refusal nothing has changed. It takes no memory.
    pub fn info(&mut self, process: u32, name: &str) -> Result<(), BuildFault>
        ensures sound { OnOk result (first_that_holds (end_refusals self.old process name.now)
            ≡ None) }
        ensures ok { OnOk result (self.new ≡ with_end self.old process) }
        ensures history { OnOk result (IsSomeAnd (index_named self.old name.now)
            (λ object. Adds self.old (ends process object) self.new)) }
        ensures err { IfErr result (λ fault. first_that_holds
            (end_refusals self.old process name.now) ≡ Some fault) }
        ensures ended { IfErr result (λ fault. fault ≡ BuildFault.ProcessEnded process
            → (object : ℕ) → CannotFollow self.old (ends process object)) }
        ensures no_call { IfErr result (λ fault. fault ≡ BuildFault.NoCall process → (object : ℕ)
            → CannotFollow self.old (ends process object)) }
        ensures other_object { IfErr result (λ fault. fault ≡ BuildFault.OtherObject process
            → IsSomeAnd (index_named self.old name.now)
            (λ object. CannotFollow self.old (ends process object))) }
        ensures same { OnErr result (self.new ≡ self.old) }
    {
        let found = self.find_named(name)?;
        self.info_on(process, found)
    }

    /// Records that nobody will know whether the pending call of a process, on an object that was found
    /// in this builder, was done: `info` for one that is named. Refusals as those of `ret_on`. After a
    /// refusal nothing has changed. It takes no memory.
    pub fn info_on(&mut self, process: u32, found: FoundObject<'_>) -> Result<(), BuildFault>
        requires { IsFound self.old found }
        ensures sound { OnOk result (first_that_holds (end_refusals self.old process found.entry.name.now)
            ≡ None) }
        ensures ok { OnOk result (self.new ≡ with_end self.old process) }
        ensures history { OnOk result (IsSomeAnd (index_named self.old found.entry.name.now)
            (λ object. Adds self.old (ends process object) self.new)) }
        ensures err { IfErr result (λ fault. first_that_holds
            (end_refusals self.old process found.entry.name.now) ≡ Some fault) }
        ensures ended { IfErr result (λ fault. fault ≡ BuildFault.ProcessEnded process
            → (object : ℕ) → CannotFollow self.old (ends process object)) }
        ensures no_call { IfErr result (λ fault. fault ≡ BuildFault.NoCall process → (object : ℕ)
            → CannotFollow self.old (ends process object)) }
        ensures other_object { IfErr result (λ fault. fault ≡ BuildFault.OtherObject process
            → IsSomeAnd (index_named self.old found.entry.name.now)
            (λ object. CannotFollow self.old (ends process object))) }
        ensures same { OnErr result (self.new ≡ self.old) }
    {
        match find_pending(self.calls.as_slice(), &self.last, process, found.index) {
            Ok(call) => {
                mark_call(&mut self.calls, call, Mark::Ended);
                Ok(())
            }
            Err(fault) => Err(fault),
        }
    }

    /// The declared object of this name; `None` where no object of that name is declared.
    pub fn find<'n>(&self, name: &'n str) -> Option<FoundObject<'n>>
        ensures found { IfSome result (IsFound self.now) }
        ensures name { IfSome result (λ found. found.name.now ≡ name.now) }
        ensures index { option_map (λ found. found.index) result ≡ index_named self.now name.now }
        ensures kind { option_map (λ found. found.kind) result ≡ kind_named self.now name.now }
    {
        find_in(&self.objects, self.recent, name)
    }

    // The object of this name, or why an event may not name it.
    fn find_named<'n>(&self, name: &'n str) -> Result<FoundObject<'n>, BuildFault>
        ensures found { IfOk result (IsFound self.now) }
        ensures name { IfOk result (λ found. found.name.now ≡ name.now) }
        ensures err { IfErr result (λ fault. first_that_holds (name_refusals self.now name.now)
            ≡ Some fault) }
    {
        match self.find(name) {
            Some(found) => Ok(found),
            None if is_name(name) => Err(BuildFault::UnknownObject),
            None => Err(BuildFault::BadName),
        }
    }

    /// The history of the events that were accepted. It takes no memory.
    pub fn finish(self) -> History
        ensures value { result ≡ history_of self }
        ensures history { (events : _) → IsRecordingOf events self → IsHistoryOf events result }
        ensures recorded { IsHistory result }
    {
        History::new(
            self.objects,
            kept_calls(self.calls, self.counts),
            self.events,
        )
    }
}
