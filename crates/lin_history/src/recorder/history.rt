//! The finished history, and its parts on its objects.

ghost use Rattle.std.specs.Prelude.{◌≡◌, ℕ, ◌<◌, Some, length, map, take, option_map, slice_get, IfOk};
ghost use Rattle.lin_history.specs.Recorder.Views.{call_view, object_view};
ghost use Rattle.lin_history.specs.Recorder.Parts.{start_of, part_calls};
ghost use Rattle.lin_history.specs.Locality.JoinedOrder.{indices_from};

use crate::problems::problem::{Problem, ProblemCall};
use crate::recorder::indices::{indices_of_all, indices_on};
use indexmap::IndexMap;
use lin_object::{AnyObject, Kind, Op, Reply, start_state};
use std::alloc::{AllocError, Global};
use std::marker::Model;

/// An object of a history, as it was declared.
#[derive(Clone, Copy, Debug)]
pub struct ObjectInfo<'h> {
    /// Its name.
    pub name: &'h str,
    /// Its kind.
    pub kind: Kind,
    /// The number that it starts with; it counts for registers and counters alone.
    pub start: i64,
}

/// What a builder was told of a call that has not returned.
#[derive(Clone, Copy, PartialEq, Eq, Debug)]
pub(crate) enum Mark {
    /// Nothing.
    Unmarked,
    /// It failed.
    Failed,
    /// Its process has ended.
    Ended,
}

/// A call of a history.
#[derive(Clone, Copy, PartialEq, Eq, Debug)]
pub struct CallInfo {
    /// The process that made it.
    pub process: u32,
    /// The number of its call event, from 1.
    pub called: u32,
    /// The index of its object, in the order of declaration: below 1,024.
    pub object: u16,
    /// Its number among the calls on its object, from 0: below 16,384.
    pub number: u16,
    /// What it called.
    pub op: Op,
    /// The number of its return event, and the reply; `None` while it is pending.
    pub returned: Option<(u32, Reply)>,
    // what a builder was told of it; in a history nothing
    pub(crate) mark: Mark,
}

/// What an object was declared with.
#[derive(Clone, Copy, Debug)]
pub(crate) struct Declaration {
    kind: Kind,
    start: i64,
}

impl Declaration {
    /// The declaration of an object of this kind that starts with this number.
    pub fn new(kind: Kind, start: i64) -> Self
        ensures { result ≡ record { kind = kind; start = start } }
    {
        Declaration { kind, start }
    }

    /// The kind of the object.
    pub fn kind(&self) -> Kind
        ensures { result ≡ self.now.kind }
    {
        self.kind
    }
}

/// A history: the objects that it declares, and its calls with the numbers of their call and return
/// events. `Builder` makes one.
#[derive(Drop)]
pub struct History {
    objects: IndexMap<String, Declaration>,
    calls: Vec<CallInfo>,
    events: u32,
}

// Contracts see the declared objects, the calls, and how many events there are.
impl Model for History {
    ghost use Rattle.std.specs.Prelude.{map};
    ghost use Rattle.lin_history.specs.Recorder.RecordedHistory.{RecordedHistory, IsHistory};
    ghost use Rattle.lin_history.specs.Recorder.Views.{object_view, call_view, AreFinished, AreWithinLimit};

    ghost Value = { RecordedHistory };

    ghost view = { λ h. record {
      objects = map object_view h.objects.entries;
      calls = map call_view h.calls.items;
      events = h.events;
    } };

    ghost invariant = { λ h. IsHistory (record {
      objects = map object_view h.objects.entries;
      calls = map call_view h.calls.items;
      events = h.events;
    }) × AreFinished h.calls.items × AreWithinLimit (map call_view h.calls.items) };
}

// The object of this index.
fn object_at(objects: &IndexMap<String, Declaration>, object: usize) -> ObjectInfo<'_>
    requires { object < length objects.now.entries }
    ensures { slice_get (map object_view objects.now.entries) object
        ≡ Some (record { name = result.name.now; kind = result.kind; start = result.start }) }
{
    let (name, declared) = objects.get_index(object).unwrap();
    ObjectInfo {
        name: name.as_str(),
        kind: declared.kind,
        start: declared.start,
    }
}

// The part of the history on the object of this index, where the indices of the object's calls are known. Conditions:
// the object is declared, and these are the indices of its calls.
fn problem_at(
    alloc: Global,
    history: &History,
    object: usize,
    indices: &[usize],
) -> Result<Problem<AnyObject>, AllocError>
    requires object { object < length history.now.objects }
    requires indices { indices.now ≡ indices_from object 0 history.now.calls }
    ensures start { IfOk result (λ problem. option_map start_of
        (slice_get history.now.objects object) ≡ Some problem.start) }
    ensures calls { IfOk result (λ problem. problem.calls ≡ part_calls history.now object) }
{
    let mut calls = Vec::with_capacity(alloc, indices.len())?;
    for index in indices {
        let call = history.call(*index);
        calls.push(ProblemCall {
            process: call.process,
            op: call.op,
            called: call.called,
            returned: call.returned,
        })?;
    }
    let declared = object_at(&history.objects, object);
    let start = start_state(alloc, declared.kind, declared.start);
    Ok(Problem::with_calls(AnyObject, start, calls))
}

impl History {
    ghost use Rattle.lin_history.specs.Recorder.RecordedHistory.{IsHistory};
    ghost use Rattle.lin_history.specs.Recorder.Views.{count_on, AreFinished, AreWithinLimit};

    /// The history of these objects, calls and number of events. Condition: it is one, each call has its
    /// number among the calls on its object and no mark, and no object has more than 16,384 calls.
    pub(crate) fn new(
        objects: IndexMap<String, Declaration>,
        calls: Vec<CallInfo>,
        events: u32,
    ) -> Self
        requires history { IsHistory (record {
          objects = map object_view objects.entries;
          calls = map call_view calls.items;
          events = events;
        }) }
        requires numbers { AreFinished calls.items }
        requires limited { AreWithinLimit (map call_view calls.items) }
        ensures { result ≡ record {
          objects = map object_view objects.entries;
          calls = map call_view calls.items;
          events = events;
        } }
    {
        History {
            objects,
            calls,
            events,
        }
    }

    /// How many objects are declared.
    pub fn object_count(&self) -> usize
        ensures count { result ≡ length self.now.objects }
        ensures history { IsHistory self.now }
    {
        self.objects.len()
    }

    /// The object of this index, in the order of declaration. Condition: it is below `object_count()`.
    pub fn object(&self, object: usize) -> ObjectInfo<'_>
        requires { object < length self.now.objects }
        ensures { slice_get self.now.objects object
            ≡ Some (record { name = result.name.now; kind = result.kind; start = result.start }) }
    {
        object_at(&self.objects, object)
    }

    /// How many calls there are, pending ones included.
    pub fn call_count(&self) -> usize
        ensures count { result ≡ length self.now.calls }
        ensures history { IsHistory self.now }
    {
        self.calls.len()
    }

    /// The call of this index, in the order of the call events. Condition: it is below `call_count()`.
    pub fn call(&self, call: usize) -> &CallInfo
        requires { call < length self.now.calls }
        ensures call { slice_get self.now.calls call ≡ Some (call_view result.now) }
        ensures number { result.now.number ≡ count_on result.now.object (take call self.now.calls) }
        ensures declared { result.now.object < length self.now.objects }
        ensures unmarked { result.now.mark ≡ Mark.Unmarked }
    {
        &self.calls[call]
    }

    /// The part of the history on the object of this index: its calls, with their event numbers in the
    /// whole. Condition: the index is below `object_count()`.
    pub fn problem(&self, alloc: Global, object: usize) -> Result<Problem<AnyObject>, AllocError>
        requires { object < length self.now.objects }
        ensures start { IfOk result (λ problem. option_map start_of
            (slice_get self.now.objects object) ≡ Some problem.start) }
        ensures calls { IfOk result (λ problem. problem.calls ≡ part_calls self.now object) }
    {
        let indices = indices_on(alloc, self, object)?;
        problem_at(alloc, self, object, indices.as_slice())
    }

    /// For each object, in the order of declaration, the indices of its calls, by one walk over the calls. With them `part` makes
    /// the parts one at a time, so that not all of them take memory at once. `AllocError` where memory was refused.
    pub fn calls_by_object(&self, alloc: Global) -> Result<Vec<Vec<usize>>, AllocError>
        ensures count { IfOk result (λ lists. length lists.items ≡ length self.now.objects) }
        ensures each { IfOk result (λ lists. (object : ℕ) (v : _)
            → slice_get lists.items object ≡ Some v
            → v.items ≡ indices_from object 0 self.now.calls) }
    {
        indices_of_all(alloc, self)
    }

    /// The part of the history on the object of this index, as `problem` gives it, where the indices of the object's calls are
    /// known. Conditions: the index is below `object_count()`, and these are the indices of its calls (`calls_by_object`).
    /// `AllocError` where memory was refused.
    pub fn part(
        &self,
        alloc: Global,
        object: usize,
        indices: &[usize],
    ) -> Result<Problem<AnyObject>, AllocError>
        requires object { object < length self.now.objects }
        requires indices { indices.now ≡ indices_from object 0 self.now.calls }
        ensures start { IfOk result (λ problem. option_map start_of
            (slice_get self.now.objects object) ≡ Some problem.start) }
        ensures calls { IfOk result (λ problem. problem.calls ≡ part_calls self.now object) }
    {
        problem_at(alloc, self, object, indices)
    }
}
