//! The list of call and return entries from which calls are lifted (Wing and Gong 1993).
ghost use Rattle.std.specs.Prelude.{◌≡◌, ℕ, ◌+◌, ◌-◌, ◌<◌, ◌++◌, ◌∷◌, ◌↔◌, ◌^◌, [], List, Some, false, length, slice_get, IfOk, IsTrue};
ghost use Rattle.lin_history.specs.Problems.Problem.{problem_of};
ghost use Rattle.lin_history.specs.Problems.Continuations.{has};
ghost use Rattle.lin_search.specs.CallSet.{lifted_set};
ghost use Rattle.lin_search.specs.NextCall.{HasEveryCompleted};
ghost use Rattle.lin_search.specs.Entries.{IsMinimal, IsLeastMinimal};
ghost use Rattle.lin_history.specs.declared.problems.timeline.ProblemEvent.{ProblemEvent as Event};
ghost use Rattle.lin_history.specs.declared.problems.timeline.ProblemEvent.TheVariants.{Call, Return};
ghost use Rattle.lin_search.specs.CallEntries.{AreCallEntries, without_call, with_call_entries};
ghost use Rattle.lin_search.specs.Links.{IsRow};
ghost use Rattle.lin_search.specs.EntryLinks.{CanTakeOut, CanPutBack, call_of_event, count_completed};

use crate::call_entries::CallEntries;
use crate::links::Links;
use lin_history::{MAX_CALLS_ON_OBJECT, Problem, ProblemEvent};
use lin_object::SeqObject;
use std::alloc::{AllocError, Global};
use std::marker::Model;

/// The call and return entries of one problem, in the order of the events and linked both ways, without those of the
/// calls that are lifted (Wing and Gong 1993). Contracts see the problem, and the calls lifted in the order in which
/// they were.
///
/// The entry of an event is its place in the timeline counted from 1, so that 0 comes before all entries and the
/// number after them behind.
#[derive(Drop)]
pub struct Entries<'p, O: SeqObject> {
    problem: &'p Problem<O>,
    events: Vec<ProblemEvent>,
    places: CallEntries,
    links: Links,
    lifted: Vec<u16>,
    left: usize,
}

impl<'p, O: SeqObject> Model for Entries<'p, O> {
    ghost use Rattle.std.specs.Prelude.{vec_capacity};
    ghost use Rattle.lin_search.specs.Entries.{LiftedCalls};

    ghost Value = { LiftedCalls O O.State O.Op O.Reply };

    ghost use Rattle.lin_history.specs.Problems.Problem.{problem_of};
    ghost use Rattle.lin_search.specs.EntryLinks.{AreEntries};

    ghost view = { λ e. record { problem = e.problem.now; lifted = e.lifted.items } };

    ghost invariant = { λ e. AreEntries (problem_of O.after O.State.eq O.Reply.eq e.problem.now)
        e.events.items e.places e.links e.lifted.items (vec_capacity e.lifted) e.left };
}

// How many calls are completed.
fn completed_calls<O: SeqObject>(problem: &Problem<O>) -> usize
    ensures { result ≡ count_completed problem.now.calls }
{
    let mut count = 0;
    for call in 0..problem.len() {
        if problem.call(call).returned.is_some() {
            count += 1;
        }
    }
    count
}

// The call of the event, if it is a call event.
fn called_at(event: &ProblemEvent) -> Option<usize>
    ensures { result ≡ call_of_event (Some event.now) }
{
    match event {
        ProblemEvent::Call(call) => Some(*call as usize),
        ProblemEvent::Return(_) => None,
    }
}

// The call of the entry, if it is a call entry.
fn call_at(events: &[ProblemEvent], entry: usize) -> Option<usize>
    requires { 0 < entry }
    ensures { result ≡ call_of_event (slice_get events.now (entry - 1)) }
{
    match events.get(entry - 1) {
        Some(event) => called_at(event),
        None => None,
    }
}

// Takes the entries of the call out.
fn take_out(links: &mut Links, places: &CallEntries, call: usize)
    requires called { call < length places.now.called }
    requires returned { call < length places.now.returned }
    requires links { CanTakeOut places.now links.old call }
    ensures { links.new ≡ without_call places.now links.old call }
{
    links.take_out(places.called(call));
    if let Some(entry) = places.returned(call) {
        links.take_out(entry);
    }
}

// Puts the entries of the call, which were taken out last, in again.
fn put_back(links: &mut Links, places: &CallEntries, call: usize)
    requires called { call < length places.now.called }
    requires returned { call < length places.now.returned }
    requires links { CanPutBack places.now links.old call }
    ensures { links.new ≡ with_call_entries places.now links.old call }
{
    if let Some(entry) = places.returned(call) {
        links.put_back(entry);
    }
    links.put_back(places.called(call));
}

// Where the entries of so many calls are, and the row of all entries, whose events are these, each once.
fn row_of(
    alloc: Global,
    calls: usize,
    events: &[ProblemEvent],
) -> Result<(CallEntries, Links), AllocError>
    requires room { length events.now + 2 < 2 ^ 16 }
    requires called { (i c : ℕ) → slice_get events.now i ≡ Some (Call c) → c < calls }
    requires returned { (i c : ℕ) → slice_get events.now i ≡ Some (Return c) → c < calls }
    requires once { (i j : ℕ) (e : Event) → slice_get events.now i ≡ Some e
        → slice_get events.now j ≡ Some e → i ≡ j }
    ensures places { IfOk result (λ r. AreCallEntries calls events.now r.0) }
    ensures row { IfOk result (λ r. IsRow (length events.now) r.1) }
{
    let places = CallEntries::of(alloc, calls, events)?;
    let links = Links::row(alloc, events.len())?;
    Ok((places, links))
}

impl<'p, O: SeqObject> Entries<'p, O> {
    /// The entries of all the problem's calls. `AllocError` where memory was refused.
    pub fn new(alloc: Global, problem: &'p Problem<O>) -> Result<Entries<'p, O>, AllocError>
        ensures { IfOk result (λ entries. entries ≡ record { problem = problem.now; lifted = [] }) }
    {
        let lifted = Vec::with_capacity(alloc, problem.len())?;
        let calls = problem.calls().len();
        prove!(calls <= MAX_CALLS_ON_OBJECT);
        let events = problem.timeline(alloc)?;
        let (places, links) = row_of(alloc, problem.len(), events.as_slice())?;
        Ok(Entries {
            problem,
            events,
            places,
            links,
            lifted,
            left: completed_calls(problem),
        })
    }

    /// The problem.
    pub fn problem(&self) -> &'p Problem<O>
        ensures { result.now ≡ self.now.problem }
    {
        self.problem
    }

    /// Lifts the call: takes its entries out. Condition: it is a call of the problem that is not lifted. It takes
    /// constant time and no memory.
    pub fn lift(&mut self, call: usize)
        requires within { call < length self.old.problem.calls }
        requires outside { has
            (lifted_set (problem_of O.after O.State.eq O.Reply.eq self.old.problem) self.old.lifted)
            call ≡ false }
        ensures { self.new ≡ record {
          problem = self.old.problem;
          lifted = self.old.lifted ++ call ∷ [];
        } }
    {
        let calls = self.problem.calls().len();
        prove!(calls <= MAX_CALLS_ON_OBJECT);
        take_out(&mut self.links, &self.places, call);
        if self.problem.call(call).returned.is_some() {
            self.left -= 1;
        }
        self.lifted.push_reserved(call as u16);
    }

    /// Puts the entries of the call in again at their places. Condition: it is the call that was lifted last. It takes
    /// constant time and no memory.
    pub fn unlift(&mut self, call: usize)
        requires last { (before : List ℕ) × (self.old.lifted ≡ before ++ call ∷ []) }
        ensures { (before : List ℕ) → self.old.lifted ≡ before ++ call ∷ []
            → self.new ≡ record { problem = self.old.problem; lifted = before } }
    {
        put_back(&mut self.links, &self.places, call);
        if self.problem.call(call).returned.is_some() {
            self.left += 1;
        }
        self.lifted.pop();
    }

    /// The least minimal call: a call that is not lifted and that no other such call precedes. It takes constant time.
    pub fn first_minimal(&self) -> Option<usize>
        ensures { IsLeastMinimal (problem_of O.after O.State.eq O.Reply.eq self.now.problem)
            (lifted_set (problem_of O.after O.State.eq O.Reply.eq self.now.problem) self.now.lifted)
            0 result }
    {
        call_at(self.events.as_slice(), self.links.next(0))
    }

    /// The least minimal call after this one. Condition: this one is minimal. It takes constant time.
    pub fn next_minimal(&self, call: usize) -> Option<usize>
        requires { IsMinimal (problem_of O.after O.State.eq O.Reply.eq self.now.problem)
            (lifted_set (problem_of O.after O.State.eq O.Reply.eq self.now.problem) self.now.lifted)
            call }
        ensures { IsLeastMinimal (problem_of O.after O.State.eq O.Reply.eq self.now.problem)
            (lifted_set (problem_of O.after O.State.eq O.Reply.eq self.now.problem) self.now.lifted)
            (call + 1) result }
    {
        let entry = self.places.called(call);
        call_at(self.events.as_slice(), self.links.next(entry))
    }

    // Whether every completed call is lifted. It takes constant time.
    pub(crate) fn is_complete(&self) -> bool
        ensures { IsTrue result ↔ HasEveryCompleted
            (problem_of O.after O.State.eq O.Reply.eq self.now.problem)
            (lifted_set (problem_of O.after O.State.eq O.Reply.eq self.now.problem)
            self.now.lifted) }
    {
        self.left == 0
    }
}
