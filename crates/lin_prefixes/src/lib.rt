//! The longest run of a problem from smaller problems, each of which is decided by itself (this project's own).
//!
//! A run has all calls that precede its greatest call, so a longest run lacks few calls of some first calls of the problem:
//! completed ones that overlap the last of these. With the calls that it lacks left out of the problem, it is the least
//! linearization of what is left, and then the pending calls.
//!
//! - `part_search`: a search that is asked for parts of a problem.
//! - `call_lists`: lists of calls, by their numbers in a part and in the whole.
//! - `candidate`: the best run that lacks just these calls.
//! - `by_prefixes`: the longest run, from the last call that a run may have downwards; `last_call`: which that is; `hint`: what may be
//!   known of it before.
//! - `question`: the part by which it is decided whether a call has a run with some of its open calls; `anew_search`: searches of
//!   parts; `told_of_part`: what is told of one, by whatever decides problems or by a few of its calls that alone have no
//!   linearization.
//! - `conflicts`: groups of calls of which each run lacks one; `choices`: which calls are left out, by conflicts.
//! - `twins`: calls that do what an earlier one did; `repeated_calls`: those among some calls.
//! - `asked_groups`: groups of calls that are not asked of again.
//! - `marks`: which calls a part has as they are, and which stay out.
//! - `open_takers`: open dequeues and pops that may stay out of a run of a queue or a stack.
//! - `only_replies`: pending calls that can have one reply only.
//! - `whole_search`: the search of a whole problem by its prefixes; `whole_answer`: what it answers.
//!
//! What it promises the crates above, by the contracts of `search_by_prefixes`:
//!
//! - `Found` is the least linearization; `Refuted` is returned only if there is none, with the first of the longest runs. That run
//!   comes from searches of smaller problems for their least linearizations alone, whatever these do not know.
//! - Let k be a call. A *run of k* has no call above k and every call that returned before k was called. Each run is a run of its
//!   greatest call, and if k has none no later call has one. So the last call that has a run is found by halving, or it is the one that a
//!   hint names, where that is tried first. From there downwards, its *open* calls, the completed ones that do not precede it, are left
//!   out, none, one, two and so on, and each time the rest is searched, as long as a run could be as long as the best one. If no return
//!   stands between k and the next call, each run of k is a run of that call too: then k is passed over.
//! - A *conflict* of k is a group of open calls that no run of k has all of, so a choice of calls to leave out that misses one is
//!   passed over. Conflicts are found by halving: first single calls, and then, whenever a choice is tried, whether a run has all
//!   the other open calls. In such a question each call outside the group may stay out, but if it is in a run it has its reply: those
//!   whose reply is of a step that changes nothing are left out, and the others are pending, since another reply of theirs would
//!   change nothing. Only a queue's open dequeues and a stack's open pops stay out altogether, and then the calls that put in what they
//!   took may too: as pending calls they would take what nobody took, and hide what is lost. So a *no* is right for all kinds,
//!   and a *yes* for all but these two. Which group is asked about is a hint.
//! - If no run has an open call, none has a later one of the same operation and reply, which changes nothing: the first would fit right
//!   before it. So for each of these *twins* no search is made (`PartSearch::is_repeated`). All calls that are in no run are left out at
//!   once, however many there are. A call that only some runs have is left out with all its later twins: a run that lacks it and has one
//!   of these has room for it, and so it is beaten by a run with one call more, which was tried before.
//! - A pending `lock` or `unlock` of a mutex may have no step, but if it has one, its reply is `ok`. For the longest run each of
//!   them returns with it behind all events (`only_replies`): the runs stay the same lists. So a run need not end with all of them.
//! - If the processes of several acquires call no unlock after them up to k, a run of k has one of these acquires at most: nobody
//!   gives the mutex back. If it has one that is open, it may have an earlier one in its place, since behind it there are only
//!   tries that answered 'no', and they do so whoever holds the mutex. So all of them that are open are *spared*, but for the
//!   first: they are in none of the runs that are tried. `PartSearch::stand_ins` says so by a number for each call, which
//!   `held_until` finds.
//! - `PartSearch` is the contract of the search of a part. If one does not know, the whole ends with `None`, so `Some` is right for
//!   any problem. One that has come to its end says so (`RunsTold::Ended`), and nobody asks it again. Here each part is decided by
//!   a `Decide` (`lin_effort`), whose work covers what is done between two parts too: this crate knows no way to an order.
//!
//! Why it is so:
//!
//! - `lin_prefixes` knows any search through one trait, compares what it makes, replays what it finds, and leaves calls out by
//!   recursion, so no set of calls is a value. The whole is refuted first and on its own, since a linearization may be shorter than
//!   a longest run. Beside those that are in no run it leaves out 256 calls at most, each with its later twins, since each is one level
//!   of the recursion.
//! - A part of a counter is asked for sums that leave no room (`lin_core`), and one of a queue or a stack for a core, before most of the
//!   work of its search. The whole is often refuted by a core alone. Without one for each part, no prefix was refuted: the last call was the last
//!   of all, and what was left out of the rest was in vain. A queue whose items go round, of 16 processes and 4,000 calls, with one
//!   pair out of order, had no answer, and a counter of 24 processes whose replicas parted took sixty times as long.
//! - If some calls that returned by an event have no linearization, no call that was called after it has a run, and the last call before it
//!   mostly has one. So who knows such calls hands them in (`Hint`): then one question is asked in place of a dozen, and of the
//!   conflicts that of these calls first. Where some are known, what is left without them is tried at once. Nothing is proved of
//!   them, and whatever they are the run is the same.
//! - A call that is tried after another has mostly the same conflicts. If these leave no room for a run that is as long as the best, it is
//!   left at once: most calls below the last one are.
//! - A bug that shows in several replies at once is found by conflicts. Without them every subset of the open calls would be tried.
//!   When a conflict is tested, all other open calls are free, not gone, since a run may need one of them. Each halving takes a
//!   search, so there are a few for each call that a run lacks. If a group of several calls is a conflict, none of them need be one
//!   by itself.
//! - A group of calls is asked about only once, and so are its parts at the same call, unless there is no run with it: a run that has
//!   many calls has few of them, and what is not decided for many is seldom decided for few (`asked_groups`, a hint). If something is
//!   known ahead, such a question searches for one round only, since what is known mostly shows by itself that no run has the group.
//!   Without both, a stack with a backlog of 32 and 4,096 calls made four times as many lifts, most of them in the second round of such
//!   questions.
//! - Pending locks and unlocks return with `ok` behind all events before a mutex's longest run is sought. A pending call that stays
//!   pending stands at the end of each candidate, and so has to have a step there, which a lock of a held mutex has not. A
//!   completed one may be left out like any other open call. How the problem is made is not proved: it is compared with the
//!   original, call by call. Registers and queues need none of it, since each of their pending calls always has a step; a counter's
//!   `add` has none only beyond 64 bits. *To change:* nothing, for another operation with one reply, but `only_reply`.
//! - Of the acquires of a mutex that nobody gives back before a cut only the first is tried there. A run has one of them at most;
//!   and where it has a later one it may have the first in its place, since what follows are tries that answered 'no', which they
//!   do whoever holds the mutex. Such a run is as long and stands before the other in lexicographic order. Two such acquires are
//!   also a conflict, but each pair of them then costs a search, and each that is kept another: with a hundred `lock`s that never
//!   returned thousands of searches, where three are enough. `PartSearch` tells it by one number for each call (`stand_ins`), found
//!   once for the whole problem: at a cut no calls are compared with one another, and what the search by prefixes is proved from
//!   speaks of no kind. *To change:* where other operations repeat each other so, their numbers.
//! - Open dequeues and pops are left out of such a question, and not made pending. A queue that forgot items has no run with a
//!   dequeue of a later one, but it has one with some pending dequeues, which take the lost items. So no conflict was found as long
//!   as one open dequeue was free (a queue of 16 processes that forgot one item had no answer).
#![tactic(auto)]

mod anew_search;
mod asked_groups;
mod by_prefixes;
mod call_lists;
mod candidate;
mod choices;
mod conflicts;
mod hint;
mod last_call;
mod marks;
mod only_replies;
mod open_takers;
mod part_search;
mod question;
mod repeated_calls;
mod told_of_part;
mod twins;
mod whole_answer;
mod whole_search;

pub use hint::Hint;
pub use whole_answer::WholeAnswer;
pub use whole_search::{longest_run_by_prefixes, search_by_prefixes};
