//! What the calls of a problem show before any search, by the kind of its object, and a first search that goes by it (this project's
//! own).
//!
//! - `sight`: how far hints look; `kept`: how they keep the numbers of calls.
//! - `look_ahead`: what is known ahead of a problem; `search_by_kind`: a first search by the rules of its kind; `in_vain`: what shows by
//!   itself that there is no linearization.
//! - `first`: the search itself, which knows no kind, and what rules of several kinds share.
//! - `items`: what queues and stacks share; `queues`; `stacks`; `values`: registers, maps whose calls are on one key, and sets
//!   whose calls are on one item; `counters`; `mutexes`.
//! - `sum_tree`: sums over the front of a list of numbers, and where they first fall below one; a hint.
//!
//! The words of this crate:
//!
//! - *ahead*: before any search, by the calls alone.
//! - *told*: what the calls show of an item, a value or a call by real time. A *row* has it of each call, in the order of the calls.
//! - *hint*: which call or event to ask about. Nothing follows from it before the configuration is asked.
//! - *needs*: a call needs another one that stands before it in each linearization which has it.
//! - *owed*: a reply that a completed call returned with, and that no other call can get.
//! - *owner*: of a call that found a value, the last call in front of it that changed the state. Real time tells which calls may be.
//! - *cluster*: a call, and those that it alone may own.
//! - *due*: a completed call that is not lifted, while all calls that may be its owner are.
//! - *lost*: an item that a call put in and no completed call returned with. A *taker* is a pending call that may have taken it.
//! - *late*: a call that puts an item in is too late if the item would still be there when a call finds it gone.
//! - *hurried*: an enqueue is hurried if its item would have to be out by an event by which too few calls that may take it were called.
//! - *section*: what an acquire of a mutex begins, and the unlock of its process ends.
//! - *in vain*: by what is told alone, there is no linearization.
//!
//! What it promises the crates above, by the contracts of `known_ahead`, `search_first`, `are_in_vain`, `some_came_too_early`,
//! `some_was_taken_twice`:
//!
//! - `known_ahead` says what the calls of a problem show before any search, by a few passes over them: for a queue, a stack, a map
//!   of one key or a set of one item that starts empty, for a register, for a counter and for a mutex on which the calls of each
//!   process come one after another, and for no other problem. `KnownAhead` is one enum, with a value of its own for each kind. All
//!   of it speaks of *linearizations* (`IsRightAhead`), and for most of it nothing more could be told by real time (`IsToldAhead`);
//!   for a stack it may leave out which call popped an item. Of values it tells owners of each completed call that found one, if no
//!   more than 64 calls may write that value (`AreToldWhereFew`); it may name as an owner a call that cannot be one, but of what
//!   owners show nothing is left out, save what balance and ranks show.
//! - `search_first` looks from the root for the least linearization only, and passes over a call if a rule below shows that it
//!   begins no completion, or none that an earlier call does not begin too. Its answer is right (`Told`). It is `Nothing` only if
//!   there are more runs than lifts may be made, or if the stop answered. No clause says which calls it passes over. The search
//!   itself is generic in the object and in its rules (`Rules`, one impl for each kind): they are told of each lift and of each
//!   call that is put back, and say of a call that it begins no completion, or that it begins none by the state it leads to. It
//!   keeps by itself to what holds of all kinds, the repeated calls. What it refutes it puts to a set (`RefutedSet`), from which a
//!   later search of the same problem goes on.
//! - `some_came_too_early` and `some_was_taken_twice` answer exactly whether an item of a queue or a stack that starts empty is
//!   *impossible* so; then there is no linearization. `are_in_vain` answers yes only if there is none: where what is told of values
//!   shows it, a push of a stack crosses a call, or two acquires of a mutex exclude each other.
//! - `held_until` gives for each call that took a mutex the next unlock of its process, and says what follows for runs of the first
//!   calls alone: they have at most one of those that are held beyond them, and may have any earlier one in its place.
//!
//! Its rules, with the kinds that have them:
//!
//! - *needs* (queue, register, key of a map, item of a set): b is in no linearization without a before it: since b's item comes out
//!   behind a's, or since a call that a alone can own returned before one that b alone can own was called.
//! - *takers* (queue, stack): An item that no completed call returned with is taken by a pending `deq` or `pop`, and each takes one
//!   at most. A call that leaves fewer of these than items that must be gone before another call begins no completion.
//! - *owed replies* (queue, stack): An item that goes in once and that a completed call returned with is that call's: no pending
//!   call gets it.
//! - *due calls* (register, key of a map, item of a set): No call that changes the state stands in front of a call that is due. So
//!   none changes it while another one is due. Nor does a call begin a completion behind which two are due that change the value, or
//!   one is that another call comes before which does not leave the value as it is.
//! - *stranded calls* (register, key of a map, item of a set): Once the state is changed, a call all but one of whose owners are
//!   lifted is owned by that one. A call that changes the state begins no completion if one owner would be left with two such calls
//!   between which another one stands that does not leave what they found, or if two owners would each be left with a call that
//!   goes before one of the other's.
//! - *fewer owners* (register, key of a map, item of a set): So it is before any search, too: a call is no owner of another one if
//!   its cluster would cross another cluster with that call, or would be parted by a call that breaks the value. Nor is the start,
//!   if a call of a cluster returned before the call was called. Such owners are taken out before the search, which then has more
//!   calls that are due.
//! - *balance* (register, key of a map, item of a set): No two calls that took a value away found what one and the same call made, or
//!   the start. So there is no linearization if they are more than the calls, with the start, of which one made what each found. It
//!   is asked before any search.
//! - *ranks* (register, key of a map, item of a set): A value has a rank if each call that may write it is a `cas` from a value of a
//!   lower rank. It comes about once at most. So there is no linearization if two calls took such a value away, or if a call found
//!   one behind another call that showed a value of no rank or of a higher one. It is asked before any search.
//! - *too late* (queue, stack): A push begins no completion if what must lie above it is popped only after a call that has to find
//!   what lies below; nor does an enqueue if what went in before its item was taken comes out only after a call that has to find
//!   the queue empty.
//! - *too early* (queue): Where items repeat: by some event no more calls were called that may take an item than enqueues of it are
//!   lifted, and more calls returned with another item than enqueues of that one are lifted, or a call returned that found the
//!   queue empty and is not lifted. Then an enqueue of the item begins no completion, since it would come out before the other one,
//!   which goes in later, or before that call. It is asked where some item goes in more than once.
//! - *hurried* (queue): Where items repeat: by an event more of some item are out than lie in the queue, since what lies in front
//!   is out by an earlier event and calls that were called after that one returned with the item. So all that lies in the queue is
//!   out by the event, and what is put in next. An enqueue of an item begins no completion if no more calls that are left and may
//!   take the item were called by then than it lies in the queue. It is asked by dequeues that were called and returned within
//!   another one of their item.
//! - *sums* (counter): What was added before a `get` that is still to come is at most what its reply leaves room for.
//! - *sections in order* (mutex): No call takes it while another acquire is left that returned no later: its process would have to
//!   give it back first, and called no unlock before that acquire returned. So acquires stand in the order of their returns, and no
//!   pending call takes the mutex before one.
//! - *repeated calls* (all): Calls that add nothing, as in `search_passing_over`.
//! - *in vain* (queue, stack, register, key of a map, item of a set, mutex): A call found what nobody put there in time, two calls
//!   took what was put there once, an item was popped too late for a call that found what lies under it, two writes would each have
//!   to stand before the other, two calls changed the value that one write alone can have made, two acquires exclude each other:
//!   between their returns the first one's process called no unlock, or an unlock returned whose process did not hold the mutex by
//!   its calls before. There is no linearization then.
//!
//! For the rules on registers, the owners of a call are those that may write the value which it found, were called before it returned,
//! and between which and it no call stands in real time that breaks the value: it wrote another one, or found another one. Of a call
//! with more than 64 of them nothing is told. A map of one key is read as a register if no call gives the key the least number of 64
//! bits, which stands for 'no value'; a delete writes that. A set of one item is read as a register of two values, that say whether the
//! item is in: an insert or a remove that changed the set is a cas, one that did not is a read, and a pending one is a write. Both
//! are one proof: each step of the map or the set is a step of the register, and what the register shows belongs to one state
//! alone.
//!
//! Which call, item or event to ask about is always a hint; the configuration is asked before anything follows from it.
//!
//! Why it is so:
//!
//! - First searches make at most three lifts per call. Most queues take one or two, or more than eight, and what a failed first
//!   search did is lost. Eight per call cost refuted queues 1.08 times the instructions.
//! - Queues and stacks share what is said of items, takers and deadlines (`items`), since a stack's calls are read as those of a
//!   queue. What an order of the items says is theirs alone: a queue's needs are of any two items, and what lies above an item on a
//!   stack is so at one configuration. One notion for both would need the order as a parameter of each lemma, and the two proofs
//!   behind it have nothing in common.
//! - Takers are counted at the moment of one call. Of two such calls, all that goes before one also goes before the other, so no
//!   set of calls says more, and the proof is a count along one part of an order. Equal lost items count once, so sometimes less is
//!   passed over.
//! - Late pushes are found by one pass over the pushes left, by their returns. All passes together take calls times backlog. *To
//!   change:* a tree of greatest numbers, for backlogs far above 128.
//! - Which calls are due is counted: for each call how many of its owners are not lifted. Of the calls that a lift makes due the
//!   search asks about the one that was called last, and of those that come before it about the first that by its reply does not
//!   leave the value as it is. It makes one step for that, so the rule knows nothing of values.
//! - A first search of a queue asks at the root, for each call, whether takers are lacking. Otherwise it would find that out behind
//!   every order of the calls in front. So items that were lost for too long show before the first lift; if no dequeue is pending,
//!   two calls that cross show them. A separate test before any search would show nothing more: queues of 8 to 24 clients that
//!   forgot 1 to 20 items, where 1 to 16 clients stop within a dequeue, are refuted in a hundredth of a second.
//! - What hurries an enqueue is asked in two steps. By an event some item is out, and so all that lies in front of it; a dequeue
//!   that was called after that event, within another one of its item, then takes one more than those in front. Chains of three
//!   such steps found orders for 602 of 720 random queues of 6 and 12 clients with 5 to 100 different items, chains of two for 591,
//!   and one step for 414 (in a sketch). Two are proved, as each is a count of its own. The same test at dequeues found two more,
//!   and is left out. It is asked only where an inner dequeue is in sight, so that a queue whose items go in once pays nothing. *To
//!   change a hint:* no proof.
//! - A pending dequeue counts as one that may take any item, also an item of which calls took as many as calls put in. Not to count
//!   it there, and to pass over a pending dequeue that would take such an item, found the order of eight queues of nine with 400 to
//!   4,000 calls whose items mostly go in once, where one to eight clients stop within a dequeue; without it four have one within
//!   four seconds (a sketch). Of queues of 10 or 100 items with a backlog of 20 it found two more of 32. *To change:* rows without
//!   pending dequeues for such items, and a proof that in a linearization no more calls take an item than put it in.
//! - A mutex has one rule, by returns alone. Two more are true and left out: an unlock begins no completion if a `try_lock` that
//!   answered 'no' is left which returned before the next acquire was called; nor does a pending `try_lock` of a held mutex if no
//!   other pending call could be why a later one answered 'no'. Without them a first search makes at most two lifts per call: so it
//!   was in all of 30 linearizable histories of 200 to 15,900 calls and in 400 random ones of 50 to 1,000 calls in which a client
//!   stops while it holds the mutex. A wrong unlock is put back at once, and a call that was told 'no' is tried alone. *To change:*
//!   a second test in `begins_none`, by the reachable configuration.
#![tactic(auto)]

mod counters;
mod first;
mod in_vain;
mod items;
mod kept;
mod look_ahead;
mod mutexes;
mod queues;
mod search_by_kind;
mod sight;
mod stacks;
mod sum_tree;
mod values;

pub use counters::rows::{SumLimit, SumRows};
pub use first::refuted_set::RefutedSet;
pub use in_vain::are_in_vain;
pub use items::impossible_items::some_came_too_early;
pub use items::late_pushes::LateRows;
pub use items::rows::ItemsAhead;
pub use items::taken_twice::some_was_taken_twice;
pub use look_ahead::{KnownAhead, known_ahead};
pub use mutexes::holders::held_until;
pub use mutexes::rows::MutexAhead;
pub use mutexes::sections::Section;
pub use queues::rows::QueueAhead;
pub use search_by_kind::search_first;
pub use stacks::rows::StackAhead;
pub use values::rows::ValuesAhead;
