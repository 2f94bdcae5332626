//! Items that nobody missed: calls of a queue or a stack that a verdict can do without (this project's own).
//!
//! - `item_counts`: how many calls put each item in, and how many returned with it.
//! - `rest`: the problem without lost items and without pending calls that take one.
//! - `laws`: what that leaves of a linearization.
//! - `guess`: what may have become of items and of pending calls; `in_turn`: the same where items of a queue repeat; `insertion`: an order
//!   of what is left, with lost items put in again. All three are hints. `walk`: whether a list of calls is a linearization; `remainder`:
//!   whether an order of what is left shows one.
//!
//! What it promises the crates above, by the contracts of `without_lost`, `lost_law` and `Remainder::shows_order`:
//!
//! - An item is *lost* if no call returned with it. All calls that put lost items in are left out, and all pending calls that would take
//!   an item. If no item that some call returned with is put in by more calls than returned with it, then each linearization of the whole,
//!   without these calls, is one of the rest. So if the rest has no linearization, the whole has none.
//! - `without_lost` answers this rest, of a queue or a stack that starts empty, where the condition holds and some call is left out.
//! - `Remainder::shows_order` answers *yes* only if there is a linearization: it makes one of an order of what is left, and checks it call by
//!   call. That it makes one where there is one is not promised.
//!
//! Why it is so:
//!
//! - What a call returned with, some call put in. So where no item that came out was put in more often than it came out, calls whose
//!   outcome is unknown took lost items, or found none. An item that nobody takes, and the one that a pending call takes, change no reply.
//! - A linearization of the rest is not always one of the whole: a lost item in front of another must be taken out first. So each lost
//!   item is put in again where it may stay longest, and pending calls take the items out that must go, in the order of their calls.
//! - Of items that repeat it is not known which were lost (`Guessing`). That the last were is often right where few calls returned, and
//!   almost never in a long queue. There it goes by time: each dequeue, in the order of the returns, took what the first enqueue put in that is
//!   not behind what is out already.
#![tactic(auto)]

mod guess;
mod in_turn;
mod insertion;
mod item_counts;
mod laws;
mod remainder;
mod rest;
mod walk;

pub use guess::Guessing;
pub use laws::lost_law;
pub use remainder::Remainder;
pub use rest::without_lost;
