//! The text of a history: JSON Lines, and what they mean.
//!
//! What it promises the crates above, by the contracts of `read_history`, `read_history_and_lines`, `write_cause`, `meaning_law`:
//!
//! - `read_history` gives the history of the events on the lines of a text, or its first faulty line with its first cause.
//!   `read_history_and_lines` adds the exact line of each event. `write_cause` writes exactly a fault's line number and words.
//!   `meaning_law`: a text means at most one history, at most one fault, and never both.
//! - The meaning of a line is stated over what `serde_json` reads of it. A flat object is read in one pass without copies
//!   (`FlatObject`), any other line into an owned value; the functions above are generic in both (`LineValue`).
//!
//! Why it is so:
//!
//! - The object of a line is looked up once, and compared with that of the last call first. The builder is given what it found
//!   itself, and requires that: the four calls of `Builder` for events have a second form each, which needs no name. It saves 4 of
//!   100 instructions of reading where objects alternate. *To change:* a line would hold its object's name alone again.
//! - Reading keeps to the kit's JSON reader. A third of what a line costs is the reader's tokens. A key told once to an enum would
//!   still be compared once, which is most of what it costs; and a vector that lines share would have to outlive what it borrows
//!   from each.
//! - A flat line is read by the pull parser, any other into an owned value. The first may give up, so only what it finds is proved:
//!   a body that always gives up would be proved too. It halves the time of reading.
//! - The builder's refusals are causes of a line with their own words. The words are a hand-written `Display` with a contract; a
//!   derived one has none.
//! - The lines of events are found in the one pass that reads the text, if they are wanted; nothing below `lin_text` knows of
//!   lines. A second pass would parse everything again.
#![tactic(auto)]

mod cause;
mod fields;
mod flat_object;
mod laws;
mod line;
mod line_value;
mod reading;
mod text;
mod wholes;

pub use cause::{Cause, TextFault, write_cause};
pub use laws::meaning_law;
pub use text::{MAX_INPUT_BYTES, MAX_LINE_BYTES, read_history, read_history_and_lines};
