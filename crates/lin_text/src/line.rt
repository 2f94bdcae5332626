//! What a line may be.

use lin_history::FoundObject;
use lin_object::{Kind, Op, Reply};

/// Which format a text has. Its first line that is not skipped shows.
#[derive(Clone, Copy)]
pub(crate) enum Format {
    /// No line has told yet.
    Unstated,
    /// Its first line was no header.
    One,
    /// A header states it.
    Two,
}

/// Which kind of event a line is, or that it is the header.
#[derive(Clone, Copy)]
pub(crate) enum EventKind {
    Header,
    Declaration,
    Call,
    Return,
    Fail,
    Info,
}

/// An event as it is in a line, or the header.
#[derive(Clone, Copy)]
pub(crate) enum Line<'v> {
    Header,
    Declare(&'v str, Kind, i64),
    Call(u32, FoundObject<'v>, Op),
    Return(u32, FoundObject<'v>, Reply),
    Fail(u32, FoundObject<'v>),
    Info(u32, FoundObject<'v>),
}
