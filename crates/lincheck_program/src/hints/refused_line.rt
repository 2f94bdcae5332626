//! The line of a text that is refused, and the text before it.

ghost use Rattle.std.specs.Prelude.{◌≤◌, length};

/// The line that is refused, without its line feed, and all lines before it.
#[derive(Clone, Copy)]
pub struct RefusedLine<'t> {
    pub before: &'t [u8],
    pub line: &'t [u8],
}

// Where the first line of a text ends: at a line feed, or with the text.
fn first_end(text: &[u8]) -> usize
    ensures { result ≤ length text.now }
{
    for (index, byte) in text.iter().enumerate() {
        if *byte == b'\n' {
            return index;
        }
    }
    text.len()
}

// The text behind its first line. It is empty where there is no other.
fn behind_first(text: &[u8]) -> &[u8] {
    match text[first_end(text)..].split_first() {
        Some((_, behind)) => behind,
        None => &[],
    }
}

impl<'t> RefusedLine<'t> {
    /// The line of a text that has this number, counted from 1. It is empty where the text has fewer lines.
    pub fn of(text: &'t [u8], number: u64) -> Self {
        let mut rest = text;
        for _ in 1..number {
            rest = behind_first(rest);
        }
        let begin = text.len().saturating_sub(rest.len());
        RefusedLine {
            before: &text[..begin],
            line: &rest[..first_end(rest)],
        }
    }
}
