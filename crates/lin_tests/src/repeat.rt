//! Texts that say the same many times, kept short.

use std::alloc::{AllocError, Global};
use std::io;

// Appends a piece. A `#` in it is this number, and `\n` the byte 10.
fn push_piece(
    alloc: Global,
    text: &mut String,
    piece: &str,
    number: u64,
) -> Result<(), AllocError> {
    let number = format!(in alloc; "{number}")?;
    let numbered = piece.replace(alloc, "#", number.as_str())?;
    text.push_str(numbered.as_str())
}

// Appends what a line stands for: a number, a space and a piece, which is repeated so often and numbered from 1.
fn push_line(alloc: Global, text: &mut String, line: &str) -> io::Result<()> {
    let (count, piece) = line.split_once(' ').ok_or(io::ErrorKind::InvalidData)?;
    let Ok(count) = count.parse::<u64>() else {
        return Err(io::Error::from(io::ErrorKind::InvalidData));
    };
    let piece = piece.replace(alloc, "\\n", "\n")?;
    for before in 0..count {
        push_piece(alloc, text, piece.as_str(), before.wrapping_add(1))?;
    }
    Ok(())
}

/// The text that these lines stand for.
pub fn repeated(alloc: Global, lines: &str) -> io::Result<Vec<u8>> {
    let mut text = String::new(alloc);
    for line in lines.lines() {
        push_line(alloc, &mut text, line)?;
    }
    Ok(text.into_bytes())
}
