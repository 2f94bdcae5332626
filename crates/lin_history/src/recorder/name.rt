//! What may name an object.

ghost use Rattle.std.specs.Prelude.{◌≡◌};
ghost use Rattle.std.specs.List.{list_all};
ghost use Rattle.lin_history.specs.Recorder.Names.{is_name, is_name_byte};

use crate::limits::MAX_NAME_BYTES;

// Whether names may have the byte.
fn is_name_byte(byte: u8) -> bool
    ensures { result ≡ is_name_byte byte }
{
    matches!(byte, b'A'..=b'Z' | b'a'..=b'z' | b'0'..=b'9' | b'_' | b'.' | b'/' | b':' | b'-')
}

// Whether names may have each of the bytes.
fn are_name_bytes(bytes: &[u8]) -> bool
    ensures { result ≡ list_all is_name_byte bytes.now }
{
    bytes.iter().all(|byte| is_name_byte(*byte))
}

/// Whether this may name an object: 1 to 64 bytes out of `A-Z a-z 0-9 _ . / : -`.
pub fn is_name(text: &str) -> bool
    ensures { result ≡ is_name text.now }
{
    let bytes = text.as_bytes();
    1 <= bytes.len() && bytes.len() <= MAX_NAME_BYTES && are_name_bytes(bytes)
}
