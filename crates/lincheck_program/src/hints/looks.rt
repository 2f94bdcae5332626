//! What a text looks like that is no JSON Lines.

/// What a text or a line of it looks like.
#[derive(Clone, Copy, PartialEq, Eq, Debug)]
pub enum Look {
    /// It begins with the byte order mark of UTF-8.
    ByteOrderMark,
    /// It is encoded as UTF-16.
    Utf16,
    /// It is compressed by gzip.
    Gzip,
    /// It is written in EDN, as Jepsen's histories are.
    Edn,
    /// Its events are the items of a JSON array.
    Array,
    /// The line ends with a comma.
    Comma,
    /// The line has single quotes where JSON has double ones.
    SingleQuotes,
    /// The line is not UTF-8.
    NotUtf8,
    /// None of these.
    Other,
}

// What the whole text looks like, by its first bytes.
fn look_of_text(text: &[u8]) -> Option<Look> {
    if text.starts_with(&[0xEF, 0xBB, 0xBF]) {
        return Some(Look::ByteOrderMark);
    }
    if text.starts_with(&[0xFF, 0xFE]) || text.starts_with(&[0xFE, 0xFF]) {
        return Some(Look::Utf16);
    }
    if text.starts_with(&[0x1F, 0x8B]) {
        return Some(Look::Gzip);
    }
    None
}

// What a line looks like, without spaces at its ends.
fn look_of_line(line: &[u8]) -> Look {
    if line.starts_with(b"{:") || line.starts_with(b"[{:") || line.starts_with(b"#jepsen.") {
        Look::Edn
    } else if line.starts_with(b"[") {
        Look::Array
    } else if line.ends_with(b",") {
        Look::Comma
    } else if line.starts_with(b"{'") {
        Look::SingleQuotes
    } else if str::from_utf8(line).is_err() {
        Look::NotUtf8
    } else {
        Look::Other
    }
}

/// What a text looks like of which this line was refused.
pub fn look_of(text: &[u8], line: &[u8]) -> Look {
    match look_of_text(text) {
        Some(look) => look,
        None => look_of_line(line.trim_ascii()),
    }
}

impl Look {
    /// What helps.
    pub fn words(self) -> &'static str {
        match self {
            Look::ByteOrderMark => {
                "the text begins with a byte order mark; write it as UTF-8 without one"
            }
            Look::Utf16 => "the text is UTF-16; write it as UTF-8",
            Look::Gzip => "the text is compressed: gzip -dc HISTORY | lincheck",
            Look::Edn => "this looks like EDN; bin/from-jepsen makes a history of one of Jepsen's",
            Look::Array => {
                "this looks like a JSON array; write each event on a line of its own, without brackets and commas; bin/from-porcupine makes a history of one of Porcupine's"
            }
            Look::Comma => "the line ends with a comma; end it with a line feed alone",
            Look::SingleQuotes => "JSON has its names and words in double quotes",
            Look::NotUtf8 => "the line is not UTF-8",
            Look::Other => {
                "each line is a JSON object, as {\"event\":\"call\",\"process\":1,\"object\":\"x\",\"op\":\"read\"}"
            }
        }
    }
}
