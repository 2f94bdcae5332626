//! What stands in a line.

use serde_json::Value;
use std::alloc::{AllocError, Global};

// What is refused is shown where it has no more bytes.
const MOST_BYTES: usize = 64;

/// The word that stands in the line under a key, where it is a text.
pub fn word_at<'v>(value: &'v Value, key: &str) -> Option<&'v str> {
    value.get(key).and_then(Value::as_str)
}

/// Whether a text stands in the line under a key.
pub fn is_text_there(value: &Value, key: &str) -> bool {
    word_at(value, key).is_some()
}

/// Whether a list stands in the line under a key that has a text in it.
pub fn is_text_in(value: &Value, key: &str) -> bool {
    match value.get(key).and_then(Value::as_array) {
        Some(items) => items.iter().any(Value::is_string),
        None => false,
    }
}

// Whether a text can be shown as it is: it is short, and its bytes print.
fn is_shown(text: &str) -> bool {
    text.len() <= MOST_BYTES
        && text
            .as_bytes()
            .iter()
            .all(|byte| byte.is_ascii_graphic() || *byte == b' ')
}

/// What stands in the line under a key, as it is told.
pub fn seen(alloc: Global, value: &Value, key: &str) -> Result<String, AllocError> {
    let Some(there) = value.get(key) else {
        return format!(in alloc; "the line has no \"{key}\"");
    };
    let text = format!(in alloc; "{there}")?;
    if is_shown(text.as_str()) {
        format!(in alloc; "\"{key}\" is {text}")
    } else {
        format!(in alloc; "\"{key}\" is something else")
    }
}
