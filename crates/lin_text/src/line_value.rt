//! What is asked of a line's JSON value, in whichever form it was read.

ghost use Rattle.std.specs.Prelude.{◌≡◌, is_some, option_map, option_and_then, IfOk};
ghost use Rattle.serde_json.specs.Data.{Data};
ghost use Rattle.serde_json.specs.Find.{get, as_object};
ghost use Rattle.serde_json.specs.View.{view, items_view};
ghost use Rattle.lin_text.specs.Fields.{text_at, whole, wholes, reply_of, arguments_of};

use crate::wholes::Numbers;
use lin_object::Reply;
use serde_json::Value;
use std::alloc::{AllocError, Global};

/// The JSON value of a line.
pub(crate) trait LineValue {
    // The value, as the JSON reader of values reads it.
    ghost json: { Self → Data };

    /// Whether it is an object.
    fn is_object(&self) -> bool
        ensures { result ≡ is_some (as_object (json self.now)) };

    /// Whether it has a member with the key.
    fn has(&self, key: &str) -> bool
        ensures { result ≡ is_some (get key.now (json self.now)) };

    /// The text at the key, where there is one.
    fn text_at(&self, key: &str) -> Option<&str>
        ensures { option_map (λ text. text.now) result ≡ text_at key.now (json self.now) };

    /// The whole number of 64 bits at the key, where there is one.
    fn whole_at(&self, key: &str) -> Option<i64>
        ensures { result ≡ option_and_then whole (get key.now (json self.now)) };

    /// The reply at the key, where there is one.
    fn reply_at(&self, key: &str) -> Option<Reply>
        ensures { result ≡ option_and_then reply_of (get key.now (json self.now)) };

    /// The whole numbers in the array at the key: none where there is nothing, and `None` where it is no array of them.
    /// `AllocError` where memory was refused.
    fn wholes_at(&self, alloc: Global, key: &str) -> Result<Option<Numbers>, AllocError>
        ensures { IfOk result (λ found. option_map (λ v. v.items) found
            ≡ arguments_of (get key.now (json self.now))) };
}

// The whole numbers of a list; `None` where an item is something else.
fn wholes_of(alloc: Global, list: &[Value]) -> Result<Option<Numbers>, AllocError>
    ensures { IfOk result (λ found. option_map (λ v. v.items) found
        ≡ wholes (items_view list.now)) }
{
    let mut found = Numbers::with_capacity(alloc, list.len())?;
    for item in list {
        match item.as_i64() {
            Some(number) => found.push(number)?,
            None => return Ok(None),
        }
    }
    Ok(Some(found))
}

// The reply that a value is, where it is one.
fn reply_of(value: &Value) -> Option<Reply>
    ensures { result ≡ reply_of (view value.now) }
{
    match value {
        Value::Null => Some(Reply::Empty),
        Value::Bool(flag) => Some(Reply::Flag(*flag)),
        Value::Number(number) => match number.as_i64() {
            Some(number) => Some(Reply::Int(number)),
            None => None,
        },
        Value::String(text) => {
            if text.as_str() == "ok" {
                Some(Reply::Okay)
            } else {
                None
            }
        }
        Value::Array(_) | Value::Object(_) => None,
    }
}

impl LineValue for Value {
    ghost json = { view };

    fn is_object(&self) -> bool {
        Value::is_object(self)
    }

    fn has(&self, key: &str) -> bool {
        self.get(key).is_some()
    }

    fn text_at(&self, key: &str) -> Option<&str> {
        self.get(key).and_then(Value::as_str)
    }

    fn whole_at(&self, key: &str) -> Option<i64> {
        self.get(key).and_then(Value::as_i64)
    }

    fn reply_at(&self, key: &str) -> Option<Reply> {
        reply_of(self.get(key)?)
    }

    fn wholes_at(&self, alloc: Global, key: &str) -> Result<Option<Numbers>, AllocError> {
        match self.get(key) {
            None => Ok(Some(Numbers::new(alloc))),
            Some(args) => match args.as_array() {
                Some(list) => wholes_of(alloc, list),
                None => Ok(None),
            },
        }
    }
}
