//! A line's JSON object without copies, where its members are flat.

ghost use Rattle.std.specs.Prelude.{◌≡◌, ℕ, ◌<◌, ◌==◌, length, slice_index, option_map, true, false, Some, IfOk, IfSome, IsTrue};
ghost use Rattle.json.specs.Json.{value, items, members};
ghost use Rattle.serde_json.specs.Data.{no_members, float};
ghost use Rattle.serde_json.specs.Find.{of_integer, as_str, get_member};
ghost use Rattle.serde_json.specs.Read.{read, number_of, number_from, of_json, of_items, of_members, converted};
ghost use Rattle.std.specs.Str.{bytes_eq};
ghost use Rattle.lin_text.specs.Fields.{whole, reply_of, arguments_of};
ghost use Rattle.lin_text.specs.WholeNumbers.{items_of};
ghost use Rattle.lin_text.specs.FlatObject.{value_of, members_with, object_of};

use crate::line_value::LineValue;
use crate::wholes::{Numbers, Wholes};
use fast_float::Numeral;
use json::{Reader, Scratch, Token};
use lin_object::Reply;
use std::alloc::{AllocError, Global};

/// The value of a member that is flat: no object, no array but one of whole numbers of 64 bits, and no
/// whole number beyond them.
#[derive(Drop)]
pub(crate) enum Field<'l> {
    /// `null`.
    Null,
    /// `true` or `false`.
    Flag(bool),
    /// A whole number.
    Whole(i64),
    /// A number with a point or an exponent.
    Float(f64),
    /// A text, without its escapes.
    Text(&'l str),
    /// An array of whole numbers.
    Wholes(Wholes),
}

/// A member of an object: its key, and its value.
#[derive(Drop)]
pub(crate) struct Member<'l> {
    pub(crate) key: &'l str,
    pub(crate) field: Field<'l>,
}

/// A JSON object whose members are flat, in the order in which they stand in its line.
#[derive(Drop)]
pub(crate) struct FlatObject<'l> {
    pub(crate) members: Vec<Member<'l>>,
}

impl Field<'_> {
    // The text that it is, where it is one.
    fn text(&self) -> Option<&str>
        ensures { option_map (λ text. text.now) result ≡ as_str (value_of self.now) }
    {
        match self {
            Field::Text(text) => Some(text),
            Field::Null | Field::Flag(_) | Field::Whole(_) | Field::Float(_) | Field::Wholes(_) =>
                None,
        }
    }

    // The whole number that it is, where it is one.
    fn whole(&self) -> Option<i64>
        ensures { result ≡ whole (value_of self.now) }
    {
        match self {
            Field::Whole(number) => Some(*number),
            Field::Null | Field::Flag(_) | Field::Float(_) | Field::Text(_) | Field::Wholes(_) =>
                None,
        }
    }

    // The reply that it is, where it is one.
    fn reply(&self) -> Option<Reply>
        ensures { result ≡ reply_of (value_of self.now) }
    {
        match self {
            Field::Null => Some(Reply::Empty),
            Field::Flag(flag) => Some(Reply::Flag(*flag)),
            Field::Whole(number) => Some(Reply::Int(*number)),
            Field::Text(text) => {
                if *text == "ok" {
                    Some(Reply::Okay)
                } else {
                    None
                }
            }
            Field::Float(_) | Field::Wholes(_) => None,
        }
    }

    // The whole numbers of the array that it is, where it is one.
    fn wholes(&self, alloc: Global) -> Result<Option<Numbers>, AllocError>
        ensures { IfOk result (λ found. option_map (λ v. v.items) found
            ≡ arguments_of (Some (value_of self.now))) }
    {
        match self {
            Field::Wholes(numbers) => Ok(Some(numbers.copy(alloc)?)),
            Field::Null | Field::Flag(_) | Field::Whole(_) | Field::Float(_) | Field::Text(_) => Ok(
                None,
            ),
        }
    }
}

// Whether a text begins with a minus sign.
fn has_minus(bytes: &[u8]) -> bool
    ensures value { result ≡ (slice_index bytes.now 0 == 45) }
    ensures some { IsTrue result → 0 < length bytes.now }
{
    !bytes.is_empty() && bytes[0] == b'-'
}

// The whole number of 64 bits that a numeral without a sign is.
fn unsigned(numeral: &Numeral<'_>) -> Option<i64>
    ensures { IfSome result (λ n. number_from false numeral.now ≡ Some (of_integer n)) }
{
    numeral.to_i64(false)
}

// The whole number of 64 bits that a numeral behind a minus sign is. `-0` is none: it is a float.
fn negative(numeral: &Numeral<'_>) -> Option<i64>
    ensures { IfSome result (λ n. number_from true numeral.now ≡ Some (of_integer n)) }
{
    match numeral.to_i64(true) {
        Some(number) if number < 0 => Some(number),
        _ => None,
    }
}

// The float of 64 bits nearest to a numeral that has a point or an exponent, where it is finite.
fn nearest(negative: bool, numeral: &Numeral<'_>) -> Option<f64>
    ensures { IfSome result (λ x. number_from negative numeral.now ≡ Some (float x)) }
{
    if !numeral.has_point() && numeral.exponent().is_empty() {
        return None;
    }
    let nearest = numeral.to_float::<f64>(negative);
    if nearest.is_finite() {
        Some(nearest)
    } else {
        None
    }
}

// Whether a JSON number has a minus sign, and the numeral behind it.
fn numeral_of(text: &str) -> (bool, Numeral<'_>)
    ensures { number_of text.now ≡ number_from result.0 result.1 }
{
    let bytes = text.as_bytes();
    if has_minus(bytes) {
        (true, Numeral::scan(&bytes[1..]))
    } else {
        (false, Numeral::scan(bytes))
    }
}

// The whole number that a JSON number is, where it is one of 64 bits and has neither a point nor an
// exponent.
fn whole_of(text: &str) -> Option<i64>
    ensures { IfSome result (λ n. number_of text.now ≡ Some (of_integer n)) }
{
    match numeral_of(text) {
        (true, numeral) => negative(&numeral),
        (false, numeral) => unsigned(&numeral),
    }
}

// The float that a JSON number with a point or an exponent is.
fn float_of(text: &str) -> Option<f64>
    ensures { IfSome result (λ x. number_of text.now ≡ Some (float x)) }
{
    let (has_minus, numeral) = numeral_of(text);
    nearest(has_minus, &numeral)
}

// The whole numbers up to the end of an array; `None` where something else is among them.
fn wholes_of(alloc: Global, reader: &mut Reader<'_>) -> Result<Option<Wholes>, AllocError>
    ensures value { IfOk result (λ answer. IfSome answer (λ numbers. (depth : ℕ)
        → converted of_items (items (value depth) (length reader.old) reader.old)
        ≡ Some (items_of numbers, reader.new))) }
    ensures shorter { IfOk result (λ answer. IfSome answer
        (λ _. length reader.new < length reader.old)) }
{
    let mut found = Wholes::none(alloc);
    'items: while !reader.take_end_array() {
        let Some(Token::Number(text)) = reader.next() else {
            return Ok(None);
        };
        let Some(number) = whole_of(text) else {
            return Ok(None);
        };
        found.push(number)?;
    }
    Ok(Some(found))
}

// The value that comes next, where it is flat.
fn field_of<'l>(alloc: Global, reader: &mut Reader<'l>) -> Result<Option<Field<'l>>, AllocError>
    ensures value { IfOk result (λ answer. IfSome answer (λ field. (depth : ℕ) → 0 < depth
        → converted of_json (value depth reader.old) ≡ Some (value_of field, reader.new))) }
    ensures shorter { IfOk result (λ answer. IfSome answer
        (λ _. length reader.new < length reader.old)) }
{
    let Some(token) = reader.next() else {
        return Ok(None);
    };
    match token {
        Token::Null => Ok(Some(Field::Null)),
        Token::Bool(flag) => Ok(Some(Field::Flag(flag))),
        Token::String(text) => Ok(Some(Field::Text(text))),
        Token::Number(text) => match whole_of(text) {
            Some(number) => Ok(Some(Field::Whole(number))),
            None => match float_of(text) {
                Some(number) => Ok(Some(Field::Float(number))),
                None => Ok(None),
            },
        },
        Token::BeginArray => match wholes_of(alloc, reader)? {
            Some(numbers) => Ok(Some(Field::Wholes(numbers))),
            None => Ok(None),
        },
        Token::BeginObject | Token::EndObject | Token::EndArray | Token::Key(_) | Token::Bad => {
            Ok(None)
        }
    }
}

// The members up to the end of an object, where they are flat.
fn members_of<'l>(
    alloc: Global,
    reader: &mut Reader<'l>,
) -> Result<Option<Vec<Member<'l>>>, AllocError>
    ensures { IfOk result (λ answer. IfSome answer (λ found. (depth : ℕ) → 0 < depth
        → converted (λ ms. of_members ms no_members)
        (members (value depth) (length reader.old) reader.old)
        ≡ Some (members_with found.items no_members, reader.new))) }
{
    let mut found = Vec::with_capacity(alloc, 8)?;
    'members: loop {
        let Ok(next) = reader.next_key() else {
            return Ok(None);
        };
        let Some(key) = next else {
            return Ok(Some(found));
        };
        let Some(field) = field_of(alloc, reader)? else {
            return Ok(None);
        };
        found.push(Member { key, field })?;
    }
}

// Whether the member has this key. Most keys differ in their lengths, which take one comparison.
fn has_key(member: &Member<'_>, key: &str) -> bool
    ensures { result ≡ bytes_eq member.now.key.now key.now }
{
    member.key.len() == key.len() && member.key == key
}

impl<'l> FlatObject<'l> {
    /// The object that a text is, as the JSON reader of values reads it, where it is one and its
    /// members are flat. Where it is not, or is no JSON, `None`, and nothing is said of the text.
    /// `AllocError` where memory was refused.
    pub(crate) fn read(
        alloc: Global,
        text: &'l str,
        scratch: &'l mut Scratch,
    ) -> Result<Option<FlatObject<'l>>, AllocError>
        ensures { IfOk result (λ answer. IfSome answer (λ object. read text.now
            ≡ Some (object_of object.members.items))) }
    {
        let mut reader = Reader::new(text, scratch)?;
        let Some(Token::BeginObject) = reader.next() else {
            return Ok(None);
        };
        let Some(members) = members_of(alloc, &mut reader)? else {
            return Ok(None);
        };
        if reader.next().is_some() {
            return Ok(None);
        }
        Ok(Some(FlatObject { members }))
    }

    /// The value at a key: that of the last member that has it.
    pub(crate) fn find(&self, key: &str) -> Option<&Field<'l>>
        ensures { option_map (λ field. value_of field.now) result
            ≡ get_member key.now (members_with self.now.members.items no_members) }
    {
        let members = self.members.as_slice();
        let mut left = members.len();
        while left > 0 {
            left -= 1;
            let member = &members[left];
            if has_key(member, key) {
                return Some(&member.field);
            }
        }
        None
    }
}

impl<'l> LineValue for FlatObject<'l> {
    ghost json = { λ object. object_of object.members.items };

    fn is_object(&self) -> bool {
        true
    }

    fn has(&self, key: &str) -> bool {
        self.find(key).is_some()
    }

    fn text_at(&self, key: &str) -> Option<&str> {
        self.find(key)?.text()
    }

    fn whole_at(&self, key: &str) -> Option<i64> {
        self.find(key)?.whole()
    }

    fn reply_at(&self, key: &str) -> Option<Reply> {
        self.find(key)?.reply()
    }

    fn wholes_at(&self, alloc: Global, key: &str) -> Result<Option<Numbers>, AllocError> {
        match self.find(key) {
            None => Ok(Some(Numbers::new(alloc))),
            Some(field) => field.wholes(alloc),
        }
    }
}
