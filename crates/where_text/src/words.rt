//! Words, numbers and values of a line.

ghost use Rattle.std.specs.Prelude.{◌≡◌, ◌≤◌, ◌++◌, OnOk, option_copied};
ghost use Rattle.where_text.specs.Spelled.{listed_if, signed, space_word, spelled_if, spelled_within};

use crate::cutting::{LIST_LIMIT, WORD_LIMIT, put_shortened, put_text};
use iges_base::{NoMemory, Out};
use iges_fields::Value;
use itoa::Buffer;

/// Appends a space and the word.
pub fn put_word(out: &mut Out, word: &str) -> Result<(), NoMemory>
    ensures text { OnOk result (out.new ≡ out.old ++ space_word word.now) }
{
    out.put(b" ")?;
    out.put(word.as_bytes())
}

/// Appends a space and the number's digits, after a minus where it is negative.
pub fn put_signed(out: &mut Out, n: i64) -> Result<(), NoMemory>
    ensures text { OnOk result (out.new ≡ out.old ++ space_word (signed n)) }
{
    out.put(b" ")?;
    out.put(Buffer::new().format(n).as_bytes())
}

// A value as it is shown, a real with so many bytes at most; one that is left out is a hyphen.
fn put_spelled(out: &mut Out, value: &Value, limit: usize) -> Result<(), NoMemory>
    requires { 3 ≤ limit }
    ensures text { OnOk result (out.new ≡ out.old ++ spelled_within limit value.now) }
{
    match value {
        Value::Default => out.put(b"-"),
        Value::Int(n) => out.put(Buffer::new().format(*n).as_bytes()),
        Value::Real(word) => put_shortened(out, word.as_slice(), limit),
        Value::Text(text) => put_text(out, text.as_slice()),
    }
}

/// Appends a space and the value as it is shown: an integer by its digits, a real by its word as it was read, a text by its
/// bytes, each that isn't printed as `?`; `-` for none and for a value that is left out. A real or a text of more than 100
/// bytes is cut, and ends in two dots.
pub fn put_value(out: &mut Out, value: Option<&Value>) -> Result<(), NoMemory>
    ensures text { OnOk result (out.new ≡ out.old
        ++ space_word (spelled_if (option_copied value.entry))) }
{
    out.put(b" ")?;
    match value {
        Some(value) => put_spelled(out, value, WORD_LIMIT),
        None => out.put(b"-"),
    }
}

/// Appends a space and the value as lists show it: a real of more than 32 bytes is cut, and ends in two dots.
pub fn put_listed(out: &mut Out, value: Option<&Value>) -> Result<(), NoMemory>
    ensures text { OnOk result (out.new ≡ out.old
        ++ space_word (listed_if (option_copied value.entry))) }
{
    out.put(b" ")?;
    match value {
        Some(value) => put_spelled(out, value, LIST_LIMIT),
        None => out.put(b"-"),
    }
}
