//! Where a value stands in the text of a record.

ghost use Rattle.iges_fields.specs.Delims.{are_permitted};
ghost use Rattle.iges_fields.specs.FreeText.{FreeText};
ghost use Rattle.iges_fields.specs.declared.value.Value.{Value as AnyValue};
ghost use Rattle.iges_fields.specs.declared.value.Value.TheVariants.{Int};
ghost use Rattle.std.specs.List.{prefix_len};
ghost use Rattle.std.specs.Prelude.{◌≡◌, ◌+◌, ◌≤◌, ◌∷◌, IsTrue, ℕ, ℤ, Some, length, option_copied, slice_get, take};
ghost use Rattle.where_places.specs.Spans.{StandsAt, is_of_word, span_at, span_in, span_past, value_span, word_len};

use crate::item_end::{behind, behind_counted, behind_items, from_delimiter};
use iges_base::without_front_spaces;
use iges_fields::{Delimiters, Value};

/// A piece of a text.
#[derive(Clone, Copy)]
pub struct Span {
    /// How many bytes come before it.
    pub at: usize,
    /// How many bytes it has.
    pub width: usize,
}

// How many bytes come before the first space or delimiter.
fn len_before_end(delims: &Delimiters, body: &[u8]) -> usize
    ensures { result ≡ prefix_len (is_of_word delims.now) body.now }
{
    let mut len = 0;
    'bytes: while len < body.len() && body[len] != b' ' && !delims.has(body[len]) {
        len += 1;
    }
    len
}

// How many bytes the word has at the front of a text, whose item has this value.
fn word_len(delims: &Delimiters, value: &Value, body: &[u8]) -> usize
    ensures { result ≡ word_len delims.now value.now body.now }
{
    match value {
        Value::Text(content) => {
            let rest = behind_counted(body, content.as_slice().len());
            body.len().saturating_sub(rest.len())
        }
        Value::Default | Value::Int(_) | Value::Real(_) => len_before_end(delims, body),
    }
}

// Where the value at the front of what is left stands in the text.
fn span_at(delims: &Delimiters, text: &[u8], value: &Value, body: &[u8]) -> Span
    ensures { result ≡ span_at delims.now text.now value.now body.now }
{
    Span {
        at: text.len().saturating_sub(body.len()),
        width: word_len(delims, value, body),
    }
}

// The last byte before what is left of the text.
fn span_past(text: &[u8], rest: &[u8]) -> Span
    ensures { result ≡ span_past text.now rest.now }
{
    Span {
        at: text.len().saturating_sub(rest.len()).saturating_sub(1),
        width: 0,
    }
}

fn span_in(delims: &Delimiters, text: &[u8], value: Option<&Value>, rest: &[u8]) -> Span
    ensures { result ≡ span_in delims.now text.now (option_copied value.entry) rest.now }
{
    match value {
        Some(value) => span_at(delims, text, value, without_front_spaces(rest)),
        None => span_past(text, rest),
    }
}

// The first of these values, at most so many.
fn first_values(values: &[Value], count: usize) -> &[Value]
    ensures { result.now ≡ take count values.now }
{
    &values[..count.min(values.len())]
}

fn value_at(values: &[Value], place: usize) -> Option<&Value>
    ensures { option_copied result ≡ slice_get values.now place }
{
    values.get(place)
}

#[tactic(auto, unfolding(crate::specs::Spans::value_span))]
fn found_span(delims: &Delimiters, values: &[Value], k: usize, text: &[u8]) -> Span
    ensures is { result ≡ value_span delims.now values.now k text.now }
    ensures permitted { IsTrue (are_permitted delims.now) }
{
    let first = behind(from_delimiter(delims, text), 1);
    let rest = behind_items(delims, first_values(values, k), first);
    span_in(delims, text, value_at(values, k), rest)
}

/// Where in the text of a record, which begins with its type number and has these values behind it, the k-th of them stands,
/// from 0, without the spaces before and after it (IGES 5.3, 2.2.3 and 2.2.4.5). One that is left out has no byte, and is at
/// the delimiter behind it; where the record ends before the k-th value, the place is that of the record delimiter.
pub fn value_span(delims: &Delimiters, values: &[Value], k: usize, text: &[u8]) -> Span
    ensures is { result ≡ value_span delims.now values.now k text.now }
    ensures stands { (n : ℤ) (used : ℕ) (v : AnyValue) → FreeText delims.now text.now (Int n ∷ values.now) used
        → slice_get values.now k ≡ Some v → StandsAt delims.now text.now (Int n ∷ take k values.now) v result }
    ensures end { (n : ℤ) (used : ℕ) → FreeText delims.now text.now (Int n ∷ values.now) used
        → length values.now ≤ k → result.at + 1 ≡ used }
{
    found_span(delims, values, k, text)
}
