//! Values of a record by their places, counted from 1 without the type number; `brep_lists` counts them from 0.

ghost use Rattle.entry_references.specs.Layout.{value_at, count_of, is_count, is_choice, is_pointer};
ghost use Rattle.entry_references.specs.PointForms.{form_number};
ghost use Rattle.entry_references.specs.Refs.{number_of};
ghost use Rattle.iges_fields.specs.declared.value.Value.TheVariants.{Default};
ghost use Rattle.std.specs.List.{list_all};
ghost use Rattle.std.specs.Prelude.{◌≡◌, ◌≤◌, true, false, IfNone, IfSome, MatchOption, length, unwrap_or};

use iges_fields::{Value, Values};

// The value in a place; None past the end, where it counts as left out.
fn value_at(values: &Values, place: usize) -> Option<&Value>
    ensures some { IfSome result (λ value. value.now ≡ value_at values.now place) }
    ensures none { IfNone result (value_at values.now place ≡ Default) }
{
    values.get(place.saturating_sub(1))
}

// A count that is left out is 0; None for a negative one and for a value that is no integer.
fn count_of(value: &Value) -> Option<usize>
    ensures { result ≡ count_of value.now }
{
    match value {
        Value::Default => Some(0),
        Value::Int(n) if *n >= 0 => Some(*n as usize),
        _ => None,
    }
}

/// The count in a place, from 1, where it may be there: one that is left out or missing is 0, and none is greater
/// than the number of values.
pub fn count_in(values: &Values, place: usize) -> Option<usize>
    ensures { MatchOption result (is_count values.now (value_at values.now place) ≡ false)
        (λ n. (is_count values.now (value_at values.now place) ≡ true) × (n ≡ unwrap_or (count_of (value_at values.now place)) 0) × (n ≤ length values.now)) }
{
    let most = values.len();
    let Some(value) = value_at(values, place) else {
        return Some(0);
    };
    match count_of(value) {
        Some(count) if count <= most => Some(count),
        _ => None,
    }
}

/// How each point of copious data is given (IGES 5.3, 4.6).
#[derive(Clone, Copy)]
pub enum PointForm {
    /// Two coordinates, beside a third that all points share; written 1.
    Plane,
    /// Three coordinates; written 2.
    Space,
    /// Three coordinates and a direction of three; written 3.
    Directed,
}

// None for a value that is none of 1, 2 and 3.
fn form_of(value: &Value) -> Option<PointForm>
    ensures { MatchOption result (is_choice value.now ≡ false)
        (λ form. (is_choice value.now ≡ true) × (form_number form
        ≡ unwrap_or (count_of value.now) 0)) }
{
    match value {
        Value::Int(1) => Some(PointForm::Plane),
        Value::Int(2) => Some(PointForm::Space),
        Value::Int(3) => Some(PointForm::Directed),
        _ => None,
    }
}

/// The form of points whose number is written in a place, from 1.
pub fn form_in(values: &Values, place: usize) -> Option<PointForm>
    ensures { MatchOption result (is_choice (value_at values.now place) ≡ false)
        (λ form. (is_choice (value_at values.now place) ≡ true) × (form_number form ≡ unwrap_or (count_of (value_at values.now place)) 0)) }
{
    form_of(value_at(values, place)?)
}

/// Whether the value may be a pointer, be it left out.
pub fn is_pointer(value: &Value) -> bool
    ensures { result ≡ is_pointer value.now }
{
    matches!(value, Value::Default | Value::Int(_))
}

fn is_pointer_in(values: &Values, place: usize) -> bool
    ensures { result ≡ is_pointer (value_at values.now place) }
{
    match value_at(values, place) {
        Some(value) => is_pointer(value),
        None => true,
    }
}

/// Whether pointers may be in all these places, from 1.
pub fn are_pointers(values: &Values, places: &[usize]) -> bool
    ensures { result ≡ list_all (λ k. is_pointer (value_at values.now k)) places.now }
{
    'places: for place in places {
        if !is_pointer_in(values, *place) {
            return false;
        }
    }
    true
}

/// The integer that the value is, but for 0.
pub fn number_of(value: &Value) -> Option<i64>
    ensures { result ≡ number_of value.now }
{
    match value {
        Value::Int(n) if *n != 0 => Some(*n),
        _ => None,
    }
}

/// The integer in a place, from 1, but for 0.
pub fn number_in(values: &Values, place: usize) -> Option<i64>
    ensures { result ≡ number_of (value_at values.now place) }
{
    number_of(value_at(values, place)?)
}
