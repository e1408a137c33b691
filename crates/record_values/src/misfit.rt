//! The first value with which no record goes on.

ghost use Rattle.std.specs.Prelude.{◌≡◌, ℕ, true, false, [], ◌∷◌, ◌≤◌, drop, length, map, MatchOption};
ghost use Rattle.brep_lists.specs.OwnValues.{is_filler};
ghost use Rattle.brep_lists.specs.Record.{count_at, value_or_default};
ghost use Rattle.brep_lists.specs.declared.entity_kind.EntityKind.TheVariants.{Solid as solid, Face as face, Loop as «loop», EdgeList as edges};
ghost use Rattle.record_values.specs.Expected.{GoesOn, IsCounted, counted_layout, counts, count_of_items, fills, first_misfit, item_layout, layout, misfit_from, single, times};
ghost use Rattle.record_values.specs.declared.due.Counted.TheVariants.{Tuples};

use crate::due::{Counted, Due, ValueKind};
use brep_lists::{EntityKind, item_count, optional_count};
use iges_fields::{Value, Values};

/// The first value of a record with which no record of its type goes on.
#[derive(Clone, Copy)]
pub struct Misfit {
    /// The place of the value, from 0 and without the type number. It is the number of values where the record ends too
    /// early.
    pub place: usize,
    /// What may be there.
    pub due: Due,
}

fn fills(slot: ValueKind, value: &Value) -> bool
    ensures { result ≡ fills slot value.now }
{
    match slot {
        ValueKind::Pointer | ValueKind::Index => matches!(value, Value::Int(_)),
        ValueKind::Flag | ValueKind::Type => matches!(value, Value::Int(0 | 1)),
        ValueKind::Coordinate => !matches!(value, Value::Text(_)),
    }
}

// The place after one value.
fn after_value(values: &Values, at: usize, slot: ValueKind) -> Result<usize, Misfit>
    ensures { GoesOn values.now at (single slot ∷ []) result }
{
    let misfit = Misfit {
        place: at,
        due: Due::Single(slot),
    };
    let Some(value) = values.get(at) else {
        return Err(misfit);
    };
    if !fills(slot, value) {
        return Err(misfit);
    }
    Ok(at + 1)
}

// The place after a group of values.
fn after_group(values: &Values, at: usize, shape: &[ValueKind]) -> Result<usize, Misfit>
    ensures { GoesOn values.now at (map single shape.now) result }
{
    let mut next = at;
    'slots: for slot in shape {
        next = after_value(values, next, *slot)?;
    }
    Ok(next)
}

// The place after so many groups of values.
fn after_groups(
    values: &Values,
    at: usize,
    count: usize,
    shape: &[ValueKind],
) -> Result<usize, Misfit>
    ensures { GoesOn values.now at (times count (map single shape.now)) result }
{
    let mut next = at;
    let mut left = count;
    'groups: while left > 0 {
        next = after_group(values, next, shape)?;
        left -= 1;
    }
    Ok(next)
}

fn count_in(values: &Values, at: usize, counted: Counted) -> Option<usize>
    ensures { MatchOption result (counts counted (value_or_default values.now at) ≡ false)
        (λ n. (counts counted (value_or_default values.now at) ≡ true) × (n ≡ count_at values.now at)) }
{
    match counted {
        Counted::Voids | Counted::Curves => optional_count(values, at),
        _ => item_count(values, at),
    }
}

// The count that is in a place.
fn count_of(values: &Values, at: usize, counted: Counted) -> Result<usize, Misfit>
    ensures { IsCounted values.now at counted result }
{
    let misfit = Misfit {
        place: at,
        due: Due::Count,
    };
    let Some(_value) = values.get(at) else {
        return Err(misfit);
    };
    match count_in(values, at, counted) {
        Some(count) => Ok(count),
        None => Err(misfit),
    }
}

// The place after a count and so many groups of values.
fn after_items(
    values: &Values,
    at: usize,
    counted: Counted,
    shape: &[ValueKind],
) -> Result<usize, Misfit>
    requires { (n : ℕ) → counted_layout counted n ≡ times n (map single shape.now) }
    ensures { GoesOn values.now at (count_of_items counted ∷ []) result }
{
    let count = count_of(values, at, counted)?;
    after_groups(values, at + 1, count, shape)
}

fn after_solid(values: &Values) -> Result<usize, Misfit>
    ensures { GoesOn values.now 0 (layout solid) result }
{
    let pair = [ValueKind::Pointer, ValueKind::Flag];
    let at = after_group(values, 0, &pair)?;
    after_items(values, at, Counted::Voids, &pair)
}

fn after_face(values: &Values) -> Result<usize, Misfit>
    ensures { GoesOn values.now 0 (layout face) result }
{
    let at = after_value(values, 0, ValueKind::Pointer)?;
    let count = count_of(values, at, Counted::Loops)?;
    let at = after_value(values, at + 1, ValueKind::Flag)?;
    after_groups(values, at, count, &[ValueKind::Pointer])
}

fn after_tuple(values: &Values, at: usize) -> Result<usize, Misfit>
    ensures { GoesOn values.now at (item_layout Tuples) result }
{
    let use_of = [
        ValueKind::Type,
        ValueKind::Pointer,
        ValueKind::Index,
        ValueKind::Flag,
    ];
    let at = after_group(values, at, &use_of)?;
    after_items(
        values,
        at,
        Counted::Curves,
        &[ValueKind::Flag, ValueKind::Pointer],
    )
}

fn after_loop(values: &Values) -> Result<usize, Misfit>
    ensures { GoesOn values.now 0 (layout «loop») result }
{
    let mut left = count_of(values, 0, Counted::Tuples)?;
    let mut at = 1;
    'tuples: while left > 0 {
        at = after_tuple(values, at)?;
        left -= 1;
    }
    Ok(at)
}

fn after_edges(values: &Values) -> Result<usize, Misfit>
    ensures { GoesOn values.now 0 (layout edges) result }
{
    let edge = [
        ValueKind::Pointer,
        ValueKind::Pointer,
        ValueKind::Index,
        ValueKind::Pointer,
        ValueKind::Index,
    ];
    after_items(values, 0, Counted::Edges, &edge)
}

// The place after the own values of the kind.
fn after_own(values: &Values, kind: EntityKind) -> Result<usize, Misfit>
    ensures { GoesOn values.now 0 (layout kind) result }
{
    let pair = [ValueKind::Pointer, ValueKind::Flag];
    let vertex = [
        ValueKind::Coordinate,
        ValueKind::Coordinate,
        ValueKind::Coordinate,
    ];
    match kind {
        EntityKind::Solid => after_solid(values),
        EntityKind::Shell => after_items(values, 0, Counted::Faces, &pair),
        EntityKind::Face => after_face(values),
        EntityKind::Loop => after_loop(values),
        EntityKind::EdgeList => after_edges(values),
        EntityKind::VertexList => after_items(values, 0, Counted::Vertices, &vertex),
    }
}

fn is_filler(value: &Value) -> bool
    ensures { result ≡ is_filler value.now }
{
    matches!(value, Value::Default | Value::Int(_))
}

// The first value from a place on that is neither an integer nor left out.
fn after_fillers(values: &Values, from: usize) -> Misfit
    ensures { result ≡ misfit_from from [] (drop from values.now) }
{
    let mut at = from;
    'values: while let Some(value) = values.get(at) {
        if !is_filler(value) {
            break;
        }
        at += 1;
    }
    Misfit {
        place: at,
        due: Due::CountOrPointer,
    }
}

/// The first value with which no record of the kind goes on; the place after all values where they begin a record, as
/// they do where they are one. It goes once over the values, and no further than the record's end, however large
/// a count is. No memory is taken.
pub fn first_misfit(values: &Values, kind: EntityKind) -> Misfit
    ensures is { result ≡ first_misfit kind values.now }
    ensures within { result.place ≤ length values.now }
{
    match after_own(values, kind) {
        Ok(end) => after_fillers(values, end),
        Err(misfit) => misfit,
    }
}
