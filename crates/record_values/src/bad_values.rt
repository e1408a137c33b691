//! The bad value at a failing place.

ghost use Rattle.record_values.specs.BadValue.{bad_curve, bad_value, by_rule, due_of, in_edge, in_edges, in_record, in_tuple, in_tuples, is_of_number, no_value, value_at};
ghost use Rattle.record_values.specs.Told.{told_in};
ghost use Rattle.brep_lists.specs.declared.entity_kind.EntityKind.TheVariants.{Loop as «loop», EdgeList as edges};
ghost use Rattle.iges_base.specs.declared.TheConstants.{FILE_LIMIT};
ghost use Rattle.std.specs.Prelude.{◌≡◌, ◌≤◌, ◌+◌, ◌*◌, ◌<◌, ◌^◌, IfSome, Some, length};

use crate::due::Due;
use crate::misfit::first_misfit;
use crate::named::{
    entry_named, is_index, item_count, names_geometry, names_vertex_list, values_named,
};
use brep_lists::{EdgeList, EdgeTuple, EntityKind};
use brep_loops::{LoopRecord, LoopTuple};
use iges_fields::Values;
use iges_params::File;
use solid_data::{Failing, Rule};

/// The bad value at a failing place, and what is due there.
#[derive(Clone, Copy)]
pub struct BadValue {
    /// The place of the value in the record of the failing entity, from 0 and without the type number. None where no
    /// value is bad, but the number that was asked for.
    pub place: Option<usize>,
    /// What may be there, where the rule speaks of that.
    pub due: Option<Due>,
}

fn no_value(due: Option<Due>) -> BadValue
    ensures { result ≡ no_value due }
{
    BadValue { place: None, due }
}

fn value_at(place: usize, due: Option<Due>) -> BadValue
    ensures { result ≡ value_at place due }
{
    BadValue {
        place: Some(place),
        due,
    }
}

// What is due where a number must name an entry of this kind.
fn due_of(rule: Rule, kind: EntityKind) -> Option<Due>
    ensures { result ≡ due_of rule kind }
{
    match rule {
        Rule::NoEntry | Rule::WrongKind => Some(Due::Record(kind)),
        Rule::BadGeometry => Some(Due::Geometry),
        _ => None,
    }
}

// The first curve of a tuple that isn't one, from 0.
fn bad_curve(file: &File, tuple: &LoopTuple<'_>) -> usize
    ensures is { result ≡ bad_curve file.now tuple.now }
    ensures within { result ≤ length tuple.now.curves }
{
    'curves: for i in 0..tuple.curve_count() {
        let curve = tuple.curve(i).unwrap();
        if !names_geometry(file, curve) {
            return i;
        }
    }
    0
}

// In the tuple that begins at a place.
fn in_tuple(file: &File, rule: Rule, at: usize, tuple: &LoopTuple<'_>) -> BadValue
    requires { at + 6 + 2 * length tuple.now.curves < 2 ^ 63 }
    ensures is { result ≡ in_tuple file.now rule at (Some tuple.now) }
    ensures few { IfSome result.place (λ place. place < 2 ^ 63) }
{
    match rule {
        Rule::BadGeometry => value_at(at + 6 + 2 * bad_curve(file, tuple), Some(Due::Geometry)),
        Rule::BadIndex => value_at(at + 2, None),
        _ if tuple.is_vertex() => value_at(at + 1, due_of(rule, EntityKind::VertexList)),
        _ => value_at(at + 1, due_of(rule, EntityKind::EdgeList)),
    }
}

// In the i-th tuple of a loop, from 0.
fn in_loop(file: &File, rule: Rule, i: u32, values: &Values) -> BadValue
    requires { length values.now ≤ FILE_LIMIT }
    ensures is { result ≡ in_tuples file.now rule i (told_in «loop» values.now) }
    ensures few { IfSome result.place (λ place. place < 2 ^ 63) }
{
    let Some(record) = LoopRecord::of(values) else {
        return no_value(None);
    };
    let mut at = 1;
    let mut left = i;
    'tuples: for tuple in record.tuples() {
        if left == 0 {
            return in_tuple(file, rule, at, &tuple);
        }
        left -= 1;
        at += 5 + 2 * tuple.curve_count();
    }
    no_value(None)
}

// In the edge that begins at a place.
fn in_edge(file: &File, rule: Rule, at: usize, edge: EdgeTuple) -> BadValue
    requires { at + 4 < 2 ^ 63 }
    ensures is { result ≡ in_edge file.now rule at (Some edge) }
    ensures few { IfSome result.place (λ place. place < 2 ^ 63) }
{
    let list = Some(Due::Record(EntityKind::VertexList));
    match rule {
        Rule::BadGeometry => value_at(at, Some(Due::Geometry)),
        Rule::NoEntry if entry_named(file, edge.start_list).is_some() => value_at(at + 3, list),
        Rule::NoEntry => value_at(at + 1, list),
        Rule::WrongKind if names_vertex_list(file, edge.start_list) => value_at(at + 3, list),
        Rule::WrongKind => value_at(at + 1, list),
        Rule::BadIndex if is_index(edge.start_index, item_count(file, edge.start_list)) => {
            value_at(at + 4, None)
        }
        Rule::BadIndex => value_at(at + 2, None),
        _ => no_value(None),
    }
}

// In the i-th edge of a list, from 0.
fn in_edges(file: &File, rule: Rule, i: u32, values: &Values) -> BadValue
    ensures is { result ≡ in_edges file.now rule i (told_in edges values.now) }
    ensures few { IfSome result.place (λ place. place < 2 ^ 63) }
{
    let Some(list) = EdgeList::of(values) else {
        return no_value(None);
    };
    match list.tuple(i as usize) {
        Some(edge) => in_edge(file, rule, 1 + 5 * i as usize, edge),
        None => no_value(None),
    }
}

// At an item of a record of this kind.
fn in_record(file: &File, rule: Rule, item: u32, values: &Values, kind: EntityKind) -> BadValue
    requires { length values.now ≤ FILE_LIMIT }
    ensures is { result ≡ in_record file.now rule item values.now kind }
    ensures few { IfSome result.place (λ place. place < 2 ^ 63) }
{
    let place = item as usize;
    match kind {
        EntityKind::Solid if place < 2 => value_at(0, due_of(rule, EntityKind::Shell)),
        EntityKind::Solid => value_at(2 * place - 1, due_of(rule, EntityKind::Shell)),
        EntityKind::Shell => value_at(
            (2 * place).saturating_sub(1),
            due_of(rule, EntityKind::Face),
        ),
        EntityKind::Face if place == 0 => value_at(0, due_of(rule, EntityKind::Loop)),
        EntityKind::Face => value_at(place + 2, due_of(rule, EntityKind::Loop)),
        EntityKind::Loop => in_loop(file, rule, item.saturating_sub(1), values),
        EntityKind::EdgeList => in_edges(file, rule, item.saturating_sub(1), values),
        EntityKind::VertexList => no_value(None),
    }
}

// At an item of a record of this kind, or at its first misfit.
fn by_rule(file: &File, failing: Failing, values: &Values, kind: EntityKind) -> BadValue
    requires { length values.now ≤ FILE_LIMIT }
    ensures is { result ≡ by_rule file.now failing.rule failing.place values.now kind }
    ensures few { IfSome result.place (λ place. place < 2 ^ 63) }
{
    if failing.rule != Rule::BadLayout {
        return in_record(file, failing.rule, failing.place, values, kind);
    }
    let misfit = first_misfit(values, kind);
    value_at(misfit.place, Some(misfit.due))
}

// Whether the number itself is judged, and no value of a record.
fn is_of_number(failing: Failing) -> bool
    ensures { result ≡ is_of_number failing }
{
    failing.place == 0 && matches!(failing.rule, Rule::NoEntry | Rule::WrongKind)
}

/// The bad value where a rule on the records of a solid fails, and what is due there: the pointer, the index or
/// the curve that the place names, and where a record doesn't fit its type the first value with which none goes on.
/// It goes once over the record of the failing entity. No memory is taken.
pub fn bad_value(file: &File, failing: Failing) -> BadValue
    ensures is { result ≡ bad_value file.now failing }
    ensures few { IfSome result.place (λ place. place < 2 ^ 63) }
{
    if is_of_number(failing) {
        return no_value(Some(Due::Record(EntityKind::Solid)));
    }
    let number = i64::from(failing.entity.0);
    let Some(entry) = entry_named(file, number) else {
        return no_value(None);
    };
    let Some(values) = values_named(file, number) else {
        return no_value(None);
    };
    match EntityKind::of_type(entry.kind) {
        Some(kind) => by_rule(file, failing, values, kind),
        None => no_value(None),
    }
}
