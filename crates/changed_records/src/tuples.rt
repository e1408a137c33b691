//! The tuples of a loop, each by the place at which it begins.

ghost use Rattle.brep_lists.specs.Record.{count_at};
ghost use Rattle.changed_records.specs.Loops.{behind_tuples, cut_at, tuple_cuts, tuple_from, tuple_size};
ghost use Rattle.iges_base.specs.declared.TheConstants.{FILE_LIMIT};
ghost use Rattle.iges_fields.specs.declared.value.Value.{Value as AnyValue};
ghost use Rattle.std.specs.Prelude.{◌≡◌, ◌+◌, ◌<◌, ◌*◌, ◌≤◌, IfOk, List, OnOk, drop, length, map, take};

use crate::fault::ChangeFault;
use brep_lists::count_at;
use iges_base::{FILE_LIMIT, ItemList};
use iges_fields::Values;
use iges_params::push_copies;
use std::alloc::Global;

/// The places at which the tuples of a loop begin, and that of what comes after them.
#[derive(Drop)]
pub(crate) struct Cuts {
    pub(crate) places: ItemList<usize>,
    pub(crate) end: usize,
}

// How many values the tuple has that begins at a place. It errs where the record has no place for it.
fn tuple_size(values: &Values, at: usize) -> Result<usize, ChangeFault>
    requires { length values.now ≤ FILE_LIMIT }
    ensures is { IfOk result (λ size. size ≡ tuple_size (drop at values.now)) }
    ensures within { OnOk result (at < length values.now) }
    ensures few { IfOk result (λ size. size ≤ 5 + 2 * length values.now) }
{
    if at >= values.len() {
        return Err(ChangeFault::Unfit);
    }
    let curves = count_at(values, at + 4);
    if curves > values.len() {
        return Err(ChangeFault::Unfit);
    }
    Ok(5 + 2 * curves)
}

fn cuts_of(alloc: Global, values: &Values) -> Result<Cuts, ChangeFault>
    requires { length values.now ≤ FILE_LIMIT }
    ensures tuples { IfOk result (λ cuts. map (tuple_from values.now) cuts.places
        ≡ tuple_cuts (count_at values.now 0) (drop 1 values.now)) }
    ensures end { IfOk result (λ cuts. drop cuts.end values.now
        ≡ behind_tuples (count_at values.now 0) (drop 1 values.now)) }
{
    let mut places = ItemList::new(alloc);
    let mut end = 1;
    let mut left = count_at(values, 0);
    'tuples: while left > 0 {
        let size = tuple_size(values, end)?;
        places.push(end)?;
        end += size;
        left -= 1;
    }
    Ok(Cuts { places, end })
}

/// The tuples of a loop.
pub(crate) fn tuple_cuts(alloc: Global, values: &Values) -> Result<Cuts, ChangeFault>
    ensures few { OnOk result (length values.now ≤ FILE_LIMIT) }
    ensures tuples { IfOk result (λ cuts. map (tuple_from values.now) cuts.places
        ≡ tuple_cuts (count_at values.now 0) (drop 1 values.now)) }
    ensures end { IfOk result (λ cuts. drop cuts.end values.now
        ≡ behind_tuples (count_at values.now 0) (drop 1 values.now)) }
{
    if values.len() as u64 > FILE_LIMIT {
        return Err(ChangeFault::Unfit);
    }
    cuts_of(alloc, values)
}

// The place of the tuple that comes to be the i-th, where the loop is reversed or isn't.
fn place_at(places: &[usize], reversed: bool, i: usize) -> usize
    requires { i < length places.now }
    ensures { (vs : List AnyValue) → tuple_from vs result
        ≡ cut_at reversed (map (tuple_from vs) places.now) i }
{
    if reversed {
        places[places.len() - (i + 1)]
    } else {
        places[i]
    }
}

/// A copy of the tuple that comes to be the i-th, where the loop is reversed or isn't.
pub(crate) fn cut_at(
    alloc: Global,
    values: &Values,
    places: &[usize],
    reversed: bool,
    i: usize,
) -> Result<Values, ChangeFault>
    requires few { length values.now ≤ FILE_LIMIT }
    requires within { i < length places.now }
    ensures { IfOk result (λ cut. cut ≡ cut_at reversed (map (tuple_from values.now) places.now) i) }
{
    let place = place_at(places, reversed, i);
    let size = tuple_size(values, place)?;
    let mut cut = Values::with_room(alloc, size)?;
    push_copies(&mut cut, alloc, values, place, size)?;
    Ok(cut)
}
