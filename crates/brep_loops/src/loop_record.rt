//! The record of a loop.

ghost use Rattle.std.specs.Prelude.{◌≡◌, ◌<◌, ◌^◌, true, false, IfSome, IfNone, MatchOption, length, drop};
ghost use Rattle.brep_lists.specs.Record.{Fits, Items, IsRecordOf, items_of, count_at};
ghost use Rattle.brep_lists.specs.declared.entity_kind.EntityKind.TheVariants.{Loop as «loop»};
ghost use Rattle.brep_lists.specs.Groups.{tuples_pass, is_loop};

use crate::ends::checked_ends;
use crate::loop_tuples::LoopTuples;
use brep_lists::{are_fillers, item_count, known_count};
use iges_fields::Values;
use std::marker::Model;

/// The record of a loop: a count and so many tuples, each a use of an edge or of a vertex (IGES 5.3, 4.147).
#[derive(Drop)]
pub struct LoopRecord<'a> {
    values: &'a Values,
    count: usize,
}

impl<'a> Model for LoopRecord<'a> {
    ghost use Rattle.brep_lists.specs.Record.{Items, items_of};
    ghost use Rattle.brep_lists.specs.declared.entity_kind.EntityKind.TheVariants.{Loop as «loop»};
    ghost use Rattle.brep_lists.specs.Views.{IsLoop};

    ghost Value = { Items «loop» };

    ghost view = { λ record_of. items_of «loop» record_of.values.now };

    ghost invariant = { λ record_of. IsLoop record_of.values.now record_of.count };
}

// The count of tuples of a record that describes a loop.
fn tuple_count(values: &Values) -> Option<usize>
    ensures { MatchOption result (is_loop values.now ≡ false)
        (λ n. (is_loop values.now ≡ true) × (n ≡ count_at values.now 0) × (tuples_pass n (drop 1 values.now) ≡ true)) }
{
    let Some(count) = item_count(values, 0) else {
        return None;
    };
    let mut at = 1;
    let mut left = count;
    'tuples: while left > 0 {
        let Some(ends) = checked_ends(values, at) else {
            return None;
        };
        at = ends.end;
        left -= 1;
    }
    if !are_fillers(values, at) {
        return None;
    }
    Some(count)
}

impl<'a> LoopRecord<'a> {
    /// The loop that a record describes; None where the record doesn't fit (IGES 5.3, 4.147). The record is borrowed; no
    /// memory is taken. It goes once over the values, and no further than the record's end, however large the count is.
    pub fn of(values: &'a Values) -> Option<LoopRecord<'a>>
        ensures some { IfSome result (λ tuples. Fits «loop» values.now tuples) }
        ensures read { IfSome result (λ tuples. tuples ≡ items_of «loop» values.now) }
        ensures none { IfNone result ((items : Items «loop») → ¬ Fits «loop» values.now items) }
    {
        let Some(count) = tuple_count(values) else {
            return None;
        };
        Some(LoopRecord { values, count })
    }

    /// The loop that a record that fits describes. Only the count is read.
    pub fn fitting(values: &'a Values) -> LoopRecord<'a>
        requires { IsRecordOf «loop» values.now }
        ensures { result ≡ items_of «loop» values.now }
    {
        LoopRecord {
            values,
            count: known_count(values, 0),
        }
    }

    /// The tuples, in order (IGES 5.3, 4.147).
    pub fn tuples(&self) -> LoopTuples<'a>
        ensures is { result ≡ self.now }
        ensures few { length result < 2 ^ 64 }
    {
        LoopTuples {
            values: self.values,
            at: 1,
            left: self.count,
        }
    }
}
