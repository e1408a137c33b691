//! A list of edges.

ghost use Rattle.std.specs.Prelude.{◌≡◌, IfSome, IfNone, length, slice_get};
ghost use Rattle.brep_lists.specs.Record.{Fits, Items, IsRecordOf, items_of};
ghost use Rattle.brep_lists.specs.declared.entity_kind.EntityKind.TheVariants.{EdgeList as edges};

use crate::groups::{Slot, counted, int_at, known_count};
use iges_fields::Values;
use std::marker::Model;

/// An edge of an edge list as its record spells it: the entry of its curve, and for its start and its end the entry of
/// a vertex list and an index in it, from 1 (IGES 5.3, 4.146). None of these numbers is judged.
#[derive(Clone, Copy)]
pub struct EdgeTuple {
    /// The directory number of the curve.
    pub curve: i64,
    /// The directory number of the vertex list that has the start.
    pub start_list: i64,
    /// The place of the start in that list, from 1.
    pub start_index: i64,
    /// The directory number of the vertex list that has the end.
    pub end_list: i64,
    /// The place of the end in that list, from 1.
    pub end_index: i64,
}

/// The record of an edge list: a count and so many edges of five values each (IGES 5.3, 4.146).
#[derive(Drop)]
pub struct EdgeList<'a> {
    values: &'a Values,
    count: usize,
}

impl<'a> Model for EdgeList<'a> {
    ghost use Rattle.brep_lists.specs.Record.{Items, items_of};
    ghost use Rattle.brep_lists.specs.declared.entity_kind.EntityKind.TheVariants.{EdgeList as edges};
    ghost use Rattle.brep_lists.specs.Views.{AreCounted};

    ghost Value = { Items edges };

    ghost view = { λ list. items_of edges list.values.now };

    ghost invariant = { λ list. AreCounted 0 1 5 list.count list.values.now };
}

impl<'a> EdgeList<'a> {
    /// The list that a record describes; None where the record doesn't fit (IGES 5.3, 4.146). The record is borrowed; no
    /// memory is taken.
    pub fn of(values: &'a Values) -> Option<EdgeList<'a>>
        ensures some { IfSome result (λ list. Fits edges values.now list) }
        ensures read { IfSome result (λ list. list ≡ items_of edges values.now) }
        ensures none { IfNone result ((items : Items edges) → ¬ Fits edges values.now items) }
    {
        let shape = [
            Slot::Whole,
            Slot::Whole,
            Slot::Whole,
            Slot::Whole,
            Slot::Whole,
        ];
        let Some(count) = counted(values, &shape) else {
            return None;
        };
        Some(EdgeList { values, count })
    }

    /// The list that a record that fits describes. Only the count is read.
    pub fn fitting(values: &'a Values) -> EdgeList<'a>
        requires { IsRecordOf edges values.now }
        ensures { result ≡ items_of edges values.now }
    {
        EdgeList {
            values,
            count: known_count(values, 0),
        }
    }

    /// How many edges there are, which is at least one (IGES 5.3, 4.146).
    pub fn len(&self) -> usize
        ensures { result ≡ length self.now }
    {
        self.count
    }

    /// The i-th edge, i from 0; None past the end (IGES 5.3, 4.146).
    pub fn tuple(&self, i: usize) -> Option<EdgeTuple>
        ensures { result ≡ slice_get self.now i }
    {
        if i >= self.count {
            return None;
        }
        let at = 1 + i * 5;
        Some(EdgeTuple {
            curve: int_at(self.values, at),
            start_list: int_at(self.values, at + 1),
            start_index: int_at(self.values, at + 2),
            end_list: int_at(self.values, at + 3),
            end_index: int_at(self.values, at + 4),
        })
    }
}
