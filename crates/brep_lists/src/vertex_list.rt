//! A list of vertices.

ghost use Rattle.std.specs.Prelude.{◌≡◌, IfSome, IfNone, length};
ghost use Rattle.brep_lists.specs.Record.{Fits, Items, IsRecordOf, items_of};
ghost use Rattle.brep_lists.specs.declared.entity_kind.EntityKind.TheVariants.{VertexList as vertices};

use crate::groups::{Slot, counted, known_count};
use iges_fields::Values;
use std::marker::Model;

/// The record of a vertex list: a count and so many triples of coordinates (IGES 5.3, 4.145).
/// A coordinate is a real, an integer or left out.
#[derive(Drop)]
pub struct VertexList<'a> {
    values: &'a Values,
    count: usize,
}

impl<'a> Model for VertexList<'a> {
    ghost use Rattle.brep_lists.specs.Record.{Items, items_of};
    ghost use Rattle.brep_lists.specs.declared.entity_kind.EntityKind.TheVariants.{VertexList as vertices};
    ghost use Rattle.brep_lists.specs.Views.{AreCounted};

    ghost Value = { Items vertices };

    ghost view = { λ list. items_of vertices list.values.now };

    ghost invariant = { λ list. AreCounted 0 1 3 list.count list.values.now };
}

impl<'a> VertexList<'a> {
    /// The list that a record describes; None where the record doesn't fit (IGES 5.3, 4.145). The record is borrowed; no
    /// memory is taken.
    pub fn of(values: &'a Values) -> Option<VertexList<'a>>
        ensures some { IfSome result (λ list. Fits vertices values.now list) }
        ensures read { IfSome result (λ list. list ≡ items_of vertices values.now) }
        ensures none { IfNone result ((items : Items vertices) → ¬ Fits vertices values.now items) }
    {
        let shape = [Slot::Coordinate, Slot::Coordinate, Slot::Coordinate];
        let Some(count) = counted(values, &shape) else {
            return None;
        };
        Some(VertexList { values, count })
    }

    /// The list that a record that fits describes. Only the count is read.
    pub fn fitting(values: &'a Values) -> VertexList<'a>
        requires { IsRecordOf vertices values.now }
        ensures { result ≡ items_of vertices values.now }
    {
        VertexList {
            values,
            count: known_count(values, 0),
        }
    }

    /// How many vertices there are, which is at least one (IGES 5.3, 4.145).
    pub fn len(&self) -> usize
        ensures { result ≡ length self.now }
    {
        self.count
    }
}
