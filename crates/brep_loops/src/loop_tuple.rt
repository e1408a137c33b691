//! A tuple of a loop.

ghost use Rattle.std.specs.Prelude.{◌≡◌, length, slice_get, option_map, ℤ, Bool};

use brep_lists::{flag_at, int_at};
use iges_fields::Values;
use std::marker::Model;

/// A tuple of a loop: a use of an edge of an edge list or of a vertex of a vertex list, with its parameter curves
/// (IGES 5.3, 4.147). Each accessor takes constant time.
#[derive(Drop)]
pub struct LoopTuple<'a> {
    pub(crate) values: &'a Values,
    pub(crate) at: usize,
    pub(crate) curves: usize,
}

impl<'a> Model for LoopTuple<'a> {
    ghost use Rattle.std.specs.Prelude.{drop};
    ghost use Rattle.brep_lists.specs.Record.{LoopTuple as TupleItems, tuple_read};
    ghost use Rattle.brep_lists.specs.Views.{IsTuple};

    ghost Value = { TupleItems };

    ghost view = { λ tuple. tuple_read (drop tuple.at tuple.values.now) };

    ghost invariant = { λ tuple. IsTuple tuple.at tuple.values.now tuple.curves };
}

impl<'a> LoopTuple<'a> {
    /// Whether the tuple is a vertex; otherwise it is an edge (IGES 5.3, 4.147).
    pub fn is_vertex(&self) -> bool
        ensures { result ≡ self.now.is_vertex }
    {
        flag_at(self.values, self.at)
    }

    /// The entry of the vertex list or of the edge list (IGES 5.3, 4.147).
    pub fn list(&self) -> i64
        ensures { result ≡ self.now.list }
    {
        int_at(self.values, self.at + 1)
    }

    /// The index in the list, from 1 (IGES 5.3, 4.147).
    pub fn index(&self) -> i64
        ensures { result ≡ self.now.index }
    {
        int_at(self.values, self.at + 2)
    }

    /// Whether the loop goes along the edge (IGES 5.3, 4.147).
    pub fn flag(&self) -> bool
        ensures { result ≡ self.now.flag }
    {
        flag_at(self.values, self.at + 3)
    }

    /// How many parameter curves there are. A count that is left out, or missing at the record's end, is 0.
    pub fn curve_count(&self) -> usize
        ensures { result ≡ length self.now.curves }
    {
        self.curves
    }

    /// The entry of the i-th parameter curve, i from 0; None past the end (IGES 5.3, 4.147).
    pub fn curve(&self, i: usize) -> Option<i64>
        ensures { result ≡ option_map (λ (curve : Bool
            × ℤ). curve.1) (slice_get self.now.curves i) }
    {
        if i >= self.curves {
            return None;
        }
        Some(int_at(self.values, self.at + 5 + i * 2 + 1))
    }
}
