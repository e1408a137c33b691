//! The tuples of a loop, one after the other.

ghost use Rattle.std.specs.Iterator.{YieldsFirst, item_count};

use crate::ends::ends_of_tuple;
use crate::loop_tuple::LoopTuple;
use iges_fields::Values;
use std::marker::Model;

/// The tuples of a loop that are left (IGES 5.3, 4.147). A tuple is taken in constant time.
#[derive(Drop)]
pub struct LoopTuples<'a> {
    pub(crate) values: &'a Values,
    pub(crate) at: usize,
    pub(crate) left: usize,
}

impl<'a> Model for LoopTuples<'a> {
    ghost use Rattle.std.specs.Prelude.{◌≡◌, List, drop, true};
    ghost use Rattle.brep_lists.specs.Record.{LoopTuple as TupleItems, tuples_read};
    ghost use Rattle.brep_lists.specs.Groups.{tuples_pass};

    ghost Value = { List TupleItems };

    ghost view = { λ tuples. tuples_read tuples.left (drop tuples.at tuples.values.now) };

    ghost invariant = { λ tuples. tuples_pass tuples.left (drop tuples.at tuples.values.now) ≡ true };
}

impl<'a> Iterator for LoopTuples<'a> {
    type Item = LoopTuple<'a>;

    ghost next_gives = { YieldsFirst (λ tuples. tuples) };

    ghost remaining = { item_count (λ tuples. tuples) };

    fn next(&mut self) -> Option<LoopTuple<'a>> {
        if self.left == 0 {
            return None;
        }
        let ends = ends_of_tuple(self.values, self.at);
        let tuple = LoopTuple {
            values: self.values,
            at: self.at,
            curves: ends.curves,
        };
        self.at = ends.end;
        self.left -= 1;
        Some(tuple)
    }
}
