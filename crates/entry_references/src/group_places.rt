//! Places of pointers in groups of values.

ghost use Rattle.brep_lists.specs.Record.{tuple_due};
ghost use Rattle.entry_references.specs.PlacesDue.{group_places, places_due};
ghost use Rattle.std.specs.List.{list_all};
ghost use Rattle.std.specs.Prelude.{◌≡◌, ◌+◌, ◌*◌, ◌<◌, ◌^◌, ◌++◌, IfOk, IsTrue, OnOk, flat_map, length, map, nat_lt};

use brep_loops::{LoopRecord, LoopTuple};
use iges_base::{ItemList, NoMemory};

// Puts the places of a group's pointers, which are given from the group's first value on, from 0.
fn push_group(
    places: &mut ItemList<usize>,
    first: usize,
    pointers: &[usize],
) -> Result<(), NoMemory>
    requires { IsTrue (list_all (λ k. nat_lt (first + k) (2 ^ 64)) pointers.now) }
    ensures { OnOk result (places.new ≡ places.old ++ map (λ k. first + k) pointers.now) }
{
    'pointers: for pointer in pointers {
        places.push(first + *pointer)?;
    }
    Ok(())
}

/// Puts the places, from 1, of pointers in so many groups of a size that begin at a place. In each group the
/// pointers have these places, from 0.
pub fn push_groups(
    places: &mut ItemList<usize>,
    first: usize,
    groups: usize,
    size: usize,
    pointers: &[usize],
) -> Result<(), NoMemory>
    requires few { first + groups * size < 2 ^ 64 }
    requires within { IsTrue (list_all (λ k. nat_lt k size) pointers.now) }
    ensures { OnOk result (places.new ≡ places.old ++ group_places first groups size pointers.now) }
{
    let mut at = first;
    let mut left = groups;
    'groups: while left > 0 {
        push_group(places, at, pointers)?;
        at += size;
        left -= 1;
    }
    Ok(())
}

// Puts the places of pointers in a tuple of a loop that begins at a place, and gives the place after it.
fn push_tuple(
    places: &mut ItemList<usize>,
    first: usize,
    tuple: &LoopTuple<'_>,
) -> Result<usize, NoMemory>
    requires { first + length (tuple_due tuple.now) < 2 ^ 64 }
    ensures places { OnOk result (places.new
        ≡ places.old ++ places_due first (tuple_due tuple.now)) }
    ensures end { IfOk result (λ end. end ≡ first + length (tuple_due tuple.now)) }
{
    let curves = tuple.curve_count();
    places.push(first + 1)?;
    push_groups(places, first + 5, curves, 2, &[1])?;
    Ok(first + 5 + curves * 2)
}

/// Puts the places, from 1, of pointers in the tuples of a loop that begin at a place, and gives the place after
/// them.
pub fn push_tuples(
    places: &mut ItemList<usize>,
    first: usize,
    listed: &LoopRecord<'_>,
) -> Result<usize, NoMemory>
    requires { first + length (flat_map tuple_due listed.now) < 2 ^ 64 }
    ensures places { OnOk result (places.new
        ≡ places.old ++ places_due first (flat_map tuple_due listed.now)) }
    ensures end { IfOk result (λ end. end ≡ first + length (flat_map tuple_due listed.now)) }
{
    let mut at = first;
    'tuples: for tuple in listed.tuples() {
        at = push_tuple(places, at, &tuple)?;
    }
    Ok(at)
}
