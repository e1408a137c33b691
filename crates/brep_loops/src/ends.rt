//! Where the tuples of a loop end in its record.

ghost use Rattle.std.specs.Prelude.{◌≡◌, ◌+◌, ◌*◌, ◌^◌, ◌<◌, ◌∷◌, [], true, false, MatchOption, drop};
ghost use Rattle.brep_lists.specs.Record.{count_at};
ghost use Rattle.brep_lists.specs.Groups.{groups_pass, tuple_passes};
ghost use Rattle.brep_lists.specs.Views.{AreEnds};
ghost use Rattle.brep_lists.specs.declared.groups.Slot.TheVariants.{Flag, Whole};

use brep_lists::{Slot, after_group, after_groups, count_at, optional_count};
use iges_fields::Values;

/// How many parameter curves a tuple has, and the place after them.
#[derive(Clone, Copy)]
pub struct Ends {
    /// The count of curves; 0 where the record ends before it.
    pub curves: usize,
    /// The place of the first value after the tuple, from 0.
    pub end: usize,
}

// The place after the curves of a tuple. Where their count is missing there are none.
fn after_curves(values: &Values, count_place: usize, curves: usize) -> Option<usize>
    requires { curves ≡ count_at values.now count_place }
    ensures { MatchOption result (groups_pass (Flag ∷ Whole ∷ []) curves (drop (count_place + 1) values.now) ≡ false)
        (λ end. (groups_pass (Flag ∷ Whole ∷ []) curves (drop (count_place + 1) values.now) ≡ true)
        × (drop end values.now ≡ drop (count_place + (1 + curves * 2)) values.now) × (0 < curves → count_place + (1 + curves * 2) < 2 ^ 64)) }
{
    if count_place >= values.len() {
        return Some(count_place);
    }
    let shape = [Slot::Flag, Slot::Whole];
    after_groups(values, count_place + 1, curves, &shape)
}

/// The ends of the tuple that begins at a place, where its values may be in their places.
pub fn checked_ends(values: &Values, at: usize) -> Option<Ends>
    ensures { MatchOption result (tuple_passes (drop at values.now) ≡ false)
        (λ ends. (tuple_passes (drop at values.now) ≡ true) × AreEnds at values.now ends.curves ends.end) }
{
    let shape = [Slot::Flag, Slot::Whole, Slot::Whole, Slot::Flag];
    let Some(count_place) = after_group(values, at, &shape) else {
        return None;
    };
    let Some(curves) = optional_count(values, count_place) else {
        return None;
    };
    let Some(end) = after_curves(values, count_place, curves) else {
        return None;
    };
    Some(Ends { curves, end })
}

/// The ends of a tuple that was checked. It looks at no value but the count of curves.
pub fn ends_of_tuple(values: &Values, at: usize) -> Ends
    requires { tuple_passes (drop at values.now) ≡ true }
    ensures { AreEnds at values.now result.curves result.end }
{
    let len = values.len();
    let count_place = at + 4;
    if count_place >= len {
        return Ends {
            curves: 0,
            end: count_place,
        };
    }
    let curves = count_at(values, count_place);
    Ends {
        curves,
        end: count_place + 1 + curves * 2,
    }
}
