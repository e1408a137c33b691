//! Marks of the entries that records name.

ghost use Rattle.brep_lists.specs.OwnValues.{is_record_of};
ghost use Rattle.brep_lists.specs.Record.{items_of};
ghost use Rattle.brep_lists.specs.declared.entity_kind.EntityKind.TheVariants.{Solid as solid, Shell as shell};
ghost use Rattle.std.specs.List.{list_any};
ghost use Rattle.std.specs.Ordering.{int_eq};
ghost use Rattle.std.specs.Prelude.{◌≡◌, ◌+◌, ◌*◌, ◌<◌, ◌||◌, ◌==◌, ◌∷◌, ℕ, Bool, pos, false, true, get_or, length, MatchOption};
ghost use Rattle.where_unjudged.specs.Named.{is_at, members_in};

use crate::member::Member;
use brep_loops::{ShellRecord, SolidRecord};
use iges_fields::Values;

// Marks the entry with a number, where it is the odd number of one.
fn mark_odd(marks: &mut [bool], number: u64)
    ensures { (k : ℕ) → k < length marks.old
        → get_or marks.new k false ≡ (get_or marks.old k false || (number == 2 * k + 1)) }
{
    let place = (number / 2) as usize;
    if number % 2 == 1 && place < marks.len() {
        marks[place] = true;
    }
}

// Marks the entry that a number names.
fn mark(marks: &mut [bool], number: i64)
    ensures { (k : ℕ) → k < length marks.old
        → get_or marks.new k false ≡ (get_or marks.old k false || int_eq number (pos (2 * k + 1))) }
{
    match u64::try_from(number) {
        Ok(number) => mark_odd(marks, number),
        Err(_) => {}
    }
}

// Marks the entry that is named beside a flag.
fn mark_named(marks: &mut [bool], named: (i64, bool))
    ensures { (k : ℕ) → k < length marks.old
        → get_or marks.new k false ≡ (get_or marks.old k false || is_at k named) }
{
    mark(marks, named.0);
}

fn mark_shells(marks: &mut [bool], of: &SolidRecord<'_>)
    ensures { (k : ℕ) → k < length marks.old → get_or marks.new k false
        ≡ (get_or marks.old k false || list_any (is_at k) (of.now.outer ∷ of.now.voids)) }
{
    'shells: for i in 0..of.len() {
        mark_named(marks, of.item(i).unwrap());
    }
}

fn mark_faces(marks: &mut [bool], of: &ShellRecord<'_>)
    ensures { (k : ℕ) → k < length marks.old → get_or marks.new k false
        ≡ (get_or marks.old k false || list_any (is_at k) of.now) }
{
    'faces: for i in 0..of.len() {
        mark_named(marks, of.item(i).unwrap());
    }
}

fn solid_of(values: &Values) -> Option<SolidRecord<'_>>
    ensures { MatchOption result (is_record_of solid values.now ≡ false)
        (λ shells. (is_record_of solid values.now ≡ true) × (shells ≡ items_of solid values.now)) }
{
    SolidRecord::of(values)
}

/// The shell that a record describes; None where the record doesn't fit (IGES 5.3, 4.149).
pub fn shell_of(values: &Values) -> Option<ShellRecord<'_>>
    ensures { MatchOption result (is_record_of shell values.now ≡ false)
        (λ faces. (is_record_of shell values.now ≡ true) × (faces ≡ items_of shell values.now)) }
{
    ShellRecord::of(values)
}

/// Marks the entries, by place, that a record names as members, where it fits its type.
pub fn mark_members(marks: &mut [bool], member: Member, values: &Values)
    ensures { (k : ℕ) → k < length marks.old → get_or marks.new k false
        ≡ (get_or marks.old k false || list_any (is_at k) (members_in member values.now)) }
{
    match member {
        Member::Shell => match solid_of(values) {
            Some(shells) => mark_shells(marks, &shells),
            None => {}
        },
        Member::Face => match shell_of(values) {
            Some(faces) => mark_faces(marks, &faces),
            None => {}
        },
    }
}
