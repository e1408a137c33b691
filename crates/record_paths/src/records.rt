//! The records that numbers name.

ghost use Rattle.std.specs.Prelude.{◌≡◌, pos, IfSome, IfNone, MatchOption};
ghost use Rattle.brep_lists.specs.declared.entity_kind.EntityKind.TheVariants.{Solid as solid, Shell as shell, Face as face, Loop as «loop»};
ghost use Rattle.brep_walk.specs.Places.{Names, HasRecordOf, told};
ghost use Rattle.iges_params.specs.Named.{values_of};

use brep_loops::{FaceRecord, LoopRecord, ShellRecord, SolidRecord};
use iges_base::EntryNo;
use iges_fields::Values;
use iges_params::File;

/// The entry that a number names, and the values of its record.
pub fn record_of(file: &File, number: i64) -> Option<(EntryNo, &Values)>
    ensures some { IfSome result (λ r. (number ≡ pos r.0.0)
        × (r.1.now ≡ values_of file.now number)) }
    ensures none { IfNone result (¬ Names file.now number) }
{
    let Some(no) = file.entry_no_of(number) else {
        return None;
    };
    let Some(values) = file.values(no) else {
        return None;
    };
    Some((no, values))
}

/// The solid that a number names, whatever its entry's type.
pub fn solid_record(file: &File, number: i64) -> Option<(EntryNo, SolidRecord<'_>)>
    ensures some { IfSome result (λ r. (number ≡ pos r.0.0) × (r.1 ≡ told solid file.now number)) }
    ensures none { IfNone result (¬ HasRecordOf solid file.now number) }
{
    let Some((no, values)) = record_of(file, number) else {
        return None;
    };
    let Some(record) = SolidRecord::of(values) else {
        return None;
    };
    Some((no, record))
}

/// The shell that a number names, whatever its entry's type.
pub fn shell_record(file: &File, number: i64) -> Option<(EntryNo, ShellRecord<'_>)>
    ensures some { IfSome result (λ r. (number ≡ pos r.0.0) × (r.1 ≡ told shell file.now number)) }
    ensures none { IfNone result (¬ HasRecordOf shell file.now number) }
{
    let Some((no, values)) = record_of(file, number) else {
        return None;
    };
    let Some(record) = ShellRecord::of(values) else {
        return None;
    };
    Some((no, record))
}

/// The face that a number names, whatever its entry's type.
pub fn face_record(file: &File, number: i64) -> Option<(EntryNo, FaceRecord<'_>)>
    ensures some { IfSome result (λ r. (number ≡ pos r.0.0) × (r.1 ≡ told face file.now number)) }
    ensures none { IfNone result (¬ HasRecordOf face file.now number) }
{
    let Some((no, values)) = record_of(file, number) else {
        return None;
    };
    let Some(record) = FaceRecord::of(values) else {
        return None;
    };
    Some((no, record))
}

/// The loop that a number names, whatever its entry's type.
pub fn loop_record(file: &File, number: i64) -> Option<(EntryNo, LoopRecord<'_>)>
    ensures some { IfSome result (λ r. (number ≡ pos r.0.0) × (r.1 ≡ told «loop» file.now number)) }
    ensures none { IfNone result (¬ HasRecordOf «loop» file.now number) }
{
    let Some((no, values)) = record_of(file, number) else {
        return None;
    };
    let Some(record) = LoopRecord::of(values) else {
        return None;
    };
    Some((no, record))
}
