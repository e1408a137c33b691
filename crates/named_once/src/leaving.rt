//! The file in which a solid names nothing twice.

ghost use Rattle.changed_file.specs.Folds.{fold_items};
ghost use Rattle.iges_base.specs.declared.TheConstants.{FILE_LIMIT};
ghost use Rattle.named_once.specs.Once.{blank_draft, dropped, once, once_draft, with_outer, with_places, with_record, with_shell, with_shells, with_solid};
ghost use Rattle.std.specs.Prelude.{◌≡◌, ◌≤◌, [], IfOk, OnOk, length, pos, replicate, false};

use crate::copying::{kept_count, kept_numbers, once_values};
use crate::marks::mark;
use crate::numbers::numbers_told;
use crate::places::{Dropped, Listed, Seen, put_places};
use brep_lists::int_at;
use changed_file::{ChangeFault, Slots, blank_slots, put_values, with_slots};
use entry_references::record_of;
use iges_base::{EntryNo, ItemList, NoMemory};
use iges_fields::Values;
use iges_params::File;
use std::alloc::Global;

/// What is known of a solid's places, and the new values of its records.
#[derive(Drop)]
pub struct Draft {
    pub seen: Seen,
    pub slots: Slots,
}

/// The file in which a solid names nothing twice, and what was left out.
#[derive(Drop)]
pub struct NamedOnce {
    pub file: File,
    pub dropped: ItemList<Dropped>,
}

fn blank_marks(alloc: Global, count: usize) -> Result<ItemList<bool>, NoMemory>
    ensures { IfOk result (λ marks. marks ≡ replicate count false) }
{
    let mut marks = ItemList::with_room(alloc, count)?;
    'entries: for i in 0..count {
        marks.push(false)?;
    }
    Ok(marks)
}

fn blank_draft(alloc: Global, file: &File) -> Result<Draft, NoMemory>
    ensures { IfOk result (λ draft. draft ≡ blank_draft file.now) }
{
    Ok(Draft {
        seen: Seen {
            marks: blank_marks(alloc, file.entry_count())?,
            stay: ItemList::new(alloc),
            dropped: ItemList::new(alloc),
        },
        slots: blank_slots(alloc, file.entry_count())?,
    })
}

// The record gets new values, if a place of it is left out. They are refused only where memory runs out: each record has an entry.
fn put_record(
    draft: &mut Draft,
    alloc: Global,
    listed: Listed,
    values: &Values,
    place: usize,
) -> Result<(), NoMemory>
    ensures { OnOk result (draft.new ≡ with_record listed values.now place draft.old draft.old.seen) }
{
    let stay = draft.seen.stay.as_slice();
    if kept_count(stay)? as usize == stay.len() {
        return Ok(());
    }
    let new = once_values(alloc, values, place, stay)?;
    match put_values(&mut draft.slots, listed.entity, new) {
        Ok(()) => Ok(()),
        Err(_) => Err(NoMemory),
    }
}

// Goes through the places of a record behind the count at this one.
#[tactic(auto, unfolding(crate::specs::Once::with_places))]
fn put_listed(
    draft: &mut Draft,
    alloc: Global,
    file: &File,
    listed: Listed,
    values: &Values,
    place: usize,
) -> Result<(), NoMemory>
    requires few { length values.now ≤ FILE_LIMIT }
    requires near { place ≤ 2 }
    ensures { OnOk result (draft.new ≡ with_places file.now listed values.now place draft.old) }
{
    draft.seen.stay = ItemList::new(alloc);
    let numbers = numbers_told(alloc, values, place)?;
    put_places(&mut draft.seen, alloc, file, listed, numbers.as_slice())?;
    put_record(draft, alloc, listed, values, place)
}

fn put_shell(draft: &mut Draft, alloc: Global, file: &File, number: i64) -> Result<(), NoMemory>
    ensures { OnOk result (draft.new ≡ with_shell file.now draft.old number) }
{
    let Some(no) = file.entry_no_of(number) else {
        return Ok(());
    };
    let Some(record) = record_of(file, no) else {
        return Ok(());
    };
    let listed = Listed {
        entity: no,
        first: 1,
    };
    put_listed(draft, alloc, file, listed, record.values, 0)
}

fn put_shells(
    draft: &mut Draft,
    alloc: Global,
    file: &File,
    numbers: &[i64],
) -> Result<(), NoMemory>
    ensures { OnOk result (draft.new ≡ fold_items (with_shell file.now) draft.old numbers.now) }
{
    'shells: for i in 0..numbers.len() {
        put_shell(draft, alloc, file, numbers[i])?;
    }
    Ok(())
}

// Goes through the faces of the outer shell, and of each void that stays.
#[tactic(auto, unfolding(crate::specs::Once::with_shells))]
fn put_faces(draft: &mut Draft, alloc: Global, file: &File, values: &Values) -> Result<(), NoMemory>
    requires { length values.now ≤ FILE_LIMIT }
    ensures { OnOk result (draft.new ≡ with_shells file.now values.now draft.old) }
{
    let numbers = numbers_told(alloc, values, 2)?;
    let stay = draft.seen.stay.as_slice();
    let voids = kept_numbers(alloc, numbers.as_slice(), stay)?;
    put_shell(draft, alloc, file, int_at(values, 0))?;
    put_shells(draft, alloc, file, voids.as_slice())
}

fn put_outer(draft: &mut Draft, file: &File, number: i64)
    ensures { draft.new ≡ with_outer file.now number draft.old }
{
    mark(file, &mut draft.seen.marks, number);
}

fn put_solid(
    draft: &mut Draft,
    alloc: Global,
    file: &File,
    no: EntryNo,
    values: &Values,
) -> Result<(), NoMemory>
    requires { length values.now ≤ FILE_LIMIT }
    ensures { OnOk result (draft.new ≡ with_solid file.now no.0 values.now draft.old) }
{
    let listed = Listed {
        entity: no,
        first: 2,
    };
    put_outer(draft, file, int_at(values, 0));
    put_listed(draft, alloc, file, listed, values, 2)?;
    put_faces(draft, alloc, file, values)
}

#[tactic(auto, unfolding(crate::specs::Once::once_draft))]
fn once_draft(alloc: Global, file: &File, no: EntryNo) -> Result<Draft, NoMemory>
    ensures { IfOk result (λ draft. draft ≡ once_draft file.now no.0) }
{
    let mut draft = blank_draft(alloc, file)?;
    let Some(record) = record_of(file, no) else {
        return Ok(draft);
    };
    put_solid(&mut draft, alloc, file, no, record.values)?;
    Ok(draft)
}

/// The file in which a solid names each shell, each face and each loop once: each later naming of a shell or a face is left out,
/// and each face of which a face before it has a loop. Whether its records are right then is another matter. It errs only where
/// memory runs out: the file has no more values than before.
#[tactic(auto, unfolding(crate::specs::Once::once, crate::specs::Once::dropped))]
pub fn once(alloc: Global, file: &File, no: EntryNo) -> Result<NamedOnce, NoMemory>
    ensures file { IfOk result (λ made. made.file ≡ once file.now no.0) }
    ensures dropped { IfOk result (λ made. made.dropped ≡ dropped file.now no.0) }
{
    let mut draft = once_draft(alloc, file, no)?;
    match with_slots(alloc, file, &mut draft.slots) {
        Ok(file) => Ok(NamedOnce {
            file,
            dropped: draft.seen.dropped,
        }),
        Err(_) => Err(NoMemory),
    }
}
