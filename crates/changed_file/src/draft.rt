//! What changes make of a file's records.

ghost use Rattle.changed_file.specs.Draft.{blank_draft, next_number, with_values};
ghost use Rattle.std.specs.Prelude.{◌≡◌, ◌+◌, ◌∷◌, ◌++◌, [], None, IfOk, OnOk, replicate};

use changed_records::{ChangeFault, FaceFlag};
use iges_base::{ENTRY_LIMIT, EntryNo, ItemList, NoMemory};
use iges_fields::Values;
use iges_params::File;
use std::alloc::Global;

/// A new entry, with the fields of an old one.
#[derive(Drop)]
pub struct NewEntry {
    /// The directory number of the entry whose fields it has.
    pub like: u32,
    pub values: Values,
}

/// New values of entries.
pub type Slots = ItemList<Option<Values>>;

/// What changes make of a file's records.
#[derive(Drop)]
pub struct Draft {
    /// For each entry its new values, if it has any.
    pub slots: ItemList<Option<Values>>,
    /// New entries behind all.
    pub added: ItemList<NewEntry>,
    /// New voids of the solid.
    pub voids: ItemList<FaceFlag>,
    /// The numbers of removed faces.
    pub faces: ItemList<i64>,
    /// The numbers of their loops.
    pub loops: ItemList<i64>,
}

/// No new values for so many entries.
pub fn blank_slots(alloc: Global, count: usize) -> Result<Slots, NoMemory>
    ensures { IfOk result (λ slots. slots ≡ replicate count None) }
{
    let mut slots = ItemList::with_room(alloc, count)?;
    'entries: for i in 0..count {
        slots.push(None)?;
    }
    Ok(slots)
}

/// Nothing is changed yet.
pub(crate) fn blank_draft(alloc: Global, file: &File) -> Result<Draft, NoMemory>
    ensures { IfOk result (λ draft. draft ≡ blank_draft file.now) }
{
    Ok(Draft {
        slots: blank_slots(alloc, file.entry_count())?,
        added: ItemList::new(alloc),
        voids: ItemList::new(alloc),
        faces: ItemList::new(alloc),
        loops: ItemList::new(alloc),
    })
}

/// The number of the next new entry.
pub(crate) fn next_number(file: &File, added: &ItemList<NewEntry>) -> Result<u32, ChangeFault>
    ensures { IfOk result (λ n. n ≡ next_number file.now added.now) }
{
    let place = file.entry_count().saturating_add(added.len());
    if place as u64 >= ENTRY_LIMIT {
        return Err(ChangeFault::Unfit);
    }
    Ok(2 * place as u32 + 1)
}

/// Gives an entry these values.
pub fn put_values(slots: &mut Slots, no: EntryNo, values: Values) -> Result<(), ChangeFault>
    ensures { OnOk result (slots.new ≡ with_values slots.old no.0 values) }
{
    let place = (no.0 / 2) as usize;
    if place >= slots.len() {
        return Err(ChangeFault::Unfit);
    }
    slots.set(place, Some(values));
    Ok(())
}

/// Puts a new entry behind all.
pub(crate) fn put_entry(
    added: &mut ItemList<NewEntry>,
    like: EntryNo,
    values: Values,
) -> Result<(), NoMemory>
    ensures { OnOk result (added.new ≡ added.old ++ record { like = like.0; values = values } ∷ []) }
{
    added.push(NewEntry {
        like: like.0,
        values,
    })
}
