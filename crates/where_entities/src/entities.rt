//! The paragraphs of entities.

ghost use Rattle.std.specs.Prelude.{◌≡◌, ◌++◌, OnOk, flat_map};
ghost use Rattle.where_entities.specs.Entities.{entities_text, entity_text, paragraphs, record_head, record_text, surface_named, surface_words};

use crate::described::described;
use crate::facts::put_facts;
use brep_lists::{EntityKind, int_at};
use entry_references::{names_entry, record_of};
use iges_base::{EntryNo, NoMemory, Out};
use iges_directory::Entry;
use iges_fields::Values;
use iges_params::File;
use std::alloc::Global;
use where_places::PlacedFile;
use where_text::{EntryNumbers, put_number, put_signed, put_type, put_type_word};

// The surface of a face, where its number names an entry.
fn put_surface_named(out: &mut Out, file: &File, surface: i64) -> Result<(), NoMemory>
    ensures { OnOk result (out.new ≡ out.old ++ surface_named file.now surface) }
{
    if !names_entry(file, surface) {
        return Ok(());
    }
    out.put(b" surface")?;
    put_signed(out, surface)?;
    put_type(out, file, surface)
}

// Of a face the surface that its record names first (IGES 5.3, 4.148).
#[tactic(auto, unfolding(crate::specs::Entities::surface_words))]
fn put_surface(out: &mut Out, file: &File, entry: &Entry, values: &Values) -> Result<(), NoMemory>
    ensures { OnOk result (out.new ≡ out.old ++ surface_words file.now (entry.now, values.now)) }
{
    if entry.kind != EntityKind::Face.type_number() {
        return Ok(());
    }
    put_surface_named(out, file, int_at(values, 0))
}

#[tactic(auto, unfolding(crate::specs::Entities::record_head))]
fn put_head(
    out: &mut Out,
    file: &File,
    no: EntryNo,
    entry: &Entry,
    values: &Values,
) -> Result<(), NoMemory>
    ensures { OnOk result (out.new ≡ out.old ++ record_head file.now no (entry.now, values.now)) }
{
    out.put(b"entity")?;
    put_number(out, u64::from(no.0))?;
    put_type_word(out, entry.kind)?;
    put_surface(out, file, entry, values)?;
    out.put(b"\n")
}

#[tactic(auto, unfolding(crate::specs::Entities::record_text))]
fn put_entity(
    alloc: Global,
    out: &mut Out,
    placed: &PlacedFile,
    no: EntryNo,
) -> Result<(), NoMemory>
    ensures { OnOk result (out.new ≡ out.old ++ entity_text placed.now no) }
{
    let Some(record) = record_of(&placed.file, no) else {
        return Ok(());
    };
    put_head(out, &placed.file, no, record.entry, record.values)?;
    placed.places.put_lines(out, no)?;
    put_facts(alloc, out, &placed.file, record.entry, record.values)
}

fn put_each(
    alloc: Global,
    out: &mut Out,
    placed: &PlacedFile,
    list: &EntryNumbers,
) -> Result<(), NoMemory>
    ensures { OnOk result (out.new ≡ out.old ++ flat_map (entity_text placed.now) list.now) }
{
    'entities: for no in list.as_slice() {
        put_entity(alloc, out, placed, *no)?;
    }
    Ok(())
}

fn put_paragraphs(
    alloc: Global,
    out: &mut Out,
    placed: &PlacedFile,
    list: &EntryNumbers,
) -> Result<(), NoMemory>
    ensures { OnOk result (out.new ≡ out.old ++ paragraphs placed.now list.now) }
{
    if list.len() == 0 {
        return Ok(());
    }
    out.put(b"\nentities")?;
    put_number(out, list.len() as u64)?;
    out.put(b"\n")?;
    put_each(alloc, out, placed, list)
}

/// Appends the part of a text that describes entities: of these numbers those that name an entry, by rising number, each
/// once. It is an empty line, a line with how many there are, and for each a line with its type, the lines of the file that it
/// takes, and its other facts; nothing where there are none.
#[tactic(auto, unfolding(crate::specs::Entities::entities_text))]
pub fn put_entities(
    alloc: Global,
    out: &mut Out,
    placed: &PlacedFile,
    numbers: &EntryNumbers,
) -> Result<(), NoMemory>
    ensures text { OnOk result (out.new ≡ out.old ++ entities_text placed.now numbers.now) }
{
    let list = described(alloc, &placed.file, numbers)?;
    put_paragraphs(alloc, out, placed, &list)
}
