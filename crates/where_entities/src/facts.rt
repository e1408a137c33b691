//! The facts of an entity.

ghost use Rattle.iges_directory.specs.Bounds.{IsBounded};
ghost use Rattle.iges_base.specs.declared.TheConstants.{FILE_LIMIT};
ghost use Rattle.std.specs.Prelude.{◌≡◌, ◌≤◌, ◌++◌, OnOk, length};
ghost use Rattle.where_entities.specs.Facts.{entity_facts, field_facts, label_facts, number_fact, record_facts};

use crate::colour::put_colour;
use crate::label::put_label;
use crate::names::put_names;
use entry_references::record_of;
use iges_base::{EntryNo, NoMemory, Out};
use iges_directory::Entry;
use iges_fields::Values;
use iges_params::File;
use std::alloc::Global;
use where_places::PlacedFile;
use where_text::put_signed;

#[tactic(auto, unfolding(crate::specs::Facts::number_fact))]
fn put_number_fact(out: &mut Out, word: &str, n: i64) -> Result<(), NoMemory>
    ensures { OnOk result (out.new ≡ out.old ++ number_fact word.now n) }
{
    if n == 0 {
        return Ok(());
    }
    out.put(b"  ")?;
    out.put(word.as_bytes())?;
    put_signed(out, n)?;
    out.put(b"\n")
}

// How an entity is shown and placed (IGES 5.3, 2.2.4.4.5, 2.2.4.4.13 and 2.2.4.4.7).
#[tactic(auto, unfolding(crate::specs::Facts::field_facts))]
fn put_fields(out: &mut Out, file: &File, entry: &Entry) -> Result<(), NoMemory>
    requires { IsBounded entry.now }
    ensures { OnOk result (out.new ≡ out.old ++ field_facts file.now entry.now) }
{
    put_number_fact(out, "level", entry.level)?;
    put_colour(out, file, entry)?;
    put_number_fact(out, "matrix", entry.matrix)
}

// What an entity is called (IGES 5.3, 2.2.4.4.18 and 2.2.4.4.19).
#[tactic(auto, unfolding(crate::specs::Facts::label_facts))]
fn put_labels(out: &mut Out, entry: &Entry) -> Result<(), NoMemory>
    ensures { OnOk result (out.new ≡ out.old ++ label_facts entry.now) }
{
    put_label(out, &entry.label)?;
    put_number_fact(out, "subscript", entry.subscript)
}

/// Appends the facts of an entry and its record: its level, colour, matrix, label, subscript and names, each where it is
/// there (IGES 5.3, 2.2.4.4).
#[tactic(auto, unfolding(crate::specs::Facts::record_facts))]
pub fn put_facts(
    alloc: Global,
    out: &mut Out,
    file: &File,
    entry: &Entry,
    values: &Values,
) -> Result<(), NoMemory>
    requires bounded { IsBounded entry.now }
    requires few { length values.now ≤ FILE_LIMIT }
    ensures { OnOk result (out.new ≡ out.old ++ record_facts file.now (entry.now, values.now)) }
{
    put_fields(out, file, entry)?;
    put_labels(out, entry)?;
    put_names(alloc, out, file, entry, values)
}

/// Appends the facts of the entity that a number names, each a line after two spaces: the lines of the file that it takes;
/// its level, colour, matrix, label, subscript and names, each where it is there (IGES 5.3, 2.2.4.4). Nothing where the
/// number names none.
pub fn put_entity_facts(
    alloc: Global,
    out: &mut Out,
    placed: &PlacedFile,
    no: EntryNo,
) -> Result<(), NoMemory>
    ensures text { OnOk result (out.new ≡ out.old ++ entity_facts placed.now no.0) }
{
    let Some(record) = record_of(&placed.file, no) else {
        return Ok(());
    };
    placed.places.put_lines(out, no)?;
    put_facts(alloc, out, &placed.file, record.entry, record.values)
}
