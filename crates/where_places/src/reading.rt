//! The places of a file's entries, by its lines.

ghost use Rattle.iges_directory.specs.Entries.{AreEntries};
ghost use Rattle.iges_directory.specs.declared.entry.Placed.{Placed};
ghost use Rattle.iges_lines.specs.Sectioned.{AreSections};
ghost use Rattle.std.specs.Prelude.{◌≡◌, ◌+◌, ◌<◌, ◌^◌, IfOk, List, length, map};
ghost use Rattle.where_places.specs.Places.{places_of, record_lines_of};

use crate::fields::record_lines;
use crate::places::{Places, RecordLines};
use iges_base::NoMemory;
use iges_lines::Sections;
use std::alloc::Global;

fn all_record_lines(alloc: Global, lines: &Sections) -> Result<Vec<RecordLines>, NoMemory>
    ensures { (ps : List Placed) → AreEntries (length lines.now.param) lines.now.directory ps
        → IfOk result (λ records. records.items ≡ map record_lines_of ps) }
{
    let entries = lines.directory_count() / 2;
    let mut records = Vec::with_capacity(alloc, entries)?;
    'entries: for i in 0..entries {
        let first = lines.directory(2 * i).unwrap();
        let second = lines.directory(2 * i + 1).unwrap();
        records.push(record_lines(first, second))?;
    }
    Ok(records)
}

/// The places of the entries of a file in its lines. Of each entry two fields are read (IGES 5.3, 2.2.4.4); that the lines
/// are those of entries isn't looked at.
pub fn file_places(alloc: Global, lines: &Sections) -> Result<Places, NoMemory>
    ensures { (ps : List Placed) → AreEntries (length lines.now.param) lines.now.directory ps
        → IfOk result (λ places. places ≡ places_of lines.now ps) }
{
    let before_directory = lines.start_count() + lines.global_count();
    let before_records = before_directory + lines.directory_count();
    let records = all_record_lines(alloc, lines)?;
    Ok(Places::of(before_directory as u32, before_records as u32, records))
}
