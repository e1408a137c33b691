//! A file read in four passes: lines, global, directory and records.

ghost use Rattle.iges_directory.specs.declared.entry.Placed.{Placed};
ghost use Rattle.iges_directory.specs.Entries.{has_record};
ghost use Rattle.iges_fields.specs.Delims.{are_permitted};
ghost use Rattle.iges_base.specs.declared.TheConstants.{FILE_LIMIT};
ghost use Rattle.iges_lines.specs.declared.fault.LineFault.{LineFault};
ghost use Rattle.iges_lines.specs.Gives.{Fails, Gives, IfBad};
ghost use Rattle.iges_lines.specs.Sectioned.{IsSectioned};
ghost use Rattle.iges_lines.specs.Lines.{columns};
ghost use Rattle.iges_params.specs.Contents.{Contents};
ghost use Rattle.iges_params.specs.Global.{have_kinds};
ghost use Rattle.iges_params.specs.IsFile.{IsFile};
ghost use Rattle.iges_params.specs.Begun.{IsBegunFile};
ghost use Rattle.iges_params.specs.FromLast.{AreRead, IsReadSomewhere};
ghost use Rattle.iges_params.specs.Reading.{read_entries, read_lines};
ghost use Rattle.iges_params.specs.Refusal.{Refusal};
ghost use Rattle.std.specs.Prelude.{◌≡◌, ◌+◌, ◌*◌, ◌≤◌, [], List, MatchResult, Some, IfOk, IsTrue, ℕ, length, map, slice_get};

use crate::file::File;
use crate::global::Global26;
use crate::global_pass::read_global;
use crate::record::{Params, lines_above};
use crate::records_read::{RecordsRead, read_and_give_back, read_records};
use iges_base::{FILE_LIMIT, NoMemory};
use iges_directory::{Directory, EntryRecords, directory};
use iges_lines::{PassFault, Sections, columns, sections};
use std::alloc::Global;

/// Why a file was not read: a reason from 1 to 17, or that memory ran out.
pub type ReadFileFault = PassFault;

// A file of the start lines and the global.
fn begun(alloc: Global, lines: &Sections, global: Global26) -> Result<File, NoMemory>
    requires { IsTrue (have_kinds global.values) }
    ensures { IfOk result (λ f. f ≡ record {
      start = map
          (columns 1 72) lines.now.start;
      global = global;
      entries = [];
    }) }
{
    let count = lines.start_count();
    let first = lines.start(0).unwrap();
    let mut file = File::new(alloc, columns(first, 1, 72), global)?;
    'lines: for i in 1..count {
        let line = lines.start(i).unwrap();
        file.push_start(columns(line, 1, 72))?;
    }
    Ok(file)
}

// The file with the entries and the values of their records, or the first fault among these.
fn filled(
    mut file: File,
    entries: Directory,
    mut records: RecordsRead,
) -> Result<File, ReadFileFault>
    requires permitted { IsTrue (are_permitted file.global.delims) }
    requires left { records.left ≡ 0 }
    requires read { IsReadSomewhere file entries records }
    ensures { (above : ℕ) (params : List (List ℕ))
        → AreRead above params file.global.delims entries records
        → Gives result (read_entries above params file entries) }
{
    if let Some(fault) = records.fault {
        return Err(PassFault::Bad(fault));
    }
    records.values.reverse();
    file.fill(EntryRecords::of(entries.into_placed(), records.values));
    Ok(file)
}

// What the passes before the records give: the file without its entries, and the directory.
fn begun_file(alloc: Global, lines: &Sections) -> Result<(File, Directory), ReadFileFault>
    ensures { MatchResult result (λ p. IsBegunFile lines.now p.0 p.1)
        (λ e. Fails e (read_lines lines.now)) }
{
    let mut text = Vec::new(alloc);
    let global = read_global(alloc, lines, &mut text)?;
    let entries = directory(alloc, lines)?;
    let file = begun(alloc, lines, global)?;
    Ok((file, entries))
}

// The file of the lines.
fn read_lines(alloc: Global, lines: &Sections) -> Result<File, ReadFileFault>
    ensures { Gives result (read_lines lines.now) }
{
    match begun_file(alloc, lines) {
        Ok((file, entries)) => {
            let params = Params {
                lines,
                above: lines_above(lines),
                delims: file.global().delims,
            };
            match read_records(alloc, &params, &entries) {
                Ok(records) => filled(file, entries, records),
                Err(_) => Err(PassFault::NoMemory),
            }
        }
        Err(fault) => Err(fault),
    }
}

// The same, of which the lines of the directory and of the records aren't kept after they were read.
fn read_taken(alloc: Global, mut lines: Sections) -> Result<File, ReadFileFault>
    ensures { Gives result (read_lines lines) }
{
    let above = lines_above(&lines);
    match begun_file(alloc, &lines) {
        Ok((file, entries)) => {
            lines.clear_directory();
            let delims = file.global().delims;
            match read_and_give_back(alloc, &mut lines, above, delims, &entries) {
                Ok(records) => filled(file, entries, records),
                Err(_) => Err(PassFault::NoMemory),
            }
        }
        Err(fault) => Err(fault),
    }
}

/// The file of the lines: global, directory and records are read in this order, and the first fault of the first pass
/// that fails is reported, with its line in the file, from 1. It answers what `read_file` answers of any bytes that
/// have these lines.
pub fn read_sections(alloc: Global, lines: &Sections) -> Result<File, ReadFileFault>
    ensures found { (bytes : List ℕ) → IsSectioned bytes lines.now → IfOk result (IsFile bytes) }
    ensures only { (bytes : List ℕ) (f : Contents) → IsSectioned bytes lines.now → IsFile bytes f
        → Gives result (Ok f) }
    ensures fault { (bytes : List ℕ) → IsSectioned bytes lines.now → IfBad result (Refusal bytes) }
    ensures only_fault { (bytes : List ℕ) (fault : LineFault) → IsSectioned bytes lines.now
        → Refusal bytes fault → Gives {Y = Contents} result (Err fault) }
{
    read_lines(alloc, lines)
}

/// The same, of lines that aren't needed any more: the memory of the lines of the directory and of its records is given
/// back as they are read.
pub fn take_sections(alloc: Global, lines: Sections) -> Result<File, ReadFileFault>
    ensures found { (bytes : List ℕ) → IsSectioned bytes lines → IfOk result (IsFile bytes) }
    ensures only { (bytes : List ℕ) (f : Contents) → IsSectioned bytes lines → IsFile bytes f
        → Gives result (Ok f) }
    ensures fault { (bytes : List ℕ) → IsSectioned bytes lines → IfBad result (Refusal bytes) }
    ensures only_fault { (bytes : List ℕ) (fault : LineFault) → IsSectioned bytes lines
        → Refusal bytes fault → Gives {Y = Contents} result (Err fault) }
{
    read_taken(alloc, lines)
}

/// The file that the bytes are (IGES 5.3, 2.2.4). Lines, global, directory and records are read in this order, and the
/// first fault of the first pass that fails is reported, with its line in the file, from 1. Parameter lines that no
/// entry claims aren't read, and a value may cross a line.
pub fn read_file(alloc: Global, bytes: &[u8]) -> Result<File, ReadFileFault>
    requires { length bytes.now ≤ FILE_LIMIT }
    ensures found { IfOk result (IsFile bytes.now) }
    ensures only { (f : Contents) → IsFile bytes.now f → Gives result (Ok f) }
    ensures fault { IfBad result (Refusal bytes.now) }
    ensures only_fault { (fault : LineFault) → Refusal bytes.now fault
        → Gives {Y = Contents} result (Err fault) }
{
    match sections(alloc, bytes) {
        Ok(lines) => take_sections(alloc, lines),
        Err(fault) => Err(fault),
    }
}
