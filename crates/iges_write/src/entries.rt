//! The directory and the records, written side by side.

ghost use Rattle.iges_base.specs.declared.TheConstants.{FILE_LIMIT};
ghost use Rattle.iges_directory.specs.declared.entry.Entry.{Entry as OneEntry};
ghost use Rattle.iges_fields.specs.declared.value.Value.{Value as OneValue};
ghost use Rattle.iges_params.specs.Made.{IsMade};
ghost use Rattle.iges_write.specs.Filling.{record_text_lines, used_lines};
ghost use Rattle.iges_write.specs.Sheet.{Both, StepsBoth, put_lines, record_tail};
ghost use Rattle.iges_write.specs.Text.{directory_lines, entry_lines, first_of, param_lines};
ghost use Rattle.iges_write.specs.Writable.{IsHeld};
ghost use Rattle.std.specs.List.{AllByRecursion};
ghost use Rattle.std.specs.Prelude.{◌≡◌, ◌+◌, ◌*◌, ◌<◌, [], ◌++◌, List, OnOk, Some, length, map, slice_get};

use crate::entry::put_entry;
use crate::fault::WriteFileFault;
use crate::page::Page;
use iges_directory::Entry;
use iges_fields::{Delimiters, Value};
use iges_params::File;

// The two lines of an entry with this number, and its record, which begins at the next line of the records.
fn put_used(
    page: &mut Page,
    params: &mut Page,
    number: u64,
    entry: &Entry,
    values: &[Value],
    delims: &Delimiters,
) -> Result<(), WriteFileFault>
    requires both { Both page.old params.old }
    ensures steps { StepsBoth result
        page.new (put_lines page.old (entry_lines entry.now params.old.number (length (used_lines delims.now entry.now values.now))))
        params.new (put_lines params.old (map (λ l. l ++ record_tail number) (used_lines delims.now entry.now values.now))) }
    ensures eight { OnOk result ((length entry.now.status ≡ 8) × (length entry.now.label ≡ 8)) }
{
    let first = params.number();
    params.put_record(number, &entry.kind, values, delims)?;
    put_entry(page, entry, first, params.number() - first)
}

// The two lines of the entry at a place, counted from 0, and its record. An entry of type 0 has none.
fn put_at(page: &mut Page, params: &mut Page, file: &File, i: usize) -> Result<(), WriteFileFault>
    requires both { Both page.old params.old }
    requires made { IsMade file.now }
    requires within { i < length file.now.entries }
    ensures steps { (e : OneEntry × List OneValue) → slice_get file.now.entries i ≡ Some e → StepsBoth result
        page.new (put_lines page.old (entry_lines e.0 (first_of e.0 params.old.number) (length (record_text_lines file.now.global.delims e))))
        params.new (put_lines params.old (map (λ l. l ++ record_tail (2 * i + 1)) (record_text_lines file.now.global.delims e))) }
    ensures held { (e : OneEntry × List OneValue) → slice_get file.now.entries i ≡ Some e
        → OnOk result (IsHeld e) }
{
    let entry = file.entry_at(i).unwrap();
    let delims = &file.global().delims;
    let no = file.entry_no(i);
    match file.values(no) {
        Some(values) => put_used(
            page,
            params,
            u64::from(no.0),
            entry,
            values.as_slice(),
            delims,
        ),
        None => put_entry(page, entry, 0, 0),
    }
}

/// Puts the two lines of each entry, and beside them the records, which come in the same order. One pass makes both, since an
/// entry's lines say where its record is.
pub fn put_entries(page: &mut Page, params: &mut Page, file: &File) -> Result<(), WriteFileFault>
    requires both { Both page.old params.old }
    ensures steps { StepsBoth result
        page.new (put_lines page.old (directory_lines params.old.number file.now.entries (map (record_text_lines file.now.global.delims) file.now.entries)))
        params.new (put_lines params.old (param_lines (map (record_text_lines file.now.global.delims) file.now.entries))) }
    ensures held { OnOk result (AllByRecursion IsHeld file.now.entries) }
{
    'entries: for i in 0..file.entry_count() {
        put_at(page, params, file, i)?;
    }
    Ok(())
}
