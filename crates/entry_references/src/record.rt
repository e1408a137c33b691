//! Entries with the values of their records.

ghost use Rattle.entry_references.specs.EntrySets.{IsWithin};
ghost use Rattle.iges_directory.specs.Bounds.{IsBounded};
ghost use Rattle.iges_base.specs.declared.TheConstants.{FILE_LIMIT};
ghost use Rattle.iges_params.specs.Named.{named};
ghost use Rattle.std.specs.Prelude.{◌≡◌, ◌≤◌, None, Some, MatchOption, length, pos};

use iges_base::EntryNo;
use iges_directory::Entry;
use iges_fields::Values;
use iges_params::File;

/// An entry and the values of its record.
#[derive(Clone, Copy)]
pub struct Record<'a> {
    pub entry: &'a Entry,
    pub values: &'a Values,
}

/// The entry that a number names, with its values; None where it names none.
pub fn record_of(file: &File, no: EntryNo) -> Option<Record<'_>>
    ensures { MatchOption result (named file.now (pos no.0) ≡ None)
        (λ r. (named file.now (pos no.0) ≡ Some (r.entry.now, r.values.now)) × IsBounded r.entry.now × (length r.values.now ≤ FILE_LIMIT) × IsWithin (length file.now.entries) no.0) }
{
    if (no.0 / 2) as usize >= file.entry_count() {
        return None;
    }
    match (file.entry(no), file.values(no)) {
        (Some(entry), Some(values)) => Some(Record { entry, values }),
        _ => None,
    }
}
