//! Entries by their places.

ghost use Rattle.iges_directory.specs.Bounds.{IsBounded};
ghost use Rattle.iges_base.specs.declared.TheConstants.{ENTRY_LIMIT, FILE_LIMIT};
ghost use Rattle.list_compact.specs.Marking.{HasType};
ghost use Rattle.std.specs.List.{AllByRecursion};
ghost use Rattle.std.specs.Prelude.{◌≡◌, ◌<◌, ◌≤◌, Some, length, slice_get};

use entry_references::{Record, record_of};
use iges_params::File;

/// The entry in a place of the directory, from 0, of a file in which each entry has a type.
pub fn record_at(file: &File, i: usize) -> Record<'_>
    requires within { i < length file.now.entries }
    requires few { i < ENTRY_LIMIT }
    requires typed { AllByRecursion HasType file.now.entries }
    ensures is { slice_get file.now.entries i ≡ Some (result.entry.now, result.values.now) }
    ensures bounded { IsBounded result.entry.now }
    ensures short { length result.values.now ≤ FILE_LIMIT }
{
    record_of(file, file.entry_no(i)).unwrap()
}
