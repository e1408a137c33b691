//! What the numbers in records name.

ghost use Rattle.record_values.specs.BadValue.{entry_at, is_geometry, is_index, is_vertex_list, item_count};
ghost use Rattle.iges_base.specs.declared.TheConstants.{FILE_LIMIT};
ghost use Rattle.iges_params.specs.Limits.{FitsLimits};
ghost use Rattle.iges_params.specs.Named.{named};
ghost use Rattle.std.specs.Prelude.{◌≡◌, ◌≤◌, IfSome, MatchOption, None, length, option_copied, option_map, pos};

use brep_lists::{EntityKind, count_at};
use iges_directory::Entry;
use iges_fields::Values;
use iges_params::File;

/// The entry that a number in a record names (IGES 5.3, 2.2.4.4). None where it names none.
pub fn entry_named(file: &File, number: i64) -> Option<&Entry>
    ensures { option_copied result ≡ entry_at file.now number }
{
    match file.entry_no_of(number) {
        Some(no) => file.entry(no),
        None => None,
    }
}

/// The values of the record of the entry that a number names. None where it names none.
pub fn values_named(file: &File, number: i64) -> Option<&Values>
    ensures values { option_copied result ≡ option_map (λ e. e.1) (named file.now number) }
    ensures few { IfSome result (λ values. length values.now ≤ FILE_LIMIT) }
{
    match file.entry_no_of(number) {
        Some(no) => file.values(no),
        None => None,
    }
}

/// Whether the number names a surface or a curve: an entry of none of the six types of topology.
pub fn names_geometry(file: &File, number: i64) -> bool
    ensures { result ≡ is_geometry (entry_at file.now number) }
{
    match entry_named(file, number) {
        Some(entry) => EntityKind::of_type(entry.kind).is_none(),
        None => false,
    }
}

/// Whether the number names a vertex list, of a form that is due.
pub fn names_vertex_list(file: &File, number: i64) -> bool
    ensures { result ≡ is_vertex_list (entry_at file.now number) }
{
    match entry_named(file, number) {
        Some(entry) => entry.kind == 502 && (entry.form == 0 || entry.form == 1),
        None => false,
    }
}

/// How many items the list has that a number names (IGES 5.3, 4.145 and 4.146): the first value of its record, or 0
/// where that is no count.
pub fn item_count(file: &File, number: i64) -> usize
    ensures { result ≡ item_count file.now number }
{
    match values_named(file, number) {
        Some(values) => count_at(values, 0),
        None => 0,
    }
}

/// Whether the number is an index, from 1, in a list of so many items.
pub fn is_index(number: i64, count: usize) -> bool
    ensures { result ≡ is_index number count }
{
    number > 0 && number as u64 <= count as u64
}
