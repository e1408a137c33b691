//! Values of records.

ghost use Rattle.brep_lists.specs.Record.{int_of, value_or_default};
ghost use Rattle.equal_values.specs.Keys.{key_of};
ghost use Rattle.iges_params.specs.Named.{named, values_of};
ghost use Rattle.std.specs.Prelude.{◌≡◌, ◌++◌, OnOk, option_copied, option_map, unwrap_or};

use iges_base::NoMemory;
use iges_fields::{Value, Values};
use iges_params::File;
use std::alloc::Global;
use vertex_places::put_value;

/// The values of the entry that a number names.
pub fn values_at(file: &File, number: i64) -> Option<&Values>
    ensures { option_copied result ≡ option_map (λ e. e.1) (named file.now number) }
{
    match file.entry_no_of(number) {
        Some(no) => file.values(no),
        None => None,
    }
}

/// The integer that a value is, or 0.
pub fn int_of(value: Option<&Value>) -> i64
    ensures { result ≡ int_of (unwrap_or (option_copied value.entry) Value.Default) }
{
    match value {
        Some(Value::Int(n)) => *n,
        _ => 0,
    }
}

/// Appends the key of a value of an entry, in a place from 0.
pub fn put_at(
    alloc: Global,
    key: &mut Vec<u8>,
    file: &File,
    number: i64,
    place: usize,
) -> Result<(), NoMemory>
    ensures { OnOk result (key.new.items
        ≡ key.old.items ++ key_of (value_or_default (values_of file.now number) place)) }
{
    match values_at(file, number) {
        Some(values) => put_value(alloc, key, values.get(place)),
        None => put_value(alloc, key, None),
    }
}
