//! How many bytes the records of a file take about.

use iges_fields::Value;
use iges_params::File;

/// The bytes of a line, LF among them.
pub(crate) const LINE_SIZE: usize = 81;

/// How many columns of a record's line hold values.
const COLUMNS: usize = 64;

fn value_room(value: &Value) -> usize {
    let size = match value {
        Value::Default => 0,
        Value::Int(_) => 5,
        Value::Real(word) => word.as_slice().len(),
        Value::Text(text) => text.as_slice().len(),
    };
    size.saturating_add(1)
}

fn values_room(values: &[Value]) -> usize {
    let mut room: usize = 0;
    'values: for i in 0..values.len() {
        room = room.saturating_add(value_room(&values[i]));
    }
    room
}

fn lines_room(bytes: usize) -> usize {
    (bytes / COLUMNS + 1).saturating_mul(LINE_SIZE)
}

/// About how many bytes the lines of all records of a file take: each value as many as it has, an integer five, and one for the
/// delimiter behind it.
pub fn records_room(file: &File) -> usize {
    let mut room: usize = 0;
    'entries: for i in 0..file.entry_count() {
        if let Some(values) = file.values(file.entry_no(i)) {
            room = room.saturating_add(lines_room(values_room(values.as_slice())));
        }
    }
    room
}
