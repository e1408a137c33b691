//! What is known of arcs.

use crate::values::put_at;
use equal_values::put_text;
use iges_base::{ItemList, NoMemory};
use iges_directory::Entry;
use iges_params::File;
use itoa::Buffer;
use record_numbers::{KeyNumbers, number_by_key};
use shell_change::ArcKnown;
use std::alloc::Global;
use std::collections::BTreeMap;

// The key of values of an entry from one place up to another.
fn values_key(
    alloc: Global,
    file: &File,
    number: i64,
    from: usize,
    to: usize,
) -> Result<Vec<u8>, NoMemory> {
    let mut key = Vec::new(alloc);
    'places: for place in from..to {
        put_at(alloc, &mut key, file, number, place)?;
    }
    Ok(key)
}

fn circle_key(alloc: Global, file: &File, number: i64, entry: &Entry) -> Result<Vec<u8>, NoMemory> {
    let mut key = values_key(alloc, file, number, 0, 3)?;
    put_text(&mut key, Buffer::new().format(entry.form).as_bytes())?;
    put_text(&mut key, Buffer::new().format(entry.matrix).as_bytes())?;
    Ok(key)
}

// The entry of an arc (IGES 5.3, 4.3) of seven values.
fn arc_entry(file: &File, number: i64) -> Option<&Entry> {
    let no = file.entry_no_of(number)?;
    let entry = file.entry(no)?;
    let values = file.values(no)?;
    if entry.kind != 100 || values.len() < 7 {
        return None;
    }
    Some(entry)
}

fn arc_of(
    alloc: Global,
    file: &File,
    circles: &mut KeyNumbers,
    points: &mut KeyNumbers,
    number: i64,
) -> Result<Option<ArcKnown>, NoMemory> {
    let Some(entry) = arc_entry(file, number) else {
        return Ok(None);
    };
    Ok(Some(ArcKnown {
        circle: number_by_key(circles, circle_key(alloc, file, number, entry)?)?,
        start: number_by_key(points, values_key(alloc, file, number, 3, 5)?)?,
        end: number_by_key(points, values_key(alloc, file, number, 5, 7)?)?,
    }))
}

/// What is known of each of the curves that is an arc.
pub fn arcs_of(
    alloc: Global,
    file: &File,
    curves: &[i64],
) -> Result<ItemList<Option<ArcKnown>>, NoMemory> {
    let mut circles = BTreeMap::new(alloc);
    let mut points = BTreeMap::new(alloc);
    let mut arcs = ItemList::with_room(alloc, curves.len())?;
    'curves: for curve in curves {
        arcs.push(arc_of(alloc, file, &mut circles, &mut points, *curve)?)?;
    }
    Ok(arcs)
}
