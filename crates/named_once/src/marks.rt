//! Which entries were named so far.

ghost use Rattle.changed_file.specs.Folds.{fold_items};
ghost use Rattle.named_once.specs.Marks.{place_named, was_named, with_mark};
ghost use Rattle.std.specs.List.{list_any};
ghost use Rattle.std.specs.Prelude.{◌≡◌, length};

use iges_base::ItemList;
use iges_params::File;

/// The place of the entry that a number names, from 0.
fn place_named(file: &File, number: i64) -> Option<usize>
    ensures { result ≡ place_named file.now number }
{
    let Some(no) = file.entry_no_of(number) else {
        return None;
    };
    match file.entry(no) {
        Some(_) => Some((no.0 / 2) as usize),
        None => None,
    }
}

/// Whether the entry that a number names was named before.
pub(crate) fn was_named(file: &File, marks: &[bool], number: i64) -> bool
    ensures { result ≡ was_named file.now marks.now number }
{
    match place_named(file, number) {
        Some(place) => place < marks.len() && marks[place],
        None => false,
    }
}

/// Whether one of these entries was.
pub(crate) fn any_named(file: &File, marks: &[bool], numbers: &[i64]) -> bool
    ensures { result ≡ list_any (was_named file.now marks.now) numbers.now }
{
    'numbers: for number in numbers {
        if was_named(file, marks, *number) {
            return true;
        }
    }
    false
}

/// Marks the entry that a number names.
pub(crate) fn mark(file: &File, marks: &mut ItemList<bool>, number: i64)
    ensures { marks.new ≡ with_mark file.now marks.old number }
{
    let Some(place) = place_named(file, number) else {
        return;
    };
    if place < marks.len() {
        marks.set(place, true);
    }
}

/// Marks these entries.
pub(crate) fn mark_all(file: &File, marks: &mut ItemList<bool>, numbers: &[i64])
    ensures { marks.new ≡ fold_items (with_mark file.now) marks.old numbers.now }
{
    'numbers: for i in 0..numbers.len() {
        mark(file, marks, numbers[i]);
    }
}
