//! A row of items for each entry of a file.

ghost use Rattle.list_compact.specs.Rows.{AreEnds, rows_from, start_of};
ghost use Rattle.std.specs.Prelude.{◌≡◌, ◌+◌, ◌-◌, ◌<◌, ◌≤◌, ◌∷◌, ◌++◌, [], OnOk, Some, drop, length, replicate, set, slice_get, slice_index_or, take};

use iges_base::NoMemory;
use std::alloc::Global;
use std::marker::Model;

/// For each entry a row of items, one row after the other in one list.
#[derive(Drop)]
pub struct EntryRows<T> {
    items: Vec<T>,
    ends: Vec<usize>,
}

impl<T> Model for EntryRows<T> {
    ghost use Rattle.std.specs.Prelude.{List, length};
    ghost use Rattle.list_compact.specs.Rows.{AreEnds, rows_from};

    ghost Value = { List (List T) };

    ghost view = { λ r. rows_from 0 r.ends.items r.items.items };

    ghost invariant = { λ r. AreEnds 0 r.ends.items (length r.items.items) };
}

// From where to where a row goes.
#[derive(Clone, Copy)]
struct Span {
    start: usize,
    end: usize,
}

// Which items the row of the i-th entry has, i from 0.
fn span_of(ends: &[usize], i: usize) -> Span
    requires { i < length ends.now }
    ensures start { result.start ≡ start_of ends.now i }
    ensures end { result.end ≡ slice_index_or ends.now i 0 }
{
    Span {
        start: if i == 0 { 0 } else { ends[i - 1] },
        end: ends[i],
    }
}

fn part<T>(items: &[T], span: Span) -> &[T]
    requires rising { span.start ≤ span.end }
    requires within { span.end ≤ length items.now }
    ensures { result.now ≡ take (span.end - span.start) (drop span.start items.now) }
{
    &items[span.start..span.end]
}

impl<T: Copy> EntryRows<T> {
    /// No rows.
    pub fn new(alloc: Global) -> EntryRows<T>
        ensures { result ≡ [] }
    {
        EntryRows {
            items: Vec::new(alloc),
            ends: Vec::new(alloc),
        }
    }

    /// The rows of a list of items that end before these places.
    pub fn of(items: Vec<T>, ends: Vec<usize>) -> EntryRows<T>
        requires { AreEnds 0 ends.items (length items.items) }
        ensures { result ≡ rows_from 0 ends.items items.items }
    {
        EntryRows { items, ends }
    }

    /// Puts a row of so many items, each of them this one.
    pub fn push(&mut self, count: usize, item: T) -> Result<(), NoMemory>
        ensures { OnOk result (self.new ≡ self.old ++ replicate count item ∷ []) }
    {
        let Some(end) = self.items.len().checked_add(count) else {
            return Err(NoMemory);
        };
        self.ends.reserve(1)?;
        self.items.resize(end, item)?;
        self.ends.push_reserved(end);
        Ok(())
    }

    /// How many rows there are.
    pub fn len(&self) -> usize
        ensures { result ≡ length self.now }
    {
        self.ends.len()
    }

    /// The row of the entry in a place of the directory, from 0.
    pub fn row(&self, i: usize) -> &[T]
        requires { i < length self.now }
        ensures { slice_get self.now i ≡ Some result.now }
    {
        let span = span_of(self.ends.as_slice(), i);
        part(self.items.as_slice(), span)
    }

    /// Puts an item in the place of another, where there is one.
    pub fn set(&mut self, entry: usize, at: usize, item: T)
        ensures { self.new ≡ set self.old entry (set (slice_index_or self.old entry []) at item) }
    {
        if entry >= self.ends.len() {
            return;
        }
        let span = span_of(self.ends.as_slice(), entry);
        if at < span.end - span.start {
            self.items[span.start + at] = item;
        }
    }
}
