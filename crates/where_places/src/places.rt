//! The places of entries, and the fact that tells them.

ghost use Rattle.std.specs.Prelude.{◌≡◌, ◌<◌, ◌^◌, ◌+◌, ◌-◌, ◌++◌, ◌/◌, OnOk, Some, slice_get};
ghost use Rattle.where_places.specs.PlaceLines.{lines_words};

use iges_base::{EntryNo, NoMemory, Out, put_number};
use std::marker::Model;

/// Where the record of an entry stands among the parameter lines (IGES 5.3, 2.2.4.4.2 and 2.2.4.4.14).
#[derive(Clone, Copy)]
pub struct RecordLines {
    /// The number of its first line in the section, from 1.
    pub first: u32,
    /// How many lines it has.
    pub count: u32,
}

/// Where the entries of a file stand in its lines. It takes eight bytes an entry.
#[derive(Drop)]
pub struct Places {
    before_directory: u32,
    before_records: u32,
    records: Vec<RecordLines>,
}

impl Model for Places {
    ghost use Rattle.where_places.specs.Places.{EntryPlaces};

    ghost Value = { EntryPlaces };

    ghost view = { λ p. record { before_directory = p.before_directory; before_records = p.before_records; records = p.records.items } };
}

// The number in the file of a line by its number in a section.
fn line_at(before: u32, number: u32) -> u64
    ensures is { result ≡ before + number }
    ensures few { result < 2 ^ 33 }
{
    u64::from(before) + u64::from(number)
}

// The number in the file of the last of so many lines.
fn last_line(before: u32, first: u32, count: u32) -> u64
    ensures { result ≡ before + first + count - 1 }
{
    (u64::from(before) + u64::from(first) + u64::from(count)).saturating_sub(1)
}

#[tactic(auto, unfolding(crate::specs::PlaceLines::lines_words))]
fn put_words(out: &mut Out, entry: u64, first: u64, last: u64) -> Result<(), NoMemory>
    ensures { OnOk result (out.new ≡ out.old ++ lines_words entry first last) }
{
    out.put(b"  lines directory")?;
    put_number(out, entry)?;
    out.put(b" record")?;
    put_number(out, first)?;
    put_number(out, last)?;
    out.put(b"\n")
}

impl Places {
    ghost use Rattle.where_places.specs.PlaceLines.{lines_fact, lines_in};

    pub(crate) fn of(
        before_directory: u32,
        before_records: u32,
        records: Vec<RecordLines>,
    ) -> Places
        ensures { result ≡ record { before_directory = before_directory; before_records = before_records; records = records.items } }
    {
        Places {
            before_directory,
            before_records,
            records,
        }
    }

    fn record_at(&self, place: usize) -> Option<RecordLines>
        ensures { result ≡ slice_get self.now.records place }
    {
        if place >= self.records.len() {
            return None;
        }
        Some(self.records[place])
    }

    /// The lines of the record of the entry with this number; None where the directory has no such entry.
    pub fn record_lines(&self, no: EntryNo) -> Option<RecordLines>
        ensures { result ≡ slice_get self.now.records (no.0 / 2) }
    {
        self.record_at((no.0 / 2) as usize)
    }

    /// The number in the file, from 1, of the first of these lines.
    pub fn first_line(&self, lines: RecordLines) -> u64
        ensures is { result ≡ self.now.before_records + lines.first }
        ensures few { result < 2 ^ 33 }
    {
        line_at(self.before_records, lines.first)
    }

    fn put_record(&self, out: &mut Out, no: EntryNo, lines: RecordLines) -> Result<(), NoMemory>
        ensures { OnOk result (out.new ≡ out.old ++ lines_in self.now no.0 (Some lines)) }
    {
        put_words(
            out,
            line_at(self.before_directory, no.0),
            self.first_line(lines),
            last_line(self.before_records, lines.first, lines.count),
        )
    }

    /// Appends the fact that tells in which line of the file the entry with this number begins, and which lines its record
    /// takes, all from 1 (IGES 5.3, 2.2.4.4); nothing where the directory has no such entry.
    pub fn put_lines(&self, out: &mut Out, no: EntryNo) -> Result<(), NoMemory>
        ensures text { OnOk result (out.new ≡ out.old ++ lines_fact self.now no.0) }
    {
        match self.record_lines(no) {
            Some(lines) => self.put_record(out, no, lines),
            None => Ok(()),
        }
    }
}
