//! A file as data: how it is built up, and what is found in it.

ghost use Rattle.iges_directory.specs.Bounds.{IsBounded};
ghost use Rattle.iges_base.specs.declared.TheConstants.{ENTRY_LIMIT, FILE_LIMIT};
ghost use Rattle.iges_params.specs.Contents.{value_count};
ghost use Rattle.iges_params.specs.Global.{have_kinds};
ghost use Rattle.iges_params.specs.Limits.{FitsLimits};
ghost use Rattle.iges_params.specs.Made.{IsMade, IsMadeEntry, is_start_line};
ghost use Rattle.iges_params.specs.Named.{named};
ghost use Rattle.std.specs.List.{AllByRecursion};
ghost use Rattle.std.specs.Option.{option_and_then};
ghost use Rattle.std.specs.Ordering.{int_eq};
ghost use Rattle.std.specs.Prelude.{◌≡◌, ◌+◌, ◌<◌, ◌≤◌, [], ◌∷◌, ◌++◌, ◌↔◌, pos, IsSome, IsTrue, IfOk, IfSome, OnOk, OnErr, length, slice_get, option_copied, option_map};

mod taking;

use crate::global::Global26;
use iges_base::{EntryNo, FILE_LIMIT, Memory, NoMemory};
use iges_directory::{Entry, EntryRecords};
use iges_fields::Values;
use std::alloc::Global;
use std::marker::Model;

/// The bytes of a start line without its section's letter and its number.
const WIDTH: usize = 72;

/// A file: the start lines, columns 1 to 72 of each, the global, and the entries of the directory in order, each with
/// the values of its record without the type number. An entry of type 0 has no record.
#[derive(Drop)]
pub struct File {
    start: Vec<[u8; WIDTH]>,
    global: Global26,
    entries: EntryRecords,
    memory: Memory,
}

impl Model for File {
    ghost use Rattle.iges_params.specs.Contents.{Contents};

    ghost Value = { Contents };

    ghost use Rattle.iges_params.specs.Made.{IsMade};

    ghost view = { λ f. record { start = f.start.items; global = f.global; entries = f.entries } };

    ghost invariant = { λ f. IsMade (record { start = f.start.items; global = f.global; entries = f.entries }) };
}

// A copy of a start line.
fn start_line(line: &[u8]) -> [u8; WIDTH]
    requires { length line.now ≡ 72 }
    ensures { result ≡ line.now }
{
    let mut copy = [0; WIDTH];
    copy.copy_from_slice(line);
    copy
}

impl File {
    /// A file with one start line, 72 bytes without LF, and no entry. The values of the global must be of their kinds
    /// (IGES 5.3, 2.2.4.1 and 2.2.4.3). Where memory runs out, the global is dropped.
    pub fn new(alloc: Global, start: &[u8], global: Global26) -> Result<File, NoMemory>
        requires start { IsTrue (is_start_line start.now) }
        requires kinds { IsTrue (have_kinds global.values) }
        ensures { IfOk result (λ f. f ≡ record {
          start = start.now
              ∷ [];
          global = global;
          entries = [];
        }) }
    {
        let mut lines = Vec::new(alloc);
        lines.push(start_line(start))?;
        Ok(File {
            start: lines,
            global,
            entries: EntryRecords::new(alloc),
            memory: Memory::GivenBack,
        })
    }

    /// Puts a start line, 72 bytes without LF, at the end of the start section (IGES 5.3, 2.2.4.1). Where memory runs
    /// out, the file is as it was.
    pub fn push_start(&mut self, line: &[u8]) -> Result<(), NoMemory>
        requires { IsTrue (is_start_line line.now) }
        ensures ok { OnOk result (self.new ≡ record self.old {
          start = self.old.start ++ line.now
              ∷ [];
        }) }
        ensures err { OnErr result (self.new ≡ self.old) }
    {
        self.start.push(start_line(line))?;
        Ok(())
    }

    /// Takes the room for so many entries more, where there is memory for it.
    pub fn reserve(&mut self, entries: usize)
        ensures { self.new ≡ self.old }
    {
        self.entries.reserve(entries);
    }

    /// Puts an entry with the values of its record, without the type number, at the end (IGES 5.3, 2.2.4.4 and
    /// 2.2.4.5). The entry's fields must fit their columns; type 0 has no values; a file has at most `ENTRY_LIMIT` entries
    /// and at most `FILE_LIMIT` values in all records together. Where memory runs out, the values are dropped and
    /// the file is as it was.
    #[inline(always)]
    pub fn push(&mut self, entry: Entry, values: Values) -> Result<(), NoMemory>
        requires bounded { IsBounded entry }
        requires unused { IsTrue (int_eq entry.kind (pos 0)) → values ≡ [] }
        requires entries { length self.old.entries < ENTRY_LIMIT }
        requires few { value_count self.old.entries + length values ≤ FILE_LIMIT }
        ensures ok { OnOk result (self.new ≡ record self.old {
          entries = self.old.entries
              ++ (entry, values) ∷ [];
        }) }
        ensures err { OnErr result (self.new ≡ self.old) }
    {
        self.entries.push(entry, values)
    }

    // Puts these entries in place of its own.
    pub(crate) fn fill(&mut self, entries: EntryRecords)
        requires each { AllByRecursion IsMadeEntry entries }
        requires limits { FitsLimits (record self.old { entries = entries }) }
        ensures { self.new ≡ record self.old { entries = entries } }
    {
        self.entries = entries;
    }

    /// How many start lines there are (IGES 5.3, 2.2.4.1).
    pub fn start_count(&self) -> usize
        ensures is { result ≡ length self.now.start }
        ensures some { 0 < result }
        ensures made { IsMade self.now }
    {
        self.start.len()
    }

    /// Columns 1 to 72 of the i-th start line, i from 0; None past the end (IGES 5.3, 2.2.4.1).
    pub fn start(&self, i: usize) -> Option<&[u8]>
        ensures line { option_copied result ≡ slice_get self.now.start i }
        ensures within { IsSome result ↔ (i < length self.now.start) }
        ensures made { IfSome result (λ line. IsTrue (is_start_line line.now)) }
    {
        if i >= self.start.len() {
            return None;
        }
        Some(&self.start[i])
    }

    /// The global, of which the values are of their kinds (IGES 5.3, 2.2.4.3).
    pub fn global(&self) -> &Global26
        ensures is { result.now ≡ self.now.global }
        ensures kinds { IsTrue (have_kinds self.now.global.values) }
    {
        &self.global
    }

    /// How many entries there are, those of type 0 among them.
    pub fn entry_count(&self) -> usize
        ensures is { result ≡ length self.now.entries }
        ensures few { result ≤ ENTRY_LIMIT }
        ensures made { IsMade self.now }
    {
        self.entries.count()
    }

    /// The i-th entry, i from 0 and those of type 0 among them; None past the end.
    pub fn entry_at(&self, i: usize) -> Option<&Entry>
        ensures entry { option_copied result ≡ option_map
            (λ e. e.0) (slice_get self.now.entries i) }
        ensures within { IsSome result ↔ (i < length self.now.entries) }
        ensures bounded { IfSome result (λ entry. IsBounded entry.now) }
    {
        self.entries.entry(i)
    }

    // The place of the entry that a number names, from 0.
    fn place(&self, no: EntryNo) -> Option<usize>
        ensures { named self.now (pos no.0) ≡ option_and_then (slice_get self.now.entries) result }
    {
        if no.0 % 2 == 0 {
            return None;
        }
        let place = (no.0 / 2) as usize;
        let entry = self.entries.entry(place)?;
        if entry.kind == 0 { None } else { Some(place) }
    }

    /// The entry that a number names, which is that of its first line in the directory section, from 1 (IGES 5.3,
    /// 2.2.4.4). None where it names none; an entry of type 0 has no name.
    pub fn entry(&self, no: EntryNo) -> Option<&Entry>
        ensures named { option_copied result ≡ option_map (λ e. e.0) (named self.now (pos no.0)) }
        ensures bounded { IfSome result (λ entry. IsBounded entry.now) }
    {
        self.entries.entry(self.place(no)?)
    }

    /// The values of the record of the entry that a number names, without the type number (IGES 5.3, 2.2.4.5). None
    /// where it names none.
    pub fn values(&self, no: EntryNo) -> Option<&Values>
        ensures { option_copied result ≡ option_map (λ e. e.1) (named self.now (pos no.0)) }
    {
        self.entries.values(self.place(no)?)
    }
}
