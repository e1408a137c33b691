//! The lines that have come, section by section, and what may come after them.

ghost use Rattle.iges_base.specs.Word.{is_empty};
ghost use Rattle.iges_lines.specs.Kinds.{added, place_of};
ghost use Rattle.iges_lines.specs.Extending.{counts_of};
ghost use Rattle.iges_lines.specs.LineFaults.{has_count};
ghost use Rattle.iges_lines.specs.Lines.{columns, sections};
ghost use Rattle.std.specs.List.{list_all};
ghost use Rattle.std.specs.Prelude.{◌≡◌, ◌↔◌, ◌+◌, ◌<◌, ◌≤◌, ◌^◌, ◌||◌, ◌&&◌, ◌==◌, [], suc, not, nat_le, nat_lt, drop, length, take, slice_get, slice_index_or, option_copied, OnOk, OnErr, IsSome, IfSome};

use crate::kind::Kind;
use crate::line::{columns, holds_count};
use crate::line_list::LineList;
use iges_base::NoMemory;
use std::alloc::Global;
use std::marker::Model;

/// How many lines each section has.
#[derive(Clone, Copy)]
pub struct LineCounts {
    /// Lines with S in column 73.
    pub start: usize,
    /// Lines with G in column 73.
    pub global: usize,
    /// Lines with D in column 73, two of each entry.
    pub directory: usize,
    /// Lines with P in column 73.
    pub param: usize,
}

/// The lines of each section that have come so far, but for the terminate line.
#[derive(Drop)]
pub struct SectionTable {
    start: LineList,
    global: LineList,
    directory: LineList,
    param: LineList,
}

impl Model for SectionTable {
    ghost use Rattle.iges_lines.specs.Lines.{SectionLines};

    ghost Value = { SectionLines };

    ghost view = { λ t. record { start = t.start; global = t.global; directory = t.directory; param = t.param } };
}

impl SectionTable {
    /// No lines.
    pub fn new(alloc: Global) -> SectionTable
        ensures { result ≡ record { start = []; global = []; directory = []; param = [] } }
    {
        SectionTable {
            start: LineList::new(alloc),
            global: LineList::new(alloc),
            directory: LineList::new(alloc),
            param: LineList::new(alloc),
        }
    }

    /// The number of start lines so far (IGES 5.3, 2.2.4.1).
    pub fn start_count(&self) -> usize
        ensures count { result ≡ length self.now.start }
        ensures few { result < 2 ^ 60 }
    {
        self.start.count()
    }

    /// The number of global lines so far (IGES 5.3, 2.2.4.3).
    pub fn global_count(&self) -> usize
        ensures count { result ≡ length self.now.global }
        ensures few { result < 2 ^ 60 }
    {
        self.global.count()
    }

    /// The number of directory lines so far (IGES 5.3, 2.2.4.4).
    pub fn directory_count(&self) -> usize
        ensures count { result ≡ length self.now.directory }
        ensures few { result < 2 ^ 60 }
    {
        self.directory.count()
    }

    /// The number of parameter lines so far (IGES 5.3, 2.2.4.5).
    pub fn param_count(&self) -> usize
        ensures count { result ≡ length self.now.param }
        ensures few { result < 2 ^ 60 }
    {
        self.param.count()
    }

    /// The 80 bytes of the start line at a place, from 0; None past the end (IGES 5.3, 2.2.4.1).
    pub fn start(&self, i: usize) -> Option<&[u8]>
        ensures line { option_copied result ≡ slice_get self.now.start i }
        ensures within { IsSome result ↔ (i < length self.now.start) }
        ensures long { IfSome result (λ line. length line.now ≡ 80) }
    {
        self.start.get(i)
    }

    /// The 80 bytes of the global line at a place, from 0; None past the end (IGES 5.3, 2.2.4.3).
    pub fn global(&self, i: usize) -> Option<&[u8]>
        ensures line { option_copied result ≡ slice_get self.now.global i }
        ensures within { IsSome result ↔ (i < length self.now.global) }
        ensures long { IfSome result (λ line. length line.now ≡ 80) }
    {
        self.global.get(i)
    }

    /// The 80 bytes of the directory line at a place, from 0; None past the end (IGES 5.3, 2.2.4.4).
    pub fn directory(&self, i: usize) -> Option<&[u8]>
        ensures line { option_copied result ≡ slice_get self.now.directory i }
        ensures within { IsSome result ↔ (i < length self.now.directory) }
        ensures long { IfSome result (λ line. length line.now ≡ 80) }
    {
        self.directory.get(i)
    }

    /// The 80 bytes of the parameter line at a place, from 0; None past the end (IGES 5.3, 2.2.4.5).
    pub fn param(&self, i: usize) -> Option<&[u8]>
        ensures line { option_copied result ≡ slice_get self.now.param i }
        ensures within { IsSome result ↔ (i < length self.now.param) }
        ensures long { IfSome result (λ line. length line.now ≡ 80) }
    {
        self.param.get(i)
    }

    /// Whether no line has come.
    pub fn is_first(&self) -> bool
        ensures { result ≡ list_all is_empty (sections self.now) }
    {
        self.start.is_empty()
            && self.global.is_empty()
            && self.directory.is_empty()
            && self.param.is_empty()
    }

    /// Whether a line of this section may come, by the order of the sections.
    pub fn is_in_order(&self, kind: Kind) -> bool
        ensures { result ≡ (nat_lt (place_of kind) 5
            && list_all is_empty (drop (suc (place_of kind)) (sections self.now))) }
    {
        match kind {
            Kind::Start => self.global.is_empty()
                && self.directory.is_empty()
                && self.param.is_empty(),
            Kind::Global => self.directory.is_empty() && self.param.is_empty(),
            Kind::Directory => self.param.is_empty(),
            Kind::Param | Kind::Terminate => true,
            Kind::Other => false,
        }
    }

    /// Whether the sections that must come before this one have come.
    pub fn is_due(&self, kind: Kind) -> bool
        ensures { result ≡ ((not (list_all is_empty (sections self.now)) || place_of kind == 0)
            && (nat_le (place_of kind) 1 || not (is_empty self.now.global))) }
    {
        match kind {
            Kind::Start => true,
            Kind::Global => !self.is_first(),
            _ => !self.global.is_empty(),
        }
    }

    /// The number of the next line of this section, from 1.
    pub fn next_number(&self, kind: Kind) -> usize
        ensures number { result ≡ length (slice_index_or (sections self.now)
            (place_of kind) []) + 1 }
        ensures few { result ≤ 2 ^ 60 }
    {
        match kind {
            Kind::Start => self.start_count() + 1,
            Kind::Global => self.global_count() + 1,
            Kind::Directory => self.directory_count() + 1,
            Kind::Param => self.param_count() + 1,
            _ => 1,
        }
    }

    // Whether the line has the counts of the sections.
    fn has_counts(&self, line: &[u8]) -> bool
        requires { length line.now ≡ 80 }
        ensures { result
            ≡ (has_count 83 self.now.start (columns 1 8 line.now) && has_count 71 self.now.global (columns 9 16 line.now)
            && has_count 68 self.now.directory (columns 17 24 line.now) && has_count 80 self.now.param (columns 25 32 line.now)) }
    {
        holds_count(columns(line, 1, 8), b'S', self.start_count())
            && holds_count(columns(line, 9, 16), b'G', self.global_count())
            && holds_count(columns(line, 17, 24), b'D', self.directory_count())
            && holds_count(columns(line, 25, 32), b'P', self.param_count())
    }

    /// Whether the line has the counts of the sections, where it must.
    pub fn has_counts_if_last(&self, kind: Kind, line: &[u8]) -> bool
        requires { length line.now ≡ 80 }
        ensures { result
            ≡ (nat_lt (place_of kind) 4 || (has_count 83 self.now.start (columns 1 8 line.now) && has_count 71 self.now.global (columns 9 16 line.now)
            && has_count 68 self.now.directory (columns 17 24 line.now) && has_count 80 self.now.param (columns 25 32 line.now))) }
    {
        match kind {
            Kind::Terminate | Kind::Other => self.has_counts(line),
            _ => true,
        }
    }

    /// How many lines each section has so far.
    pub fn counts(&self) -> LineCounts
        ensures { result ≡ counts_of self.now }
    {
        LineCounts {
            start: self.start.count(),
            global: self.global.count(),
            directory: self.directory.count(),
            param: self.param.count(),
        }
    }

    /// Takes off the lines of each section after so many.
    pub fn truncate(&mut self, counts: LineCounts)
        ensures { self.new
            ≡ record { start = take counts.start self.old.start; global = take counts.global self.old.global; directory = take counts.directory self.old.directory; param = take counts.param self.old.param } }
    {
        self.start.truncate(counts.start);
        self.global.truncate(counts.global);
        self.directory.truncate(counts.directory);
        self.param.truncate(counts.param);
    }

    /// Takes all directory lines off, and gives their memory back.
    pub fn clear_directory(&mut self)
        ensures { self.new ≡ record self.old { directory = [] } }
    {
        self.directory.clear();
    }

    /// Takes off the parameter lines after the first ones, and gives their memory back.
    pub fn keep_params(&mut self, count: usize)
        ensures { self.new ≡ record self.old { param = take count self.old.param } }
    {
        self.param.keep(count);
    }

    /// Puts the line at the end of its section.
    #[inline(always)]
    pub fn add(&mut self, kind: Kind, line: &[u8]) -> Result<(), NoMemory>
        requires { length line.now ≡ 80 }
        ensures ok { OnOk result (self.new ≡ added self.old kind line.now) }
        ensures err { OnErr result (self.new ≡ self.old) }
    {
        match kind {
            Kind::Start => self.start.push(line),
            Kind::Global => self.global.push(line),
            Kind::Directory => self.directory.push(line),
            Kind::Param => self.param.push(line),
            Kind::Terminate | Kind::Other => Ok(()),
        }
    }
}
