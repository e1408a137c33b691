//! How many lines of each section have come, and which section may come next.

ghost use Rattle.line_layout.specs.Counts.{no_lines, count_of, next_number, counted, is_in_order, is_due, AreFew};
ghost use Rattle.std.specs.Prelude.{◌≡◌, ◌≤◌, ◌<◌};

use crate::letters::Section;

/// How many lines of each section have come.
#[derive(Clone, Copy)]
pub struct LineCounts {
    pub start: u64,
    pub global: u64,
    pub directory: u64,
    pub param: u64,
}

// No lines.
pub(crate) fn no_lines() -> LineCounts
    ensures { result ≡ no_lines }
{
    LineCounts {
        start: 0,
        global: 0,
        directory: 0,
        param: 0,
    }
}

// The lines of a section so far, and none of the last, which has one.
pub(crate) fn count_of(counts: LineCounts, section: Section) -> u64
    ensures { result ≡ count_of counts section }
{
    match section {
        Section::Start => counts.start,
        Section::Global => counts.global,
        Section::Directory => counts.directory,
        Section::Param => counts.param,
        Section::Terminate => 0,
    }
}

// The counts with one more line of a section.
pub(crate) fn counted(counts: LineCounts, section: Section) -> LineCounts
    requires { count_of counts section < 9_999_999 }
    ensures is { result ≡ counted counts section }
    ensures few { AreFew counts → AreFew result }
{
    let mut more = counts;
    match section {
        Section::Start => more.start += 1,
        Section::Global => more.global += 1,
        Section::Directory => more.directory += 1,
        Section::Param => more.param += 1,
        Section::Terminate => {}
    }
    more
}

// Whether no line of a later section has come.
pub(crate) fn is_in_order(counts: LineCounts, section: Section) -> bool
    ensures { result ≡ is_in_order counts section }
{
    match section {
        Section::Start => counts.global == 0 && counts.directory == 0 && counts.param == 0,
        Section::Global => counts.directory == 0 && counts.param == 0,
        Section::Directory => counts.param == 0,
        Section::Param | Section::Terminate => true,
    }
}

// Whether the sections that must come before it have come.
pub(crate) fn is_due(counts: LineCounts, section: Section) -> bool
    ensures { result ≡ is_due counts section }
{
    match section {
        Section::Start => true,
        Section::Global => counts.start != 0,
        Section::Directory | Section::Param | Section::Terminate => counts.global != 0,
    }
}
