//! Each piece of a file judged: blank, a line of a section, or bad.

ghost use Rattle.line_layout.specs.Judging.{judge, judge_section, letter, line_fault, named, section_fault};
ghost use Rattle.line_layout.specs.Letters.{section_of};
ghost use Rattle.std.specs.Prelude.{◌≡◌};

use crate::columns::{beyond, columns};
use crate::counting::{LineCounts, count_of, is_due, is_in_order};
use crate::fault::LayoutReason;
use crate::letters::{Section, section_of};
use crate::marks::{are_tail, begins_with_two, has_tab, is_blank, unmarked};
use iges_base::LINE_LIMIT;

/// What a piece between two line ends is.
#[derive(Clone, Copy)]
pub enum Judged {
    /// It is blank.
    Blank,
    /// Its content can't be told apart.
    Bad(LayoutReason),
    /// A line of this section.
    Good(Section),
}

// The section that the letter in column 73 names; None where the line is shorter.
#[tactic(auto, unfolding(crate::specs::Letters::section_of))]
fn section_in(line: &[u8]) -> Option<Section>
    ensures { result ≡ section_of (letter line.now) }
{
    if line.len() > 72 {
        section_of(line[72])
    } else {
        None
    }
}

// What is wrong with a line by itself.
#[tactic(auto, unfolding(crate::specs::Judging::line_fault))]
fn line_fault(line: &[u8]) -> Option<LayoutReason>
    ensures { result ≡ line_fault line.now }
{
    if line.len() < 73 {
        return Some(LayoutReason::Short);
    }
    if section_in(line).is_none() {
        return Some(LayoutReason::Letter);
    }
    if !are_tail(columns(line, 74, 80)) {
        return Some(LayoutReason::Number);
    }
    if !is_blank(beyond(line)) {
        return Some(LayoutReason::Long);
    }
    None
}

// What is wrong with a line of this section after the lines before it.
#[tactic(auto, unfolding(crate::specs::Judging::section_fault))]
fn section_fault(counts: LineCounts, section: Section) -> Option<LayoutReason>
    ensures { result ≡ section_fault counts section }
{
    if !is_in_order(counts, section) {
        return Some(LayoutReason::Order);
    }
    if !is_due(counts, section) {
        return Some(LayoutReason::Missing);
    }
    if count_of(counts, section) >= LINE_LIMIT {
        return Some(LayoutReason::Many);
    }
    None
}

// A plainer reason, where the piece shows one.
#[tactic(auto, unfolding(crate::specs::Judging::named))]
fn named(piece: &[u8], reason: LayoutReason) -> LayoutReason
    ensures { result ≡ named piece.now reason }
{
    if begins_with_two(piece, 0xFF, 0xFE) || begins_with_two(piece, 0xFE, 0xFF) {
        return LayoutReason::Utf16;
    }
    if begins_with_two(piece, 0x1F, 0x8B) {
        return LayoutReason::Gzip;
    }
    if has_tab(piece) {
        return LayoutReason::Tab;
    }
    reason
}

fn judge_section(counts: LineCounts, section: Option<Section>) -> Judged
    ensures { result ≡ judge_section counts section }
{
    let Some(section) = section else {
        return Judged::Bad(LayoutReason::Letter);
    };
    match section_fault(counts, section) {
        Some(reason) => Judged::Bad(reason),
        None => Judged::Good(section),
    }
}

// What the piece is, where so many lines of each section come before it.
#[tactic(auto, unfolding(crate::specs::Judging::judge))]
pub(crate) fn judge(counts: LineCounts, piece: &[u8]) -> Judged
    ensures { result ≡ judge counts piece.now }
{
    let line = unmarked(piece);
    if is_blank(line) {
        return Judged::Blank;
    }
    match line_fault(line) {
        Some(reason) => Judged::Bad(named(piece, reason)),
        None => judge_section(counts, section_in(line)),
    }
}
