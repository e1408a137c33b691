//! What was done to a line that fails, by its bytes.

ghost use Rattle.std.specs.Prelude.{◌≡◌, ◌≤◌, count_by, length, slice_index};
ghost use Rattle.where_file.specs.Looks.{are_end_marks, are_spaces, are_zeros, begins_character, behind_end, first_holding, has_carriage_return, has_other_byte, has_tab, in_bytes, in_length, in_letters, is_long_in_utf_8, is_lower, is_unbroken, kind_of_line};

use crate::look::LineKind;
use iges_lines::Reason;

fn byte_at(line: &[u8], i: usize) -> u8
    ensures { result ≡ slice_index line.now i }
{
    if i < line.len() { line[i] } else { 0 }
}

fn count_of_characters(line: &[u8]) -> usize
    ensures is { result ≡ count_by begins_character line.now }
    ensures within { result ≤ length line.now }
{
    let mut count = 0;
    'bytes: for i in 0..line.len() {
        if begins_character(line[i]) {
            count += 1;
        }
    }
    count
}

fn begins_character(b: u8) -> bool
    ensures { result ≡ begins_character b }
{
    b < 128 || b >= 192
}

#[tactic(auto, unfolding(crate::specs::Looks::are_end_marks))]
fn are_end_marks(line: &[u8]) -> bool
    ensures { result ≡ are_end_marks line.now }
{
    line.iter().all(|b| *b == 26 || *b == b' ' || *b == b'\r')
}

#[tactic(auto, unfolding(crate::specs::Looks::are_zeros))]
fn are_zeros(line: &[u8]) -> bool
    ensures { result ≡ are_zeros line.now }
{
    line.iter().all(|b| *b == 0 || *b == b' ' || *b == b'\r')
}

#[tactic(auto, unfolding(crate::specs::Looks::are_spaces))]
fn are_spaces(line: &[u8]) -> bool
    ensures { result ≡ are_spaces line.now }
{
    line.iter().all(|b| *b == b' ')
}

#[tactic(auto, unfolding(crate::specs::Looks::has_carriage_return))]
fn has_carriage_return(line: &[u8]) -> bool
    ensures { result ≡ has_carriage_return line.now }
{
    line.iter().any(|b| *b == b'\r')
}

#[tactic(auto, unfolding(crate::specs::Looks::has_tab))]
fn has_tab(line: &[u8]) -> bool
    ensures { result ≡ has_tab line.now }
{
    line.iter().any(|b| *b == b'\t')
}

#[tactic(auto, unfolding(crate::specs::Looks::has_other_byte))]
fn has_other_byte(line: &[u8]) -> bool
    ensures { result ≡ has_other_byte line.now }
{
    line.iter().any(|b| *b > 127)
}

fn is_long_in_utf_8(line: &[u8]) -> bool
    ensures { result ≡ is_long_in_utf_8 line.now }
{
    has_other_byte(line) && count_of_characters(line) == 80
}

fn is_unbroken(line: &[u8]) -> bool
    ensures { result ≡ is_unbroken line.now }
{
    line.len() >= 160
        && byte_at(line, 72) == b'S'
        && (byte_at(line, 152) == b'S' || byte_at(line, 152) == b'G')
}

fn is_lower(b: u8) -> bool
    ensures { result ≡ is_lower b }
{
    b == b's' || b == b'g' || b == b'd' || b == b'p' || b == b't'
}

fn behind_end(line: &[u8]) -> Option<LineKind>
    ensures { result ≡ first_holding (behind_end line.now) }
{
    if are_end_marks(line) {
        Some(LineKind::ControlZ)
    } else if are_zeros(line) {
        Some(LineKind::Nuls)
    } else if line.len() == 80 && byte_at(line, 72) == b'S' {
        Some(LineKind::SecondFile)
    } else {
        None
    }
}

fn in_letters(line: &[u8]) -> Option<LineKind>
    ensures { result ≡ first_holding (in_letters line.now) }
{
    if is_lower(byte_at(line, 72)) {
        return Some(LineKind::LowerCase);
    }
    None
}

fn in_bytes(line: &[u8]) -> Option<LineKind>
    ensures { result ≡ first_holding (in_bytes line.now) }
{
    if is_unbroken(line) {
        Some(LineKind::NoLineEnds)
    } else if line.len() == 81 && byte_at(line, 80) == b'\r' {
        Some(LineKind::TwoCrs)
    } else if has_carriage_return(line) {
        Some(LineKind::CrAlone)
    } else if has_tab(line) {
        Some(LineKind::Tabs)
    } else if is_long_in_utf_8(line) {
        Some(LineKind::Utf8)
    } else {
        None
    }
}

fn in_length(line: &[u8], is_last: bool) -> Option<LineKind>
    ensures { result ≡ first_holding (in_length is_last line.now) }
{
    if line.len() == 72 {
        Some(LineKind::NoNumbers)
    } else if are_spaces(line) {
        Some(LineKind::Blank)
    } else if is_last && line.len() < 80 {
        Some(LineKind::CutOff)
    } else {
        None
    }
}

/// What was done to a line, without its end, by the reason for which it fails. It is the last where LF doesn't end it.
#[tactic(auto, unfolding(crate::specs::Looks::kind_of_line))]
pub fn kind_of_line(reason: Reason, line: &[u8], is_last: bool) -> Option<LineKind>
    ensures { result ≡ kind_of_line reason is_last line.now }
{
    match reason {
        Reason::After => behind_end(line),
        Reason::Letter => in_letters(line),
        Reason::Length => in_bytes(line).or(in_length(line, is_last)),
        _ => None,
    }
}
