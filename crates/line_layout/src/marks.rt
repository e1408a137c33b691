//! Bytes that stand for nothing, and marks before a line.

ghost use Rattle.line_layout.specs.Marks.{is_blank_byte, is_tail_byte, is_blank, unmarked, begins_with_two, has_tab, has_letter_at};
ghost use Rattle.std.specs.List.{list_all};
ghost use Rattle.std.specs.Prelude.{◌≡◌};

use crate::letters::section_of;

// Whether the byte is one of those that stand for nothing: NUL, tab, form feed, CR, Ctrl-Z and space.
pub(crate) fn is_blank_byte(byte: u8) -> bool
    ensures { result ≡ is_blank_byte byte }
{
    byte == b' ' || byte == b'\r' || byte == b'\t' || byte == 0 || byte == 12 || byte == 26
}

// Whether the byte may stand in columns 74 to 80.
fn is_tail_byte(byte: u8) -> bool
    ensures { result ≡ is_tail_byte byte }
{
    byte.is_ascii_digit() || byte == b'+' || byte == b'-' || is_blank_byte(byte)
}

// Whether all bytes are blank.
pub(crate) fn is_blank(text: &[u8]) -> bool
    ensures { result ≡ is_blank text.now }
{
    text.iter().all(|b| is_blank_byte(*b))
}

// Whether all bytes may stand in columns 74 to 80.
pub(crate) fn are_tail(text: &[u8]) -> bool
    ensures { result ≡ list_all is_tail_byte text.now }
{
    text.iter().all(|b| is_tail_byte(*b))
}

// Whether a tab is among the bytes.
pub(crate) fn has_tab(text: &[u8]) -> bool
    ensures { result ≡ has_tab text.now }
{
    text.iter().any(|b| *b == b'\t')
}

// Whether the text begins with these two bytes.
pub(crate) fn begins_with_two(text: &[u8], first: u8, second: u8) -> bool
    ensures { result ≡ begins_with_two text.now first second }
{
    text.len() > 1 && text[0] == first && text[1] == second
}

// Whether the letter of a section stands at a place, from 0.
fn has_letter_at(text: &[u8], at: usize) -> bool
    ensures { result ≡ has_letter_at text.now at }
{
    at < text.len() && section_of(text[at]).is_some()
}

// The piece without a mark before the line, where the letter stands in column 73 after it.
#[tactic(auto, unfolding(crate::specs::Marks::unmarked))]
pub(crate) fn unmarked(piece: &[u8]) -> &[u8]
    ensures { result.now ≡ unmarked piece.now }
{
    if has_letter_at(piece, 75) && begins_with_two(piece, 0xEF, 0xBB) && piece[2] == 0xBF {
        return &piece[3..];
    }
    if has_letter_at(piece, 73) && piece[0] == 12 {
        return &piece[1..];
    }
    piece
}
