//! Kinds of files that aren't of IGES, by their first bytes.

ghost use Rattle.std.specs.List.{prefix_len};
ghost use Rattle.std.specs.Prelude.{◌≡◌, ◌≤◌, length, take};
ghost use Rattle.where_file.specs.Looks.{begins, first_holding, first_word, is_blank_byte, is_brep, is_certificate, of_nothing, of_systems, of_words, packed, kind_of_file};

use crate::look::FileKind;

fn begins(bytes: &[u8], start: &[u8]) -> bool
    ensures { result ≡ begins bytes.now start.now }
{
    bytes.starts_with(start)
}

fn is_blank_byte(b: u8) -> bool
    ensures { result ≡ is_blank_byte b }
{
    b == b' ' || b == b'\t' || b == b'\n' || b == b'\r'
}

fn blank_len(bytes: &[u8]) -> usize
    ensures is { result ≡ prefix_len is_blank_byte bytes.now }
    ensures within { result ≤ length bytes.now }
{
    let mut len = 0;
    'bytes: while len < bytes.len() && is_blank_byte(bytes[len]) {
        len += 1;
    }
    len
}

// So many bytes, or all where there are fewer.
fn front(bytes: &[u8], count: usize) -> &[u8]
    ensures { result.now ≡ take count bytes.now }
{
    if bytes.len() <= count {
        return bytes;
    }
    &bytes[..count]
}

#[tactic(auto, unfolding(crate::specs::Looks::first_word))]
fn first_word(bytes: &[u8], count: usize) -> &[u8]
    ensures { result.now ≡ first_word count bytes.now }
{
    let front = front(bytes, count);
    &front[blank_len(front)..]
}

fn of_nothing(bytes: &[u8]) -> Option<FileKind>
    ensures { result ≡ first_holding (of_nothing bytes.now) }
{
    if bytes.is_empty() {
        Some(FileKind::Empty)
    } else {
        None
    }
}

fn packed(bytes: &[u8]) -> Option<FileKind>
    ensures { result ≡ first_holding (packed bytes.now) }
{
    if begins(bytes, &[31, 139]) {
        Some(FileKind::Gzip)
    } else if begins(bytes, &[80, 75, 3, 4]) {
        Some(FileKind::Zip)
    } else if begins(bytes, b"%PDF") {
        Some(FileKind::Pdf)
    } else if begins(bytes, &[255, 254]) || begins(bytes, &[254, 255]) {
        Some(FileKind::Utf16)
    } else if begins(bytes, &[239, 187, 191]) {
        Some(FileKind::ByteOrderMark)
    } else {
        None
    }
}

fn is_certificate(bytes: &[u8]) -> bool
    ensures { result ≡ is_certificate bytes.now }
{
    begins(bytes, b"IGESCERT ") || begins(bytes, b"IGESOPEN ") || begins(bytes, b"ORIENT ")
}

fn is_brep(bytes: &[u8]) -> bool
    ensures { result ≡ is_brep bytes.now }
{
    begins(bytes, b"DBRep_DrawableShape") || begins(bytes, b"CASCADE Topology")
}

fn of_systems(bytes: &[u8]) -> Option<FileKind>
    ensures { result ≡ first_holding (of_systems bytes.now) }
{
    if is_certificate(bytes) {
        Some(FileKind::Certificate)
    } else if is_brep(bytes) {
        Some(FileKind::Brep)
    } else if begins(bytes, b"**ABCDEFGHIJ") {
        Some(FileKind::Parasolid)
    } else if begins(bytes, b"AC10") {
        Some(FileKind::Dwg)
    } else if begins(bytes, b"solid ") {
        Some(FileKind::Stl)
    } else {
        None
    }
}

fn of_words(word: &[u8]) -> Option<FileKind>
    ensures { result ≡ first_holding (of_words word.now) }
{
    if begins(word, b"ISO-10303-21") {
        Some(FileKind::Step)
    } else if begins(word, b"<") {
        Some(FileKind::Markup)
    } else {
        None
    }
}

/// The kind of a file that isn't one of IGES, by its first bytes.
#[tactic(auto, unfolding(crate::specs::Looks::kind_of_file))]
pub fn kind_of_file(bytes: &[u8]) -> Option<FileKind>
    ensures { result ≡ kind_of_file bytes.now }
{
    let by_word = of_words(first_word(bytes, 4096));
    let by_start = packed(bytes).or(of_systems(bytes).or(by_word));
    of_nothing(bytes).or(by_start)
}
