//! Cutting a file at its line ends, which are LF, or CR where there is no LF.

ghost use Rattle.line_layout.specs.Changes.{cuts, first_cut};
ghost use Rattle.line_layout.specs.Relaid.{end_byte, pieces};
ghost use Rattle.std.specs.List.{list_any, prefix_len};
ghost use Rattle.std.specs.Prelude.{◌≡◌, ◌<◌, ◌∷◌, ◌==◌, IsTrue, length, not};

// How many bytes most lines have.
const WIDTH: usize = 80;

// Whether LF is among the bytes.
fn has_lf(bytes: &[u8]) -> bool
    ensures { result ≡ list_any (λ b. b == 10) bytes.now }
{
    bytes.iter().any(|b| *b == b'\n')
}

// The byte that ends a line: LF, or CR where the file has no LF.
pub(crate) fn end_byte(bytes: &[u8]) -> u8
    ensures { result ≡ end_byte bytes.now }
{
    if has_lf(bytes) { b'\n' } else { b'\r' }
}

// Whether the byte is among these. It goes over all of them, so that many are compared at once.
fn has_byte(bytes: &[u8], byte: u8) -> bool
    ensures { result ≡ list_any (λ b. b == byte) bytes.now }
{
    let mut found = false;
    'bytes: for b in bytes {
        found |= *b == byte;
    }
    found
}

// The same for the bytes of a line, of which the first 64 are apart, so that what is left is few.
#[inline(always)]
fn has_byte_by_parts(bytes: &[u8], byte: u8) -> bool
    ensures { result ≡ list_any (λ b. b == byte) bytes.now }
{
    if bytes.len() < 64 {
        return has_byte(bytes, byte);
    }
    let (front, back) = bytes.split_at(64);
    has_byte(front, byte) || has_byte(back, byte)
}

// Whether the first end byte comes after so many bytes. An empty line is told by its first byte.
#[inline(always)]
fn ends_at(bytes: &[u8], end: u8, len: usize) -> bool
    ensures { IsTrue result → len ≡ prefix_len (λ b. not (b == end)) bytes.now }
{
    if bytes.len() <= len || bytes[len] != end || bytes[0] == end {
        return false;
    }
    !has_byte_by_parts(&bytes[..len], end)
}

// How many bytes come before the first end byte, looked for one by one.
fn scanned_len(bytes: &[u8], end: u8) -> usize
    ensures { result ≡ prefix_len (λ b. not (b == end)) bytes.now }
{
    let mut at = 0;
    'bytes: while at < bytes.len() && bytes[at] != end {
        at += 1;
    }
    at
}

// The same, of a line with a CR, or of any other.
#[inline(never)]
fn other_len(bytes: &[u8], end: u8) -> usize
    ensures { result ≡ prefix_len (λ b. not (b == end)) bytes.now }
{
    if ends_at(bytes, end, WIDTH + 1) {
        WIDTH + 1
    } else {
        scanned_len(bytes, end)
    }
}

// How many bytes come before the first end byte. Most lines have 80 bytes, or 81 with a CR.
#[inline(always)]
fn piece_len(bytes: &[u8], end: u8) -> usize
    ensures { result ≡ prefix_len (λ b. not (b == end)) bytes.now }
{
    if ends_at(bytes, end, WIDTH) {
        WIDTH
    } else {
        other_len(bytes, end)
    }
}

// The first piece, and what comes after it and its end byte.
pub(crate) fn first_piece(bytes: &[u8], end: u8) -> (&[u8], &[u8])
    requires { 0 < length bytes.now }
    ensures pieces { pieces end bytes.now ≡ result.0.now ∷ pieces end result.1.now }
    ensures shorter { length result.1.now < length bytes.now }
    ensures cuts { cuts end bytes.now
        ≡ first_cut end bytes.now result.0.now result.1.now ∷ cuts end result.1.now }
{
    let (piece, rest) = bytes.split_at(piece_len(bytes, end));
    match rest {
        [_, after @ ..] => (piece, after),
        [] => (piece, rest),
    }
}
