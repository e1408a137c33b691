//! A line of a file, as it stands there.

ghost use Rattle.std.specs.List.{prefix_len};
ghost use Rattle.std.specs.Io.BufRead.{drop_through};
ghost use Rattle.std.specs.Prelude.{◌≡◌, ◌≤◌, ◌==◌, length, not};
ghost use Rattle.where_places.specs.FileLine.{from_line, has_cr, has_lf, line_of, piece_of};

use iges_lines::stripped;

fn piece_len(bytes: &[u8]) -> usize
    ensures is { result ≡ prefix_len (λ b. not (b == 10)) bytes.now }
    ensures within { result ≤ length bytes.now }
{
    let mut len = 0;
    'bytes: while len < bytes.len() && bytes[len] != b'\n' {
        len += 1;
    }
    len
}

// The bytes before the first LF.
fn piece_of(bytes: &[u8]) -> &[u8]
    ensures { result.now ≡ piece_of bytes.now }
{
    &bytes[..piece_len(bytes)]
}

// The bytes behind the first LF.
fn behind_piece(bytes: &[u8]) -> &[u8]
    ensures { result.now ≡ drop_through 10 bytes.now }
{
    let mut rest = bytes;
    'bytes: while let [byte, after @ ..] = rest {
        rest = after;
        if *byte == b'\n' {
            return rest;
        }
    }
    rest
}

/// The bytes from a line on, where this many lines come before it.
pub fn from_line(bytes: &[u8], count: u64) -> &[u8]
    ensures { result.now ≡ from_line count bytes.now }
{
    let mut rest = bytes;
    let mut left = count;
    'lines: while left > 0 {
        rest = behind_piece(rest);
        left -= 1;
    }
    rest
}

/// The first line of these bytes, without its end.
#[tactic(auto, unfolding(crate::specs::FileLine::line_of))]
pub fn line_of(bytes: &[u8]) -> &[u8]
    ensures { result.now ≡ line_of bytes.now }
{
    stripped(piece_of(bytes))
}

/// Whether LF ends the first line.
pub fn has_lf(bytes: &[u8]) -> bool
    ensures { result ≡ has_lf bytes.now }
{
    piece_of(bytes).len() < bytes.len()
}

/// Whether a CR stands at the end of the first line.
pub fn has_cr(bytes: &[u8]) -> bool
    ensures { result ≡ has_cr bytes.now }
{
    line_of(bytes).len() < piece_of(bytes).len()
}
