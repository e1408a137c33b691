//! The lines of a text.

ghost use Rattle.std.specs.Prelude.{◌≡◌, ◌≢◌, ℕ, ◌<◌, ◌≤◌, [], ◌∷◌, length, take, drop, slice_index, IsTrue, MatchOption};
ghost use Rattle.cert_lines.specs.Line.{cut_lines};
ghost use Rattle.cert_lines.specs.Cutting.{IsFirstEnd, EndsFirst};
ghost use Rattle.iges_base.specs.InLine.{is_in_line};

/// Where the first LF of a text is.
fn first_end(text: &[u8]) -> Option<usize>
    ensures { MatchOption result ((k : ℕ) → k < length text.now → slice_index text.now k ≢ 10)
        (λ n. IsFirstEnd text.now n) }
{
    text.iter().position(|byte| *byte == b'\n')
}

/// How many bytes the first line of a text has, with its LF where there is one.
fn line_len(text: &[u8]) -> usize
    requires { 0 < length text.now }
    ensures some { 0 < result }
    ensures within { result ≤ length text.now }
    ensures cut { cut_lines text.now ≡ take result text.now ∷ cut_lines (drop result text.now) }
{
    match first_end(text) {
        Some(end) => end + 1,
        None => text.len(),
    }
}

/// The first line of a text, with its LF, and what follows it: a text without LF is one line. None where no byte is
/// left.
pub fn first_line(text: &[u8]) -> Option<(&[u8], &[u8])>
    ensures { MatchOption result (text.now ≡ [])
        (λ p. (cut_lines text.now ≡ p.0.now ∷ cut_lines p.1.now)
        × (length p.1.now < length text.now)) }
{
    if text.is_empty() {
        return None;
    }
    let end = line_len(text);
    Some((&text[..end], &text[end..]))
}

/// The first line of a text that an LF ends, with its LF, and what follows it. None where there is no LF.
pub fn first_ended(text: &[u8]) -> Option<(&[u8], &[u8])>
    ensures { MatchOption result (IsTrue (is_in_line text.now))
        (λ p. EndsFirst text.now p.0.now p.1.now) }
{
    match first_end(text) {
        Some(end) => Some((&text[..end + 1], &text[end + 1..])),
        None => None,
    }
}
