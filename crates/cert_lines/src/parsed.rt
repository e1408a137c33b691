//! One line of a certificate, read from its bytes.

ghost use Rattle.std.specs.Prelude.{◌≡◌, ◌≢◌, ℕ, List, [], ◌∷◌, ◌++◌, ◌≤◌, ◌↔◌, IsTrue, IfSome, IfNone, codes, length, MatchOption};
ghost use Rattle.cert_text.specs.Text.{spaced, AreNumbers, IsSpaced};
ghost use Rattle.cert_lines.specs.Line.{CertLine, head, solid, shell, edge, corner, point, reach, tally, end, EndsWithLf, IsSpelled};
ghost use Rattle.cert_lines.specs.Parsed.{Spells, Means, IsRowLine, IsJudged};
ghost use Rattle.cert_lines.specs.declared.counts.ShellCounts.{ShellCounts as Counts};
ghost use Rattle.cert_lines.specs.declared.counts.TallyCounts.{TallyCounts as Tallied};
ghost use Rattle.cert_lines.specs.declared.version.Version.{Version as Edition};

use crate::counts::{ShellCounts, TallyCounts};
use crate::version::{Version, head_text};
use cert_text::{
    after_byte, after_word, are_numbers, is_word, next_number, one_number, two_numbers,
};

/// What a line says. Rows, faces and loops count from 1 here, as in the text.
#[derive(Clone, Copy)]
pub enum ParsedLine<'a> {
    /// `IGESCERT`, and the number of the version.
    Head(Version),
    /// `SOLID`, and the directory number of the solid.
    Solid(u32),
    /// `SHELL`, the number of the shell, and what it has.
    Shell(u32, ShellCounts),
    /// `E`, the row along an edge, and the one against it.
    Edge(u32, u32),
    /// `C`. The rows stand in this text, each after a space.
    Corner(&'a [u8]),
    /// `I`, a face of the shell, and a loop of that face.
    Point(u32, u32),
    /// `R`, and a row.
    Reach(u32),
    /// `TALLY`, and what the shell has.
    Tally(TallyCounts),
    /// `END`.
    End,
}

fn shell_numbers(text: &[u8]) -> Option<(u32, ShellCounts)>
    ensures { MatchOption result ((a b c d e : ℕ) → ¬ AreNumbers text.now (a ∷ b ∷ c ∷ d ∷ e ∷ []))
        (λ p. AreNumbers text.now (p.0 ∷ p.1.rows ∷ p.1.edges ∷ p.1.corners ∷ p.1.faces ∷ [])) }
{
    let Some((shell, rest)) = next_number(text) else {
        return None;
    };
    let Some((rows, rest)) = next_number(rest) else {
        return None;
    };
    let Some((edges, rest)) = next_number(rest) else {
        return None;
    };
    let Some((corners, faces)) = two_numbers(rest) else {
        return None;
    };
    Some((
        shell,
        ShellCounts {
            rows,
            edges,
            corners,
            faces,
        },
    ))
}

fn tally_numbers(text: &[u8]) -> Option<TallyCounts>
    ensures { MatchOption result ((a b c d : ℕ) → ¬ AreNumbers text.now (a ∷ b ∷ c ∷ d ∷ []))
        (λ w. AreNumbers text.now (w.vertices ∷ w.edges ∷ w.faces ∷ w.loops ∷ [])) }
{
    let Some((vertices, rest)) = next_number(text) else {
        return None;
    };
    let Some((edges, rest)) = next_number(rest) else {
        return None;
    };
    let Some((faces, loops)) = two_numbers(rest) else {
        return None;
    };
    Some(TallyCounts {
        vertices,
        edges,
        faces,
        loops,
    })
}

fn head_words(text: &[u8]) -> Option<Version>
    ensures { MatchOption result ((v : Edition) → ¬ Spells text.now (head v))
        (λ v. Spells text.now (head v)) }
{
    if is_word(text, head_text(Version::One)) {
        return Some(Version::One);
    }
    if is_word(text, head_text(Version::Two)) {
        return Some(Version::Two);
    }
    if is_word(text, head_text(Version::Three)) {
        return Some(Version::Three);
    }
    None
}

fn solid_words(text: &[u8]) -> Option<u32>
    ensures { MatchOption result ((n : ℕ) → ¬ Spells text.now (solid n))
        (λ n. Spells text.now (solid n)) }
{
    match after_word(text, b"SOLID") {
        Some(rest) => one_number(rest),
        None => None,
    }
}

fn shell_words(text: &[u8]) -> Option<(u32, ShellCounts)>
    ensures { MatchOption result ((k : ℕ) (c : Counts) → ¬ Spells text.now (shell k c))
        (λ p. Spells text.now (shell p.0 p.1)) }
{
    match after_word(text, b"SHELL") {
        Some(rest) => shell_numbers(rest),
        None => None,
    }
}

fn edge_words(text: &[u8]) -> Option<(u32, u32)>
    ensures { MatchOption result ((a b : ℕ) → ¬ Spells text.now (edge a b))
        (λ p. Spells text.now (edge p.0 p.1)) }
{
    match after_byte(text, b'E') {
        Some(rest) => two_numbers(rest),
        None => None,
    }
}

fn point_words(text: &[u8]) -> Option<(u32, u32)>
    ensures { MatchOption result ((a b : ℕ) → ¬ Spells text.now (point a b))
        (λ p. Spells text.now (point p.0 p.1)) }
{
    match after_byte(text, b'I') {
        Some(rest) => two_numbers(rest),
        None => None,
    }
}

fn reach_words(text: &[u8]) -> Option<u32>
    ensures { MatchOption result ((a : ℕ) → ¬ Spells text.now (reach a))
        (λ a. Spells text.now (reach a)) }
{
    match after_byte(text, b'R') {
        Some(rest) => one_number(rest),
        None => None,
    }
}

fn tally_words(text: &[u8]) -> Option<TallyCounts>
    ensures { MatchOption result ((t : Tallied) → ¬ Spells text.now (tally t))
        (λ t. Spells text.now (tally t)) }
{
    match after_word(text, b"TALLY") {
        Some(rest) => tally_numbers(rest),
        None => None,
    }
}

fn corner_words(text: &[u8]) -> Option<&[u8]>
    ensures { MatchOption result ((rs : List ℕ) → ¬ Spells text.now (corner rs))
        (λ rest. (rs : List ℕ) × (rest.now ≡ spaced rs) × Spells text.now (corner rs)) }
{
    let Some(rest) = after_byte(text, b'C') else {
        return None;
    };
    if rest.is_empty() {
        return None;
    }
    if are_numbers(rest) { Some(rest) } else { None }
}

/// The line that a text without its LF spells.
fn read_words(text: &[u8]) -> Option<ParsedLine<'_>>
    ensures { MatchOption result ((line : CertLine) → ¬ Spells text.now line)
        (λ w. (line : CertLine) × Means w line × Spells text.now line) }
{
    // Nearly every line is one of these.
    if let Some(words) = read_row_words(text) {
        return Some(words);
    }
    if let Some((number, counts)) = shell_words(text) {
        return Some(ParsedLine::Shell(number, counts));
    }
    if let Some(number) = solid_words(text) {
        return Some(ParsedLine::Solid(number));
    }
    if let Some(version) = head_words(text) {
        return Some(ParsedLine::Head(version));
    }
    if is_word(text, b"END") {
        Some(ParsedLine::End)
    } else {
        None
    }
}

/// The line of a shell after its SHELL line that a text without its LF spells.
fn read_row_words(text: &[u8]) -> Option<ParsedLine<'_>>
    ensures { MatchOption result ((line : CertLine) → IsRowLine line → ¬ Spells text.now line)
        (λ w. (line : CertLine) × Means w line × Spells text.now line) }
{
    if let Some((along, against)) = edge_words(text) {
        return Some(ParsedLine::Edge(along, against));
    }
    if let Some(rows) = corner_words(text) {
        return Some(ParsedLine::Corner(rows));
    }
    if let Some(row) = reach_words(text) {
        return Some(ParsedLine::Reach(row));
    }
    if let Some((face, place)) = point_words(text) {
        return Some(ParsedLine::Point(face, place));
    }
    match tally_words(text) {
        Some(counts) => Some(ParsedLine::Tally(counts)),
        None => None,
    }
}

/// The line that bytes spell with their LF.
fn read_line(line: &[u8]) -> Option<ParsedLine<'_>>
    ensures { MatchOption result ((l : CertLine) → ¬ IsSpelled line.now l)
        (λ w. (l : CertLine) × Means w l × IsSpelled line.now l) }
{
    let Some((last, text)) = line.split_last() else {
        return None;
    };
    if *last != b'\n' {
        return None;
    }
    read_words(text)
}

/// A line, as far as its bytes and its length show.
#[derive(Clone, Copy)]
pub enum Judged<'a> {
    /// The line is one of the kinds of lines, and isn't long.
    Spelled(ParsedLine<'a>),
    /// The line is none of the kinds of lines and isn't long, or its last byte is no LF.
    Misspelt,
    /// The last byte of the line is an LF, and it has more bytes than it may have.
    Long,
}

/// Whether the last byte is an LF.
fn ends_with_lf(line: &[u8]) -> bool
    ensures { IsTrue result ↔ EndsWithLf line.now }
{
    match line.split_last() {
        Some((last, _)) => *last == b'\n',
        None => false,
    }
}

/// Reads a line that may have at most so many bytes, its LF among them.
pub fn judge(line: &[u8], limit: usize) -> Judged<'_>
    ensures { IsJudged limit line.now result }
{
    if line.len() > limit {
        if ends_with_lf(line) {
            return Judged::Long;
        }
        return Judged::Misspelt;
    }
    match read_line(line) {
        Some(words) => Judged::Spelled(words),
        None => Judged::Misspelt,
    }
}
