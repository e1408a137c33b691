//! One line of a certificate, read from its bytes.

ghost use Rattle.std.specs.Prelude.{◌≡◌, ◌≢◌, ℕ, List, [], ◌∷◌, ◌++◌, ◌≤◌, ◌↔◌, IsTrue, codes, length, MatchOption};
ghost use Rattle.cert_text.specs.Text.{spaced, AreNumbers, IsSpaced};
ghost use Rattle.open_certificate.specs.Line.{OpenLine, head, shell, edge, lone, cycle, path, point, reach, border, end, IsSpelled};
ghost use Rattle.open_certificate.specs.Parsed.{Means, IsRowLine, Spells, HasRowsAfter};

use cert_text::{after_word, are_numbers, is_word, next_number, one_number, two_numbers};

/// What a line says. Rows, faces and loops count from 1 here, as in the text.
#[derive(Clone, Copy)]
pub(crate) enum ParsedOpenLine<'a> {
    /// `IGESOPEN 1`.
    Head,
    /// `SHELL`, and its numbers.
    Shell(OpenCounts),
    /// `E`, the row along an edge, and the one against it.
    Edge(u32, u32),
    /// `E`, and the only row of an edge.
    Lone(u32),
    /// `C`. The rows are in this text, each after a space.
    Cycle(&'a [u8]),
    /// `P`. The rows are in this text, each after a space.
    Path(&'a [u8]),
    /// `I`, a face of the shell, and a loop of that face.
    Point(u32, u32),
    /// `R`, and a row.
    Reach(u32),
    /// `B`. The rows are in this text, each after a space.
    Border(&'a [u8]),
    /// `END`.
    End,
}

/// The numbers of a SHELL line: the directory number of the shell, how many rows, edges, corners and faces it has, and how
/// many border lines there are.
#[derive(Clone, Copy)]
pub(crate) struct OpenCounts {
    pub(crate) shell: u32,
    pub(crate) rows: u32,
    pub(crate) edges: u32,
    pub(crate) corners: u32,
    pub(crate) faces: u32,
    pub(crate) borders: u32,
}

fn shell_numbers(text: &[u8]) -> Option<OpenCounts>
    ensures { MatchOption result ((a b c d e f : ℕ)
        → ¬ AreNumbers text.now (a ∷ b ∷ c ∷ d ∷ e ∷ f ∷ []))
        (λ w. AreNumbers text.now (w.shell ∷ w.rows ∷ w.edges ∷ w.corners ∷ w.faces ∷ w.borders
        ∷ [])) }
{
    let Some((shell, rest)) = next_number(text) else {
        return None;
    };
    let Some((rows, rest)) = next_number(rest) else {
        return None;
    };
    let Some((edges, rest)) = next_number(rest) else {
        return None;
    };
    let Some((corners, rest)) = next_number(rest) else {
        return None;
    };
    let Some((faces, borders)) = two_numbers(rest) else {
        return None;
    };
    Some(OpenCounts {
        shell,
        rows,
        edges,
        corners,
        faces,
        borders,
    })
}

fn shell_words(text: &[u8]) -> Option<OpenCounts>
    ensures { MatchOption result ((a b c d e f : ℕ) → ¬ Spells text.now (shell a b c d e f))
        (λ w. Spells text.now (shell w.shell w.rows w.edges w.corners w.faces w.borders)) }
{
    match after_word(text, b"SHELL") {
        Some(rest) => shell_numbers(rest),
        None => None,
    }
}

// The two rows on an E line.
fn edge_words(text: &[u8]) -> Option<(u32, u32)>
    ensures { MatchOption result ((a b : ℕ) → ¬ Spells text.now (edge a b))
        (λ p. Spells text.now (edge p.0 p.1)) }
{
    match after_word(text, b"E") {
        Some(rest) => two_numbers(rest),
        None => None,
    }
}

// The row on an E line that has one row alone.
fn lone_words(text: &[u8]) -> Option<u32>
    ensures { MatchOption result ((a : ℕ) → ¬ Spells text.now (lone a))
        (λ a. Spells text.now (lone a)) }
{
    match after_word(text, b"E") {
        Some(rest) => one_number(rest),
        None => None,
    }
}

fn point_words(text: &[u8]) -> Option<(u32, u32)>
    ensures { MatchOption result ((a b : ℕ) → ¬ Spells text.now (point a b))
        (λ p. Spells text.now (point p.0 p.1)) }
{
    match after_word(text, b"I") {
        Some(rest) => two_numbers(rest),
        None => None,
    }
}

fn reach_words(text: &[u8]) -> Option<u32>
    ensures { MatchOption result ((a : ℕ) → ¬ Spells text.now (reach a))
        (λ a. Spells text.now (reach a)) }
{
    match after_word(text, b"R") {
        Some(rest) => one_number(rest),
        None => None,
    }
}

/// The numbers after a word, as text, of which there is at least one.
fn row_words<'a>(text: &'a [u8], word: &[u8]) -> Option<&'a [u8]>
    ensures { MatchOption result ((rs : List ℕ) → ¬ HasRowsAfter text.now word.now rs)
        (λ rest. (rs : List ℕ) × (rest.now ≡ spaced rs) × HasRowsAfter text.now word.now rs) }
{
    let Some(rest) = after_word(text, word) else {
        return None;
    };
    if rest.is_empty() {
        return None;
    }
    if are_numbers(rest) { Some(rest) } else { None }
}

fn cycle_words(text: &[u8]) -> Option<&[u8]>
    ensures { MatchOption result ((rs : List ℕ) → ¬ Spells text.now (cycle rs))
        (λ rest. (rs : List ℕ) × (rest.now ≡ spaced rs) × Spells text.now (cycle rs)) }
{
    row_words(text, b"C")
}

fn path_words(text: &[u8]) -> Option<&[u8]>
    ensures { MatchOption result ((rs : List ℕ) → ¬ Spells text.now (path rs))
        (λ rest. (rs : List ℕ) × (rest.now ≡ spaced rs) × Spells text.now (path rs)) }
{
    row_words(text, b"P")
}

fn border_words(text: &[u8]) -> Option<&[u8]>
    ensures { MatchOption result ((rs : List ℕ) → ¬ Spells text.now (border rs))
        (λ rest. (rs : List ℕ) × (rest.now ≡ spaced rs) × Spells text.now (border rs)) }
{
    row_words(text, b"B")
}

/// The line that a text without its LF spells.
fn read_words(text: &[u8]) -> Option<ParsedOpenLine<'_>>
    ensures { MatchOption result ((line : OpenLine) → ¬ Spells text.now line)
        (λ w. (line : OpenLine) × Means w line × Spells text.now line) }
{
    if is_word(text, b"IGESOPEN 1") {
        return Some(ParsedOpenLine::Head);
    }
    if let Some(counts) = shell_words(text) {
        return Some(ParsedOpenLine::Shell(counts));
    }
    if is_word(text, b"END") {
        return Some(ParsedOpenLine::End);
    }
    read_row_words(text)
}

/// The edge, corner, point, reach or border line that a text without its LF spells.
fn read_row_words(text: &[u8]) -> Option<ParsedOpenLine<'_>>
    ensures { MatchOption result ((line : OpenLine) → IsRowLine line → ¬ Spells text.now line)
        (λ w. (line : OpenLine) × Means w line × Spells text.now line) }
{
    if let Some((along, against)) = edge_words(text) {
        return Some(ParsedOpenLine::Edge(along, against));
    }
    if let Some(row) = lone_words(text) {
        return Some(ParsedOpenLine::Lone(row));
    }
    if let Some(rows) = cycle_words(text) {
        return Some(ParsedOpenLine::Cycle(rows));
    }
    if let Some(rows) = path_words(text) {
        return Some(ParsedOpenLine::Path(rows));
    }
    if let Some((face, place)) = point_words(text) {
        return Some(ParsedOpenLine::Point(face, place));
    }
    if let Some(rows) = border_words(text) {
        return Some(ParsedOpenLine::Border(rows));
    }
    match reach_words(text) {
        Some(row) => Some(ParsedOpenLine::Reach(row)),
        None => None,
    }
}

/// The line that bytes spell with their LF.
pub(crate) fn read_line(line: &[u8]) -> Option<ParsedOpenLine<'_>>
    ensures { MatchOption result ((l : OpenLine) → ¬ IsSpelled line.now l)
        (λ w. (l : OpenLine) × Means w l × IsSpelled line.now l) }
{
    let Some((last, text)) = line.split_last() else {
        return None;
    };
    if *last != b'\n' {
        return None;
    }
    read_words(text)
}
