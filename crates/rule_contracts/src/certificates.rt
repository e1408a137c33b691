//! Lines of a certificate.

ghost use Rattle.cert_lines.specs.Line.{CertLine, IsLine, cut_lines, line_limit, reach};
ghost use Rattle.cert_lines.specs.Parsed.{IsJudged};
ghost use Rattle.cert_state.specs.CheckState.{HoldsFaces, HoldsMates};
ghost use Rattle.cert_state.specs.Progress.{FitsLine, FitsReach, IsAbove, Progress, face_of, progress_after};
ghost use Rattle.cert_lines.specs.declared.version.Version.{Version};
ghost use Rattle.cert_text.specs.Text.{Begins};
ghost use Rattle.solid_data.specs.SolidData.{SolidData};
ghost use Rattle.std.specs.Prelude.{◌≡◌, ◌+◌, ◌↔◌, [], ◌∷◌, ◌++◌, ℕ, List, IsTrue, MatchOption, MatchResult, Some, length};
ghost use Rattle.topo_certificate.specs.Feeding.{IsFed, StandsAfter};
ghost use Rattle.topo_certificate.specs.Legal.{IsBadLine, IsFirstBad, IsLegal};

use cert_lines::{Illegal, Judged, judge};
use cert_state::{fitting_face, is_above};
use cert_text::next_number;
use edge_uses::Rows;
use solid_data::FaceAt;
use topo_certificate::Checker;

/// Whether the edge of an edge line comes after that of the line before, where there is one.
pub fn edge_is_above(last: Option<u32>, number: u32) -> bool
    ensures { IsTrue result ↔ IsAbove last number }
{
    is_above(last, number)
}

/// The face of a reach line that fits where these are the mates and the faces reached.
pub fn reached_face(rows: &Rows, mates: &[u32], reached: &[bool], row: u32) -> Option<FaceAt>
    ensures { (at : Progress) → HoldsMates mates.now at.mates → HoldsFaces reached.now at.reached → MatchOption result (¬ FitsReach rows.now at row)
        (λ f. FitsReach rows.now at row × (face_of rows.now (reach row) ≡ Some f.0)) }
{
    fitting_face(rows, mates, reached, row)
}

/// The number at the start of a text, after a space, and what follows it.
pub fn first_number(text: &[u8]) -> Option<(u32, &[u8])>
    ensures { MatchOption result ((n : ℕ) (rest : List ℕ) → ¬ Begins text.now n rest)
        (λ p. Begins text.now p.0 p.1.now) }
{
    next_number(text)
}

/// A line that may have at most so many bytes, as far as its bytes and its length show.
pub fn judged(line: &[u8], limit: usize) -> Judged<'_>
    ensures { IsJudged limit line.now result }
{
    judge(line, limit)
}

/// Gives a checker its next line, whole.
pub fn next_line(checker: &mut Checker<'_>, line: &[u8]) -> Result<(), Illegal>
    ensures { (v : Version) (s : SolidData) (first : ℕ) (read : List CertLine) → StandsAfter v s first read [] checker.old → MatchResult result
        (λ _. (l : CertLine) × IsLine (line_limit s) line.now l × FitsLine s (progress_after v s read) l × StandsAfter v s first (read ++ l ∷ []) [] checker.new)
        (λ bad. IsBadLine s (FitsLine s (progress_after v s read)) (first + length read) line.now bad × (checker.new.failed ≡ Some bad)) }
{
    checker.line(line)
}

/// Ends the lines of a checker.
pub fn last_line(checker: &mut Checker<'_>) -> Result<(), Illegal>
    ensures { (v : Version) (s : SolidData) (first : ℕ) (text : List ℕ)
        → IsFed v s first text checker.old → MatchResult result (λ _. IsLegal v s (cut_lines text))
        (λ bad. IsFirstBad v s first (cut_lines text) bad) }
{
    checker.finish()
}
