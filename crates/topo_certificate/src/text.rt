//! Whether the lines of a text are legal.

ghost use Rattle.std.specs.Prelude.{◌≡◌, ◌++◌, ℕ, List, [], IfSome, MatchResult, Err};
ghost use Rattle.cert_lines.specs.Line.{cut_lines};
ghost use Rattle.cert_lines.specs.declared.version.Version.{Version};
ghost use Rattle.solid_data.specs.SolidData.{SolidData};
ghost use Rattle.topo_certificate.specs.Legal.{IsLegal, IsFirstBad};
ghost use Rattle.topo_certificate.specs.Feeding.{IsFed};
ghost use Rattle.topo_certificate.specs.Matching.{IsOfSame};

use crate::checker::Checker;
use cert_lines::Illegal;

/// Judges all further lines of a certificate, whose text is given, and whether END is the last of them. Where the
/// checker has judged no line yet, that is whether the lines are legal for its solid, or which is the first bad one.
/// A rest without LF is misspelt.
pub fn check(checker: &mut Checker<'_>, text: &[u8]) -> Result<(), Illegal>
    ensures whole { (v : Version) (s : SolidData) (first : ℕ) → IsFed v s first [] checker.old
        → MatchResult result (λ _. IsLegal v s (cut_lines text.now))
        (λ bad. IsFirstBad v s first (cut_lines text.now) bad) }
    ensures further { (v : Version) (s : SolidData) (first : ℕ) (before : List ℕ)
        → IsFed v s first before checker.old → MatchResult result
        (λ _. IsLegal v s (cut_lines (before ++ text.now)))
        (λ bad. IsFirstBad v s first (cut_lines (before ++ text.now)) bad) }
    ensures stays { IfSome checker.old.failed
        (λ bad. (result ≡ Err bad) × (checker.new ≡ checker.old)) }
    ensures same { IsOfSame checker.old.checker checker.new.checker }
{
    checker.feed(text)?;
    checker.finish()
}
