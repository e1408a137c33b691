//! The lines of an open shell's certificate from line 2 on.

ghost use Rattle.std.specs.Prelude.{[], MatchResult};
ghost use Rattle.cert_lines.specs.Line.{cut_lines};
ghost use Rattle.open_certificate.specs.CheckState.{IsAt};
ghost use Rattle.open_certificate.specs.Legal.{IsOpenLegal, IsOpenFirstBad};

use cert_lines::first_line;
use open_shells::{Illegal, OpenChecker};

/// Judges the lines of a text by a checker that has judged none: whether they are legal, or which is the first bad one.
/// A rest without LF is misspelt.
pub(crate) fn judge_lines(checker: &mut OpenChecker<'_>, text: &[u8]) -> Result<(), Illegal>
    requires { IsAt checker.old [] }
    ensures { MatchResult result (λ _. IsOpenLegal checker.old.solid (cut_lines text.now))
        (λ bad. IsOpenFirstBad checker.old.solid (cut_lines text.now) bad) }
{
    let mut rest = text;
    'lines: while let Some((line, after)) = first_line(rest) {
        checker.line(line)?;
        rest = after;
    }
    checker.finish()
}
