//! The first two lines of an open shell's certificate.

ghost use Rattle.std.specs.Prelude.{MatchResult};
ghost use Rattle.cert_lines.specs.Line.{cut_lines};
ghost use Rattle.open_commands.specs.Opening.{OpensShell, IsBadOpening};

use cert_lines::{at_line, first_line};
use iges_base::EntryNo;
use open_shells::{Illegal, open_head, shell_number};

/// The shell that a certificate names in its second line, and the text from that line on; or the first of the first two
/// lines that is missing, misspelt or unfit.
pub(crate) fn read_opening(text: &[u8]) -> Result<(EntryNo, &[u8]), Illegal>
    ensures { MatchResult result (λ p. OpensShell text.now p.0.0 (cut_lines p.1.now))
        (λ bad. IsBadOpening text.now bad) }
{
    let Some((first, lines)) = first_line(text) else {
        return Err(Illegal::Missing { line: 1 });
    };
    if let Err(misfit) = open_head(first) {
        return Err(at_line(misfit, 1));
    }
    let Some((second, _)) = first_line(lines) else {
        return Err(Illegal::Missing { line: 2 });
    };
    match shell_number(second) {
        Ok(no) => Ok((no, lines)),
        Err(misfit) => Err(at_line(misfit, 2)),
    }
}
