//! The first line of an open shell's certificate, and the shell that its second line names.

ghost use Rattle.std.specs.Prelude.{MatchResult};
ghost use Rattle.open_certificate.specs.Line.{head, IsSpelled};
ghost use Rattle.open_certificate.specs.Line.{IsHeadLine, IsShell, NamesShell, IsOf, IsMisfit};

use crate::parsed::{ParsedOpenLine, read_line};
use cert_lines::Misfit;
use iges_base::EntryNo;

/// Whether these bytes are line 1 of an open shell's certificate, with its LF, without which they are misspelt. Takes
/// no memory.
pub fn open_head(line: &[u8]) -> Result<(), Misfit>
    ensures { MatchResult result (λ _. IsSpelled line.now head)
        (λ misfit. IsMisfit IsHeadLine line.now misfit) }
{
    match read_line(line) {
        Some(ParsedOpenLine::Head) => Ok(()),
        Some(_) => Err(Misfit::Unfit),
        None => Err(Misfit::Misspelt),
    }
}

/// The shell that line 2 of an open shell's certificate names; the line is given with its LF, without which it is misspelt.
/// Takes no memory.
pub fn shell_number(line: &[u8]) -> Result<EntryNo, Misfit>
    ensures { MatchResult result (λ n. IsOf (NamesShell n.0) line.now)
        (λ misfit. IsMisfit IsShell line.now misfit) }
{
    match read_line(line) {
        Some(ParsedOpenLine::Shell(counts)) => Ok(EntryNo(counts.shell)),
        Some(_) => Err(Misfit::Unfit),
        None => Err(Misfit::Misspelt),
    }
}
