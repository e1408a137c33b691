//! The first two lines of a certificate.

ghost use Rattle.std.specs.Prelude.{◌≡◌, MatchResult};
ghost use Rattle.cert_lines.specs.Line.{head, solid, cut_lines, IsLine, first_limit};
ghost use Rattle.cert_lines.specs.Opening.{IsHeadLine, IsSolid, Opens, IsBadOpening};
ghost use Rattle.cert_lines.specs.Opening.{IsMisfit, illegal_at};

use crate::cutting::first_line;
use crate::parsed::{Judged, ParsedLine, judge};
use crate::version::Version;
use cert_text::{Illegal, Misfit};
use iges_base::EntryNo;

/// The most bytes that line 1 or 2 may have.
const FIRST_LIMIT: usize = 64;

/// The version that line 1 of a certificate names; the line is given with its LF, without which it is misspelt.
/// Takes no memory.
pub fn head_line(line: &[u8]) -> Result<Version, Misfit>
    ensures { MatchResult result (λ v. IsLine first_limit line.now (head v))
        (λ misfit. IsMisfit IsHeadLine line.now misfit) }
{
    match judge(line, FIRST_LIMIT) {
        Judged::Spelled(ParsedLine::Head(version)) => Ok(version),
        Judged::Spelled(_) | Judged::Long => Err(Misfit::Unfit),
        Judged::Misspelt => Err(Misfit::Misspelt),
    }
}

/// The solid that line 2 of a certificate names; the line is given with its LF, without which it is misspelt.
/// Takes no memory.
pub fn solid_line(line: &[u8]) -> Result<EntryNo, Misfit>
    ensures { MatchResult result (λ n. IsLine first_limit line.now (solid n.0))
        (λ misfit. IsMisfit IsSolid line.now misfit) }
{
    match judge(line, FIRST_LIMIT) {
        Judged::Spelled(ParsedLine::Solid(number)) => Ok(EntryNo(number)),
        Judged::Spelled(_) | Judged::Long => Err(Misfit::Unfit),
        Judged::Misspelt => Err(Misfit::Misspelt),
    }
}

/// What is wrong with the line of this number.
pub fn at_line(misfit: Misfit, line: u64) -> Illegal
    ensures { result ≡ illegal_at misfit line }
{
    match misfit {
        Misfit::Misspelt => Illegal::Misspelt { line },
        Misfit::Unfit => Illegal::Unfit { line },
    }
}

/// The version and the solid that a certificate names in its first two lines, and the text after them; or the first of
/// the two that is missing, misspelt or unfit.
pub fn read_opening(text: &[u8]) -> Result<(Version, EntryNo, &[u8]), Illegal>
    ensures { MatchResult result (λ p. Opens text.now p.0 p.1.0 (cut_lines p.2.now))
        (λ bad. IsBadOpening text.now bad) }
{
    let Some((first, rest)) = first_line(text) else {
        return Err(Illegal::Missing { line: 1 });
    };
    let version = match head_line(first) {
        Ok(version) => version,
        Err(misfit) => return Err(at_line(misfit, 1)),
    };
    let Some((second, rest)) = first_line(rest) else {
        return Err(Illegal::Missing { line: 2 });
    };
    match solid_line(second) {
        Ok(solid) => Ok((version, solid, rest)),
        Err(misfit) => Err(at_line(misfit, 2)),
    }
}
