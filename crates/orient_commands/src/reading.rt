//! A line of the text, and the first line of all.

ghost use Rattle.std.specs.Prelude.{◌≡◌, IfOk, IfErr};
ghost use Rattle.cert_lines.specs.Line.{cut_lines};
ghost use Rattle.cert_text.specs.declared.fault.Illegal.{Illegal as AnyIllegal};
ghost use Rattle.cert_text.specs.declared.fault.Illegal.TheVariants.{Misspelt};
ghost use Rattle.orient_certificate.specs.Line.{IsSpelled};
ghost use Rattle.orient_certificate.specs.declared.line.OrientLine.{OrientLine as AnyLine};
ghost use Rattle.orient_commands.specs.Reading.{IsTextFault};
ghost use Rattle.orient_commands.specs.Text.{Names, IsBadHead};

use crate::fault::TextFault;
use cert_lines::first_line;
use cert_text::Illegal;
use face_orient::{OrientLine, OrientLineFault, orient_line};
use iges_base::EntryNo;
use std::alloc::Global;

/// The line that bytes spell, which are the line of this number.
pub(crate) fn read_line(alloc: Global, line: &[u8], number: u64) -> Result<OrientLine, TextFault>
    ensures found { IfOk result (IsSpelled line.now) }
    ensures fault { IfErr result (IsTextFault
        (λ bad. ((l : AnyLine) → ¬ IsSpelled line.now l) × (bad ≡ Misspelt number))) }
{
    match orient_line(alloc, line) {
        Ok(read) => Ok(read),
        Err(OrientLineFault::Misspelt) => Err(TextFault::Bad(Illegal::Misspelt { line: number })),
        Err(OrientLineFault::NoMemory) => Err(TextFault::NoMemory),
    }
}

/// The solid that line 1 names, and the text after this line.
pub(crate) fn read_head(alloc: Global, text: &[u8]) -> Result<(EntryNo, &[u8]), TextFault>
    ensures found { IfOk result (λ r. Names text.now r.0.0 (cut_lines r.1.now)) }
    ensures fault { IfErr result (IsTextFault (IsBadHead text.now)) }
{
    let Some((line, rest)) = first_line(text) else {
        return Err(TextFault::Bad(Illegal::Missing { line: 1 }));
    };
    match read_line(alloc, line, 1)? {
        OrientLine::Head(no) => Ok((no, rest)),
        _ => Err(TextFault::Bad(Illegal::Unfit { line: 1 })),
    }
}
