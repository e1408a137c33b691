//! Files, their values and what is extracted.

ghost use Rattle.iges_base.specs.declared.TheConstants.{FILE_LIMIT};
ghost use Rattle.iges_base.specs.InLine.{is_in_line};
ghost use Rattle.iges_fields.specs.FreeText.{FreeText, IsFieldFault};
ghost use Rattle.iges_fields.specs.Gives.{IfField};
ghost use Rattle.iges_lines.specs.Gives.{IfBad};
ghost use Rattle.iges_params.specs.IsFile.{IsFile};
ghost use Rattle.iges_params.specs.Refusal.{Refusal};
ghost use Rattle.solid_extract.specs.Extracted.{IsExtractedAs};
ghost use Rattle.std.specs.Prelude.{◌≤◌, IfOk, IsTrue, length};

use iges_base::EntryNo;
use iges_fields::{Delimiters, Values, ValuesFault, values};
use iges_lines::{LineFault, Reason};
use iges_params::{File, ReadFileFault, read_file};
use solid_extract::{ExtractFault, Extraction, extract_numbered};
use std::alloc::Global;

/// The file that the bytes are, or the first line that is refused, and why.
pub fn file_of(alloc: Global, bytes: &[u8]) -> Result<File, ReadFileFault>
    requires { length bytes.now ≤ FILE_LIMIT }
    ensures found { IfOk result (IsFile bytes.now) }
    ensures fault { IfBad result (Refusal bytes.now) }
{
    match read_file(alloc, bytes) {
        Ok(file) => Ok(file),
        Err(ReadFileFault::Bad(fault)) => Err(ReadFileFault::Bad(LineFault {
            line: fault.line,
            reason: fault.reason,
        })),
        Err(ReadFileFault::NoMemory) => Err(ReadFileFault::NoMemory),
    }
}

/// The values that a text begins with, and how many bytes they take.
pub fn values_of(
    alloc: Global,
    text: &[u8],
    delims: Delimiters,
) -> Result<(Values, usize), ValuesFault>
    requires { IsTrue (is_in_line text.now) }
    ensures found { IfOk result (λ x. FreeText delims text.now x.0 x.1) }
    ensures fault { IfField result (IsFieldFault delims text.now) }
{
    match values(alloc, text, delims) {
        Ok((list, used)) => Ok((list, used)),
        Err(fault) => Err(fault),
    }
}

/// The file of a solid, and the number that the solid has in it.
pub fn extracted_as(alloc: Global, file: &File, no: EntryNo) -> Result<Extraction, ExtractFault>
    ensures { IfOk result (λ x. IsExtractedAs file.now no.0 x.file x.no.0) }
{
    let Extraction { file, no } = extract_numbered(alloc, file, no)?;
    Ok(Extraction { file, no })
}
