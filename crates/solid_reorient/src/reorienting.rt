//! The file of one solid, oriented.

ghost use Rattle.solid_extract.specs.Making.{IsExtractFault};
ghost use Rattle.solid_reorient.specs.Fitting.{HasFlags};
ghost use Rattle.solid_reorient.specs.Reoriented.{IsReoriented};
ghost use Rattle.std.specs.Prelude.{IfErr, IfOk};

use crate::reflagging::reflagged;
use flag_choice::FlagLists;
use iges_base::{EntryNo, NoMemory};
use iges_params::File;
use solid_extract::{ExtractFault, into_extract_numbered};
use std::alloc::Global;

/// The file of a solid as `extract` gives it, with these flags for the faces of its shells, or the refusal of `extract`.
pub fn into_reorient(
    alloc: Global,
    file: File,
    no: EntryNo,
    flags: &FlagLists,
) -> Result<File, ExtractFault>
    requires { HasFlags file no.0 flags.now }
    ensures found { IfOk result (IsReoriented file no.0) }
    ensures fault { IfErr result (IsExtractFault file no.0) }
{
    let extraction = into_extract_numbered(alloc, file, no)?;
    let new = reflagged(alloc, extraction.file, extraction.no, flags)?;
    Ok(new)
}
