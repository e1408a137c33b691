//! A file with the places of its entries.

ghost use Rattle.iges_base.specs.declared.TheConstants.{FILE_LIMIT};
ghost use Rattle.iges_lines.specs.Gives.{IfBad};
ghost use Rattle.iges_lines.specs.Lines.{SectionLines};
ghost use Rattle.iges_lines.specs.Sectioned.{IsSectioned};
ghost use Rattle.iges_params.specs.Refusal.{Refusal};
ghost use Rattle.std.specs.Prelude.{◌≡◌, ◌≤◌, IfOk, List, length, ℕ};
ghost use Rattle.where_places.specs.Places.{HasPlaces};

use crate::places::Places;
use crate::reading::file_places;
use iges_base::Bytes;
use iges_lines::{Sections, sections};
use iges_params::{File, ReadFileFault, take_sections};
use std::alloc::Global;

/// A file: its bytes, what they contain, and where its entries stand in its lines.
#[derive(Drop)]
pub struct PlacedFile {
    pub bytes: Bytes,
    pub file: File,
    pub places: Places,
}

// The file of lines that are those of the bytes alone.
fn placed_file(alloc: Global, lines: Sections) -> Result<(File, Places), ReadFileFault>
    ensures found { (bytes : List ℕ) → IsSectioned bytes lines
        → ((s : SectionLines) → IsSectioned bytes s → s ≡ lines)
        → IfOk result (λ p. HasPlaces bytes p.0 p.1) }
    ensures fault { (bytes : List ℕ) → IsSectioned bytes lines → IfBad result (Refusal bytes) }
{
    let places = file_places(alloc, &lines)?;
    let file = take_sections(alloc, lines)?;
    Ok((file, places))
}

/// The file that the bytes are, as `read_file` reads it, and the places of its entries in its lines (IGES 5.3, 2.2.4). What
/// is no file is refused as there.
pub fn read_placed_file(alloc: Global, bytes: &[u8]) -> Result<(File, Places), ReadFileFault>
    requires { length bytes.now ≤ FILE_LIMIT }
    ensures found { IfOk result (λ p. HasPlaces bytes.now p.0 p.1) }
    ensures fault { IfBad result (Refusal bytes.now) }
{
    match sections(alloc, bytes) {
        Ok(lines) => placed_file(alloc, lines),
        Err(fault) => Err(fault),
    }
}
