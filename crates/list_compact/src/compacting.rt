//! The compacted file of one solid.

ghost use Rattle.entry_references.specs.declared.fault.ExtractReason.{ExtractReason as Reason};
ghost use Rattle.iges_params.specs.Contents.{Contents};
ghost use Rattle.brep_walk.specs.Places.{places};
ghost use Rattle.brep_walk.specs.Walked.{IsFault};
ghost use Rattle.list_compact.specs.Compacted.{GivesFile, GivesPlace, GivesRefusal, IsCompactFault, IsCompacted, IsMisplaced};
ghost use Rattle.list_compact.specs.Marking.{AreMarks, edge_sizes, sizes, vertex_sizes};
ghost use Rattle.list_compact.specs.Used.{is_used_edge, is_used_vertex};
ghost use Rattle.solid_data.specs.declared.verdict.Failing.{Failing as Named};
ghost use Rattle.solid_data.specs.Obligations.{AllHold};
ghost use Rattle.solid_extract.specs.Extracted.{IsExtracted, IsExtractedAs, IsRefused};
ghost use Rattle.std.specs.Prelude.{◌≡◌, ℕ, IfErr, IfOk, OnOk};

use crate::dropping::dropped;
use crate::fault::CompactFault;
use crate::marking::{FileMarks, used_items};
use brep_walk::{WalkFault, walk};
use iges_base::{EntryNo, NoMemory};
use iges_params::File;
use solid_extract::{Extraction, extract_numbered, into_extract, into_extract_numbered};
use std::alloc::Global;

// The file of a solid that isn't refused: the call errs only where memory runs out.
fn extracted(alloc: Global, file: File, no: EntryNo) -> Result<File, NoMemory>
    requires { (entity : ℕ) (reason : Reason) → ¬ IsRefused file no.0 entity reason }
    ensures { IfOk result (IsExtracted file no.0) }
{
    match into_extract(alloc, file, no) {
        Ok(new) => Ok(new),
        Err(_) => Err(NoMemory),
    }
}

// The rest, by the marks of the items that are used in a solid's file once it is extracted. Where each item of its lists is
// used, nothing is dropped, and the second extraction would give the same file.
fn finished_by(alloc: Global, file: File, no: EntryNo, marks: &FileMarks) -> Result<File, NoMemory>
    requires made { (f : Contents) × (n : ℕ) × IsExtractedAs f n file no.0 }
    requires edges { AreMarks marks.now.edges (is_used_edge file) }
    requires vertices { AreMarks marks.now.vertices (is_used_vertex file) }
    requires edge_sizes { sizes marks.now.edges ≡ edge_sizes file }
    requires vertex_sizes { sizes marks.now.vertices ≡ vertex_sizes file }
    ensures { (f : Contents) (n : ℕ) → IsExtractedAs f n file no.0
        → AllHold (places f n) → IfOk result (IsCompacted f n) }
{
    if marks.are_all() {
        return Ok(file);
    }
    let new = dropped(alloc, file, marks)?;
    Ok(extracted(alloc, new, no)?)
}

// The rest, once a solid's file is extracted.
fn finished(alloc: Global, extraction: Extraction) -> Result<File, NoMemory>
    requires { (f : Contents) × (n : ℕ) × IsExtractedAs f n extraction.file extraction.no.0 }
    ensures { (f : Contents) (n : ℕ) → IsExtractedAs f n extraction.file extraction.no.0
        → AllHold (places f n) → IfOk result (IsCompacted f n) }
{
    match used_items(alloc, &extraction.file) {
        Ok(marks) => {
            let new = finished_by(alloc, extraction.file, extraction.no, &marks);
            drop(marks);
            new
        }
        Err(fault) => {
            drop(extraction);
            Err(fault)
        }
    }
}

// The walk over a solid's records, of which only the fault is given.
fn walked(alloc: Global, file: &File, no: EntryNo) -> Result<(), WalkFault>
    ensures holds { OnOk result (AllHold (places file.now no.0)) }
    ensures fault { IfErr result (IsFault (places file.now no.0)) }
{
    match walk(alloc, file, no) {
        Ok(solid) => {
            drop(solid);
            Ok(())
        }
        Err(fault) => Err(fault),
    }
}

fn compacted(alloc: Global, file: &File, no: EntryNo) -> Result<File, CompactFault>
    ensures found { IfOk result (IsCompacted file.now no.0) }
    ensures fault { IfErr result (IsCompactFault file.now no.0) }
{
    let extraction = extract_numbered(alloc, file, no)?;
    match walked(alloc, file, no) {
        Ok(()) => Ok(finished(alloc, extraction)?),
        Err(fault) => {
            drop(extraction);
            Err(CompactFault::from(fault))
        }
    }
}

// The same of a file that is given away: it is dropped before the lists are compacted.
fn turned_into_compacted(alloc: Global, file: File, no: EntryNo) -> Result<File, CompactFault>
    ensures found { IfOk result (IsCompacted file no.0) }
    ensures fault { IfErr result (IsCompactFault file no.0) }
{
    let places = walked(alloc, &file, no);
    let extraction = into_extract_numbered(alloc, file, no)?;
    match places {
        Ok(()) => Ok(finished(alloc, extraction)?),
        Err(fault) => {
            drop(extraction);
            Err(CompactFault::from(fault))
        }
    }
}

/// The compacted file of a solid: what `extract` gives, with lists of edges and of vertices that hold only what is used
/// and indices to match, and extracted again. Where the solid isn't extracted, the refusal; else where an obligation on
/// the records' places doesn't hold, the first one.
pub fn compact(alloc: Global, file: &File, no: EntryNo) -> Result<File, CompactFault>
    ensures found { IfOk result (IsCompacted file.now no.0) }
    ensures only { (new : Contents) → IsCompacted file.now no.0 new → GivesFile result new }
    ensures fault { IfErr result (IsCompactFault file.now no.0) }
    ensures only_refusal { (entity : ℕ) (reason : Reason) → IsRefused file.now no.0 entity reason
        → GivesRefusal result entity reason }
    ensures only_place { (x : Named) → IsMisplaced file.now no.0 x → GivesPlace result x }
{
    compacted(alloc, file, no)
}

/// The same as `compact`, of a file that isn't needed any more: the values that are kept stay in their memory.
pub fn into_compact(alloc: Global, file: File, no: EntryNo) -> Result<File, CompactFault>
    ensures found { IfOk result (IsCompacted file no.0) }
    ensures only { (new : Contents) → IsCompacted file no.0 new → GivesFile result new }
    ensures fault { IfErr result (IsCompactFault file no.0) }
    ensures only_refusal { (entity : ℕ) (reason : Reason) → IsRefused file no.0 entity reason
        → GivesRefusal result entity reason }
    ensures only_place { (x : Named) → IsMisplaced file no.0 x → GivesPlace result x }
{
    turned_into_compacted(alloc, file, no)
}
