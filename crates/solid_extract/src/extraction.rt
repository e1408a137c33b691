//! The file of one solid.

ghost use Rattle.entry_references.specs.declared.fault.ExtractReason.{ExtractReason as Reason};
ghost use Rattle.iges_base.specs.declared.TheConstants.{ENTRY_LIMIT, FILE_LIMIT};
ghost use Rattle.iges_params.specs.Contents.{Contents, value_count};
ghost use Rattle.iges_params.specs.Named.{named};
ghost use Rattle.solid_extract.specs.Extracted.{IsExtracted, IsExtractedAs, IsRefused, new_record};
ghost use Rattle.solid_extract.specs.Making.{GivesFile, GivesRefusal, IsExtractFault, IsFaultless, records_of};
ghost use Rattle.solid_extract.specs.Taking.{IsKept, IsWithout};
ghost use Rattle.std.specs.List.{AllByRecursion};
ghost use Rattle.std.specs.List.Sorted.{IsStrictlyIncreasing};
ghost use Rattle.std.specs.Prelude.{◌≡◌, ◌+◌, ◌∷◌, ◌++◌, ◌<◌, ◌≤◌, ℕ, [], IfErr, IfOk, IsSome, OnOk, length, map, pos};

use crate::blank_file::blank;
use crate::fault::ExtractFault;
use crate::new_values::new_values;
use crate::reaching::reach;
use crate::renaming::Renaming;
use entry_references::{ExtractReason, record_of, shape_with};
use iges_base::{EntryNo, ItemList, NoMemory};
use iges_params::{File, begun, copied_values};
use std::alloc::Global;

/// The file of a solid, and the number that the solid has in it.
#[derive(Drop)]
pub struct Extraction {
    pub file: File,
    pub no: EntryNo,
}

// Lists whose room serves for one entry after the other: marks of values, and places of pointers.
#[derive(Drop)]
struct Scratch {
    marks: Vec<bool>,
    places: ItemList<usize>,
}

// Puts the entry that a number names, as it is kept, with copied values. It has no fault, so that its shape is given unless
// memory runs out.
fn push_kept(
    new: &mut File,
    alloc: Global,
    file: &File,
    renaming: &Renaming,
    no: EntryNo,
    scratch: &mut Scratch,
) -> Result<(), NoMemory>
    requires faultless { IsFaultless file.now no.0 }
    requires entries { length new.old.entries < ENTRY_LIMIT }
    requires values { value_count new.old.entries + value_count (records_of file.now (no.0 ∷ []))
        ≤ FILE_LIMIT }
    ensures { OnOk result (new.new ≡ record new.old {
      entries = new.old.entries
          ++ map (new_record file.now renaming.now) (records_of file.now (no.0 ∷ []));
    }) }
{
    let record = record_of(file, no).unwrap();
    let Ok(shape) = shape_with(&mut scratch.places, alloc, record.entry, record.values) else {
        return Err(NoMemory);
    };
    let copies = copied_values(alloc, record.values)?;
    let values = new_values(alloc, file, renaming, copies, &shape, &mut scratch.marks)?;
    scratch.places = shape.own.into_spare();
    new.push(renaming.entry(record.entry), values)
}

// The same with the values themselves, which are taken from the file.
fn push_taken(
    new: &mut File,
    alloc: Global,
    file: &mut File,
    renaming: &Renaming,
    no: EntryNo,
    scratch: &mut Scratch,
) -> Result<(), NoMemory>
    requires named { IsSome (named file.old (pos no.0)) }
    requires entries { length new.old.entries < ENTRY_LIMIT }
    requires values { value_count new.old.entries + value_count (records_of file.old (no.0 ∷ []))
        ≤ FILE_LIMIT }
    ensures put { OnOk result (new.new ≡ record new.old {
      entries = new.old.entries
          ++ map (new_record file.old renaming.now) (records_of file.old (no.0 ∷ []));
    }) }
    ensures taken { OnOk result (IsWithout file.old no.0 file.new) }
{
    let record = record_of(file, no).unwrap();
    let Ok(shape) = shape_with(&mut scratch.places, alloc, record.entry, record.values) else {
        return Err(NoMemory);
    };
    let entry = renaming.entry(record.entry);
    let taken = file.take_values(alloc, (no.0 / 2) as usize);
    let values = new_values(alloc, file, renaming, taken, &shape, &mut scratch.marks)?;
    scratch.places = shape.own.into_spare();
    new.push(entry, values)
}

// Puts the entries that are kept, with copied values.
fn put_kept(new: &mut File, alloc: Global, file: &File, renaming: &Renaming) -> Result<(), NoMemory>
    requires faultless { AllByRecursion (IsFaultless file.now) renaming.now }
    requires values { value_count (records_of file.now renaming.now) ≤ FILE_LIMIT }
    requires blank { new.old.entries ≡ [] }
    ensures { OnOk result (new.new ≡ record new.old {
      entries = map
          (new_record file.now renaming.now) (records_of file.now renaming.now);
    }) }
{
    let kept = renaming.kept();
    new.reserve(kept.len());
    let mut scratch = Scratch {
        marks: Vec::new(alloc),
        places: ItemList::new(alloc),
    };
    'entries: for i in 0..kept.len() {
        let no = kept.get(i).unwrap();
        push_kept(new, alloc, file, renaming, *no, &mut scratch)?;
    }
    Ok(())
}

// The file of the entries that are kept.
fn kept_file(alloc: Global, file: &File, renaming: &Renaming) -> Result<File, NoMemory>
    requires faultless { AllByRecursion (IsFaultless file.now) renaming.now }
    requires values { value_count (records_of file.now renaming.now) ≤ FILE_LIMIT }
    ensures { IfOk result (λ new. new ≡ record file.now {
      entries = map
          (new_record file.now renaming.now) (records_of file.now renaming.now);
    }) }
{
    let mut new = begun(alloc, file)?;
    match put_kept(&mut new, alloc, file, renaming) {
        Ok(()) => Ok(new),
        Err(fault) => {
            drop(new);
            Err(fault)
        }
    }
}

// Puts the entries that are kept, with the values themselves, which are taken from the file.
fn put_taken(
    new: &mut File,
    alloc: Global,
    file: &mut File,
    renaming: &Renaming,
) -> Result<(), NoMemory>
    requires faultless { AllByRecursion (IsFaultless file.old) renaming.now }
    requires rising { IsStrictlyIncreasing renaming.now }
    requires values { value_count (records_of file.old renaming.now) ≤ FILE_LIMIT }
    requires blank { new.old.entries ≡ [] }
    ensures start { OnOk result (file.new.start ≡ file.old.start) }
    ensures global { OnOk result (file.new.global ≡ file.old.global) }
    ensures entries { OnOk result (new.new.entries
        ≡ map (new_record file.old renaming.now) (records_of file.old renaming.now)) }
{
    let kept = renaming.kept();
    new.reserve(kept.len());
    let mut scratch = Scratch {
        marks: Vec::new(alloc),
        places: ItemList::new(alloc),
    };
    'entries: for i in 0..kept.len() {
        let no = kept.get(i).unwrap();
        push_taken(new, alloc, file, renaming, *no, &mut scratch)?;
    }
    Ok(())
}

// A file of the entries that are kept, which lacks the front of the other.
fn taken_entries(alloc: Global, file: &mut File, renaming: &Renaming) -> Result<File, NoMemory>
    requires faultless { AllByRecursion (IsFaultless file.old) renaming.now }
    requires rising { IsStrictlyIncreasing renaming.now }
    requires values { value_count (records_of file.old renaming.now) ≤ FILE_LIMIT }
    ensures start { OnOk result (file.new.start ≡ file.old.start) }
    ensures global { OnOk result (file.new.global ≡ file.old.global) }
    ensures entries { IfOk result (λ new. new.entries
        ≡ map (new_record file.old renaming.now) (records_of file.old renaming.now)) }
{
    let mut new = blank(alloc, file.global().delims)?;
    match put_taken(&mut new, alloc, file, renaming) {
        Ok(()) => Ok(new),
        Err(fault) => {
            drop(new);
            Err(fault)
        }
    }
}

// The same of a file that isn't needed any more: what is kept of it is moved.
fn turned_into_kept(alloc: Global, mut file: File, renaming: &Renaming) -> Result<File, NoMemory>
    requires faultless { AllByRecursion (IsFaultless file) renaming.now }
    requires rising { IsStrictlyIncreasing renaming.now }
    requires values { value_count (records_of file renaming.now) ≤ FILE_LIMIT }
    ensures { IfOk result (λ new. new ≡ record file {
      entries = map
          (new_record file renaming.now) (records_of file renaming.now);
    }) }
{
    match taken_entries(alloc, &mut file, renaming) {
        Ok(mut new) => {
            new.take_front(file);
            Ok(new)
        }
        Err(fault) => {
            drop(file);
            Err(fault)
        }
    }
}

// What a solid keeps, with the new numbers.
fn renaming_of(alloc: Global, file: &File, no: EntryNo) -> Result<Renaming, ExtractFault>
    ensures found { IfOk result (IsKept file.now no.0) }
    ensures fault { IfErr result (IsExtractFault file.now no.0) }
{
    if !file.is_solid(no) {
        return Err(ExtractFault::Refused {
            entity: no,
            reason: ExtractReason::NotSolid,
        });
    }
    let found = reach(alloc, file, no)?;
    if let Some(refusal) = found.refusal {
        return Err(ExtractFault::Refused {
            entity: refusal.entity,
            reason: refusal.reason,
        });
    }
    let kept = found.reached.rising(alloc)?;
    let renaming = Renaming::new(alloc, kept, file.entry_count())?;
    Ok(renaming)
}

// The file of what a solid keeps, by the new numbers.
fn extraction_by(
    alloc: Global,
    file: &File,
    renaming: &Renaming,
    no: EntryNo,
) -> Result<Extraction, ExtractFault>
    requires { IsKept file.now no.0 renaming.now }
    ensures found { IfOk result (λ x. IsExtractedAs file.now no.0 x.file x.no.0) }
    ensures fault { IfErr result (IsExtractFault file.now no.0) }
{
    let new = kept_file(alloc, file, renaming)?;
    Ok(Extraction {
        file: new,
        no: renaming.number(no),
    })
}

fn extracted_as(alloc: Global, file: &File, no: EntryNo) -> Result<Extraction, ExtractFault>
    ensures found { IfOk result (λ x. IsExtractedAs file.now no.0 x.file x.no.0) }
    ensures fault { IfErr result (IsExtractFault file.now no.0) }
{
    let renaming = renaming_of(alloc, file, no)?;
    let extraction = extraction_by(alloc, file, &renaming, no);
    drop(renaming);
    extraction
}

// The same of a file that isn't needed any more.
fn turned_by(
    alloc: Global,
    file: File,
    renaming: &Renaming,
    no: EntryNo,
) -> Result<Extraction, ExtractFault>
    requires { IsKept file no.0 renaming.now }
    ensures found { IfOk result (λ x. IsExtractedAs file no.0 x.file x.no.0) }
    ensures fault { IfErr result (IsExtractFault file no.0) }
{
    let new = turned_into_kept(alloc, file, renaming)?;
    Ok(Extraction {
        file: new,
        no: renaming.number(no),
    })
}

fn turned_into_extracted(alloc: Global, file: File, no: EntryNo) -> Result<Extraction, ExtractFault>
    ensures found { IfOk result (λ x. IsExtractedAs file no.0 x.file x.no.0) }
    ensures fault { IfErr result (IsExtractFault file no.0) }
{
    match renaming_of(alloc, &file, no) {
        Ok(renaming) => {
            let extraction = turned_by(alloc, file, &renaming, no);
            drop(renaming);
            extraction
        }
        Err(fault) => {
            drop(file);
            Err(fault)
        }
    }
}

fn extracted(alloc: Global, file: &File, no: EntryNo) -> Result<File, ExtractFault>
    ensures found { IfOk result (IsExtracted file.now no.0) }
    ensures fault { IfErr result (IsExtractFault file.now no.0) }
{
    Ok(extracted_as(alloc, file, no)?.file)
}

fn extracted_of(alloc: Global, file: File, no: EntryNo) -> Result<File, ExtractFault>
    ensures found { IfOk result (IsExtracted file no.0) }
    ensures fault { IfErr result (IsExtractFault file no.0) }
{
    Ok(turned_into_extracted(alloc, file, no)?.file)
}

/// The file of a solid: the entries that a chain of references reaches from it, in rising order, renamed 1, 3, 5 and so
/// on, with the start section and the global as they are. Structure, view and label display are cut, and so are a
/// line font and a level that are entries; groups after the own values keep the names alone.
pub fn extract(alloc: Global, file: &File, no: EntryNo) -> Result<File, ExtractFault>
    ensures found { IfOk result (IsExtracted file.now no.0) }
    ensures only { (new : Contents) → IsExtracted file.now no.0 new → GivesFile result new }
    ensures fault { IfErr result (IsExtractFault file.now no.0) }
    ensures only_fault { (entity : ℕ) (reason : Reason) → IsRefused file.now no.0 entity reason
        → GivesRefusal result entity reason }
{
    extracted(alloc, file, no)
}

/// The same as `extract`, of a file that isn't needed any more: the values that are kept stay in their memory.
pub fn into_extract(alloc: Global, file: File, no: EntryNo) -> Result<File, ExtractFault>
    ensures found { IfOk result (IsExtracted file no.0) }
    ensures only { (new : Contents) → IsExtracted file no.0 new → GivesFile result new }
    ensures fault { IfErr result (IsExtractFault file no.0) }
    ensures only_fault { (entity : ℕ) (reason : Reason) → IsRefused file no.0 entity reason
        → GivesRefusal result entity reason }
{
    extracted_of(alloc, file, no)
}

/// The file of a solid as `extract` gives it, with the solid's number in it, or the refusal of `extract`.
pub fn extract_numbered(alloc: Global, file: &File, no: EntryNo) -> Result<Extraction, ExtractFault>
    ensures found { IfOk result (λ x. IsExtractedAs file.now no.0 x.file x.no.0) }
    ensures fault { IfErr result (IsExtractFault file.now no.0) }
{
    extracted_as(alloc, file, no)
}

/// The same as `extract_numbered`, of a file that isn't needed any more: the values that are kept stay in their memory.
pub fn into_extract_numbered(
    alloc: Global,
    file: File,
    no: EntryNo,
) -> Result<Extraction, ExtractFault>
    ensures found { IfOk result (λ x. IsExtractedAs file no.0 x.file x.no.0) }
    ensures fault { IfErr result (IsExtractFault file no.0) }
{
    turned_into_extracted(alloc, file, no)
}
