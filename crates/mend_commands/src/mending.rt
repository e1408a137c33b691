//! The reply to `mend`: first by the solid's records, then by its shells.

ghost use Rattle.brep_walk.specs.SolidOf.{solid_of};
ghost use Rattle.file_replies.specs.Written.{OfWritten};
ghost use Rattle.iges_params.specs.Contents.{Contents};
ghost use Rattle.iges_write.specs.Writable.{IsWritable};
ghost use Rattle.mend_commands.specs.Due.{FailsBy, OfMend, OfPlaced};
ghost use Rattle.mend_commands.specs.State.{AreShellsOf, IsWithoutTwice};
ghost use Rattle.brep_walk.specs.Places.{places};
ghost use Rattle.solid_data.specs.Obligations.{FirstFalse};
ghost use Rattle.solid_data.specs.declared.verdict.Failing.{Failing as Failed};
ghost use Rattle.solid_extract.specs.Extracted.{IsExtractedAs};
ghost use Rattle.solid_extract.specs.Making.{IsExtractFault};
ghost use Rattle.solid_mend.specs.Mended.{IsMendingOf};
ghost use Rattle.std.specs.Prelude.{◌≡◌, ℕ, IfOk, Option, unwrap_or};

use crate::naming::{WithoutTwice, without_twice};
use crate::state::{Shells, State, state_of};
use crate::telling::unmended;
use crate::writable::recall_writable;
use brep_walk::{WalkFault, walk};
use command_replies::{Reply, failed};
use file_replies::{refused, written, written_new};
use iges_base::{EntryNo, NoMemory};
use iges_params::File;
use solid_data::{Failing, Solid};
use solid_extract::{ExtractFault, Extraction, into_extract_numbered};
use solid_mend::{Choice, Mended, Mending, mend};
use std::alloc::Global;

// The solid of what was extracted, whose places hold as they did: the walk errs only where memory runs out.
fn extracted_solid(alloc: Global, extraction: &Extraction) -> Result<Solid, NoMemory>
    ensures { IfOk result (λ solid. solid ≡ solid_of extraction.now.file extraction.now.no.0) }
{
    match walk(alloc, &extraction.file, extraction.no) {
        Ok(solid) => Ok(solid),
        Err(WalkFault::Fails(_)) => Err(NoMemory),
        Err(WalkFault::NoMemory) => Err(NoMemory),
    }
}

/// What comes of mending a solid that was extracted.
pub fn mending_of(
    alloc: Global,
    extraction: &Extraction,
    choice: Choice,
) -> Result<Mending, NoMemory>
    ensures { IfOk result (IsMendingOf extraction.now.file extraction.now.no.0) }
{
    let solid = extracted_solid(alloc, extraction)?;
    mend(alloc, &extraction.file, extraction.no, solid, choice)
}

fn mended(alloc: Global, new: Mended) -> Result<Reply, NoMemory>
    ensures writable { IsWritable new.file }
    ensures reply { IfOk result (λ reply. OfWritten new.file reply.answer reply.text) }
{
    recall_writable(&new.file);
    written_new(alloc, new.file)
}

// The reply for an extracted solid that fails by a rule on shells, where this failing is told.
fn mend_extracted(
    alloc: Global,
    extraction: Extraction,
    told: Failing,
    choice: Choice,
) -> Result<Reply, NoMemory>
    ensures { (f : Contents) (n : ℕ) (x : Failed) (twice : Option Failed) → FailsBy n f x → told ≡ unwrap_or twice x
        → IsExtractedAs f n extraction.file extraction.no.0 → IfOk result (λ reply. OfPlaced n f twice reply.answer reply.text) }
{
    match mending_of(alloc, &extraction, choice)? {
        Mending::Mended(new) => {
            drop(extraction);
            mended(alloc, new)
        }
        Mending::Unmended(why) => {
            drop(extraction);
            unmended(alloc, told, why)
        }
    }
}

// The reply for a solid that was extracted.
fn by_shells(
    alloc: Global,
    extraction: Extraction,
    shells: Shells,
    twice: Option<Failing>,
    choice: Choice,
) -> Result<Reply, NoMemory>
    ensures { (f : Contents) (n : ℕ) → AreShellsOf f n shells → IsExtractedAs f n extraction.file extraction.no.0
        → IfOk result (λ reply. OfPlaced n f twice reply.answer reply.text) }
{
    match shells {
        Shells::Closed => written(alloc, extraction.file),
        Shells::Fails(failing) => {
            mend_extracted(alloc, extraction, twice.unwrap_or(failing), choice)
        }
    }
}

// The reply for a solid that isn't extracted.
fn not_extracted(alloc: Global, fault: ExtractFault) -> Result<Reply, NoMemory>
    ensures { (f : Contents) (n : ℕ) (twice : Option Failed) → IsExtractFault f n fault
        → IfOk result (λ reply. OfPlaced n f twice reply.answer reply.text) }
{
    match fault {
        ExtractFault::Refused { entity, reason } => refused(alloc, entity, reason),
        ExtractFault::NoMemory => Err(NoMemory),
    }
}

// The reply for a solid whose records are right, in the file without what it named twice, if it did.
fn mend_placed(
    alloc: Global,
    file: File,
    no: u32,
    shells: Shells,
    twice: Option<Failing>,
    choice: Choice,
) -> Result<Reply, NoMemory>
    ensures { AreShellsOf file no shells
        → IfOk result (λ reply. OfPlaced no file twice reply.answer reply.text) }
{
    match into_extract_numbered(alloc, file, EntryNo(no)) {
        Ok(extraction) => by_shells(alloc, extraction, shells, twice, choice),
        Err(fault) => not_extracted(alloc, fault),
    }
}

// The reply for a solid of which a record fails.
fn by_naming(
    alloc: Global,
    found: WithoutTwice,
    no: u32,
    failing: Failing,
    choice: Choice,
) -> Result<Reply, NoMemory>
    ensures { (f : Contents) → FirstFalse (places f no) failing → IsWithoutTwice f no failing found
        → IfOk result (λ reply. OfMend no f reply.answer reply.text) }
{
    match found {
        WithoutTwice::Refused { entity, reason } => refused(alloc, entity, reason),
        WithoutTwice::Fails => failed(alloc, failing),
        WithoutTwice::Again(again) => {
            mend_placed(alloc, again.file, no, again.shells, Some(failing), choice)
        }
    }
}

fn mend_misplaced(
    alloc: Global,
    file: File,
    no: u32,
    failing: Failing,
    choice: Choice,
) -> Result<Reply, NoMemory>
    requires { FirstFalse (places file no) failing }
    ensures { IfOk result (λ reply. OfMend no file reply.answer reply.text) }
{
    let found = without_twice(alloc, &file, no, failing);
    drop(file);
    match found {
        Ok(found) => by_naming(alloc, found, no, failing, choice),
        Err(fault) => Err(fault),
    }
}

/// The file in which a solid of a file is closed, made of the file that `extract` gives by changes of topology records alone; or
/// why there is none. Where a record fails only since the solid names something twice, the file without that is mended.
pub fn mend_solid(alloc: Global, file: File, no: u32, choice: Choice) -> Result<Reply, NoMemory>
    ensures { IfOk result (λ reply. OfMend no file reply.answer reply.text) }
{
    match state_of(alloc, &file, no)? {
        State::Misplaced(failing) => mend_misplaced(alloc, file, no, failing, choice),
        State::Placed(shells) => mend_placed(alloc, file, no, shells, None, choice),
    }
}
