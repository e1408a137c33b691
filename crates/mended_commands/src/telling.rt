//! The reply to `mended`: the changes by which `mend` makes its file.

ghost use Rattle.iges_params.specs.Contents.{Contents};
ghost use Rattle.iges_write.specs.Writable.{IsWritable};
ghost use Rattle.mend_commands.specs.Due.{FailsBy};
ghost use Rattle.mend_commands.specs.State.{AreShellsOf};
ghost use Rattle.brep_walk.specs.Places.{places};
ghost use Rattle.named_once.specs.declared.places.Dropped.{Dropped as Place};
ghost use Rattle.solid_data.specs.Obligations.{FirstFalse};
ghost use Rattle.solid_data.specs.declared.verdict.Failing.{Failing as Failed};
ghost use Rattle.brep_walk.specs.SolidOf.{solid_of};
ghost use Rattle.mended_commands.specs.Due.{OfMended, OfTold, OfToldPlaced, closed_told, dropped_line, remedies_told as all_told};
ghost use Rattle.solid_extract.specs.Extracted.{IsExtractedAs};
ghost use Rattle.solid_extract.specs.Making.{IsExtractFault};
ghost use Rattle.std.specs.Prelude.{◌≡◌, ◌++◌, [], ℕ, IfOk, List, None, Option, Some, flat_map};

use crate::remedies::{changes_told, put_dropped};
use command_replies::{Answer, Reply, failed, too_large};
use file_replies::refused;
use iges_base::{Bytes, EntryNo, FILE_LIMIT, NoMemory, Out, write_number};
use iges_params::File;
use iges_write::{WriteFileFault, write_file};
use mend_commands::{
    Again, Choice, Shells, State, WithoutTwice, mending_of, recall_writable, state_of, unmended,
    without_twice,
};
use named_once::Dropped;
use solid_data::Failing;
use solid_extract::{ExtractFault, Extraction, extract_numbered};
use solid_mend::{Mended, Mending};
use std::alloc::Global;

// What is told of a closed solid.
fn closed_text(alloc: Global, no: u32, dropped: &[Dropped]) -> Result<Bytes, NoMemory>
    ensures { IfOk result (λ text. text ≡ closed_told no dropped.now) }
{
    let mut out = Out::new(alloc);
    if dropped.len() > 0 {
        put_dropped(&mut out, dropped)?;
        return Ok(out.into_bytes());
    }
    out.put(b"closed ")?;
    write_number(&mut out, u64::from(no))?;
    out.put(b"\n")?;
    Ok(out.into_bytes())
}

// What is told where this file would be written.
fn told(alloc: Global, file: &File, text: Bytes) -> Result<Reply, NoMemory>
    ensures { IfOk result (λ reply. OfTold file.now text reply.answer reply.text) }
{
    match write_file(alloc, file, FILE_LIMIT) {
        Ok(_) => Ok(Reply {
            answer: Answer::Done,
            text,
        }),
        Err(WriteFileFault::TooLarge) => Ok(too_large()),
        Err(WriteFileFault::NoMemory) => Err(NoMemory),
    }
}

fn told_mended(
    alloc: Global,
    file: &File,
    no: u32,
    dropped: &[Dropped],
    new: &Mended,
) -> Result<Reply, NoMemory>
    ensures writable { IsWritable new.now.file }
    ensures reply { IfOk result (λ reply. OfTold new.now.file (flat_map dropped_line dropped.now
        ++ all_told file.now (solid_of file.now no) new.now.numbers.items new.now.changes) reply.answer reply.text) }
{
    recall_writable(&new.file);
    let changes = new.changes.as_slice();
    let text = changes_told(alloc, file, no, dropped, new.numbers.as_slice(), changes)?;
    told(alloc, &new.file, text)
}

/// What is asked for: a solid, and which remedies are to be taken; and the first place that names something twice, if the file is
/// without that.
#[derive(Clone, Copy)]
pub struct Asked {
    pub no: u32,
    pub choice: Choice,
    pub twice: Option<Failing>,
}

// Of an extracted solid that fails by this rule on shells.
fn tell_failing(
    alloc: Global,
    file: &File,
    extraction: &Extraction,
    dropped: &[Dropped],
    failing: Failing,
    asked: Asked,
) -> Result<Reply, NoMemory>
    requires fails { FailsBy asked.no file.now failing }
    requires extracted { IsExtractedAs file.now asked.no extraction.now.file extraction.now.no.0 }
    ensures { IfOk result (λ reply. OfToldPlaced asked.no file.now asked.twice dropped.now reply.answer reply.text) }
{
    match mending_of(alloc, extraction, asked.choice)? {
        Mending::Mended(new) => told_mended(alloc, file, asked.no, dropped, &new),
        Mending::Unmended(why) => unmended(alloc, asked.twice.unwrap_or(failing), why),
    }
}

// Of a solid that was extracted.
fn tell_by_shells(
    alloc: Global,
    file: &File,
    extraction: &Extraction,
    shells: Shells,
    dropped: &[Dropped],
    asked: Asked,
) -> Result<Reply, NoMemory>
    requires shells { AreShellsOf file.now asked.no shells }
    requires extracted { IsExtractedAs file.now asked.no extraction.now.file extraction.now.no.0 }
    ensures { IfOk result (λ reply. OfToldPlaced asked.no file.now asked.twice dropped.now reply.answer reply.text) }
{
    match shells {
        Shells::Closed => {
            let text = closed_text(alloc, asked.no, dropped)?;
            told(alloc, &extraction.file, text)
        }
        Shells::Fails(failing) => tell_failing(alloc, file, extraction, dropped, failing, asked),
    }
}

// Of a solid that isn't extracted.
fn not_extracted(alloc: Global, fault: ExtractFault) -> Result<Reply, NoMemory>
    ensures { (f : Contents) (n : ℕ) (twice : Option Failed) (ds : List Place) → IsExtractFault f n fault
        → IfOk result (λ reply. OfToldPlaced n f twice ds reply.answer reply.text) }
{
    match fault {
        ExtractFault::Refused { entity, reason } => refused(alloc, entity, reason),
        ExtractFault::NoMemory => Err(NoMemory),
    }
}

// Of a solid whose records are right, in the file without what it named twice, if it did.
fn tell_placed(
    alloc: Global,
    file: &File,
    shells: Shells,
    dropped: &[Dropped],
    asked: Asked,
) -> Result<Reply, NoMemory>
    requires { AreShellsOf file.now asked.no shells }
    ensures { IfOk result (λ reply. OfToldPlaced asked.no file.now asked.twice dropped.now reply.answer reply.text) }
{
    match extract_numbered(alloc, file, EntryNo(asked.no)) {
        Ok(extraction) => tell_by_shells(alloc, file, &extraction, shells, dropped, asked),
        Err(fault) => not_extracted(alloc, fault),
    }
}

// Of a file without what a solid names twice, this place being the first.
fn tell_again(
    alloc: Global,
    again: &Again,
    no: u32,
    failing: Failing,
    choice: Choice,
) -> Result<Reply, NoMemory>
    requires { AreShellsOf again.now.file no again.now.shells }
    ensures { IfOk result (λ reply. OfToldPlaced no again.now.file (Some failing) again.now.dropped reply.answer reply.text) }
{
    let asked = Asked {
        no,
        choice,
        twice: Some(failing),
    };
    tell_placed(
        alloc,
        &again.file,
        again.shells,
        again.dropped.as_slice(),
        asked,
    )
}

// Of a solid of which a record fails.
fn tell_misplaced(
    alloc: Global,
    file: &File,
    no: u32,
    failing: Failing,
    choice: Choice,
) -> Result<Reply, NoMemory>
    requires { FirstFalse (places file.now no) failing }
    ensures { IfOk result (λ reply. OfMended no file.now reply.answer reply.text) }
{
    match without_twice(alloc, file, no, failing)? {
        WithoutTwice::Refused { entity, reason } => refused(alloc, entity, reason),
        WithoutTwice::Fails => failed(alloc, failing),
        WithoutTwice::Again(again) => tell_again(alloc, &again, no, failing, choice),
    }
}

// Of a solid whose records are right.
fn tell_here(
    alloc: Global,
    file: &File,
    no: u32,
    shells: Shells,
    choice: Choice,
) -> Result<Reply, NoMemory>
    requires { AreShellsOf file.now no shells }
    ensures { IfOk result (λ reply. OfToldPlaced no file.now None [] reply.answer reply.text) }
{
    let asked = Asked {
        no,
        choice,
        twice: None,
    };
    tell_placed(alloc, file, shells, &[], asked)
}

fn tell(alloc: Global, file: &File, no: u32, choice: Choice) -> Result<Reply, NoMemory>
    ensures { IfOk result (λ reply. OfMended no file.now reply.answer reply.text) }
{
    match state_of(alloc, file, no)? {
        State::Misplaced(failing) => tell_misplaced(alloc, file, no, failing, choice),
        State::Placed(shells) => tell_here(alloc, file, no, shells, choice),
    }
}

/// What `mend` would change of a solid of a file, by the numbers of that file; else the same answer as `mend` has.
pub fn mended_solid(alloc: Global, file: File, no: u32, choice: Choice) -> Result<Reply, NoMemory>
    ensures { IfOk result (λ reply. OfMended no file reply.answer reply.text) }
{
    tell(alloc, &file, no, choice)
}
