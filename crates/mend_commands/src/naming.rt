//! A solid of which a record fails: whether it is only that it names something twice.

ghost use Rattle.brep_walk.specs.Places.{places};
ghost use Rattle.mend_commands.specs.Due.{IsOnce, is_twice};
ghost use Rattle.mend_commands.specs.State.{IsAgain, IsWithoutTwice};
ghost use Rattle.solid_data.specs.Obligations.{FirstFalse};
ghost use Rattle.iges_params.specs.Contents.{Contents};
ghost use Rattle.solid_extract.specs.Extracted.{IsExtracted};
ghost use Rattle.solid_extract.specs.Making.{IsExtractFault};
ghost use Rattle.solid_data.specs.declared.verdict.Failing.{Failing as Failed};
ghost use Rattle.std.specs.Prelude.{ℕ, ◌≡◌, IfErr, IfNone, IfOk, IfSome, OnOk};

use crate::state::{Shells, State, state_of};
use entry_references::ExtractReason;
use iges_base::{EntryNo, ItemList, NoMemory};
use iges_params::File;
use named_once::{Dropped, once};
use solid_data::{Failing, Rule};
use solid_extract::{ExtractFault, extract_numbered};
use std::alloc::Global;

/// The file without what the solid names twice.
#[derive(Drop)]
pub struct Again {
    pub file: File,
    /// What was left out.
    pub dropped: ItemList<Dropped>,
    /// How the solid fares then.
    pub shells: Shells,
}

/// What becomes of a solid of which a record fails.
#[derive(Drop)]
pub enum WithoutTwice {
    /// It can't be extracted: the first entity in the way, and why.
    Refused {
        entity: EntryNo,
        reason: ExtractReason,
    },
    /// A record fails also without what it names twice.
    Fails,
    /// None does then.
    Again(Again),
}

fn is_twice(rule: Rule) -> bool
    ensures { result ≡ is_twice rule }
{
    matches!(rule, Rule::Twice)
}

fn again_of(
    alloc: Global,
    file: &File,
    no: u32,
    failing: Failing,
) -> Result<Option<Again>, NoMemory>
    requires { FirstFalse (places file.now no) failing }
    ensures some { IfOk result (λ o. IfSome o (IsAgain file.now no failing)) }
    ensures none { IfOk result (λ o. IfNone o (¬ IsOnce no file.now failing)) }
{
    if !is_twice(failing.rule) {
        return Ok(None);
    }
    let made = once(alloc, file, EntryNo(no))?;
    match state_of(alloc, &made.file, no)? {
        State::Misplaced(_) => Ok(None),
        State::Placed(shells) => Ok(Some(Again {
            file: made.file,
            dropped: made.dropped,
            shells,
        })),
    }
}

fn is_extracted(alloc: Global, file: &File, no: u32) -> Result<(), ExtractFault>
    ensures found { OnOk result ((g : Contents) × IsExtracted file.now no g) }
    ensures fault { IfErr result (IsExtractFault file.now no) }
{
    extract_numbered(alloc, file, EntryNo(no))?;
    Ok(())
}

fn refused_by(fault: ExtractFault) -> Result<WithoutTwice, NoMemory>
    ensures { (f : Contents) (n : ℕ) (x : Failed) → IsExtractFault f n fault
        → IfOk result (IsWithoutTwice f n x) }
{
    match fault {
        ExtractFault::Refused { entity, reason } => Ok(WithoutTwice::Refused { entity, reason }),
        ExtractFault::NoMemory => Err(NoMemory),
    }
}

/// What becomes of a solid of which this place is the first that fails.
pub fn without_twice(
    alloc: Global,
    file: &File,
    no: u32,
    failing: Failing,
) -> Result<WithoutTwice, NoMemory>
    requires { FirstFalse (places file.now no) failing }
    ensures { IfOk result (IsWithoutTwice file.now no failing) }
{
    match is_extracted(alloc, file, no) {
        Ok(()) => {}
        Err(fault) => return refused_by(fault),
    }
    match again_of(alloc, file, no, failing)? {
        Some(again) => Ok(WithoutTwice::Again(again)),
        None => Ok(WithoutTwice::Fails),
    }
}
