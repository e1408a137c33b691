//! What a solid reaches.

ghost use Rattle.iges_params.specs.Named.{named};
ghost use Rattle.solid_extract.specs.Flooding.{IsFlooded, IsToldAs, fault_at, least_of, with_refs};
ghost use Rattle.std.specs.Prelude.{◌≡◌, IfOk, IsSome, OnOk, length, pos};

use crate::fault::Refusal;
use entry_references::{
    EntrySet, ExtractReason, RefFault, RefScratch, add_numbers, put_refs, record_of,
};
use iges_base::{EntryNo, NoMemory};
use iges_params::File;
use std::alloc::Global;

/// The entries that a chain of references reaches, and the least of them that has a fault.
#[derive(Drop)]
pub struct ReachedEntries {
    pub reached: EntrySet,
    pub refusal: Option<Refusal>,
}

// The reason that is reported for a fault, unless memory ran out.
fn reason_of(fault: RefFault) -> Result<Option<ExtractReason>, NoMemory>
    ensures { IfOk result (IsToldAs fault) }
{
    match fault {
        RefFault::Unlisted => Ok(Some(ExtractReason::Unlisted)),
        RefFault::Layout => Ok(Some(ExtractReason::Layout)),
        RefFault::Dangling => Ok(Some(ExtractReason::Dangling)),
        RefFault::NoMemory => Err(NoMemory),
    }
}

// Puts what an entry refers to, or gives its fault.
fn visit(
    alloc: Global,
    file: &File,
    reached: &mut EntrySet,
    no: EntryNo,
    scratch: &mut RefScratch,
) -> Result<Option<ExtractReason>, NoMemory>
    requires { reached.old.size ≡ length file.now.entries }
    ensures reached { OnOk result (reached.new
        ≡ record reached.old { numbers = with_refs file.now reached.old.numbers no.0 }) }
    ensures fault { IfOk result (λ fault. fault ≡ fault_at file.now no.0) }
{
    let Some(record) = record_of(file, no) else {
        return Ok(None);
    };
    match put_refs(scratch, alloc, file, record.entry, record.values) {
        Ok(()) => {
            add_numbers(reached, file, &scratch.numbers)?;
            Ok(None)
        }
        Err(fault) => reason_of(fault),
    }
}

// Of the least fault so far and that of an entity the lesser one.
fn least_of(
    refusal: Option<Refusal>,
    entity: EntryNo,
    fault: Option<ExtractReason>,
) -> Option<Refusal>
    ensures { result ≡ least_of refusal entity fault }
{
    let Some(reason) = fault else {
        return refusal;
    };
    match refusal {
        Some(refusal) if refusal.entity.0 <= entity.0 => Some(refusal),
        _ => Some(Refusal { entity, reason }),
    }
}

/// What is reached from an entry. A faulty entity refers to nothing.
pub fn reach(alloc: Global, file: &File, no: EntryNo) -> Result<ReachedEntries, NoMemory>
    requires { IsSome (named file.now (pos no.0)) }
    ensures flooded { IfOk result
        (λ found. IsFlooded file.now no.0 found.reached.numbers found.refusal) }
    ensures size { IfOk result (λ found. found.reached.size ≡ length file.now.entries) }
{
    let mut reached = EntrySet::new(alloc, file.entry_count())?;
    reached.add(no)?;
    let mut refusal = None;
    let mut next = 0;
    let mut scratch = RefScratch::new(alloc);
    'entries: while let Some(entity) = reached.get(next) {
        let fault = visit(alloc, file, &mut reached, entity, &mut scratch)?;
        refusal = least_of(refusal, entity, fault);
        next += 1;
    }
    Ok(ReachedEntries { reached, refusal })
}
