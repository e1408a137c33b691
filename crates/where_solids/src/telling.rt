//! What is said of one solid of a file.

ghost use Rattle.brep_walk.specs.Places.{places};
ghost use Rattle.brep_walk.specs.SolidOf.{solid_of};
ghost use Rattle.iges_base.specs.declared.entry_no.EntryNo.{EntryNo as AnyEntryNo};
ghost use Rattle.solid_data.specs.Obligations.{AllHold, FirstFalse};
ghost use Rattle.std.specs.Prelude.{◌≡◌, ◌++◌, ◌∷◌, ℕ, [], List, IfOk, OnOk};
ghost use Rattle.solid_hints.specs.AllFaults.{AreAllFaults, failing_shells};
ghost use Rattle.solid_hints.specs.ShellHints.{IsHint, ShellRemedies};
ghost use Rattle.solid_hints.specs.Viewed.{file_solid};
ghost use Rattle.where_solids.specs.ShellTexts.{shell_lines, shell_texts as texts_of};
ghost use Rattle.where_solids.specs.Told.{IsToldOf};
ghost use Rattle.where_solids.specs.Viewed.{HasAllFaults, IsHintOn, IsIn, entity_of, failing_of, lines_of, paragraphs_of};
ghost use Rattle.where_text.specs.Listing.{shown};

use crate::lines::{put_shells, put_units, put_verdict};
use crate::record_texts::put_record_rest;
use crate::shell_texts::{put_paragraphs, put_shell_lines, spelled};
use crate::verdicts::verdict;
use brep_walk::{WalkFault, walk};
use iges_base::{Bytes, EntryNo, ItemList, NoMemory, Out};
use record_paths::path_of;
use solid_data::{Failing, Solid, Verdict};
use solid_hints::{AllFaults, HintedSolid, all_faults, failing_shells, put_hint};
use spelled_solid::SpelledSolid;
use std::alloc::Global;
use where_entities::put_entities;
use where_places::PlacedFile;
use where_records::FailingRecord;
use where_shells::Page;
use where_text::{Listing, put_more_items, shown_members};

/// The verdict on a solid, and a text that says where it fails.
#[derive(Drop)]
pub struct Told {
    pub verdict: Verdict,
    pub text: Bytes,
}

fn of_records(
    alloc: Global,
    placed: &PlacedFile,
    no: EntryNo,
    failing: Failing,
    listing: Listing,
) -> Result<Told, NoMemory>
    requires { FirstFalse (places placed.now.file no.0) failing }
    ensures { IfOk result (λ told. (remedies : List ShellRemedies)
        × IsToldOf listing placed.now no remedies told.verdict told.text) }
{
    let fault = FailingRecord {
        solid: no,
        failing,
        path: path_of(&placed.file, no, failing),
    };
    let verdict = Verdict::Fails(failing);
    let mut out = Out::new(alloc);
    put_verdict(&mut out, no, verdict)?;
    put_record_rest(alloc, &mut out, placed, fault)?;
    Ok(Told {
        verdict,
        text: out.into_bytes(),
    })
}

// What comes between the verdict and the hints, where these shells fail.
fn put_lines(
    alloc: Global,
    out: &mut Out,
    view: &HintedSolid<'_>,
    failing: &[u32],
) -> Result<(), NoMemory>
    requires { failing.now ≡ failing_of view.now }
    ensures { OnOk result (out.new ≡ out.old ++ lines_of view.now) }
{
    let count = view.solid.shell_count();
    let shells = shown_members(view.listing, failing);
    put_units(out, view.file)?;
    put_shells(out, count, failing.len())?;
    put_shell_lines(alloc, out, view, shells)?;
    put_more_items(out, failing.len() - shells.len())
}

// What follows the verdict, where these shells fail.
fn put_failing_shells(
    alloc: Global,
    page: &mut Page,
    placed: &PlacedFile,
    view: &HintedSolid<'_>,
    spelled: &SpelledSolid<'_>,
    failing: &[u32],
) -> Result<(), NoMemory>
    requires spelled { spelled.now ≡ file_solid view.now }
    requires faults { HasAllFaults view.now }
    requires file { IsIn view.now placed.now }
    requires failing { failing.now ≡ failing_of view.now }
    requires named { page.old.named ≡ entity_of view.now ∷ [] }
    ensures { IfOk result (λ _. (remedies : List ShellRemedies) × (hint : List ℕ) × (faces : List AnyEntryNo)
        × IsHintOn view.now remedies hint faces
        × (page.new.out ≡ page.old.out ++ (lines_of view.now ++ hint
        ++ paragraphs_of view.now placed.now faces))) }
{
    let shells = shown_members(view.listing, failing);
    put_lines(alloc, &mut page.out, view, failing)?;
    let (out, named) = (&mut page.out, &mut page.named);
    put_hint(alloc, out, named, view, spelled, shells)?;
    put_paragraphs(alloc, page, view, spelled, shells)?;
    put_entities(alloc, &mut page.out, placed, &page.named)
}

// The same, once the solid is spelled.
fn put_spelled(
    alloc: Global,
    page: &mut Page,
    placed: &PlacedFile,
    view: &HintedSolid<'_>,
    failing: &[u32],
) -> Result<(), NoMemory>
    requires faults { HasAllFaults view.now }
    requires file { IsIn view.now placed.now }
    requires failing { failing.now ≡ failing_of view.now }
    requires named { page.old.named ≡ entity_of view.now ∷ [] }
    ensures { IfOk result (λ _. (remedies : List ShellRemedies) × (hint : List ℕ) × (faces : List AnyEntryNo)
        × IsHintOn view.now remedies hint faces
        × (page.new.out ≡ page.old.out ++ (lines_of view.now ++ hint
        ++ paragraphs_of view.now placed.now faces))) }
{
    let spelled = spelled(alloc, view, failing)?;
    let put = put_failing_shells(alloc, page, placed, view, &spelled, failing);
    drop(spelled);
    put
}

// What follows the verdict on a solid of which all obligations on records hold.
fn put_shells_rest(
    alloc: Global,
    page: &mut Page,
    placed: &PlacedFile,
    solid: &Solid,
    all: &AllFaults,
    listing: Listing,
) -> Result<(), NoMemory>
    requires faults { AreAllFaults solid.now all.now }
    requires named { page.old.named ≡ solid.now.entity ∷ [] }
    ensures { IfOk result (λ _. (remedies : List ShellRemedies) × (hint : List ℕ) × (faces : List AnyEntryNo)
        × IsHint listing placed.now.file solid.now all.now (shown listing (failing_shells all.now)) remedies hint faces
        × (page.new.out ≡ page.old.out ++ (shell_lines listing placed.now.file solid.now all.now ++ hint
        ++ texts_of listing placed.now solid.now all.now faces))) }
{
    solid.recall_numbering();
    let failing = failing_shells(alloc, all)?;
    let view = HintedSolid {
        file: &placed.file,
        solid,
        all,
        listing,
    };
    let put = put_spelled(alloc, page, placed, &view, failing.as_slice());
    drop(failing);
    put
}

// A page of nothing, which names the solid.
fn page_of(alloc: Global, solid: &Solid) -> Result<Page, NoMemory>
    ensures out { IfOk result (λ page. page.out ≡ []) }
    ensures named { IfOk result (λ page. page.named ≡ solid.now.entity ∷ []) }
{
    let mut named = ItemList::new(alloc);
    named.push(solid.entity())?;
    Ok(Page {
        out: Out::new(alloc),
        named,
    })
}

// What is told of a solid, if this is all that fails in its shells.
fn told_of(
    alloc: Global,
    placed: &PlacedFile,
    no: EntryNo,
    solid: &Solid,
    all: &AllFaults,
    listing: Listing,
) -> Result<Told, NoMemory>
    requires placed { AllHold (places placed.now.file no.0) }
    requires solid { solid.now ≡ solid_of placed.now.file no.0 }
    requires faults { AreAllFaults solid.now all.now }
    ensures { IfOk result (λ told. (remedies : List ShellRemedies)
        × IsToldOf listing placed.now no remedies told.verdict told.text) }
{
    let verdict = verdict(solid, all);
    let mut page = page_of(alloc, solid)?;
    put_verdict(&mut page.out, no, verdict)?;
    put_shells_rest(alloc, &mut page, placed, solid, all, listing)?;
    Ok(Told {
        verdict,
        text: page.out.into_bytes(),
    })
}

fn of_shells(
    alloc: Global,
    placed: &PlacedFile,
    no: EntryNo,
    solid: &Solid,
    listing: Listing,
) -> Result<Told, NoMemory>
    requires placed { AllHold (places placed.now.file no.0) }
    requires solid { solid.now ≡ solid_of placed.now.file no.0 }
    ensures { IfOk result (λ told. (remedies : List ShellRemedies)
        × IsToldOf listing placed.now no remedies told.verdict told.text) }
{
    let all = all_faults(alloc, solid)?;
    let told = told_of(alloc, placed, no, solid, &all, listing);
    drop(all);
    told
}

/// The verdict on the solid with this number, and where it fails. Where a rule on its records fails, that is reported
/// alone; else all that fails in its shells. It errs only where memory runs out. The solid's records are walked once,
/// and the uses of each failing shell that is described a few times.
pub fn tell(
    alloc: Global,
    placed: &PlacedFile,
    no: EntryNo,
    listing: Listing,
) -> Result<Told, NoMemory>
    ensures { IfOk result (λ told. (remedies : List ShellRemedies)
        × IsToldOf listing placed.now no remedies told.verdict told.text) }
{
    match walk(alloc, &placed.file, no) {
        Ok(solid) => of_shells(alloc, placed, no, &solid, listing),
        Err(WalkFault::Fails(failing)) => of_records(alloc, placed, no, failing, listing),
        Err(WalkFault::NoMemory) => Err(NoMemory),
    }
}
