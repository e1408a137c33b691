//! What is said of the shells of a solid that fail.

ghost use Rattle.std.specs.Prelude.{◌≡◌, ◌++◌, ◌∷◌, IfOk, OnOk, flat_map};
ghost use Rattle.where_shells.specs.Viewed.{HasFaces, HasRows, HasShell};
ghost use Rattle.solid_hints.specs.Viewed.{file_solid};
ghost use Rattle.where_solids.specs.Viewed.{AreFaults, HasAllFaults, fault_faces, fault_paragraphs, gap_listing as listing_of_gaps, line_at, named_at, paragraphs_at, touches_of};

use crate::fault_paragraphs::put_faults;
use crate::gaps::gap_listing;
use crate::lines::put_shell_line;
use edge_uses::rows;
use iges_base::{NoMemory, Out};
use shell_facts::{VertexFaces, faces_by_vertex};
use solid_data::{Shell, ShellAt};
use solid_faults::ShellFaults;
use solid_hints::HintedSolid;
use spelled_solid::SpelledSolid;
use std::alloc::Global;
use where_shells::{Page, ShellView};
use where_text::Listing;

fn put_line(alloc: Global, out: &mut Out, view: &HintedSolid<'_>, k: u32) -> Result<(), NoMemory>
    ensures { OnOk result (out.new ≡ out.old ++ line_at view.now k) }
{
    let at = ShellAt(k);
    let Some(shell) = view.solid.shell(at) else {
        return Ok(());
    };
    let Some(faults) = view.all.get(k as usize) else {
        return Ok(());
    };
    let rows = rows(alloc, view.solid, at)?;
    let put = put_shell_line(out, at, shell, &rows, faults);
    drop(rows);
    put
}

/// The lines of these shells, given by their numbers from 0.
pub fn put_shell_lines(
    alloc: Global,
    out: &mut Out,
    view: &HintedSolid<'_>,
    shells: &[u32],
) -> Result<(), NoMemory>
    ensures { OnOk result (out.new ≡ out.old ++ flat_map (line_at view.now) shells.now) }
{
    'shells: for i in 0..shells.len() {
        put_line(alloc, out, view, shells[i])?;
    }
    Ok(())
}

// The paragraphs of a shell, on which these are the faults.
fn put_described(
    alloc: Global,
    page: &mut Page,
    view: &ShellView<'_>,
    shell: &Shell,
    faults: &ShellFaults,
) -> Result<(), NoMemory>
    requires shell { HasShell view.now }
    requires rows { HasRows view.now }
    requires faces { HasFaces view.now }
    requires faults { AreFaults view.now faults.now }
    ensures paragraphs { OnOk result (page.new.out ≡ page.old.out
        ++ fault_paragraphs view.now faults.now) }
    ensures named { OnOk result (page.new.named ≡ page.old.named
        ++ shell.now.entity ∷ fault_faces view.now faults.now) }
{
    page.named.push(shell.entity)?;
    put_faults(alloc, page, view, faults)
}

// What serves for each shell of a solid: its words, the faces at each vertex, and how much is written of the gaps.
#[derive(Drop)]
struct Shared<'a> {
    spelled: &'a SpelledSolid<'a>,
    faces: &'a VertexFaces,
    gaps: Listing,
}

fn put_shell(
    alloc: Global,
    page: &mut Page,
    view: &HintedSolid<'_>,
    shared: &Shared<'_>,
    k: u32,
) -> Result<(), NoMemory>
    requires faults { HasAllFaults view.now }
    requires spelled { shared.now.spelled.now ≡ file_solid view.now }
    requires faces { shared.now.faces.now ≡ touches_of view.now }
    requires gaps { shared.now.gaps ≡ listing_of_gaps view.now }
    ensures paragraphs { OnOk result (page.new.out ≡ page.old.out ++ paragraphs_at view.now k) }
    ensures named { OnOk result (page.new.named ≡ page.old.named ++ named_at view.now k) }
{
    let at = ShellAt(k);
    let Some(shell) = view.solid.shell(at) else {
        return Ok(());
    };
    let Some(faults) = view.all.get(k as usize) else {
        return Ok(());
    };
    let rows = rows(alloc, view.solid, at)?;
    let described = ShellView {
        file: view.file,
        solid: view.solid,
        spelled: shared.spelled,
        at,
        rows: &rows,
        faces: shared.faces,
        listing: view.listing,
        gaps: shared.gaps,
    };
    let put = put_described(alloc, page, &described, shell, faults);
    drop(rows);
    put
}

fn put_each(
    alloc: Global,
    page: &mut Page,
    view: &HintedSolid<'_>,
    shared: &Shared<'_>,
    shells: &[u32],
) -> Result<(), NoMemory>
    requires faults { HasAllFaults view.now }
    requires spelled { shared.now.spelled.now ≡ file_solid view.now }
    requires faces { shared.now.faces.now ≡ touches_of view.now }
    requires gaps { shared.now.gaps ≡ listing_of_gaps view.now }
    ensures paragraphs { OnOk result (page.new.out ≡ page.old.out
        ++ flat_map (paragraphs_at view.now) shells.now) }
    ensures named { OnOk result (page.new.named ≡ page.old.named
        ++ flat_map (named_at view.now) shells.now) }
{
    'shells: for i in 0..shells.len() {
        put_shell(alloc, page, view, shared, shells[i])?;
    }
    Ok(())
}

/// The solid, of which these shells fail, spelled where many of its parts may be named.
pub fn spelled<'a>(
    alloc: Global,
    view: &HintedSolid<'a>,
    failing: &[u32],
) -> Result<SpelledSolid<'a>, NoMemory>
    ensures { IfOk result (λ s. s ≡ file_solid view.now) }
{
    if failing.is_empty() {
        return Ok(SpelledSolid::new(alloc, view.file, view.solid));
    }
    match view.listing {
        Listing::Few => Ok(SpelledSolid::new(alloc, view.file, view.solid)),
        Listing::All => SpelledSolid::spell(alloc, view.file, view.solid),
    }
}

/// The paragraphs of these shells, given by their numbers from 0. The shells, and the entities that their paragraphs name,
/// join the others that are named.
pub fn put_paragraphs(
    alloc: Global,
    page: &mut Page,
    view: &HintedSolid<'_>,
    spelled: &SpelledSolid<'_>,
    shells: &[u32],
) -> Result<(), NoMemory>
    requires faults { HasAllFaults view.now }
    requires spelled { spelled.now ≡ file_solid view.now }
    ensures paragraphs { OnOk result (page.new.out ≡ page.old.out
        ++ flat_map (paragraphs_at view.now) shells.now) }
    ensures named { OnOk result (page.new.named ≡ page.old.named
        ++ flat_map (named_at view.now) shells.now) }
{
    if shells.is_empty() {
        return Ok(());
    }
    let faces = faces_by_vertex(alloc, view.solid)?;
    let shared = Shared {
        spelled,
        faces: &faces,
        gaps: gap_listing(view.listing, view.all.as_slice()),
    };
    let put = put_each(alloc, page, view, &shared, shells);
    drop(faces);
    put
}
