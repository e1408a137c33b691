//! The hints on the failing shells of a solid.

ghost use Rattle.iges_base.specs.declared.entry_no.EntryNo.{EntryNo as AnyEntryNo};
ghost use Rattle.std.specs.Prelude.{◌≡◌, ◌++◌, IfOk, List, flat_map, ℕ};
ghost use Rattle.solid_hints.specs.ShellHints.{ShellRemedies};
ghost use Rattle.solid_hints.specs.Viewed.{AreRemediesOf, IsGeometryOf, IsHint, file_solid, named_at, remedies_at};

use crate::flags::{pair_fails, put_flags, tells_flags, unset_flags};
use crate::remedies::{TriedSolid, put_each_tried};
use crate::shell_faults::{AllFaults, belows};
use iges_base::{NoMemory, Out};
use iges_params::File;
use remedy_text::RemedyView;
use shell_change::Known;
use solid_data::Solid;
use solid_geometry::known_of;
use spelled_solid::SpelledSolid;
use std::alloc::Global;
use where_text::{EntryNumbers, Listing};

/// A solid of a file, all that fails in it, and how much is written of each list.
#[derive(Drop)]
pub struct HintedSolid<'a> {
    pub file: &'a File,
    pub solid: &'a Solid,
    pub all: &'a AllFaults,
    pub listing: Listing,
}

// The remedies of each of these shells, where this is known of the geometry.
fn put_below(
    alloc: Global,
    out: &mut Out,
    named: &mut EntryNumbers,
    view: &RemedyView<'_>,
    known: &Known,
    shells: &[u32],
) -> Result<(), NoMemory>
    requires { IsGeometryOf view.now known.now.geometry }
    ensures { IfOk result (λ _. (told : List ShellRemedies)
        × AreRemediesOf view.now shells.now told
        × (out.new ≡ out.old ++ flat_map (remedies_at view.now) told)
        × (named.new ≡ named.old ++ flat_map (named_at view.now) told)) }
{
    let belows = belows(alloc, view.solid)?;
    let tried = TriedSolid {
        on: view,
        known,
        belows: &belows,
    };
    let put = put_each_tried(alloc, out, named, &tried, shells);
    drop(belows);
    put
}

// The remedies of each of these shells. What is known of the geometry is found for all of them at once.
fn put_known(
    alloc: Global,
    out: &mut Out,
    named: &mut EntryNumbers,
    view: &RemedyView<'_>,
    shells: &[u32],
) -> Result<(), NoMemory>
    ensures { IfOk result (λ _. (told : List ShellRemedies)
        × AreRemediesOf view.now shells.now told
        × (out.new ≡ out.old ++ flat_map (remedies_at view.now) told)
        × (named.new ≡ named.old ++ flat_map (named_at view.now) told)) }
{
    if shells.is_empty() {
        return Ok(());
    }
    let known = known_of(alloc, view.file, view.solid)?;
    let put = put_below(alloc, out, named, view, &known, shells);
    drop(known);
    put
}

/// Appends the hint on face flags where edges aren't paired in one of these shells, a face has the flag 0, and with all face
/// flags 1 the solid is closed; else the remedies of each of these shells, or that there are none. The faces that
/// they name join the others that are named. It copies the solid.
pub fn put_hint(
    alloc: Global,
    out: &mut Out,
    named: &mut EntryNumbers,
    view: &HintedSolid<'_>,
    spelled: &SpelledSolid<'_>,
    shells: &[u32],
) -> Result<(), NoMemory>
    requires { spelled.now ≡ file_solid view.now }
    ensures { IfOk result (λ _. (told : List ShellRemedies) × (hint : List ℕ) × (faces : List AnyEntryNo)
        × IsHint view.now shells.now told hint faces
        × (out.new ≡ out.old ++ hint) × (named.new ≡ named.old ++ faces)) }
{
    let unset = unset_flags(view.solid);
    if tells_flags(alloc, view.solid, pair_fails(view.all, shells), unset)? {
        return put_flags(out, unset);
    }
    let on = RemedyView {
        file: view.file,
        solid: view.solid,
        spelled,
        listing: view.listing,
    };
    put_known(alloc, out, named, &on, shells)
}
