//! The remedies of the shells of a solid.

ghost use Rattle.edge_uses.specs.Before.{AreBelow};
ghost use Rattle.shell_change.specs.declared.change.Remedy.{Remedy as AnyRemedy};
ghost use Rattle.solid_hints.specs.ShellHints.{ShellRemedies, written as are_written, written_count as most_written};
ghost use Rattle.solid_hints.specs.Viewed.{AreRemediesOf, HasBelows, IsKnown, IsRemedy, faces_named, named_at, remedies_at, remedies_text, remedy_at, written_of};
ghost use Rattle.tried_remedies.specs.Tried.{AreTried};
ghost use Rattle.std.specs.List.{enumerate_from};
ghost use Rattle.std.specs.Prelude.{◌≡◌, ◌≤◌, ◌+◌, ◌==◌, ◌++◌, All, IfOk, IfSome, List, OnOk, flat_map, length, slice_get, ℕ};

use iges_base::{ItemList, NoMemory, Out};
use remedy_text::{Heading, RemedyView, put_more_remedies, put_remedy, put_stuck};
use shell_change::{Known, Remedy, item_at};
use solid_data::{ShellAt, Solid};
use std::alloc::Global;
use tried_remedies::tried_before;
use where_text::{EntryNumbers, Listing};

/// A solid whose shells are to be mended: what is known of its geometry, and for each shell the number that the vertices of the
/// shells before it lie below.
#[derive(Drop)]
pub struct TriedSolid<'a> {
    pub on: &'a RemedyView<'a>,
    pub known: &'a Known,
    pub belows: &'a ItemList<usize>,
}

// How many remedies of a shell are written.
fn written_count(listing: Listing) -> usize
    ensures { result ≡ most_written listing }
{
    match listing {
        Listing::Few => 3,
        Listing::All => 6,
    }
}

// The remedies that are written: the first ones.
#[tactic(auto, unfolding(crate::specs::ShellHints::written))]
fn written(listing: Listing, remedies: &[Remedy]) -> &[Remedy]
    ensures is { result.now ≡ are_written listing remedies.now }
    ensures within { length result.now ≤ length remedies.now }
{
    let count = written_count(listing);
    if remedies.len() <= count {
        return remedies;
    }
    &remedies[..count]
}

#[tactic(auto, unfolding(crate::specs::ShellHints::remedy_at, crate::specs::ShellHints::faces_named))]
fn put_numbered(
    alloc: Global,
    out: &mut Out,
    named: &mut EntryNumbers,
    view: &RemedyView<'_>,
    heading: Heading,
    remedy: &Remedy,
) -> Result<(), NoMemory>
    ensures text { (place : ℕ) → heading ≡ record { number = place + 1; explained = place == 0 }
        → OnOk result (out.new ≡ out.old
        ++ remedy_at view.now (place, remedy.now)) }
    ensures named { OnOk result (named.new ≡ named.old ++ faces_named view.now remedy.now) }
{
    put_remedy(alloc, out, named, view, heading, &remedy.change)
}

fn put_each(
    alloc: Global,
    out: &mut Out,
    named: &mut EntryNumbers,
    view: &RemedyView<'_>,
    remedies: &[Remedy],
) -> Result<(), NoMemory>
    ensures text { OnOk result (out.new ≡ out.old
        ++ flat_map (remedy_at view.now) (enumerate_from 0 remedies.now)) }
    ensures named { OnOk result (named.new ≡ named.old
        ++ flat_map (faces_named view.now) remedies.now) }
{
    'remedies: for i in 0..remedies.len() {
        let heading = Heading {
            number: i + 1,
            explained: i == 0,
        };
        let remedy = item_at(remedies, i);
        put_numbered(alloc, out, named, view, heading, remedy)?;
    }
    Ok(())
}

fn put_remedies(
    alloc: Global,
    out: &mut Out,
    named: &mut EntryNumbers,
    view: &RemedyView<'_>,
    shell: ShellAt,
    remedies: &[Remedy],
) -> Result<(), NoMemory>
    ensures text { OnOk result (out.new ≡ out.old ++ remedies_text view.now shell.0 remedies.now) }
    ensures named { OnOk result (named.new ≡ named.old
        ++ flat_map (faces_named view.now) (written_of view.now remedies.now)) }
{
    if remedies.is_empty() {
        return put_stuck(out, shell);
    }
    let first = written(view.listing, remedies);
    put_each(alloc, out, named, view, first)?;
    put_more_remedies(out, remedies.len() - first.len())
}

fn below_at(belows: &ItemList<usize>, k: u32) -> Option<usize>
    ensures { result ≡ slice_get belows.now k }
{
    belows.as_slice().get(k as usize).copied()
}

// The remedies of a shell, given by its number from 0, with the number that the vertices of earlier shells lie below; none of a
// shell that isn't there.
fn remedies_of(
    alloc: Global,
    solid: &Solid,
    known: &Known,
    k: u32,
    below: Option<usize>,
) -> Result<ItemList<Remedy>, NoMemory>
    requires { IfSome below (AreBelow solid.now k) }
    ensures { IfOk result (AreTried solid.now known.now.geometry (record { 0 = k })) }
{
    match below {
        Some(below) => tried_before(alloc, solid, known, ShellAt(k), below),
        None => Ok(ItemList::new(alloc)),
    }
}

fn put_tried(
    alloc: Global,
    out: &mut Out,
    named: &mut EntryNumbers,
    view: &TriedSolid<'_>,
    k: u32,
) -> Result<(), NoMemory>
    requires known { IsKnown view.now }
    requires belows { HasBelows view.now }
    ensures { IfOk result (λ _. (rs : List AnyRemedy)
        × All (IsRemedy view.now.on.now k) rs
        × (out.new ≡ out.old ++ remedies_text view.now.on.now k rs)
        × (named.new ≡ named.old
        ++ flat_map (faces_named view.now.on.now) (written_of view.now.on.now rs))) }
{
    let below = below_at(view.belows, k);
    let remedies = remedies_of(alloc, view.on.solid, view.known, k, below)?;
    let put = put_remedies(alloc, out, named, view.on, ShellAt(k), remedies.as_slice());
    drop(remedies);
    put
}

/// Appends the remedies of each of these shells, given by their numbers from 0, or that there are none. The faces that they
/// name join the others that are named.
pub fn put_each_tried(
    alloc: Global,
    out: &mut Out,
    named: &mut EntryNumbers,
    view: &TriedSolid<'_>,
    shells: &[u32],
) -> Result<(), NoMemory>
    requires known { IsKnown view.now }
    requires belows { HasBelows view.now }
    ensures { IfOk result (λ _. (told : List ShellRemedies)
        × AreRemediesOf view.now.on.now shells.now told
        × (out.new ≡ out.old ++ flat_map (remedies_at view.now.on.now) told)
        × (named.new ≡ named.old ++ flat_map (named_at view.now.on.now) told)) }
{
    'shells: for i in 0..shells.len() {
        put_tried(alloc, out, named, view, shells[i])?;
    }
    Ok(())
}
