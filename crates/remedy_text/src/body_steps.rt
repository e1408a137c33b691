//! The steps of bodies and of rims.

ghost use Rattle.std.specs.Prelude.{◌≡◌, ◌<◌, ◌^◌, ◌++◌, ◌∷◌, [], OnOk, flat_map, map, option_copied};
ghost use Rattle.std.specs.List.{enumerate_from};
ghost use Rattle.remedy_text.specs.declared.sentences.Step.TheVariants as step;
ghost use Rattle.remedy_text.specs.Steps.{first_face};
ghost use Rattle.remedy_text.specs.Told.{told_if};
ghost use Rattle.remedy_text.specs.Viewed.{bodies as are_bodies, body_item, body_steps, edge_name_words, numbered_step_text, renewed_words, rim_edge_words, rim_item, shown};

use crate::bodies::{Body, bodies};
use crate::sentences::Step;
use crate::told::faces_of;
use crate::view::RemedyView;
use crate::words::{put_count, put_edge, put_face, put_step_head};
use iges_base::{ItemList, NoMemory, Out};
use shell_change::{Change, EdgeName, NewEdge, Rim, RimEdge};
use std::alloc::Global;
use where_text::{EntryNumbers, put_more_items, shown_members};

// A body, with its number from 0.
#[tactic(auto, unfolding(crate::specs::Lines::body_item))]
fn put_body(
    out: &mut Out,
    named: &mut EntryNumbers,
    view: &RemedyView<'_>,
    i: usize,
    body: Body,
) -> Result<(), NoMemory>
    requires { i < 2 ^ 62 }
    ensures text { OnOk result (out.new ≡ out.old ++ body_item view.now (i, body)) }
    ensures named { OnOk result (named.new ≡ named.old ++ body.first ∷ []) }
{
    put_count(out, "body", i + 1)?;
    put_count(out, " faces", body.faces)?;
    out.put(b" first")?;
    put_face(out, named, view, body.first)?;
    out.put(b"\n")
}

fn put_each_body(
    out: &mut Out,
    named: &mut EntryNumbers,
    view: &RemedyView<'_>,
    bodies: &[Body],
) -> Result<(), NoMemory>
    ensures text { OnOk result (out.new
        ≡ out.old ++ flat_map (body_item view.now) (enumerate_from 0 bodies.now)) }
    ensures named { OnOk result (named.new ≡ named.old ++ map first_face bodies.now) }
{
    'bodies: for i in 0..bodies.len() {
        put_body(out, named, view, i, bodies[i])?;
    }
    Ok(())
}

fn put_bodies(
    out: &mut Out,
    named: &mut EntryNumbers,
    view: &RemedyView<'_>,
    bodies: &[Body],
) -> Result<(), NoMemory>
    ensures text { OnOk result (out.new ≡ out.old
        ++ numbered_step_text step.Part view.now (body_item view.now) bodies.now) }
    ensures named { OnOk result (named.new
        ≡ named.old ++ map first_face (shown view.now bodies.now)) }
{
    put_step_head(out, Step::Part, bodies.len())?;
    put_each_body(out, named, view, shown_members(view.listing, bodies))?;
    put_more_items(out, bodies.len() - view.listing.count(bodies.len()))
}

fn put_like(out: &mut Out, view: &RemedyView<'_>, edge: Option<&NewEdge>) -> Result<(), NoMemory>
    ensures { OnOk result (out.new ≡ out.old
        ++ told_if (renewed_words view.now) (option_copied edge.entry)) }
{
    match edge {
        Some(edge) => put_edge(out, view, edge.like),
        None => Ok(()),
    }
}

fn put_name(
    out: &mut Out,
    view: &RemedyView<'_>,
    edges: &ItemList<NewEdge>,
    edge: EdgeName,
) -> Result<(), NoMemory>
    ensures { OnOk result (out.new ≡ out.old ++ edge_name_words view.now edges.now edge) }
{
    match edge {
        EdgeName::Old(edge) => put_edge(out, view, edge),
        EdgeName::New(i) => put_like(out, view, edges.get(i as usize)),
    }
}

// The words of the first edge of a rim.
fn put_first(
    out: &mut Out,
    view: &RemedyView<'_>,
    edges: &ItemList<NewEdge>,
    first: Option<&RimEdge>,
) -> Result<(), NoMemory>
    ensures { OnOk result (out.new ≡ out.old
        ++ told_if (rim_edge_words view.now edges.now) (option_copied first.entry)) }
{
    match first {
        Some(first) => put_name(out, view, edges, first.edge),
        None => Ok(()),
    }
}

// A rim, with its number from 0.
#[tactic(auto, unfolding(crate::specs::Lines::rim_item))]
fn put_rim(
    out: &mut Out,
    view: &RemedyView<'_>,
    edges: &ItemList<NewEdge>,
    i: usize,
    rim: &Rim,
) -> Result<(), NoMemory>
    requires { i < 2 ^ 62 }
    ensures { OnOk result (out.new ≡ out.old ++ rim_item view.now edges.now (i, rim.now)) }
{
    put_count(out, "rim", i + 1)?;
    put_count(out, " edges", rim.edges.len())?;
    put_first(out, view, edges, rim.edges.get(0))?;
    out.put(b"\n")
}

fn put_each_rim(
    out: &mut Out,
    view: &RemedyView<'_>,
    edges: &ItemList<NewEdge>,
    rims: &[Rim],
) -> Result<(), NoMemory>
    ensures { OnOk result (out.new ≡ out.old
        ++ flat_map (rim_item view.now edges.now) (enumerate_from 0 rims.now)) }
{
    'rims: for i in 0..rims.len() {
        put_rim(out, view, edges, i, &rims[i])?;
    }
    Ok(())
}

fn put_rims(
    out: &mut Out,
    view: &RemedyView<'_>,
    edges: &ItemList<NewEdge>,
    rims: &[Rim],
) -> Result<(), NoMemory>
    ensures { OnOk result (out.new ≡ out.old
        ++ numbered_step_text step.Fill view.now (rim_item view.now edges.now) rims.now) }
{
    put_step_head(out, Step::Fill, rims.len())?;
    put_each_rim(out, view, edges, shown_members(view.listing, rims))?;
    put_more_items(out, rims.len() - view.listing.count(rims.len()))
}

/// The steps of bodies, and of faces to be made anew.
pub(crate) fn put_body_steps(
    alloc: Global,
    out: &mut Out,
    named: &mut EntryNumbers,
    view: &RemedyView<'_>,
    change: &Change,
) -> Result<(), NoMemory>
    ensures text { OnOk result (out.new ≡ out.old ++ body_steps view.now change.now) }
    ensures named { OnOk result (named.new ≡ named.old
        ++ map first_face (shown view.now (are_bodies view.now change.now))) }
{
    let faces = faces_of(view.solid, change.shell);
    let bodies = bodies(alloc, faces, &change.faces)?;
    put_bodies(out, named, view, bodies.as_slice())?;
    put_rims(out, view, &change.edges, change.rims.as_slice())
}
