//! The steps of edges and vertices.

ghost use Rattle.std.specs.Prelude.{◌≡◌, ◌++◌, OnOk, flat_map, option_copied};
ghost use Rattle.remedy_text.specs.declared.sentences.Step.TheVariants as step;
ghost use Rattle.remedy_text.specs.Lines.{how_word as word_of};
ghost use Rattle.remedy_text.specs.Told.{told_if};
ghost use Rattle.remedy_text.specs.Viewed.{copy_item, copy_words, edge_steps, end_words, renew_item, seam_item, step_text};

use crate::sentences::Step;
use crate::view::RemedyView;
use crate::words::{put_edge, put_step_head, put_vertex};
use iges_base::{ItemList, NoMemory, Out};
use shell_change::{Change, NewEdge, NewVertex, Seam, Told, VertexName};
use where_text::{put_more_items, put_word, shown_members};

fn how_word(how: Told) -> &'static str
    ensures { result.now ≡ word_of how }
{
    match how {
        Told::Sure => "sure",
        Told::Places => "places",
        Told::Curve => "curve",
    }
}

#[tactic(auto, unfolding(crate::specs::Lines::seam_item))]
fn put_seam(out: &mut Out, view: &RemedyView<'_>, seam: Seam) -> Result<(), NoMemory>
    ensures { OnOk result (out.new ≡ out.old ++ seam_item view.now seam) }
{
    out.put(b"seam")?;
    put_word(out, how_word(seam.told))?;
    put_edge(out, view, seam.taken)?;
    put_edge(out, view, seam.left)?;
    out.put(b"\n")
}

fn put_each_seam(out: &mut Out, view: &RemedyView<'_>, seams: &[Seam]) -> Result<(), NoMemory>
    ensures { OnOk result (out.new ≡ out.old ++ flat_map (seam_item view.now) seams.now) }
{
    'seams: for i in 0..seams.len() {
        put_seam(out, view, seams[i])?;
    }
    Ok(())
}

fn put_seams(out: &mut Out, view: &RemedyView<'_>, seams: &[Seam]) -> Result<(), NoMemory>
    ensures { OnOk result (out.new ≡ out.old
        ++ step_text step.Sew view.now (seam_item view.now) seams.now) }
{
    put_step_head(out, Step::Sew, seams.len())?;
    put_each_seam(out, view, shown_members(view.listing, seams))?;
    put_more_items(out, seams.len() - view.listing.count(seams.len()))
}

#[tactic(auto, unfolding(crate::specs::Lines::copy_item))]
fn put_copy(out: &mut Out, view: &RemedyView<'_>, vertex: NewVertex) -> Result<(), NoMemory>
    ensures { OnOk result (out.new ≡ out.old ++ copy_item view.now vertex) }
{
    out.put(b"copy vertex")?;
    put_vertex(out, view, vertex.like)?;
    out.put(b"\n")
}

fn put_each_copy(
    out: &mut Out,
    view: &RemedyView<'_>,
    vertices: &[NewVertex],
) -> Result<(), NoMemory>
    ensures { OnOk result (out.new ≡ out.old ++ flat_map (copy_item view.now) vertices.now) }
{
    'vertices: for i in 0..vertices.len() {
        put_copy(out, view, vertices[i])?;
    }
    Ok(())
}

fn put_copies(out: &mut Out, view: &RemedyView<'_>, vertices: &[NewVertex]) -> Result<(), NoMemory>
    ensures { OnOk result (out.new ≡ out.old
        ++ step_text step.Copy view.now (copy_item view.now) vertices.now) }
{
    put_step_head(out, Step::Copy, vertices.len())?;
    put_each_copy(out, view, shown_members(view.listing, vertices))?;
    put_more_items(out, vertices.len() - view.listing.count(vertices.len()))
}

fn put_like(
    out: &mut Out,
    view: &RemedyView<'_>,
    vertex: Option<&NewVertex>,
) -> Result<(), NoMemory>
    ensures { OnOk result (out.new ≡ out.old
        ++ told_if (copy_words view.now) (option_copied vertex.entry)) }
{
    match vertex {
        Some(vertex) => put_vertex(out, view, vertex.like),
        None => Ok(()),
    }
}

// The words of an end of a new edge.
fn put_end(
    out: &mut Out,
    view: &RemedyView<'_>,
    vertices: &ItemList<NewVertex>,
    end: VertexName,
) -> Result<(), NoMemory>
    ensures { OnOk result (out.new ≡ out.old ++ end_words view.now vertices.now end) }
{
    match end {
        VertexName::Old(vertex) => put_vertex(out, view, vertex),
        VertexName::New(i) => put_like(out, view, vertices.get(i as usize)),
    }
}

#[tactic(auto, unfolding(crate::specs::Lines::renew_item))]
fn put_renewed(
    out: &mut Out,
    view: &RemedyView<'_>,
    vertices: &ItemList<NewVertex>,
    edge: NewEdge,
) -> Result<(), NoMemory>
    ensures { OnOk result (out.new ≡ out.old ++ renew_item view.now vertices.now edge) }
{
    out.put(b"renew")?;
    put_edge(out, view, edge.like)?;
    out.put(b" start")?;
    put_end(out, view, vertices, edge.from)?;
    out.put(b" end")?;
    put_end(out, view, vertices, edge.to)?;
    out.put(b"\n")
}

fn put_each_renewed(
    out: &mut Out,
    view: &RemedyView<'_>,
    vertices: &ItemList<NewVertex>,
    edges: &[NewEdge],
) -> Result<(), NoMemory>
    ensures { OnOk result (out.new ≡ out.old
        ++ flat_map (renew_item view.now vertices.now) edges.now) }
{
    'edges: for i in 0..edges.len() {
        put_renewed(out, view, vertices, edges[i])?;
    }
    Ok(())
}

fn put_all_renewed(
    out: &mut Out,
    view: &RemedyView<'_>,
    vertices: &ItemList<NewVertex>,
    edges: &[NewEdge],
) -> Result<(), NoMemory>
    ensures { OnOk result (out.new ≡ out.old
        ++ step_text step.Renew view.now (renew_item view.now vertices.now) edges.now) }
{
    put_step_head(out, Step::Renew, edges.len())?;
    put_each_renewed(out, view, vertices, shown_members(view.listing, edges))?;
    put_more_items(out, edges.len() - view.listing.count(edges.len()))
}

/// The steps of edges that are sewn, and of new vertices and edges.
pub(crate) fn put_edge_steps(
    out: &mut Out,
    view: &RemedyView<'_>,
    change: &Change,
) -> Result<(), NoMemory>
    ensures { OnOk result (out.new ≡ out.old ++ edge_steps view.now change.now) }
{
    put_seams(out, view, change.seams.as_slice())?;
    put_copies(out, view, change.vertices.as_slice())?;
    put_all_renewed(out, view, &change.vertices, change.edges.as_slice())
}
