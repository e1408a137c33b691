//! The paragraph on vertices that aren't linked.

ghost use Rattle.std.specs.Prelude.{◌≡◌, ◌+◌, ◌-◌, ◌++◌, ◌∷◌, [], flat_map, take, slice_get, option_copied, OnOk};
ghost use Rattle.solid_data.specs.SolidData.{edge_name};
ghost use Rattle.solid_faults.specs.Fans.{AreFans};
ghost use Rattle.shell_facts.specs.RowPlaces.{places_in};
ghost use Rattle.shell_facts.specs.FanFacts.{AreVertexTables};
ghost use Rattle.where_shells.specs.Link.{fact_faces, loop_words, place_faces, walk_faces};
ghost use Rattle.where_shells.specs.Lines.{edge_words, faces_in};
ghost use Rattle.where_shells.specs.Viewed.{HasShell, fact_line, link_lines, link_named, link_text, place_words, point_line, row_line, row_words, rows_of, shown, unlinked_lines, unlinked_named, unlinked_text, walk_words};

use crate::lines::{put_count, put_edge_words, put_face, put_head, put_vertex};
use crate::view::{Page, ShellView};
use edge_uses::{Paired, Row};
use iges_base::{NoMemory, Out};
use shell_facts::{AtVertex, RowPlace, VertexTables, around, row_places, vertex_tables};
use solid_data::{FaceUse, Loop, LoopAt, RowId, Rule};
use solid_faults::{Linking, Unlinked};
use std::alloc::Global;
use where_text::{put_more_facts, put_more_items};

/// The faces of a shell, its rows, where each row is, the least row of the fan of each, and the tables by which what lies at a
/// vertex is found.
#[derive(Drop)]
struct Fans<'a> {
    faces: &'a [FaceUse],
    paired: &'a Paired<'a>,
    places: &'a [RowPlace],
    leasts: &'a [u32],
    tables: &'a VertexTables,
}

// The face, the loop and the tuple of a row.
fn put_place(page: &mut Page, view: &ShellView<'_>, place: Option<RowPlace>) -> Result<(), NoMemory>
    ensures text { OnOk result (page.new.out ≡ page.old.out ++ place_words view.now place) }
    ensures named { OnOk result (page.new.named ≡ page.old.named ++ place_faces place) }
{
    let Some(place) = place else {
        return Ok(());
    };
    page.out.put(b" face")?;
    put_face(page, view, place.face)?;
    put_count(&mut page.out, " loop", place.walk.0 as usize)?;
    put_count(&mut page.out, " tuple", place.tuple as usize)
}

fn put_row(out: &mut Out, view: &ShellView<'_>, row: Option<Row>) -> Result<(), NoMemory>
    ensures { OnOk result (out.new ≡ out.old ++ row_words view.now row) }
{
    let Some(row) = row else {
        return Ok(());
    };
    out.put(b" edge")?;
    put_edge_words(out, view.solid.edge_key(row.edge))?;
    out.put(b" to")?;
    put_vertex(out, view, row.to)
}

fn put_loop(out: &mut Out, walk: Option<&Loop>) -> Result<(), NoMemory>
    ensures { OnOk result (out.new ≡ out.old ++ loop_words (option_copied walk.entry)) }
{
    match walk {
        Some(walk) => put_count(out, " loop", walk.entity.0 as usize),
        None => Ok(()),
    }
}

// A face, and its loop at a place from 0.
fn put_walk(
    page: &mut Page,
    view: &ShellView<'_>,
    face: Option<&FaceUse>,
    place: u32,
) -> Result<(), NoMemory>
    ensures text { OnOk result (page.new.out ≡ page.old.out
        ++ walk_words view.now (option_copied face.entry) place) }
    ensures named { OnOk result (page.new.named
        ≡ page.old.named ++ walk_faces (option_copied face.entry)) }
{
    let Some(face) = face else {
        return Ok(());
    };
    page.out.put(b" face")?;
    put_face(page, view, face.entity)?;
    put_loop(&mut page.out, face.loops.get(place as usize))
}

fn place_at(places: &[RowPlace], row: RowId) -> Option<RowPlace>
    ensures { result ≡ slice_get places.now row.0 }
{
    places.get(row.0 as usize).copied()
}

fn face_at(faces: &[FaceUse], face: u32) -> Option<&FaceUse>
    ensures { option_copied result ≡ slice_get faces.now face }
{
    faces.get(face as usize)
}

#[tactic(auto, unfolding(crate::specs::Link::row_line))]
fn put_row_line(
    page: &mut Page,
    view: &ShellView<'_>,
    fans: &Fans<'_>,
    fan: usize,
    row: RowId,
) -> Result<(), NoMemory>
    ensures text { OnOk result (page.new.out ≡ page.old.out
        ++ row_line view.now fans.now.paired.now fans.now.places.now fan row.0) }
    ensures named { OnOk result (page.new.named ≡ page.old.named
        ++ place_faces (slice_get fans.now.places.now row.0)) }
{
    put_count(&mut page.out, "  fan", fan)?;
    put_place(page, view, place_at(fans.places, row))?;
    put_row(&mut page.out, view, fans.paired.rows().row(row))?;
    page.out.put(b"\n")
}

#[tactic(auto, unfolding(crate::specs::Link::point_line))]
fn put_point_line(
    page: &mut Page,
    view: &ShellView<'_>,
    faces: &[FaceUse],
    walk: LoopAt,
) -> Result<(), NoMemory>
    ensures text { OnOk result (page.new.out ≡ page.old.out ++ point_line view.now faces.now walk) }
    ensures named { OnOk result (page.new.named ≡ page.old.named
        ++ walk_faces (slice_get faces.now walk.face.0)) }
{
    page.out.put(b"  point")?;
    put_walk(page, view, face_at(faces, walk.face.0), walk.place)?;
    page.out.put(b"\n")
}

// A line for a row of a fan, or for a loop without an edge.
fn put_fact(
    page: &mut Page,
    view: &ShellView<'_>,
    fans: &Fans<'_>,
    fact: AtVertex,
) -> Result<(), NoMemory>
    ensures text { OnOk result (page.new.out ≡ page.old.out
        ++ fact_line view.now fans.now.faces.now fans.now.paired.now fans.now.places.now fact) }
    ensures named { OnOk result (page.new.named ≡ page.old.named
        ++ fact_faces fans.now.faces.now fans.now.places.now fact) }
{
    match fact {
        AtVertex::OnFan { fan, row } => put_row_line(page, view, fans, fan, row),
        AtVertex::Alone { walk } => put_point_line(page, view, fans.faces, walk),
    }
}

fn put_facts(
    page: &mut Page,
    view: &ShellView<'_>,
    fans: &Fans<'_>,
    facts: &[AtVertex],
) -> Result<(), NoMemory>
    ensures text { OnOk result (page.new.out ≡ page.old.out
        ++ flat_map (fact_line view.now fans.now.faces.now fans.now.paired.now fans.now.places.now) facts.now) }
    ensures named { OnOk result (page.new.named ≡ page.old.named
        ++ flat_map (fact_faces fans.now.faces.now fans.now.places.now) facts.now) }
{
    'facts: for i in 0..facts.len() {
        put_fact(page, view, fans, facts[i])?;
    }
    Ok(())
}

#[tactic(auto, unfolding(crate::specs::Link::unlinked_lines))]
fn put_unlinked_lines(
    page: &mut Page,
    view: &ShellView<'_>,
    fans: &Fans<'_>,
    vertex: Unlinked,
    facts: &[AtVertex],
) -> Result<(), NoMemory>
    ensures text { OnOk result (page.new.out ≡ page.old.out
        ++ unlinked_lines view.now fans.now.faces.now fans.now.paired.now fans.now.places.now vertex facts.now) }
    ensures named { OnOk result (page.new.named ≡ page.old.named
        ++ flat_map (fact_faces fans.now.faces.now fans.now.places.now)
        (shown view.now facts.now)) }
{
    let count = view.listing.count(facts.len());
    page.out.put(b"vertex")?;
    put_vertex(&mut page.out, view, vertex.vertex)?;
    put_count(&mut page.out, " fans", vertex.fans as usize)?;
    put_count(&mut page.out, " points", vertex.points as usize)?;
    page.out.put(b"\n")?;
    put_facts(page, view, fans, &facts[..count])?;
    put_more_facts(&mut page.out, facts.len() - count)
}

fn put_unlinked(
    alloc: Global,
    page: &mut Page,
    view: &ShellView<'_>,
    fans: &Fans<'_>,
    vertex: Unlinked,
) -> Result<(), NoMemory>
    requires fans { AreFans fans.now.paired.now fans.now.leasts.now }
    requires tables { AreVertexTables fans.now.paired.now fans.now.leasts.now fans.now.tables.now }
    ensures text { OnOk result (page.new.out ≡ page.old.out
        ++ unlinked_text view.now fans.now.faces.now fans.now.paired.now fans.now.places.now fans.now.leasts.now vertex) }
    ensures named { OnOk result (page.new.named ≡ page.old.named
        ++ unlinked_named view.now fans.now.faces.now fans.now.paired.now fans.now.places.now fans.now.leasts.now vertex) }
{
    let facts = around(alloc, fans.paired, fans.leasts, fans.tables, vertex.vertex)?;
    put_unlinked_lines(page, view, fans, vertex, facts.as_slice())
}

fn put_each_unlinked(
    alloc: Global,
    page: &mut Page,
    view: &ShellView<'_>,
    fans: &Fans<'_>,
    vertices: &[Unlinked],
) -> Result<(), NoMemory>
    requires fans { AreFans fans.now.paired.now fans.now.leasts.now }
    requires tables { AreVertexTables fans.now.paired.now fans.now.leasts.now fans.now.tables.now }
    ensures text { OnOk result (page.new.out ≡ page.old.out
        ++ flat_map
        (unlinked_text view.now fans.now.faces.now fans.now.paired.now fans.now.places.now fans.now.leasts.now) vertices.now) }
    ensures named { OnOk result (page.new.named ≡ page.old.named
        ++ flat_map
        (unlinked_named view.now fans.now.faces.now fans.now.paired.now fans.now.places.now fans.now.leasts.now) vertices.now) }
{
    'vertices: for i in 0..vertices.len() {
        put_unlinked(alloc, page, view, fans, vertices[i])?;
    }
    Ok(())
}

#[tactic(auto, unfolding(crate::specs::Link::link_lines))]
fn put_link_lines(
    alloc: Global,
    page: &mut Page,
    view: &ShellView<'_>,
    fans: &Fans<'_>,
    vertices: &[Unlinked],
) -> Result<(), NoMemory>
    requires fans { AreFans fans.now.paired.now fans.now.leasts.now }
    requires tables { AreVertexTables fans.now.paired.now fans.now.leasts.now fans.now.tables.now }
    ensures text { OnOk result (page.new.out ≡ page.old.out
        ++ link_lines view.now fans.now.faces.now fans.now.paired.now fans.now.places.now fans.now.leasts.now vertices.now) }
    ensures named { OnOk result (page.new.named ≡ page.old.named
        ++ flat_map (unlinked_named view.now fans.now.faces.now fans.now.paired.now fans.now.places.now fans.now.leasts.now)
        (shown view.now vertices.now)) }
{
    let count = view.listing.count(vertices.len());
    put_head(&mut page.out, Rule::Unlinked, view.at, vertices.len())?;
    put_each_unlinked(alloc, page, view, fans, &vertices[..count])?;
    put_more_items(&mut page.out, vertices.len() - count)
}

/// Appends the paragraph on the vertices of a shell that aren't linked, whose paired rows and fans are given; nothing where
/// there are none.
pub fn put_link(
    alloc: Global,
    page: &mut Page,
    view: &ShellView<'_>,
    paired: &Paired<'_>,
    linking: &Linking,
) -> Result<(), NoMemory>
    requires shell { HasShell view.now }
    requires rows { paired.now ≡ rows_of view.now }
    requires fans { AreFans paired.now linking.now.leasts }
    ensures text { OnOk result (page.new.out ≡ page.old.out
        ++ link_text view.now linking.now.leasts linking.now.unlinked) }
    ensures named { OnOk result (page.new.named ≡ page.old.named
        ++ link_named view.now linking.now.leasts linking.now.unlinked) }
{
    let vertices = linking.unlinked();
    if vertices.is_empty() {
        return Ok(());
    }
    let places = row_places(alloc, view.solid, view.at)?;
    let tables = vertex_tables(alloc, paired, linking.leasts())?;
    let fans = Fans {
        faces: view.solid.shell(view.at).unwrap().faces.as_slice(),
        paired,
        places: places.as_slice(),
        leasts: linking.leasts(),
        tables: &tables,
    };
    put_link_lines(alloc, page, view, &fans, vertices)
}
