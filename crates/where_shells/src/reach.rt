//! The paragraph on a shell that falls into parts.

ghost use Rattle.std.specs.Prelude.{◌≡◌, ◌+◌, ◌-◌, ◌^◌, ◌++◌, codes, length, flat_map, take, OnOk, get_or};
ghost use Rattle.std.specs.List.{enumerate_from};
ghost use Rattle.where_shells.specs.Reach.{part_head, reach_head};
ghost use Rattle.where_shells.specs.Viewed.{AreParts, AreTables, HasRows, HasShell, face_line, part_lines, part_named, part_text, reach_lines, reach_named, reach_text, shown, shown_parts, unpaired_of, vertex_line};

use crate::lines::{put_count, put_face_line, put_rule, put_vertex_line};
use crate::view::{Page, ShellView};
use iges_base::{EntryNo, NoMemory, Out};
use shell_facts::{Part, PartTables, part_tables, parts};
use solid_data::{Rule, ShellAt};
use solid_faults::{Unpaired, apart_in};
use std::alloc::Global;
use where_text::{Listing, put_more_facts, put_more_items, put_rule_sentence};

#[tactic(auto, unfolding(crate::specs::Reach::part_head))]
fn put_part_head(out: &mut Out, number: usize, part: &Part) -> Result<(), NoMemory>
    ensures { OnOk result (out.new ≡ out.old
        ++ part_head number (length part.now.faces.items) part.now.edges
        (length part.now.vertices.items) part.now.unpaired (length part.now.touching.items)) }
{
    put_count(out, "part", number)?;
    put_count(out, " faces", part.faces.len())?;
    put_count(out, " edges", part.edges)?;
    put_count(out, " vertices", part.vertices.len())?;
    put_count(out, " unpaired", part.unpaired)?;
    put_count(out, " touching", part.touching.len())?;
    out.put(b"\n")
}

// The first of rising numbers; 0 where there are none.
fn least(vertices: &[u32]) -> u32
    ensures { result ≡ get_or vertices.now 0 0 }
{
    match vertices {
        [] => 0,
        [first, ..] => *first,
    }
}

// A line for each of a part's vertices that a part before it has too.
fn put_touches(out: &mut Out, view: &ShellView<'_>, vertices: &[u32]) -> Result<(), NoMemory>
    ensures { OnOk result (out.new ≡ out.old
        ++ flat_map (vertex_line (codes "  touches") view.now) vertices.now) }
{
    'vertices: for i in 0..vertices.len() {
        put_vertex_line(out, view, "  touches", vertices[i])?;
    }
    Ok(())
}

fn put_faces(page: &mut Page, view: &ShellView<'_>, faces: &[EntryNo]) -> Result<(), NoMemory>
    ensures text { OnOk result (page.new.out
        ≡ page.old.out ++ flat_map (face_line view.now) faces.now) }
    ensures named { OnOk result (page.new.named ≡ page.old.named ++ faces.now) }
{
    'faces: for i in 0..faces.len() {
        put_face_line(page, view, faces[i])?;
    }
    Ok(())
}

#[tactic(auto, unfolding(crate::specs::Reach::part_lines))]
fn put_part(
    page: &mut Page,
    view: &ShellView<'_>,
    number: usize,
    part: &Part,
) -> Result<(), NoMemory>
    ensures text { OnOk result (page.new.out ≡ page.old.out
        ++ part_lines view.now number part.now.faces.items part.now.edges part.now.vertices.items part.now.unpaired part.now.touching.items) }
    ensures named { OnOk result (page.new.named
        ≡ page.old.named ++ shown view.now part.now.faces.items) }
{
    let faces = part.faces.as_slice();
    let touching = part.touching.as_slice();
    let face_count = view.listing.count(faces.len());
    let touch_count = Listing::Few.count(touching.len());
    put_part_head(&mut page.out, number, part)?;
    put_vertex_line(&mut page.out, view, "  at", least(part.vertices.as_slice()))?;
    put_touches(&mut page.out, view, &touching[..touch_count])?;
    put_more_facts(&mut page.out, touching.len() - touch_count)?;
    put_faces(page, view, &faces[..face_count])?;
    put_more_facts(&mut page.out, faces.len() - face_count)
}

fn put_part_of(
    alloc: Global,
    page: &mut Page,
    view: &ShellView<'_>,
    tables: &PartTables<'_>,
    number: usize,
    first: u32,
) -> Result<(), NoMemory>
    requires { AreTables view.now tables.now }
    ensures text { OnOk result (page.new.out ≡ page.old.out
        ++ part_text view.now tables.now (number, first)) }
    ensures named { OnOk result (page.new.named ≡ page.old.named
        ++ part_named view.now tables.now (number, first)) }
{
    let part = tables.part(alloc, first)?;
    put_part(page, view, number, &part)
}

fn put_parts(
    alloc: Global,
    page: &mut Page,
    view: &ShellView<'_>,
    tables: &PartTables<'_>,
    parts: &[u32],
) -> Result<(), NoMemory>
    requires { AreTables view.now tables.now }
    ensures text { OnOk result (page.new.out ≡ page.old.out
        ++ flat_map (part_text view.now tables.now) (enumerate_from 1 parts.now)) }
    ensures named { OnOk result (page.new.named ≡ page.old.named
        ++ flat_map (part_named view.now tables.now) (enumerate_from 1 parts.now)) }
{
    'parts: for i in 0..parts.len() {
        put_part_of(alloc, page, view, tables, i + 1, parts[i])?;
    }
    Ok(())
}

#[tactic(auto, unfolding(crate::specs::Reach::reach_head))]
fn put_reach_head(
    out: &mut Out,
    shell: ShellAt,
    faults: usize,
    parts: usize,
) -> Result<(), NoMemory>
    ensures { OnOk result (out.new ≡ out.old ++ reach_head shell.0 faults parts) }
{
    put_rule(out, Rule::Unreached, shell, faults)?;
    put_count(out, " parts", parts)?;
    out.put(b"\n")?;
    put_rule_sentence(out, Rule::Unreached)
}

#[tactic(auto, unfolding(crate::specs::Reach::reach_lines))]
fn put_reach_lines(
    alloc: Global,
    page: &mut Page,
    view: &ShellView<'_>,
    tables: &PartTables<'_>,
    faults: usize,
    parts: &[u32],
) -> Result<(), NoMemory>
    requires { AreTables view.now tables.now }
    ensures text { OnOk result (page.new.out ≡ page.old.out
        ++ reach_lines view.now tables.now faults parts.now) }
    ensures named { OnOk result (page.new.named ≡ page.old.named
        ++ flat_map (part_named view.now tables.now) (shown_parts view.now parts.now)) }
{
    let count = view.listing.count(parts.len());
    put_reach_head(&mut page.out, view.at, faults, parts.len())?;
    put_parts(alloc, page, view, tables, &parts[..count])?;
    put_more_items(&mut page.out, parts.len() - count)
}

/// Appends the paragraph on a shell that falls into parts, whose first faces of parts and edges that aren't paired are
/// given; nothing where it is one part.
pub fn put_reach(
    alloc: Global,
    page: &mut Page,
    view: &ShellView<'_>,
    firsts: &[u32],
    unpaired: &[Unpaired],
) -> Result<(), NoMemory>
    requires shell { HasShell view.now }
    requires rows { HasRows view.now }
    requires parts { AreParts view.now firsts.now }
    requires unpaired { unpaired.now ≡ unpaired_of view.now }
    ensures text { OnOk result (page.new.out ≡ page.old.out
        ++ reach_text view.now firsts.now unpaired.now) }
    ensures named { OnOk result (page.new.named ≡ page.old.named
        ++ reach_named view.now firsts.now) }
{
    let faults = apart_in(firsts);
    if faults == 0 {
        return Ok(());
    }
    let parts = parts(alloc, firsts)?;
    let tables = part_tables(alloc, view.solid, view.at, view.rows, firsts, unpaired)?;
    put_reach_lines(alloc, page, view, &tables, faults, parts.as_slice())
}
