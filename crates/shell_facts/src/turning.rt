//! The rows round a vertex, fan by fan.

ghost use Rattle.std.specs.Prelude.{◌≡◌, ◌<◌, ◌^◌, ◌++◌, ◌∷◌, [], ℕ, Some, slice_get, IfOk, length, map, flat_map};
ghost use Rattle.solid_data.specs.declared.solid.LoopAt.{LoopAt as LoopPlace};
ghost use Rattle.edge_uses.specs.declared.row.Row.{Row as AnyRow};
ghost use Rattle.solid_faults.specs.Fans.{AreFans};
ghost use Rattle.shell_facts.specs.FanFacts.{turn_of, by_turns, on_fan, on_fans, fans_at, alone_if, alone_numbered, around, IsFanPushed, AreVertexTables};
ghost use Rattle.edge_uses.specs.Mates.{ArePaired, AreInvolution};

use crate::grouping::by_least;
use edge_uses::{Paired, Rows, point_at, row_at};
use iges_base::NoMemory;
use shell_components::{Groups, grouped};
use solid_data::{LoopAt, RowId, VertexId};
use std::alloc::Global;

/// What lies at a vertex: a row of a fan, or a loop without an edge.
#[derive(Clone, Copy)]
pub enum AtVertex {
    /// A row that starts there, and the number of its fan among the vertex's, from 1.
    OnFan { fan: usize, row: RowId },
    /// A loop that is one vertex.
    Alone { walk: LoopAt },
}

/// Tables of a shell by which its fans are described, each made once: the rows by the vertices where they start, the
/// rows by their fans, and the loops without an edge by their vertices.
#[derive(Drop)]
pub struct VertexTables {
    starts: Groups,
    fans: Groups,
    points: Groups,
}

fn starts_of(alloc: Global, rows: &Rows) -> Result<Vec<u32>, NoMemory>
    ensures { IfOk result (λ starts. starts.items ≡ map (λ (r : AnyRow). r.from.0) rows.now.rows) }
{
    let mut starts = Vec::with_capacity(alloc, rows.len())?;
    'rows: for i in 0..rows.len() {
        starts.push(row_at(rows, i).from.0)?;
    }
    Ok(starts)
}

fn points_of(alloc: Global, rows: &Rows) -> Result<Vec<u32>, NoMemory>
    ensures { IfOk result (λ points. points.items
        ≡ map (λ (p : LoopPlace × ℕ). p.1) rows.now.points) }
{
    let mut points = Vec::with_capacity(alloc, rows.isolated_count())?;
    'points: for i in 0..rows.isolated_count() {
        points.push(point_at(rows, i).1.0)?;
    }
    Ok(points)
}

/// The tables of a shell, whose rows are given with the least row of the fan of each.
pub fn vertex_tables(
    alloc: Global,
    paired: &Paired<'_>,
    leasts: &[u32],
) -> Result<VertexTables, NoMemory>
    requires { AreFans paired.now leasts.now }
    ensures { IfOk result (λ t. AreVertexTables paired.now leasts.now t) }
{
    let rows = paired.rows();
    let from = starts_of(alloc, rows)?;
    let at = points_of(alloc, rows)?;
    let starts = grouped(alloc, from, rows.vertex_span())?;
    let points = match grouped(alloc, at, rows.vertex_span()) {
        Ok(points) => points,
        Err(fault) => {
            drop(starts);
            return Err(fault);
        }
    };
    let fans = match by_least(alloc, leasts) {
        Ok(fans) => fans,
        Err(fault) => {
            drop(points);
            drop(starts);
            return Err(fault);
        }
    };
    Ok(VertexTables {
        starts,
        fans,
        points,
    })
}

// The row that a row turns to; both count from 0.
fn turned(paired: &Paired<'_>, r: u32) -> u32
    requires inside { r < length paired.now.rows }
    requires whole { ArePaired paired.now }
    requires mates { AreInvolution paired.now }
    ensures turn { result ≡ turn_of paired.now r }
    ensures inside { result < length paired.now.rows }
{
    paired.turn(RowId(r)).unwrap().0
}

fn push_row(out: &mut Vec<AtVertex>, fan: usize, row: u32) -> Result<(), NoMemory>
    ensures { IfOk result (λ _. out.new.items ≡ out.old.items ++ on_fan fan row ∷ []) }
{
    let row = RowId(row);
    out.push(AtVertex::OnFan { fan, row })?;
    Ok(())
}

// The rows of a fan, from its least row on.
fn push_fan(
    paired: &Paired<'_>,
    fan: usize,
    least: u32,
    count: usize,
    out: &mut Vec<AtVertex>,
) -> Result<(), NoMemory>
    requires inside { least < length paired.now.rows }
    requires whole { ArePaired paired.now }
    requires mates { AreInvolution paired.now }
    ensures { IfOk result (λ _. out.new.items
        ≡ out.old.items ++ map (on_fan fan) (by_turns paired.now count least)) }
{
    let mut row = least;
    let mut left = count;
    'turns: while left > 0 {
        push_row(out, fan, row)?;
        row = turned(paired, row);
        left -= 1;
    }
    Ok(())
}

// Appends the fan of which this is the least row, and gives the next fan's number; nothing for any other row.
fn push_fan_of(
    paired: &Paired<'_>,
    leasts: &[u32],
    tables: &VertexTables,
    fan: usize,
    row: u32,
    out: &mut Vec<AtVertex>,
) -> Result<usize, NoMemory>
    requires inside { row < length paired.now.rows }
    requires each { length leasts.now ≡ length paired.now.rows }
    requires whole { ArePaired paired.now }
    requires mates { AreInvolution paired.now }
    requires fans { tables.now.fans ≡ leasts.now }
    requires few { fan < 2 ^ 63 }
    ensures { IfOk result
        (λ next. IsFanPushed paired.now leasts.now fan row out.old.items out.new.items next) }
{
    if leasts[row as usize] != row {
        return Ok(fan);
    }
    push_fan(paired, fan, row, tables.fans.places(row).len(), out)?;
    Ok(fan + 1)
}

fn push_fans(
    paired: &Paired<'_>,
    leasts: &[u32],
    tables: &VertexTables,
    vertex: VertexId,
    out: &mut Vec<AtVertex>,
) -> Result<(), NoMemory>
    requires fans { AreFans paired.now leasts.now }
    requires tables { AreVertexTables paired.now leasts.now tables.now }
    requires whole { ArePaired paired.now }
    requires mates { AreInvolution paired.now }
    ensures { IfOk result (λ _. out.new.items
        ≡ out.old.items ++ on_fans paired.now leasts.now 1
        (fans_at paired.now leasts.now vertex.0)) }
{
    let rows = tables.starts.places(vertex.0);
    let mut fan = 1;
    'rows: for i in 0..rows.len() {
        fan = push_fan_of(paired, leasts, tables, fan, rows[i], out)?;
    }
    Ok(())
}

fn push_point(rows: &Rows, i: u32, out: &mut Vec<AtVertex>) -> Result<(), NoMemory>
    ensures { IfOk result (λ _. out.new.items ≡ out.old.items ++ alone_numbered rows.now i) }
{
    if let Some((walk, _)) = rows.isolated(i as usize) {
        out.push(AtVertex::Alone { walk })?;
    }
    Ok(())
}

// Appends the loops without an edge at a vertex.
fn push_alone(
    rows: &Rows,
    tables: &VertexTables,
    vertex: VertexId,
    out: &mut Vec<AtVertex>,
) -> Result<(), NoMemory>
    requires { tables.now.points ≡ map (λ (p : LoopPlace × ℕ). p.1) rows.now.points }
    ensures { IfOk result (λ _. out.new.items
        ≡ out.old.items ++ flat_map (alone_if vertex.0) rows.now.points) }
{
    let points = tables.points.places(vertex.0);
    'points: for i in 0..points.len() {
        push_point(rows, points[i], out)?;
    }
    Ok(())
}

/// What lies at a vertex: its fans, by their least rows, each from its least row on by turns, and then the loops
/// without an edge, in file order.
pub fn around(
    alloc: Global,
    paired: &Paired<'_>,
    leasts: &[u32],
    tables: &VertexTables,
    vertex: VertexId,
) -> Result<Vec<AtVertex>, NoMemory>
    requires fans { AreFans paired.now leasts.now }
    requires tables { AreVertexTables paired.now leasts.now tables.now }
    ensures { IfOk result (λ out. out.items ≡ around paired.now leasts.now vertex.0) }
{
    let rows = paired.rows();
    let mut out = Vec::new(alloc);
    push_fans(paired, leasts, tables, vertex, &mut out)?;
    push_alone(rows, tables, vertex, &mut out)?;
    Ok(out)
}
