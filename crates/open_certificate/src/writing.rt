//! The text of an open shell's certificate.

ghost use Rattle.std.specs.Prelude.{◌≡◌, ◌++◌, map, flat_map, IfOk};
ghost use Rattle.std.specs.List.{AllByRecursion};
ghost use Rattle.cert_lines.specs.Line.{cut_lines};
ghost use Rattle.open_certificate.specs.Line.{HasSpelling, spelling};
ghost use Rattle.open_certificate.specs.Written.{edge_line, corner_line, reach_line, border_line, shell_line, open_lines, text_of};
ghost use Rattle.open_certificate.specs.declared.parts.OpenCorner.TheVariants.{Cycle, Path};

use crate::parts::{OpenCertificate, OpenCorner, OpenEdge};
use cert_lines::{from_one, put_rows};
use cert_text::put_line;
use iges_base::{Bytes, NoMemory, Out};
use solid_data::{RowId, RowList};
use std::alloc::Global;

fn put_edge(out: &mut Out, edge: OpenEdge) -> Result<(), NoMemory>
    ensures { IfOk result (λ _. out.new ≡ out.old ++ spelling (edge_line edge)) }
{
    match edge {
        OpenEdge::One(row) => put_line(out, b"E", &[from_one(row.0)]),
        OpenEdge::Two(along, against) => {
            put_line(out, b"E", &[from_one(along.0), from_one(against.0)])
        }
    }
}

fn put_edges(out: &mut Out, edges: &[OpenEdge]) -> Result<(), NoMemory>
    ensures { IfOk result (λ _. out.new ≡ out.old
        ++ flat_map (λ e. spelling (edge_line e)) edges.now) }
{
    'edges: for i in 0..edges.len() {
        put_edge(out, edges[i])?;
    }
    Ok(())
}

fn put_cycle(out: &mut Out, rows: &[RowId]) -> Result<(), NoMemory>
    ensures { IfOk result (λ _. out.new ≡ out.old ++ spelling (corner_line (Cycle rows.now))) }
{
    out.put(b"C")?;
    put_rows(out, rows)?;
    out.put(b"\n")
}

fn put_path(out: &mut Out, rows: &[RowId]) -> Result<(), NoMemory>
    ensures { IfOk result (λ _. out.new ≡ out.old ++ spelling (corner_line (Path rows.now))) }
{
    out.put(b"P")?;
    put_rows(out, rows)?;
    out.put(b"\n")
}

fn put_corner(out: &mut Out, corner: &OpenCorner) -> Result<(), NoMemory>
    ensures { IfOk result (λ _. out.new ≡ out.old ++ spelling (corner_line corner.now)) }
{
    match corner {
        OpenCorner::Cycle(rows) => put_cycle(out, rows.as_slice()),
        OpenCorner::Path(rows) => put_path(out, rows.as_slice()),
        OpenCorner::Point(at) => { put_line(out, b"I", &[from_one(at.face.0), from_one(at.place)]) }
    }
}

fn put_corners(out: &mut Out, corners: &[OpenCorner]) -> Result<(), NoMemory>
    ensures { IfOk result (λ _. out.new ≡ out.old
        ++ flat_map (λ l. spelling (corner_line l)) corners.now) }
{
    'corners: for i in 0..corners.len() {
        put_corner(out, &corners[i])?;
    }
    Ok(())
}

fn put_reach(out: &mut Out, rows: &[RowId]) -> Result<(), NoMemory>
    ensures { IfOk result (λ _. out.new ≡ out.old
        ++ flat_map (λ r. spelling (reach_line r)) rows.now) }
{
    'rows: for i in 0..rows.len() {
        put_line(out, b"R", &[from_one(rows[i].0)])?;
    }
    Ok(())
}

fn put_border(out: &mut Out, rows: &RowList) -> Result<(), NoMemory>
    ensures { IfOk result (λ _. out.new ≡ out.old ++ spelling (border_line rows.now)) }
{
    out.put(b"B")?;
    put_rows(out, rows.as_slice())?;
    out.put(b"\n")
}

fn put_borders(out: &mut Out, borders: &[RowList]) -> Result<(), NoMemory>
    ensures { IfOk result (λ _. out.new ≡ out.old
        ++ flat_map (λ b. spelling (border_line b)) borders.now) }
{
    'borders: for i in 0..borders.len() {
        put_border(out, &borders[i])?;
    }
    Ok(())
}

fn put_shell_line(out: &mut Out, c: &OpenCertificate) -> Result<(), NoMemory>
    ensures { IfOk result (λ _. out.new ≡ out.old ++ spelling (shell_line c.now)) }
{
    let edges = c.edges.as_slice().len() as u64;
    let corners = c.corners.as_slice().len() as u64;
    let borders = c.borders.as_slice().len() as u64;
    let numbers = [
        u64::from(c.shell.0),
        u64::from(c.rows),
        edges,
        corners,
        u64::from(c.faces),
        borders,
    ];
    put_line(out, b"SHELL", &numbers)
}

/// The text of an open shell's certificate: the lines of its parts in order, after the head. The counts of edges, of
/// corners and of border lines in the shell line are the lengths of the lists. Where every number has at most nine digits
/// and no cycle, path or border is empty, each line is spelled.
pub fn write_open(alloc: Global, c: &OpenCertificate) -> Result<Bytes, NoMemory>
    ensures text { IfOk result (λ text. text ≡ text_of (open_lines c.now)) }
    ensures lines { AllByRecursion HasSpelling (open_lines c.now)
        → IfOk result (λ text. cut_lines text ≡ map spelling (open_lines c.now)) }
{
    let mut out = Out::new(alloc);
    out.put(b"IGESOPEN 1\n")?;
    put_shell_line(&mut out, c)?;
    put_edges(&mut out, c.edges.as_slice())?;
    put_corners(&mut out, c.corners.as_slice())?;
    put_reach(&mut out, c.reach.as_slice())?;
    put_borders(&mut out, c.borders.as_slice())?;
    out.put(b"END\n")?;
    Ok(out.into_bytes())
}
