//! The text of a certificate.

ghost use Rattle.std.specs.Prelude.{◌≡◌, ℕ, ◌+◌, ◌<◌, ◌^◌, ◌++◌, ◌∷◌, [], length, map, flat_map, IfOk};
ghost use Rattle.std.specs.List.{AllByRecursion, enumerate_from};
ghost use Rattle.cert_text.specs.Text.{spaced};
ghost use Rattle.cert_lines.specs.Line.{HasSpelling, head, tally, cut_lines, spelling};
ghost use Rattle.cert_lines.specs.Written.{row_number, edge_line, corner_line, reach_line, shell_line, tally_line, tally_of, tally_lines, shell_lines, solid_lines, certificate_lines, book_lines, text_of};

use crate::parts::{Certificate, Certificates, ShellPart};
use crate::version::{Version, head_text};
use cert_text::put_line;
use iges_base::{Bytes, NoMemory, Out, put_number};
use solid_data::{Corner, RowId};
use std::alloc::Global;

/// The number in a line of a row, a face or a loop: they count from 1 there, and from 0 in the types.
pub fn from_one(number: u32) -> u64
    ensures { result ≡ number + 1 }
{
    u64::from(number) + 1
}

/// Appends the numbers of some rows, from 1, each after a space.
pub fn put_rows(out: &mut Out, rows: &[RowId]) -> Result<(), NoMemory>
    ensures { IfOk result (λ _. out.new ≡ out.old ++ spaced (map row_number rows.now)) }
{
    'rows: for i in 0..rows.len() {
        put_number(out, from_one(rows[i].0))?;
    }
    Ok(())
}

fn put_edges(out: &mut Out, edges: &[(RowId, RowId)]) -> Result<(), NoMemory>
    ensures { IfOk result (λ _. out.new ≡ out.old
        ++ flat_map (λ p. spelling (edge_line p)) edges.now) }
{
    'edges: for i in 0..edges.len() {
        let (along, against) = edges[i];
        put_line(out, b"E", &[from_one(along.0), from_one(against.0)])?;
    }
    Ok(())
}

fn put_corner(out: &mut Out, corner: &Corner) -> Result<(), NoMemory>
    ensures { IfOk result (λ _. out.new ≡ out.old ++ spelling (corner_line corner.now)) }
{
    match corner {
        Corner::Cycle(rows) => {
            out.put(b"C")?;
            put_rows(out, rows.as_slice())?;
            out.put(b"\n")
        }
        Corner::Point(at) => { put_line(out, b"I", &[from_one(at.face.0), from_one(at.place)]) }
    }
}

fn put_corners(out: &mut Out, corners: &[Corner]) -> Result<(), NoMemory>
    ensures { IfOk result (λ _. out.new ≡ out.old
        ++ flat_map (λ l. spelling (corner_line l)) corners.now) }
{
    'corners: for i in 0..corners.len() {
        put_corner(out, &corners[i])?;
    }
    Ok(())
}

fn put_reach(out: &mut Out, rows: &[RowId]) -> Result<(), NoMemory>
    ensures { IfOk result (λ _. out.new ≡ out.old
        ++ flat_map (λ r. spelling (reach_line r)) rows.now) }
{
    'rows: for i in 0..rows.len() {
        put_line(out, b"R", &[from_one(rows[i].0)])?;
    }
    Ok(())
}

fn put_shell_line(out: &mut Out, number: u64, part: &ShellPart) -> Result<(), NoMemory>
    ensures { IfOk result (λ _. out.new ≡ out.old ++ spelling (shell_line number part.now)) }
{
    let edges = part.edges.as_slice().len() as u64;
    let corners = part.corners.as_slice().len() as u64;
    let numbers = [
        number,
        u64::from(part.rows),
        edges,
        corners,
        u64::from(part.faces),
    ];
    put_line(out, b"SHELL", &numbers)
}

/// The TALLY line of these counts, with its LF.
pub fn put_tally_line(
    out: &mut Out,
    vertices: u64,
    edges: u64,
    faces: u64,
    loops: u64,
) -> Result<(), NoMemory>
    ensures { IfOk result (λ _. out.new ≡ out.old
        ++ spelling (tally (tally_of vertices edges faces loops))) }
{
    put_line(out, b"TALLY", &[vertices, edges, faces, loops])
}

fn put_counts(out: &mut Out, part: &ShellPart) -> Result<(), NoMemory>
    ensures { IfOk result (λ _. out.new ≡ out.old ++ spelling (tally_line part.now)) }
{
    put_tally_line(
        out,
        u64::from(part.vertices),
        part.edges.as_slice().len() as u64,
        u64::from(part.faces),
        u64::from(part.loops),
    )
}

/// The first line of a certificate of this version, with its LF.
pub fn put_head_line(out: &mut Out, version: Version) -> Result<(), NoMemory>
    ensures { IfOk result (λ _. out.new ≡ out.old ++ spelling (head version)) }
{
    out.put(head_text(version))?;
    out.put(b"\n")
}

/// In versions 2 and 3 the line of the shell's counts.
fn put_tally(out: &mut Out, version: Version, part: &ShellPart) -> Result<(), NoMemory>
    ensures { IfOk result (λ _. out.new ≡ out.old ++ text_of (tally_lines version part.now)) }
{
    match version {
        Version::One => Ok(()),
        Version::Two | Version::Three => put_counts(out, part),
    }
}

fn put_shell(out: &mut Out, version: Version, number: u64, part: &ShellPart) -> Result<(), NoMemory>
    ensures { IfOk result (λ _. out.new ≡ out.old
        ++ text_of (shell_lines version (number, part.now))) }
{
    put_shell_line(out, number, part)?;
    put_edges(out, part.edges.as_slice())?;
    put_corners(out, part.corners.as_slice())?;
    put_reach(out, part.reach.as_slice())?;
    put_tally(out, version, part)?;
    Ok(())
}

fn put_shells(out: &mut Out, version: Version, parts: &[ShellPart]) -> Result<(), NoMemory>
    ensures { IfOk result (λ _. out.new ≡ out.old
        ++ flat_map (λ h. text_of (shell_lines version h)) (enumerate_from 1 parts.now)) }
{
    'shells: for i in 0..parts.len() {
        put_shell(out, version, i as u64 + 1, &parts[i])?;
    }
    Ok(())
}

/// The lines of one solid: the one that names it, and those of its shells.
fn put_solid(out: &mut Out, c: &Certificate) -> Result<(), NoMemory>
    ensures { IfOk result (λ _. out.new ≡ out.old ++ text_of (solid_lines c.now)) }
{
    put_line(out, b"SOLID", &[u64::from(c.solid.0)])?;
    put_shells(out, c.version, c.shells.as_slice())?;
    Ok(())
}

fn put_solids(out: &mut Out, parts: &[Certificate]) -> Result<(), NoMemory>
    ensures { IfOk result (λ _. out.new ≡ out.old
        ++ flat_map (λ c. text_of (solid_lines c)) parts.now) }
{
    'parts: for i in 0..parts.len() {
        put_solid(out, &parts[i])?;
    }
    Ok(())
}

/// The text of a certificate: the lines of its parts in order, after the head of its version and the line of its solid.
/// The counts of edges and of corners in a shell line are the lengths of the two lists. Where every number has at
/// most nine digits and no cycle is empty, each line is spelled.
pub fn write_certificate(alloc: Global, c: &Certificate) -> Result<Bytes, NoMemory>
    ensures text { IfOk result (λ text. text ≡ text_of (certificate_lines c.now)) }
    ensures lines { AllByRecursion HasSpelling (certificate_lines c.now)
        → IfOk result (λ text. cut_lines text ≡ map spelling (certificate_lines c.now)) }
{
    let mut out = Out::new(alloc);
    put_head_line(&mut out, c.version)?;
    put_solid(&mut out, c)?;
    out.put(b"END\n")?;
    Ok(out.into_bytes())
}

/// The text of a book, version 3: the lines of each part in order, after the head and before END. Where every
/// number has at most nine digits and no cycle is empty, each line is spelled.
pub fn write_book(alloc: Global, parts: &Certificates) -> Result<Bytes, NoMemory>
    ensures text { IfOk result (λ text. text ≡ text_of (book_lines parts.now)) }
    ensures lines { AllByRecursion HasSpelling (book_lines parts.now)
        → IfOk result (λ text. cut_lines text ≡ map spelling (book_lines parts.now)) }
{
    let mut out = Out::new(alloc);
    put_head_line(&mut out, Version::Three)?;
    put_solids(&mut out, parts.as_slice())?;
    out.put(b"END\n")?;
    Ok(out.into_bytes())
}
