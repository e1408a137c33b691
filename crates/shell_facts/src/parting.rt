//! What is said of each part of a shell.

ghost use Rattle.std.specs.Prelude.{◌≡◌, ◌<◌, ◌++◌, ◌∷◌, [], ◌&&◌, ◌||◌, ◌==◌, nat_lt, ℕ, List, All, Contains, Some, IfOk, length, map, flat_map, slice_get, option_copied, if◌then◌else◌};
ghost use Rattle.std.specs.List.{list_any};
ghost use Rattle.std.specs.List.Sorted.{IsStrictlyIncreasing};
ghost use Rattle.solid_data.specs.SolidData.{occurring};
ghost use Rattle.solid_data.specs.declared.solid.Shell.{Shell as AnyShell};
ghost use Rattle.solid_data.specs.Ranges.{IsSpanOf, IsWithin};
ghost use Rattle.edge_uses.specs.Before.{face_vertices, faces_vertices};
ghost use Rattle.edge_uses.specs.ShellRows.{rows_of};
ghost use Rattle.solid_faults.specs.Edges.{unpaired_of};
ghost use Rattle.shell_facts.specs.PartFacts.{parts_of};
ghost use Rattle.solid_faults.specs.Parts.{AreParts};
ghost use Rattle.shell_facts.specs.PartTables.{is_low, low_vertex, face_numbered, faces_numbered, AreKept, AreMarks, IsLowest};
ghost use Rattle.shell_components.specs.FaceUses.{face_edges, AddedFaces};
ghost use Rattle.solid_data.specs.declared.solid.FaceUse.{FaceUse as AnyFace};
ghost use Rattle.std.specs.Option.{option_to_list};
ghost use Rattle.solid_faults.specs.declared.edge.Unpaired.{Unpaired as AnyUnpaired};

use crate::grouping::by_least;
use edge_uses::Rows;
use iges_base::{EntryNo, NoMemory};
use shell_components::{Groups, Used, add_face, grouped, nothing_used, used_by};
use solid_data::{Cells, FaceUse, Shell, ShellAt, Solid, occurring_numbers, push_if};
use solid_faults::Unpaired;
use std::alloc::Global;
use std::marker::Model;

/// The parts of a shell, with tables by which each is described, made once.
#[derive(Drop)]
pub struct PartTables<'a> {
    solid: &'a Solid,
    shell: &'a Shell,
    firsts: &'a [u32],
    unpaired: &'a [Unpaired],
    by_part: Groups,
    by_edge: Groups,
    lows: Cells<'a, u32>,
}

impl<'a> Model for PartTables<'a> {
    ghost use Rattle.shell_facts.specs.PartTables.{ShellParts};

    ghost Value = { ShellParts };

    ghost use Rattle.shell_facts.specs.PartTables.{ArePartTables};

    ghost view = { λ t. record {
      solid = t.solid.now;
      shell = t.shell.now;
      firsts = t.firsts.now;
      unpaired = t.unpaired.now;
    } };

    ghost invariant = { λ t. ArePartTables t.solid.now t.shell.now t.firsts.now t.unpaired.now
        t.by_part t.by_edge t.lows };
}

/// A part of a shell: all faces that chains of shared edges join.
#[derive(Drop)]
pub struct Part {
    /// The faces, as the shell lists them.
    pub faces: Vec<EntryNo>,
    /// How many edges occur in it.
    pub edges: usize,
    /// The vertices that occur in it, by rising number.
    pub vertices: Vec<u32>,
    /// How many of its edges aren't paired in the shell.
    pub unpaired: usize,
    /// Those of its vertices that occur in a part before it, by rising number.
    pub touching: Vec<u32>,
}

// The numbers of edges that aren't paired.
fn numbers_of(alloc: Global, unpaired: &[Unpaired]) -> Result<Vec<u32>, NoMemory>
    ensures { IfOk result (λ edges. edges.items
        ≡ map (λ (u : AnyUnpaired). u.edge.0) unpaired.now) }
{
    let mut edges = Vec::with_capacity(alloc, unpaired.len())?;
    'edges: for i in 0..unpaired.len() {
        edges.push(unpaired[i].edge.0)?;
    }
    Ok(edges)
}

// Notes that a part, named by its first face, has a vertex: of the parts that have it the least is kept.
fn lower(lows: &mut Cells<'_, u32>, vertex: u32, part: u32)
    requires known { Contains lows.old.numbers vertex }
    requires within { IsWithin lows.old.span vertex }
    requires each { length lows.old.cells ≡ lows.old.span.count }
    ensures kept { AreKept lows.old lows.new }
    ensures lows { (v p : ℕ) → IsWithin lows.old.span v
        → is_low lows.new p v ≡ (is_low lows.old p v || ((vertex == v) && nat_lt part p)) }
{
    if part < lows.at(vertex) {
        lows.set(vertex, part);
    }
}

fn lower_all(lows: &mut Cells<'_, u32>, vertices: &[u32], part: u32)
    requires known { All (Contains lows.old.numbers) vertices.now }
    requires marks { AreMarks lows.old }
    ensures kept { AreKept lows.old lows.new }
    ensures lows { (v p : ℕ) → IsWithin lows.old.span v
        → is_low lows.new p v ≡ (is_low lows.old p v
        || (list_any (λ m. m == v) vertices.now && nat_lt part p)) }
{
    'vertices: for i in 0..vertices.len() {
        lower(lows, vertices[i], part);
    }
}

// For each vertex of a shell the least part that has it, or the greatest number.
fn lowest_parts<'a>(
    alloc: Global,
    solid: &Solid,
    shell: &Shell,
    firsts: &[u32],
    vertices: &'a [u32],
) -> Result<Cells<'a, u32>, NoMemory>
    requires rise { IsStrictlyIncreasing vertices.now }
    requires known { All (Contains vertices.now) (faces_vertices solid.now shell.now) }
    requires each { length firsts.now ≡ length shell.now.faces }
    ensures span { IfOk result (λ lows. IsSpanOf lows.span vertices.now) }
    ensures lows { IfOk result (IsLowest solid.now shell.now firsts.now) }
{
    let mut lows = Cells::new(alloc, vertices, u32::MAX)?;
    let mut used = nothing_used(alloc);
    let faces = shell.faces.as_slice();
    'faces: for i in 0..faces.len() {
        used_by(solid, &faces[i], &mut used)?;
        lower_all(&mut lows, used.vertices.as_slice(), firsts[i]);
    }
    Ok(lows)
}

/// The parts of a shell, whose rows, first faces of parts and edges that aren't paired are given. It goes
/// once over the uses of the shell.
pub fn part_tables<'a>(
    alloc: Global,
    solid: &'a Solid,
    shell: ShellAt,
    rows: &'a Rows,
    firsts: &'a [u32],
    unpaired: &'a [Unpaired],
) -> Result<PartTables<'a>, NoMemory>
    requires shell { shell.0 < length solid.now.shells }
    requires rows { rows.now ≡ rows_of solid.now (slice_get solid.now.shells shell.0) }
    requires parts { AreParts rows.now firsts.now }
    requires unpaired { unpaired.now ≡ unpaired_of rows.now }
    ensures { IfOk result (λ t. (h : AnyShell) → slice_get solid.now.shells shell.0 ≡ Some h
        → t
        ≡ record { solid = solid.now; shell = h; firsts = firsts.now; unpaired = unpaired.now }) }
{
    let shell = solid.shell(shell).unwrap();
    let numbers = numbers_of(alloc, unpaired)?;
    let lows = lowest_parts(alloc, solid, shell, firsts, rows.vertex_slice())?;
    let by_edge = grouped(alloc, numbers, rows.edge_span())?;
    let by_part = match by_least(alloc, firsts) {
        Ok(groups) => groups,
        Err(fault) => {
            drop(by_edge);
            return Err(fault);
        }
    };
    Ok(PartTables {
        solid,
        shell,
        firsts,
        unpaired,
        by_part,
        by_edge,
        lows,
    })
}

/// The parts of a shell, of which each face has the first one of its part: each by its first face, in order.
pub fn parts(alloc: Global, firsts: &[u32]) -> Result<Vec<u32>, NoMemory>
    ensures { IfOk result (λ parts. parts.items ≡ parts_of firsts.now) }
{
    let mut out = Vec::new(alloc);
    'faces: for i in 0..firsts.len() {
        push_if(&mut out, i == firsts[i] as usize, firsts[i])?;
    }
    Ok(out)
}

// Adds what the face with this number uses; nothing where the shell hasn't got it.
fn add_numbered(solid: &Solid, shell: &Shell, n: u32, used: &mut Used) -> Result<(), NoMemory>
    ensures { IfOk result (λ _. AddedFaces solid.now used.old used.new
        (face_numbered shell.now n)) }
{
    match shell.faces.get(n as usize) {
        Some(face) => add_face(solid, face, used),
        None => Ok(()),
    }
}

fn used_by_faces(
    alloc: Global,
    solid: &Solid,
    shell: &Shell,
    faces: &[u32],
) -> Result<Used, NoMemory>
    ensures edges { IfOk result (λ used. used.edges.items
        ≡ flat_map face_edges (faces_numbered shell.now faces.now)) }
    ensures vertices { IfOk result (λ used. used.vertices.items
        ≡ flat_map (face_vertices solid.now) (faces_numbered shell.now faces.now)) }
{
    let mut used = nothing_used(alloc);
    'faces: for i in 0..faces.len() {
        add_numbered(solid, shell, faces[i], &mut used)?;
    }
    Ok(used)
}

fn push_entity(out: &mut Vec<EntryNo>, face: Option<&FaceUse>) -> Result<(), NoMemory>
    ensures { IfOk result (λ _. out.new.items
        ≡ out.old.items ++ map (λ (f : AnyFace). f.entity)
        (option_to_list (option_copied face.entry))) }
{
    if let Some(face) = face {
        out.push(face.entity)?;
    }
    Ok(())
}

// The directory numbers of faces that are given by their numbers in the shell.
fn entities(alloc: Global, shell: &Shell, faces: &[u32]) -> Result<Vec<EntryNo>, NoMemory>
    ensures { IfOk result (λ out. out.items ≡ map
        (λ (f : AnyFace). f.entity) (faces_numbered shell.now faces.now)) }
{
    let mut out = Vec::with_capacity(alloc, faces.len())?;
    'faces: for i in 0..faces.len() {
        push_entity(&mut out, shell.faces.get(faces[i] as usize))?;
    }
    Ok(out)
}

fn is_among(numbers: &Groups, n: u32) -> bool
    ensures { result ≡ list_any (λ m. m == n) numbers.now }
{
    !numbers.places(n).is_empty()
}

// How many of some edges aren't paired in the shell.
fn unpaired_among(unpaired: &Groups, edges: &[u32]) -> usize
    ensures { result ≡ length (occurring edges.now unpaired.now) }
{
    let mut count = 0;
    'edges: for i in 0..edges.len() {
        if is_among(unpaired, edges[i]) {
            count += 1;
        }
    }
    count
}

// Whether a part before has the vertex.
fn is_before(lows: &Cells<'_, u32>, vertex: u32, first: u32) -> bool
    requires { IsWithin lows.now.span vertex }
    ensures { result ≡ is_low lows.now first vertex }
{
    lows.at(vertex) < first
}

// Those of a part's vertices that a part before it has too.
fn touching(
    alloc: Global,
    lows: &Cells<'_, u32>,
    vertices: &[u32],
    first: u32,
) -> Result<Vec<u32>, NoMemory>
    requires { All (IsWithin lows.now.span) vertices.now }
    ensures { IfOk result (λ out. out.items ≡ flat_map (low_vertex lows.now first) vertices.now) }
{
    let mut out = Vec::new(alloc);
    'vertices: for i in 0..vertices.len() {
        push_if(&mut out, is_before(lows, vertices[i], first), vertices[i])?;
    }
    Ok(out)
}

impl<'a> PartTables<'a> {
    ghost use Rattle.std.specs.Prelude.{◌≡◌, IfOk};
    ghost use Rattle.shell_facts.specs.PartFacts.{IsPart};

    /// A part, by its first face. It goes over the uses of the part's faces.
    pub fn part(&self, alloc: Global, first: u32) -> Result<Part, NoMemory>
        ensures { IfOk result
            (λ p. IsPart self.now.solid self.now.shell self.now.firsts self.now.unpaired first p) }
    {
        let numbers = self.by_part.places(first);
        let used = used_by_faces(alloc, self.solid, self.shell, numbers)?;
        let edges = occurring_numbers(alloc, used.edges.as_slice())?;
        let vertices = occurring_numbers(alloc, used.vertices.as_slice())?;
        let faces = entities(alloc, self.shell, numbers)?;
        let touching = touching(alloc, &self.lows, vertices.as_slice(), first)?;
        Ok(Part {
            faces,
            edges: edges.len(),
            unpaired: unpaired_among(&self.by_edge, edges.as_slice()),
            vertices,
            touching,
        })
    }
}
