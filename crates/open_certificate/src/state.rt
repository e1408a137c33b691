//! How far the lines of an open shell have come.

use crate::fitting::{fits_counts, fitting_border, fitting_lone, fitting_path, lists_all};
use crate::parsed::{OpenCounts, ParsedOpenLine};
use cert_state::{fitting_corner, fitting_edge, fitting_face, fitting_point, sizes_of};
use edge_uses::Rows;
use iges_base::{EntryNo, NoMemory};
use std::alloc::Global;
use std::marker::Model;

/// What is kept of the shell: its rows, what its lines are compared with, and what the lines so far said. Places in the
/// lists count from 0; rows that are in them count from 1, as in the lines.
#[derive(Drop)]
pub(crate) struct OpenState {
    entity: EntryNo,
    rows: Rows,
    /// For each row how many rows a corner line has that starts with it; 0 where none fits.
    sizes: Vec<u32>,
    /// For each loop without an edge, in file order, whether it is all that lies at its vertex.
    alone: Vec<bool>,
    /// Whether the SHELL line came.
    begun: bool,
    /// For each row its mate, from 1; 0 for none, as long as no edge line has named two rows.
    mates: Vec<u32>,
    /// For each row whether an edge line named it as the only one of its edge.
    lone: Vec<bool>,
    /// How many rows are the only ones of their edges, by the edge lines.
    lone_count: u64,
    /// For each face whether it is reached.
    reached: Vec<bool>,
    /// How many edge lines are due.
    edges_due: u32,
    /// How many corner, path and point lines are due.
    corners_due: u32,
    /// How many reach lines are due.
    reach_due: u32,
    /// How many border lines are due.
    borders_due: u32,
    /// How many rows the edge lines list.
    listed: u64,
    /// How many rows the border lines list, as far as can be counted.
    bordered: u64,
    /// The edge of the last edge line, from 0; None before the first.
    last_edge: Option<u32>,
    /// The vertex of the last corner, path or point line, from 0; None before the first.
    last_vertex: Option<u32>,
    /// The first row of the last border line, from 1; None before the first.
    last_border: Option<u32>,
}

impl Model for OpenState {
    ghost use Rattle.open_certificate.specs.CheckState.{OpenCheckState, IsCheckState};

    ghost Value = { OpenCheckState };

    ghost view = { λ k. record {
      entity = k.entity.0;
      rows = k.rows;
      sizes = k.sizes.items;
      alone = k.alone.items;
      begun = k.begun;
      mates = k.mates.items;
      lone = k.lone.items;
      lone_count = k.lone_count;
      reached = k.reached.items;
      edges_due = k.edges_due;
      corners_due = k.corners_due;
      reach_due = k.reach_due;
      borders_due = k.borders_due;
      listed = k.listed;
      bordered = k.bordered;
      last_edge = k.last_edge;
      last_vertex = k.last_vertex;
      last_border = k.last_border;
    } };

    ghost invariant = { λ k. IsCheckState (record {
      entity = k.entity.0;
      rows = k.rows;
      sizes = k.sizes.items;
      alone = k.alone.items;
      begun = k.begun;
      mates = k.mates.items;
      lone = k.lone.items;
      lone_count = k.lone_count;
      reached = k.reached.items;
      edges_due = k.edges_due;
      corners_due = k.corners_due;
      reach_due = k.reach_due;
      borders_due = k.borders_due;
      listed = k.listed;
      bordered = k.bordered;
      last_edge = k.last_edge;
      last_vertex = k.last_vertex;
      last_border = k.last_border;
    }) };
}

ghost use Rattle.std.specs.Prelude.{◌≡◌, ◌<◌, IfOk, length, replicate, ◌∷◌, [], false};
ghost use Rattle.cert_state.specs.CheckState.{HoldsFaces};

// One number for each row: its mate, from 1, or 0 while no line has named one.
fn no_mates(alloc: Global, rows: usize) -> Result<Vec<u32>, NoMemory>
    ensures { IfOk result (λ mates. mates.items ≡ replicate rows 0) }
{
    Ok(vec![in alloc; 0u32; rows]?)
}

// One mark for each row: whether a line has named it as a border row.
fn no_marks(alloc: Global, rows: usize) -> Result<Vec<bool>, NoMemory>
    ensures { IfOk result (λ marks. marks.items ≡ replicate rows false) }
{
    Ok(vec![in alloc; false; rows]?)
}

// One mark for each face; the first face counts as reached without a line.
fn first_reached(alloc: Global, faces: usize) -> Result<Vec<bool>, NoMemory>
    requires { 0 < faces }
    ensures len { IfOk result (λ reached. length reached.items ≡ faces) }
    ensures first { IfOk result (λ reached. HoldsFaces reached.items (0 ∷ [])) }
{
    let mut reached = vec![in alloc; false; faces]?;
    reached[0] = true;
    Ok(reached)
}

impl OpenState {
    ghost use Rattle.std.specs.Prelude.{◌≡◌, ◌↔◌, ℕ, ◌+◌, ◌<◌, ◌^◌, [], List, IsTrue, IfOk, true, false, length};
    ghost use Rattle.solid_data.specs.SolidData.{SolidData};
    ghost use Rattle.cert_text.specs.Text.{AreNumbers};
    ghost use Rattle.cert_state.specs.CheckState.{InFileOrder};
    ghost use Rattle.open_certificate.specs.Line.{OpenLine, HasSpelling, shell, edge, lone, cycle, path, point, reach, border};
    ghost use Rattle.open_certificate.specs.Progress.{OpenProgress, progress_from_latest, shell_of, IsDone};
    ghost use Rattle.open_certificate.specs.Parsed.{Means, IsRowLine};
    ghost use Rattle.open_certificate.specs.CheckState.{Takes, MatchesLines, dues};

    /// A shell of which no line was read.
    pub(crate) fn of(alloc: Global, entity: EntryNo, rows: Rows) -> Result<OpenState, NoMemory>
        requires order { InFileOrder rows.points }
        requires some { 0 < rows.face_count }
        requires few_edges { length rows.edges < 2 ^ 30 }
        requires few_vertices { length rows.vertices < 2 ^ 30 }
        ensures tells { IfOk result (λ k. (s : SolidData) → entity ≡ s.entity → rows ≡ shell_of s
            → MatchesLines s [] k) }
        ensures dues { IfOk result (λ k. dues k ≡ 0) }
        ensures begun { IfOk result (λ k. k.begun ≡ false) }
    {
        let sizes = sizes_of(alloc, &rows)?;
        let mates = no_mates(alloc, rows.len())?;
        let lone = no_marks(alloc, rows.len())?;
        let reached = first_reached(alloc, rows.face_count())?;
        Ok(OpenState {
            entity,
            rows,
            sizes: sizes.rows,
            alone: sizes.alone,
            begun: false,
            mates,
            lone,
            lone_count: 0,
            reached,
            edges_due: 0,
            corners_due: 0,
            reach_due: 0,
            borders_due: 0,
            listed: 0,
            bordered: 0,
            last_edge: None,
            last_vertex: None,
            last_border: None,
        })
    }

    /// Whether END fits.
    pub(crate) fn is_done(&self) -> bool
        ensures begun { IsTrue result → self.now.begun ≡ true }
        ensures done { (s : SolidData) (lines : List OpenLine) → MatchesLines s lines self.now
            → IsTrue result ↔ IsDone (progress_from_latest s lines) }
    {
        self.begun
            && self.edges_due == 0
            && self.corners_due == 0
            && self.reach_due == 0
            && self.borders_due == 0
            && self.bordered == self.lone_count
    }

    /// Takes the SHELL line, exactly where it fits.
    pub(crate) fn take_shell(&mut self, words: &OpenCounts) -> bool
        ensures line { Takes self.old self.new
            (shell words.now.shell words.now.rows words.now.edges words.now.corners words.now.faces words.now.borders) result }
        ensures due { IsTrue result → dues self.new < 2 ^ 34 }
        ensures begun { IsTrue result → (self.old.begun ≡ false) × (self.new.begun ≡ true) }
        ensures refused { result ≡ false → self.new ≡ self.old }
    {
        if self.begun || words.shell != self.entity.0 || !fits_counts(&self.rows, words) {
            return false;
        }
        self.begun = true;
        self.edges_due = words.edges;
        self.corners_due = words.corners;
        self.reach_due = words.faces - 1;
        self.borders_due = words.borders;
        true
    }

    // Takes an E line of two rows, from 1, where it fits; else the state stays as it was.
    fn take_edge(&mut self, along: u32, against: u32) -> bool
        ensures line { Takes self.old self.new (edge along against) result }
        ensures due { IsTrue result → dues self.new + 1 ≡ dues self.old }
        ensures begun { self.new.begun ≡ self.old.begun }
        ensures refused { result ≡ false → self.new ≡ self.old }
    {
        if self.edges_due == 0 {
            return false;
        }
        if !lists_all(&self.rows, self.edges_due, self.listed, 2) {
            return false;
        }
        let Some(edge) = fitting_edge(&self.rows, self.last_edge, along, against) else {
            return false;
        };
        self.mates[along as usize - 1] = against;
        self.mates[against as usize - 1] = along;
        self.edges_due -= 1;
        self.listed += 2;
        self.last_edge = Some(edge.0);
        true
    }

    // Takes an E line of one row, from 1, where it fits; else the state stays as it was.
    fn take_lone(&mut self, row: u32) -> bool
        ensures line { Takes self.old self.new (lone row) result }
        ensures due { IsTrue result → dues self.new + 1 ≡ dues self.old }
        ensures begun { self.new.begun ≡ self.old.begun }
        ensures refused { result ≡ false → self.new ≡ self.old }
    {
        if self.edges_due == 0 {
            return false;
        }
        if !lists_all(&self.rows, self.edges_due, self.listed, 1) {
            return false;
        }
        let Some(edge) = fitting_lone(&self.rows, self.last_edge, row) else {
            return false;
        };
        self.lone[row as usize - 1] = true;
        self.edges_due -= 1;
        self.listed += 1;
        self.lone_count += 1;
        self.last_edge = Some(edge.0);
        true
    }

    // Takes a C line, whose rows are given as text, where it fits; else the state stays as it was.
    fn take_cycle(&mut self, numbers: &[u8]) -> bool
        ensures line { (rs : List ℕ) → AreNumbers numbers.now rs
            → Takes self.old self.new (cycle rs) result }
        ensures due { IsTrue result → dues self.new + 1 ≡ dues self.old }
        ensures begun { self.new.begun ≡ self.old.begun }
        ensures refused { result ≡ false → self.new ≡ self.old }
    {
        if self.edges_due != 0 || self.corners_due == 0 {
            return false;
        }
        let Some(vertex) = fitting_corner(
            &self.rows,
            &self.sizes,
            &self.mates,
            self.last_vertex,
            numbers,
        ) else {
            return false;
        };
        self.corners_due -= 1;
        self.last_vertex = Some(vertex.0);
        true
    }

    // Takes a P line, whose rows are given as text, where it fits; else the state stays as it was.
    fn take_path(&mut self, numbers: &[u8]) -> bool
        ensures line { (rs : List ℕ) → AreNumbers numbers.now rs
            → Takes self.old self.new (path rs) result }
        ensures due { IsTrue result → dues self.new + 1 ≡ dues self.old }
        ensures begun { self.new.begun ≡ self.old.begun }
        ensures refused { result ≡ false → self.new ≡ self.old }
    {
        if self.edges_due != 0 || self.corners_due == 0 {
            return false;
        }
        let Some(vertex) = fitting_path(
            &self.rows,
            &self.sizes,
            &self.mates,
            &self.lone,
            self.last_vertex,
            numbers,
        ) else {
            return false;
        };
        self.corners_due -= 1;
        self.last_vertex = Some(vertex.0);
        true
    }

    // Takes an I line of a face and a loop of it, both from 1, where it fits; else the state stays as it was.
    fn take_point(&mut self, face: u32, place: u32) -> bool
        ensures line { Takes self.old self.new (point face place) result }
        ensures due { IsTrue result → dues self.new + 1 ≡ dues self.old }
        ensures begun { self.new.begun ≡ self.old.begun }
        ensures refused { result ≡ false → self.new ≡ self.old }
    {
        if self.edges_due != 0 || self.corners_due == 0 {
            return false;
        }
        let Some(vertex) = fitting_point(&self.rows, &self.alone, self.last_vertex, face, place)
        else {
            return false;
        };
        self.corners_due -= 1;
        self.last_vertex = Some(vertex.0);
        true
    }

    // Takes an R line of a row, from 1, where it fits; else the state stays as it was.
    fn take_reach(&mut self, row: u32) -> bool
        ensures line { Takes self.old self.new (reach row) result }
        ensures due { IsTrue result → dues self.new + 1 ≡ dues self.old }
        ensures begun { self.new.begun ≡ self.old.begun }
        ensures refused { result ≡ false → self.new ≡ self.old }
    {
        if self.edges_due != 0 || self.corners_due != 0 || self.reach_due == 0 {
            return false;
        }
        let Some(face) = fitting_face(&self.rows, &self.mates, &self.reached, row) else {
            return false;
        };
        self.reached[face.0 as usize] = true;
        self.reach_due -= 1;
        true
    }

    // Takes a B line, whose rows are given as text, where it fits; else the state stays as it was.
    fn take_border(&mut self, numbers: &[u8]) -> bool
        ensures line { (rs : List ℕ) → AreNumbers numbers.now rs
            → Takes self.old self.new (border rs) result }
        ensures due { IsTrue result → dues self.new + 1 ≡ dues self.old }
        ensures begun { self.new.begun ≡ self.old.begun }
        ensures refused { result ≡ false → self.new ≡ self.old }
    {
        if self.edges_due != 0 || self.corners_due != 0 || self.reach_due != 0 {
            return false;
        }
        if self.borders_due == 0 {
            return false;
        }
        let Some((first, len)) = fitting_border(&self.rows, &self.lone, self.last_border, numbers)
        else {
            return false;
        };
        let bordered = self.bordered.saturating_add(len as u64);
        self.borders_due -= 1;
        self.bordered = bordered;
        self.last_border = Some(first);
        true
    }

    /// Takes an edge, corner, path, point, reach or border line, exactly where it fits.
    pub(crate) fn take(&mut self, words: ParsedOpenLine<'_>) -> bool
        ensures line { (line : OpenLine) → Means words.entry line → HasSpelling line
            → IsRowLine line → Takes self.old self.new line result }
        ensures due { IsTrue result → dues self.new + 1 ≡ dues self.old }
        ensures begun { self.new.begun ≡ self.old.begun }
        ensures refused { result ≡ false → self.new ≡ self.old }
    {
        match words {
            ParsedOpenLine::Edge(along, against) => self.take_edge(along, against),
            ParsedOpenLine::Lone(row) => self.take_lone(row),
            ParsedOpenLine::Cycle(numbers) => self.take_cycle(numbers),
            ParsedOpenLine::Path(numbers) => self.take_path(numbers),
            ParsedOpenLine::Point(face, place) => self.take_point(face, place),
            ParsedOpenLine::Reach(row) => self.take_reach(row),
            ParsedOpenLine::Border(numbers) => self.take_border(numbers),
            ParsedOpenLine::Head | ParsedOpenLine::Shell(_) | ParsedOpenLine::End => false,
        }
    }
}
