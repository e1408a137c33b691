//! How far the lines of a shell have come.

use crate::corners::{fitting_corner, fitting_point, read_corner};
use crate::due::Due;
use crate::fitting::{fits_counts, fits_tally, fitting_edge, fitting_face};
use crate::tallies::{Sizes, sizes_of};
use cert_lines::{ParsedLine, ShellCounts, TallyCounts, Version, leading_edge, leading_reach};
use cert_text::after_byte;
use edge_uses::Rows;
use iges_base::NoMemory;
use std::alloc::Global;
use std::marker::Model;

/// What is kept of a shell: its rows, what its lines are compared with, and what the lines so far said. Places in the
/// lists count from 0; rows that are in them count from 1, as in the lines.
#[derive(Drop)]
pub struct ShellState {
    rows: Rows,
    /// How many loops the shell has.
    loops: u64,
    /// For each row how many rows a corner line has that starts with it; 0 where none fits.
    sizes: Vec<u32>,
    /// For each loop without an edge, in file order, whether it is all that lies at its vertex.
    alone: Vec<bool>,
    /// For each row its mate, from 1; 0 for none, as long as no edge line has named the row.
    mates: Vec<u32>,
    /// For each face whether it is reached.
    reached: Vec<bool>,
    due: Due,
    /// The edge of the last edge line, from 0; None before the first.
    last_edge: Option<u32>,
    /// The vertex of the last corner or point line, from 0; None before the first.
    last_vertex: Option<u32>,
}

impl Model for ShellState {
    ghost use Rattle.cert_state.specs.CheckState.{ShellCheckState, IsCheckState};

    ghost Value = { ShellCheckState };

    ghost view = { λ k. record { rows = k.rows; loops = k.loops; sizes = k.sizes.items; alone = k.alone.items; mates = k.mates.items; reached = k.reached.items; due = k.due; last_edge = k.last_edge; last_vertex = k.last_vertex } };

    ghost invariant = { λ k. IsCheckState (record { rows = k.rows; loops = k.loops; sizes = k.sizes.items; alone = k.alone.items; mates = k.mates.items; reached = k.reached.items; due = k.due; last_edge = k.last_edge; last_vertex = k.last_vertex }) };
}

ghost use Rattle.std.specs.Prelude.{◌≡◌, ◌<◌, IfOk, length, replicate, ◌∷◌, []};
ghost use Rattle.cert_state.specs.CheckState.{HoldsFaces};
ghost use Rattle.cert_state.specs.Tallied.{AreSizes};

// One number for each row: its mate, from 1, or 0 while no line has named one.
fn no_mates(alloc: Global, rows: usize) -> Result<Vec<u32>, NoMemory>
    ensures { IfOk result (λ mates. mates.items ≡ replicate rows 0) }
{
    Ok(vec![in alloc; 0u32; rows]?)
}

// One mark for each face; the first face counts as reached without a line.
fn first_reached(alloc: Global, faces: usize) -> Result<Vec<bool>, NoMemory>
    requires { 0 < faces }
    ensures len { IfOk result (λ reached. length reached.items ≡ faces) }
    ensures first { IfOk result (λ reached. HoldsFaces reached.items (0 ∷ [])) }
{
    let mut reached = vec![in alloc; false; faces]?;
    reached[0] = true;
    Ok(reached)
}

// What the lines of a shell are compared with, as it is before the first of them: the fields of `ShellState` of these names.
#[derive(Drop)]
struct Tables {
    sizes: Sizes,
    mates: Vec<u32>,
    reached: Vec<bool>,
}

fn tables_of(alloc: Global, rows: &Rows) -> Result<Tables, NoMemory>
    requires { 0 < rows.now.face_count }
    ensures sizes { IfOk result (λ t. AreSizes rows.now t.sizes) }
    ensures mates { IfOk result (λ t. t.mates.items ≡ replicate (length rows.now.rows) 0) }
    ensures len { IfOk result (λ t. length t.reached.items ≡ rows.now.face_count) }
    ensures first { IfOk result (λ t. HoldsFaces t.reached.items (0 ∷ [])) }
{
    let sizes = sizes_of(alloc, rows)?;
    let mates = no_mates(alloc, rows.len())?;
    let reached = first_reached(alloc, rows.face_count())?;
    Ok(Tables {
        sizes,
        mates,
        reached,
    })
}

impl ShellState {
    ghost use Rattle.std.specs.Prelude.{◌≡◌, ◌↔◌, ℕ, ◌+◌, ◌<◌, ◌^◌, List, IsTrue, IfOk, IfNone, IfSome, false, length};
    ghost use Rattle.cert_lines.specs.Line.{CertLine, HasSpelling, edge, corner, point, reach, tally};
    ghost use Rattle.cert_text.specs.Text.{AreNumbers};
    ghost use Rattle.cert_lines.specs.Parsed.{Means, IsRowLine};
    ghost use Rattle.cert_state.specs.CheckState.{ShellCheckState, IsFresh, InFileOrder, AreCounts, IsTally, lines_due};
    ghost use Rattle.cert_state.specs.Matching.{Takes, TakesNext};

    /// A shell of which no line was read.
    pub fn of(
        alloc: Global,
        version: Version,
        rows: Rows,
        loops: u64,
    ) -> Result<ShellState, NoMemory>
        requires order { InFileOrder rows.points }
        requires some { 0 < rows.face_count }
        requires few_edges { length rows.edges < 2 ^ 30 }
        requires few_vertices { length rows.vertices < 2 ^ 30 }
        ensures { IfOk result (λ k. IsFresh version rows loops k) }
    {
        let tables = tables_of(alloc, &rows)?;
        let due = Due::of_shell(version, &rows);
        Ok(ShellState {
            rows,
            loops,
            sizes: tables.sizes.rows,
            alone: tables.sizes.alone,
            mates: tables.mates,
            reached: tables.reached,
            due,
            last_edge: None,
            last_vertex: None,
        })
    }

    /// Whether these are the shell's counts.
    pub fn has_counts(&self, counts: &ShellCounts) -> bool
        ensures { IsTrue result ↔ AreCounts self.now.rows counts.now }
    {
        fits_counts(&self.rows, counts)
    }

    /// Whether no line of the shell is due.
    pub fn is_done(&self) -> bool
        ensures { IsTrue result ↔ (lines_due self.now.due ≡ 0) }
    {
        self.due.is_none()
    }

    // Takes an E line of two rows, from 1, where it fits; else the state stays as it was.
    fn take_edge(&mut self, along: u32, against: u32) -> bool
        ensures line { Takes self.old self.new (edge along against) result }
        ensures due { IsTrue result → lines_due self.new.due + 1 ≡ lines_due self.old.due }
        ensures refused { result ≡ false → self.new ≡ self.old }
    {
        if !self.due.has_edge() {
            return false;
        }
        let Some(edge) = fitting_edge(&self.rows, self.last_edge, along, against) else {
            return false;
        };
        self.mates[along as usize - 1] = against;
        self.mates[against as usize - 1] = along;
        self.due.edges -= 1;
        self.last_edge = Some(edge.0);
        true
    }

    // Takes a C line of these numbers, where it fits; else the state stays as it was.
    fn take_corner(&mut self, text: &[u8]) -> bool
        ensures line { (rs : List ℕ) → AreNumbers text.now rs
            → Takes self.old self.new (corner rs) result }
        ensures due { IsTrue result → lines_due self.new.due + 1 ≡ lines_due self.old.due }
        ensures refused { result ≡ false → self.new ≡ self.old }
    {
        if !self.due.has_corner() {
            return false;
        }
        let Some(vertex) = fitting_corner(
            &self.rows,
            &self.sizes,
            &self.mates,
            self.last_vertex,
            text,
        ) else {
            return false;
        };
        self.due.corners -= 1;
        self.last_vertex = Some(vertex.0);
        true
    }

    // Takes an I line of a face and a loop of it, both from 1, where it fits; else the state stays as it was.
    fn take_point(&mut self, face: u32, place: u32) -> bool
        ensures line { Takes self.old self.new (point face place) result }
        ensures due { IsTrue result → lines_due self.new.due + 1 ≡ lines_due self.old.due }
        ensures refused { result ≡ false → self.new ≡ self.old }
    {
        if !self.due.has_corner() {
            return false;
        }
        let Some(vertex) = fitting_point(&self.rows, &self.alone, self.last_vertex, face, place)
        else {
            return false;
        };
        self.due.corners -= 1;
        self.last_vertex = Some(vertex.0);
        true
    }

    // Takes an R line of a row, from 1, where it fits; else the state stays as it was.
    fn take_reach(&mut self, row: u32) -> bool
        ensures line { Takes self.old self.new (reach row) result }
        ensures due { IsTrue result → lines_due self.new.due + 1 ≡ lines_due self.old.due }
        ensures refused { result ≡ false → self.new ≡ self.old }
    {
        if !self.due.has_reach() {
            return false;
        }
        let Some(face) = fitting_face(&self.rows, &self.mates, &self.reached, row) else {
            return false;
        };
        self.reached[face.0 as usize] = true;
        self.due.reach -= 1;
        true
    }

    // Takes a TALLY line where it is due and its counts are the shell's; else the state stays as it was.
    fn take_tally(&mut self, counts: &TallyCounts) -> bool
        ensures line { Takes self.old self.new (tally counts.now) result }
        ensures due { IsTrue result → lines_due self.new.due + 1 ≡ lines_due self.old.due }
        ensures refused { result ≡ false → self.new ≡ self.old }
    {
        if !self.due.has_tally() || !fits_tally(&self.rows, self.loops, counts) {
            return false;
        }
        self.due.tally -= 1;
        true
    }

    /// Takes an edge, corner, point, reach or TALLY line, exactly where it fits.
    pub fn take(&mut self, words: ParsedLine<'_>) -> bool
        ensures line { (line : CertLine) → Means words.entry line → HasSpelling line
            → IsRowLine line → Takes self.old self.new line result }
        ensures due { IsTrue result → lines_due self.new.due + 1 ≡ lines_due self.old.due }
        ensures refused { result ≡ false → self.new ≡ self.old }
    {
        match words {
            ParsedLine::Edge(along, against) => self.take_edge(along, against),
            ParsedLine::Corner(numbers) => self.take_corner(numbers),
            ParsedLine::Point(face, place) => self.take_point(face, place),
            ParsedLine::Reach(row) => self.take_reach(row),
            ParsedLine::Tally(counts) => self.take_tally(&counts),
            ParsedLine::Head(_) | ParsedLine::Solid(_) | ParsedLine::Shell(..) | ParsedLine::End =>
                false,
        }
    }
    // Takes the E line at the start of a text, of at most so many bytes, where it fits; else the state stays as it was.
    fn take_next_edge<'t>(&mut self, text: &'t [u8], limit: usize) -> Option<&'t [u8]>
        ensures line { IfSome result (λ after. TakesNext self.old self.new limit text.now after.now) }
        ensures due { IfSome result (λ _. lines_due self.new.due + 1 ≡ lines_due self.old.due) }
        ensures refused { IfNone result (self.new ≡ self.old) }
    {
        let Some((along, against, after)) = leading_edge(text) else {
            return None;
        };
        if text.len() - after.len() > limit || !self.take_edge(along, against) {
            return None;
        }
        Some(after)
    }

    // Takes the R line at the start of a text, of at most so many bytes, where it fits; else the state stays as it was.
    fn take_next_reach<'t>(&mut self, text: &'t [u8], limit: usize) -> Option<&'t [u8]>
        ensures line { IfSome result (λ after. TakesNext self.old self.new limit text.now after.now) }
        ensures due { IfSome result (λ _. lines_due self.new.due + 1 ≡ lines_due self.old.due) }
        ensures refused { IfNone result (self.new ≡ self.old) }
    {
        let Some((row, after)) = leading_reach(text) else {
            return None;
        };
        if text.len() - after.len() > limit || !self.take_reach(row) {
            return None;
        }
        Some(after)
    }

    // Takes the C line at the start of a text, of at most so many bytes, where it fits; else the state stays as it was.
    fn take_next_corner<'t>(&mut self, text: &'t [u8], limit: usize) -> Option<&'t [u8]>
        ensures line { IfSome result (λ after. TakesNext self.old self.new limit text.now after.now) }
        ensures due { IfSome result (λ _. lines_due self.new.due + 1 ≡ lines_due self.old.due) }
        ensures refused { IfNone result (self.new ≡ self.old) }
    {
        if !self.due.has_corner() {
            return None;
        }
        let Some(numbers) = after_byte(text, b'C') else {
            return None;
        };
        let Some((vertex, rest)) = read_corner(
            &self.rows,
            &self.sizes,
            &self.mates,
            self.last_vertex,
            numbers,
        ) else {
            return None;
        };
        let Some(after) = after_byte(rest, b'\n') else {
            return None;
        };
        if text.len() - after.len() > limit {
            return None;
        }
        self.due.corners -= 1;
        self.last_vertex = Some(vertex.0);
        Some(after)
    }

    /// Takes the edge, corner or reach line at the start of a text, of at most so many bytes, where it fits, and gives
    /// what follows it. Else the state stays as it was, though the line may fit.
    pub fn take_next<'t>(&mut self, text: &'t [u8], limit: usize) -> Option<&'t [u8]>
        ensures line { IfSome result (λ after. TakesNext self.old self.new limit text.now after.now) }
        ensures due { IfSome result (λ _. lines_due self.new.due + 1 ≡ lines_due self.old.due) }
        ensures refused { IfNone result (self.new ≡ self.old) }
    {
        if let Some(after) = self.take_next_edge(text, limit) {
            return Some(after);
        }
        if let Some(after) = self.take_next_corner(text, limit) {
            return Some(after);
        }
        self.take_next_reach(text, limit)
    }
}
