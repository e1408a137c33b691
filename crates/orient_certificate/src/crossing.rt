//! Rows as steps from face to face.

ghost use Rattle.std.specs.Prelude.{◌≡◌, ◌<◌, ◌≤◌, ◌^◌, ℕ, Bool, true, map, length, slice_get, IfOk, get_or};
ghost use Rattle.solid_data.specs.SolidData.{same_flag};
ghost use Rattle.solid_data.specs.declared.solid.FaceUse.{FaceUse as AnyFace};
ghost use Rattle.solid_data.specs.Ranges.{IsSpanOf};
ghost use Rattle.edge_uses.specs.ShellRows.{AreRows};
ghost use Rattle.orient_certificate.specs.Partners.{AllHaveTwoRows, ArePartners};
ghost use Rattle.orient_certificate.specs.RowsByEdge.{AreRowsByEdge};
ghost use Rattle.orient_certificate.specs.Crossings.{IsStep, flipped};

use crate::rows_by_edge::RowsByEdge;
use edge_uses::{Row, Rows};
use iges_base::NoMemory;
use solid_data::{RowId, Shell, same_flags};
use std::alloc::Global;

/// A row as a step from its face to that of its partner. It flips where the two faces need different flags.
#[derive(Clone, Copy)]
pub struct Crossing {
    /// The face of the row, from 0.
    pub from: u32,
    /// The face of its partner, from 0; it may be the same one.
    pub to: u32,
    /// The other row of the same edge, from 0.
    pub partner: u32,
    /// Whether the two faces need different flags for the edge to be used in opposite directions.
    pub flips: bool,
}

/// The flag on the other side of a step.
pub fn flip(flips: bool, flag: bool) -> bool
    ensures { result ≡ flipped flips flag }
{
    if flips { !flag } else { flag }
}

/// Which faces are walked as they stand: those whose flag is the shell's.
pub(crate) fn forwards_of(alloc: Global, shell: &Shell) -> Result<Vec<bool>, NoMemory>
    ensures { IfOk result (λ v. v.items ≡ map
        (λ (f : AnyFace). same_flag f.flag shell.now.flag) shell.now.faces) }
{
    let mut forwards = Vec::new(alloc);
    let faces = shell.faces.as_slice();
    'faces: for i in 0..faces.len() {
        forwards.push(same_flags(faces[i].flag, shell.flag))?;
    }
    Ok(forwards)
}

/// The direction of a row by its tuple's flag alone.
fn bare(row: &Row, forwards: &[bool]) -> bool
    requires { row.now.at.face.0 < length forwards.now }
    ensures { result ≡ same_flag row.now.along (get_or forwards.now row.now.at.face.0 true) }
{
    same_flags(row.along, forwards[row.at.face.0 as usize])
}

fn step_at(rows: &Rows, by_edge: &RowsByEdge<'_>, forwards: &[bool], r: u32) -> Crossing
    requires row { r < length rows.now.rows }
    requires faces { length forwards.now ≡ rows.now.face_count }
    requires whole { AreRows rows.now }
    requires span { IsSpanOf by_edge.now.span rows.now.edges }
    requires by_edge { AreRowsByEdge rows.now by_edge.now.span by_edge.now.seen }
    requires two { AllHaveTwoRows rows.now }
    ensures { IsStep rows.now forwards.now r result }
{
    let row = rows.row(RowId(r)).unwrap();
    let partner = by_edge.other_of(row.edge.0, r);
    let other = rows.row(RowId(partner)).unwrap();
    Crossing {
        from: row.at.face.0,
        to: other.at.face.0,
        partner,
        flips: same_flags(bare(&row, forwards), bare(&other, forwards)),
    }
}

/// The steps of all rows.
pub(crate) fn steps_of(
    alloc: Global,
    rows: &Rows,
    by_edge: &RowsByEdge<'_>,
    forwards: &[bool],
) -> Result<Vec<Crossing>, NoMemory>
    requires faces { length forwards.now ≡ rows.now.face_count }
    requires whole { AreRows rows.now }
    requires span { IsSpanOf by_edge.now.span rows.now.edges }
    requires by_edge { AreRowsByEdge rows.now by_edge.now.span by_edge.now.seen }
    requires two { AllHaveTwoRows rows.now }
    ensures each { IfOk result (λ cs. length cs.items ≡ length rows.now.rows) }
    ensures steps { IfOk result (λ cs. (r : ℕ) (c : Crossing) → slice_get cs.items r ≡ Some c
        → IsStep rows.now forwards.now r c) }
{
    let mut crossings = Vec::new(alloc);
    'rows: for r in 0..rows.len() {
        crossings.push(step_at(rows, by_edge, forwards, r as u32))?;
    }
    Ok(crossings)
}
