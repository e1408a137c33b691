//! Whether flags suit steps, and whether rows walk in an odd ring.

ghost use Rattle.std.specs.Prelude.{◌≡◌, ◌<◌, ◌↔◌, false, true, IsTrue, length, slice_get};
ghost use Rattle.orient_certificate.specs.OddRing.{row_numbers};
ghost use Rattle.orient_certificate.specs.Crossings.{IsGraph, AllAgree, Walk, IsOddWalk};
ghost use Rattle.orient_certificate.specs.Graph.{Suit};

use crate::crossing::{Crossing, flip};
use solid_data::RowId;

/// Whether the flags of each step's two faces agree with it.
fn all_agree(crossings: &[Crossing], flags: &[bool]) -> bool
    requires { IsGraph (length flags.now) crossings.now }
    ensures { IsTrue result ↔ AllAgree flags.now crossings.now }
{
    'steps: for r in 0..crossings.len() {
        let step = crossings[r];
        if flags[step.to as usize] != flip(step.flips, flags[step.from as usize]) {
            return false;
        }
    }
    true
}

/// Whether flags suit the steps between some faces, of which the first has this flag.
pub(crate) fn suit(crossings: &[Crossing], faces: usize, first: bool, flags: &[bool]) -> bool
    requires graph { IsGraph faces crossings.now }
    requires some { 0 < faces }
    ensures { IsTrue result ↔ Suit crossings.now faces first flags.now }
{
    if flags.len() != faces {
        return false;
    }
    if flags[0] != first {
        return false;
    }
    all_agree(crossings, flags)
}

fn step_of(crossings: &[Crossing], row: RowId) -> Option<Crossing>
    ensures { result ≡ slice_get crossings.now row.0 }
{
    crossings.get(row.0 as usize).copied()
}

/// Whether the rows lead from this face back to it, and an odd number of their steps flip.
fn walks_round(crossings: &[Crossing], rows: &[RowId], start: u32) -> bool
    ensures { IsTrue result ↔ Walk crossings.now start false (row_numbers rows.now) start true }
{
    let mut face = start;
    let mut odd = false;
    'rows: for i in 0..rows.len() {
        let Some(step) = step_of(crossings, rows[i]) else {
            return false;
        };
        if step.from != face {
            return false;
        }
        face = step.to;
        odd = flip(step.flips, odd);
    }
    face == start && odd
}

/// Whether the rows walk in an odd ring.
pub(crate) fn is_odd_walk(crossings: &[Crossing], rows: &[RowId]) -> bool
    ensures { IsTrue result ↔ IsOddWalk crossings.now (row_numbers rows.now) }
{
    if rows.is_empty() {
        return false;
    }
    let Some(step) = step_of(crossings, rows[0]) else {
        return false;
    };
    walks_round(crossings, rows, step.from)
}
