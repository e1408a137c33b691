//! Moves: ways from a place to another, by corresponding ends of seams of equal curves.

ghost use Rattle.std.specs.Prelude.{◌≡◌, ◌↔◌, IsTrue, option_copied};
ghost use Rattle.shell_change.specs.Moves.{step_across, step_back, step_known, step_of_seam as seam_step, reached as place_reached, last_begin as last_begins, is_last_step as is_last, MoveFits};

use crate::change::{Change, Move, Seam, Told};
use crate::geometry::{CurveKnown, Geometry};
use crate::tracks::{Track, curve_of, run, track_end, track_of};
use solid_data::Solid;

/// One step from a place to another.
#[derive(Clone, Copy)]
pub struct Step {
    pub from: u32,
    pub to: u32,
}

fn across(a: Track, b: Track, p: CurveKnown, q: CurveKnown, at_end: bool) -> Step
    ensures { result ≡ step_across a b p q at_end }
{
    Step {
        from: track_end(a, at_end),
        to: track_end(run(b, p.record == q.record), at_end),
    }
}

fn directed(step: Step, back: bool) -> Step
    ensures { result ≡ step_back step back }
{
    if !back {
        return step;
    }
    Step {
        from: step.to,
        to: step.from,
    }
}

fn known_step(
    told: Told,
    a: Option<Track>,
    b: Option<Track>,
    p: Option<CurveKnown>,
    q: Option<CurveKnown>,
    at_end: bool,
) -> Option<Step>
    ensures { result ≡ step_known told a b p q at_end }
{
    match told {
        Told::Sure | Told::Places => None,
        Told::Curve => Some(across(a?, b?, p?, q?, at_end)),
    }
}

fn step_of_seam(
    solid: &Solid,
    geometry: &Geometry,
    seam: Option<&Seam>,
    at_end: bool,
) -> Option<Step>
    ensures { result ≡ seam_step solid.now geometry.now (option_copied seam.entry) at_end }
{
    let seam = seam?;
    known_step(
        seam.told,
        track_of(solid, geometry, seam.left),
        track_of(solid, geometry, seam.taken),
        curve_of(geometry, seam.left),
        curve_of(geometry, seam.taken),
        at_end,
    )
}

fn reached(i: usize, j: u32, from: u32, before: Option<&Move>) -> Option<u32>
    ensures { result ≡ place_reached i j from (option_copied before.entry) }
{
    let before = before?;
    if (j as usize) < i && before.from == from {
        Some(before.to)
    } else {
        None
    }
}

fn last_begin(change: &Change, i: usize, from: u32, after: Option<u32>) -> Option<u32>
    ensures { result ≡ last_begins change.now i from after }
{
    match after {
        None => Some(from),
        Some(j) => reached(i, j, from, change.moves.get(j as usize)),
    }
}

fn is_last_step(begin: Option<u32>, to: u32, step: Option<Step>, back: bool) -> bool
    ensures { result ≡ is_last begin to step back }
{
    match (begin, step) {
        (Some(begin), Some(step)) => {
            let step = directed(step, back);
            step.from == begin && step.to == to
        }
        _ => false,
    }
}

/// Whether the i-th move leads by its last step from where this begins to where the move ends.
pub fn move_fits(solid: &Solid, geometry: &Geometry, change: &Change, i: usize, item: Move) -> bool
    ensures { IsTrue result ↔ MoveFits solid.now geometry.now change.now i item }
{
    let begin = last_begin(change, i, item.from, item.after);
    let seam = change.seams.get(item.seam as usize);
    let step = step_of_seam(solid, geometry, seam, item.at_end);
    is_last_step(begin, item.to, step, item.back)
}
