//! Rows that reach the faces of a shell.

ghost use Rattle.std.specs.Prelude.{◌≡◌, ◌<◌, ℕ, IfOk, IfErr, MatchOption};
ghost use Rattle.std.specs.List.{AllByRecursion};
ghost use Rattle.solid_data.specs.Ring.{numbers_from};
ghost use Rattle.solid_data.specs.Obligations.{FirstNot};
ghost use Rattle.edge_uses.specs.Around.{IsReached};
ghost use Rattle.edge_uses.specs.Mates.{ArePaired};
ghost use Rattle.solid_data.proofs.Members.{Has};
ghost use Rattle.shell_reach.specs.Faults.{IsReachFault};
ghost use Rattle.shell_reach.specs.Flood.{face_numbers, IsFlood, IsDone};
ghost use Rattle.shell_reach.specs.Reaching.{ReachesAll, IsBreadthFirst, row_numbers};
ghost use Rattle.solid_data.specs.declared.TheConstants.{PART_LIMIT};

use crate::fault::ReachFault;
use crate::flood::Flood;
use crate::one_mate::Mates;
use shell_tables::face_rows;
use solid_data::{FaceAt, RowList};
use std::alloc::Global;

fn first_unreached<M: Mates>(mates: &M, flood: &Flood, count: usize) -> Option<FaceAt>
    requires count { count ≡ (M.shell mates.now).face_count }
    requires few { count < PART_LIMIT }
    requires flood { IsFlood (M.shell mates.now) flood.now.marks.items (face_numbers flood.now.order.items)
        (row_numbers flood.now.rows) }
    requires done { (f : ℕ) → Has (face_numbers flood.now.order.items) f
        → IsDone (M.shell mates.now) (face_numbers flood.now.order.items) f }
    ensures { MatchOption result (AllByRecursion (IsReached (M.shell mates.now)) (numbers_from 0 (M.shell mates.now).face_count))
        (λ f. FirstNot (IsReached (M.shell mates.now)) (numbers_from 0 (M.shell mates.now).face_count) f.0) }
{
    'faces: for f in 0..count {
        if !flood.marks[f] {
            return Some(FaceAt(f as u32));
        }
    }
    None
}

/// Rows that reach each face of a shell but the first, once: each lies on a face that isn't
/// reached before it, and its mate on one that is. They go across the rows of the first face by
/// rising number, then across those of each face in the order in which it is reached.
pub fn reach_faces<M: Mates>(alloc: Global, mates: &M) -> Result<RowList, ReachFault>
    ensures rows { IfOk result (λ rows. ReachesAll (M.shell mates.now) (row_numbers rows)) }
    ensures order { IfOk result (λ rows. ArePaired (M.shell mates.now) → IsBreadthFirst (M.shell mates.now) (row_numbers rows)) }
    ensures fault { IfErr result (λ fault. IsReachFault (M.shell mates.now) fault) }
{
    let rows = mates.table();
    let count = rows.face_count();
    if count == 0 {
        return Ok(RowList::new(alloc));
    }
    let faces = face_rows(alloc, rows)?;
    let mut flood = Flood::start(alloc, mates, count)?;
    flood.run(mates, &faces, count)?;
    if let Some(face) = first_unreached(mates, &flood, count) {
        return Err(ReachFault::Unreached(face));
    }
    Ok(flood.rows)
}
