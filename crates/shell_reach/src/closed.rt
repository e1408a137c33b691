//! Rows that reach the faces of a closed shell.

ghost use Rattle.std.specs.Prelude.{IfOk, IfErr};
ghost use Rattle.shell_reach.specs.Faults.{IsReachFault};
ghost use Rattle.shell_reach.specs.Reaching.{ReachesAll, IsBreadthFirst, row_numbers};

use crate::fault::ReachFault;
use crate::reaching::reach_faces;
use edge_uses::Paired;
use solid_data::RowList;
use std::alloc::Global;

/// Rows that reach the faces of a shell but the first, each on a face that isn't reached before it.
pub type ReachList = RowList;

/// Rows that reach each face of a shell but the first, once: each lies on a face that isn't
/// reached before it, and its mate on one that is. They go breadth first: across the rows of the
/// first face by rising number, then across those of each face in the order in which it is reached.
pub fn reach(alloc: Global, paired: &Paired<'_>) -> Result<ReachList, ReachFault>
    ensures rows { IfOk result (λ rows. ReachesAll paired.now (row_numbers rows)) }
    ensures order { IfOk result (λ rows. IsBreadthFirst paired.now (row_numbers rows)) }
    ensures fault { IfErr result (λ fault. IsReachFault paired.now fault) }
{
    // Its clause says that the rows are paired.
    let _rows = paired.rows();
    reach_faces(alloc, paired)
}
