//! The parts of a shell.

ghost use Rattle.std.specs.Prelude.{◌≡◌, ◌<◌, ◌++◌, ◌∷◌, [], Some, length, map, slice_get, IfOk};
ghost use Rattle.solid_data.specs.Ranges.{IsWithin};
ghost use Rattle.edge_uses.specs.Tally.{seen_of};
ghost use Rattle.solid_faults.specs.PartPairs.{chosen_row, chosen_face, part_pair, part_pairs};
ghost use Rattle.solid_faults.specs.Parts.{AreParts};
ghost use Rattle.solid_faults.specs.Tallied.{AreTallied};
ghost use Rattle.solid_data.specs.declared.TheConstants.{PART_LIMIT};

use edge_uses::{Row, Rows, Seen, Tally, row_at, tally_of};
use iges_base::NoMemory;
use shell_components::components;
use solid_data::RowId;
use std::alloc::Global;

fn chosen(seen: Seen) -> u32
    ensures { result ≡ chosen_row seen }
{
    if seen.along == 0 {
        seen.against_row
    } else {
        seen.along_row
    }
}

fn other_face(rows: &Rows, tally: &Tally<'_>, row: Row) -> u32
    requires within { IsWithin tally.now.span row.edge.0 }
    ensures { result ≡ chosen_face rows.now tally.now.span tally.now.seen row.edge.0 }
{
    let r = chosen(tally.of(row.edge.0));
    match rows.row(RowId(r)) {
        None => 0,
        Some(other) => other.at.face.0,
    }
}

pub(crate) fn push_pair(out: &mut Vec<(u32, u32)>, a: u32, b: u32) -> Result<(), NoMemory>
    ensures { IfOk result (λ _. out.new.items ≡ out.old.items ++ (a, b) ∷ []) }
{
    out.push((a, b))?;
    Ok(())
}

fn pairs_of(alloc: Global, rows: &Rows, tally: &Tally<'_>) -> Result<Vec<(u32, u32)>, NoMemory>
    requires { AreTallied rows.now tally.now.span tally.now.seen }
    ensures { IfOk result (λ pairs. pairs.items
        ≡ part_pairs rows.now tally.now.span tally.now.seen) }
{
    let mut out = Vec::new(alloc);
    'rows: for i in 0..rows.len() {
        let row = row_at(rows, i);
        let other = other_face(rows, tally, row);
        push_pair(&mut out, row.at.face.0, other)?;
    }
    Ok(out)
}

/// For each face of a shell the first face of its part.
pub fn firsts(alloc: Global, rows: &Rows) -> Result<Vec<u32>, NoMemory>
    ensures { IfOk result (λ firsts. AreParts rows.now firsts.items) }
{
    let tally = tally_of(alloc, rows)?;
    let pairs = pairs_of(alloc, rows, &tally)?;
    components(alloc, rows.face_count(), pairs.as_slice())
}
