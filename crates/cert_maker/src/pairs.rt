//! The two rows of each edge of a shell.

ghost use Rattle.std.specs.Prelude.{◌≡◌, ℕ, ◌<◌, ◌^◌, ◌-◌, Some, true, false, length, slice_get, slice_set, vec_len, IfOk};
ghost use Rattle.std.specs.List.{AllByRecursion, AllZip};
ghost use Rattle.solid_data.specs.Ranges.{IsWithin};
ghost use Rattle.edge_uses.specs.Mates.{RunsOn};
ghost use Rattle.edge_uses.specs.declared.row.Row.{Row as AnyRow};
ghost use Rattle.cert_maker.specs.Certified.{AreItsRows};
ghost use Rattle.cert_maker.specs.Along.{RunAlong};

use edge_uses::{Paired, Row, Rows, row_at};
use iges_base::NoMemory;
use solid_data::{RowId, Span};
use std::alloc::Global;
use topo_certificate::EdgePairs;

/// Keeps that row i runs along its edge, if it does.
fn note(along: &mut Vec<u32>, span: Span, row: Row, i: usize)
    requires within { IsWithin span row.edge.0 }
    requires few { i < 2 ^ 32 }
    requires len { vec_len along.old ≡ span.count }
    ensures len { vec_len along.new ≡ span.count }
    ensures along { row.along ≡ true → along.new.items
        ≡ slice_set along.old.items (row.edge.0 - span.least) i }
    ensures against { row.along ≡ false → along.new.items ≡ along.old.items }
{
    if row.along {
        along[(row.edge.0 - span.least) as usize] = i as u32;
    }
}

/// By edge the last row that runs along it.
fn rows_along(alloc: Global, rows: &Rows, span: Span) -> Result<Vec<u32>, NoMemory>
    requires { AllByRecursion (λ (r : AnyRow). IsWithin span r.edge.0) rows.now.rows }
    ensures len { IfOk result (λ along. vec_len along ≡ span.count) }
    ensures along { IfOk result (λ along. RunAlong rows.now span
        (length rows.now.rows) along.items) }
{
    let mut along = vec![in alloc; 0u32; span.count]?;
    'rows: for i in 0..rows.len() {
        note(&mut along, span, row_at(rows, i), i);
    }
    Ok(along)
}

/// The two rows of the i-th edge, the one along it first.
fn pair_of(paired: &Paired<'_>, span: Span, along: &[u32], i: usize) -> (RowId, RowId)
    requires there { i < length paired.now.edges }
    requires within { AllByRecursion (IsWithin span) paired.now.edges }
    requires len { length along.now ≡ span.count }
    requires along { RunAlong paired.now span (length paired.now.rows) along.now }
    ensures { (e : ℕ) → slice_get paired.now.edges i ≡ Some e → AreItsRows paired.now e result }
{
    let edge = paired.rows().edge_at(i).unwrap();
    let row = RowId(along[(edge.0 - span.least) as usize]);
    (row, paired.mate(row).unwrap())
}

/// The two rows of each edge, by rising number, the one along it first.
pub(crate) fn edge_pairs(alloc: Global, paired: &Paired<'_>) -> Result<EdgePairs, NoMemory>
    ensures { IfOk result (λ pairs. AllZip (AreItsRows paired.now) paired.now.edges pairs) }
{
    let rows = paired.rows();
    let span = rows.edge_span();
    let along = rows_along(alloc, rows, span)?;
    let mut pairs = EdgePairs::with_room(alloc, rows.edge_count())?;
    'edges: for i in 0..rows.edge_count() {
        pairs.push(pair_of(paired, span, along.as_slice(), i))?;
    }
    Ok(pairs)
}
