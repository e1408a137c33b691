//! The cycles of border rows of an open shell.

ghost use Rattle.std.specs.Prelude.{◌≡◌, ◌<◌, ◌+◌, ◌↔◌, ◌⊎◌, ℕ, true, false, None, length, map, vec_len, IfOk, MatchOption, get_or};
ghost use Rattle.solid_data.proofs.Members.{Has};
ghost use Rattle.solid_data.specs.declared.solid.RowId.{RowId as AnyRowId};
ghost use Rattle.std.specs.List.{AllByRecursion};
ghost use Rattle.open_certificate.specs.Sound.{IsBorder, IsFanned};
ghost use Rattle.open_shells.specs.Mating.{AreOnce};
ghost use Rattle.shell_reach.specs.Reaching.{row_numbers};
ghost use Rattle.open_shells.specs.BorderParts.{Next, AreBorderCells, IsLoop, IsBordering, AreBorderCycles};

use crate::heads::note;
use crate::mated::Mated;
use edge_uses::row_at;
use iges_base::NoMemory;
use open_certificate::Borders;
use solid_data::{Cells, RowId, RowList};
use std::alloc::Global;

/// The row itself, where it is a border row.
fn border_at(mated: &Mated<'_>, r: u32) -> Option<u32>
    requires { r < length mated.now.rows }
    ensures none { result ≡ None → ¬ IsBorder mated.now r }
    ensures some { MatchOption result (length mated.now.rows ≡ length mated.now.rows)
        (λ b. IsBorder mated.now r × (b ≡ r)) }
{
    match mated.mate(r) {
        Some(_) => None,
        None => Some(r),
    }
}

/// For each vertex of a shell a border row that starts there, if there is one. It takes no longer where
/// the vertices lie far apart.
pub(crate) fn border_starts<'m>(
    alloc: Global,
    mated: &'m Mated<'_>,
) -> Result<Cells<'m, Option<u32>>, NoMemory>
    requires { AreOnce mated.now }
    ensures { IfOk result (AreBorderCells mated.now) }
{
    let rows = mated.rows();
    let mut starts = Cells::new(alloc, rows.vertex_slice(), None)?;
    'rows: for i in 0..rows.len() {
        note(
            &mut starts,
            row_at(rows, i).from.0,
            border_at(mated, i as u32),
        );
    }
    Ok(starts)
}

/// The border row that starts where a border row ends.
fn next_border(mated: &Mated<'_>, starts: &Cells<'_, Option<u32>>, row: u32) -> u32
    requires whole { AreOnce mated.now }
    requires border { IsBorder mated.now row }
    requires starts { AreBorderCells mated.now starts.now }
    ensures { Next mated.now row result }
{
    let to = row_at(mated.rows(), row as usize).to.0;
    starts.at(to).unwrap()
}

/// The border rows from one on, each where the one before ends, until the first one comes again.
pub(crate) fn cycle_from(
    alloc: Global,
    mated: &Mated<'_>,
    starts: &Cells<'_, Option<u32>>,
    first: u32,
) -> Result<RowList, NoMemory>
    requires whole { AreOnce mated.now }
    requires fanned { AllByRecursion (IsFanned mated.now) mated.now.vertices }
    requires border { IsBorder mated.now first }
    requires starts { AreBorderCells mated.now starts.now }
    ensures { IfOk result (λ rows. IsLoop mated.now first (row_numbers rows)) }
{
    let mut rows = RowList::new(alloc);
    let mut at = first;
    'cycle: for _i in 0..mated.rows().len() {
        rows.push(RowId(at))?;
        at = next_border(mated, starts, at);
        if at == first {
            return Ok(rows);
        }
    }
    Ok(rows)
}

/// Marks some rows.
fn mark_all(seen: &mut Vec<bool>, rows: &[RowId])
    requires { AllByRecursion (λ (r : AnyRowId). r.0 < vec_len seen.old) rows.now }
    ensures len { vec_len seen.new ≡ vec_len seen.old }
    ensures marks { (x : ℕ) → (get_or seen.new.items x false ≡ true)
        ↔ ((get_or seen.old.items x false ≡ true) ⊎ Has (row_numbers rows.now) x) }
{
    'rows: for i in 0..rows.len() {
        seen[rows[i].0 as usize] = true;
    }
}

/// Adds the cycle that begins with a row, if it is a border row that no cycle holds yet.
fn add_cycle(
    alloc: Global,
    mated: &Mated<'_>,
    starts: &Cells<'_, Option<u32>>,
    seen: &mut Vec<bool>,
    cycles: &mut Borders,
    r: u32,
) -> Result<(), NoMemory>
    requires whole { AreOnce mated.now }
    requires fanned { AllByRecursion (IsFanned mated.now) mated.now.vertices }
    requires there { r < length mated.now.rows }
    requires starts { AreBorderCells mated.now starts.now }
    requires cycles { IsBordering mated.now r seen.old.items (map row_numbers cycles.old) }
    ensures { IfOk result (λ _. IsBordering mated.now (r + 1) seen.new.items
        (map row_numbers cycles.new)) }
{
    if seen[r as usize] {
        return Ok(());
    }
    let Some(first) = border_at(mated, r) else {
        return Ok(());
    };
    let cycle = cycle_from(alloc, mated, starts, first)?;
    mark_all(seen, cycle.as_slice());
    cycles.push(cycle)?;
    Ok(())
}

/// The cycles of border rows, where these are border rows that start at each vertex.
fn cycles_of(
    alloc: Global,
    mated: &Mated<'_>,
    starts: &Cells<'_, Option<u32>>,
) -> Result<Borders, NoMemory>
    requires whole { AreOnce mated.now }
    requires fanned { AllByRecursion (IsFanned mated.now) mated.now.vertices }
    requires starts { AreBorderCells mated.now starts.now }
    ensures { IfOk result (λ cycles. AreBorderCycles mated.now (map row_numbers cycles)) }
{
    let rows = mated.rows();
    let mut seen = vec![in alloc; false; rows.len()]?;
    let mut cycles = Borders::new(alloc);
    'rows: for r in 0..rows.len() {
        add_cycle(alloc, mated, starts, &mut seen, &mut cycles, r as u32)?;
    }
    Ok(cycles)
}

/// The cycles of border rows, each from its least row on, by their first rows.
pub(crate) fn border_cycles(alloc: Global, mated: &Mated<'_>) -> Result<Borders, NoMemory>
    requires whole { AreOnce mated.now }
    requires fanned { AllByRecursion (IsFanned mated.now) mated.now.vertices }
    ensures { IfOk result (λ cycles. AreBorderCycles mated.now (map row_numbers cycles)) }
{
    let starts = border_starts(alloc, mated)?;
    cycles_of(alloc, mated, &starts)
}
