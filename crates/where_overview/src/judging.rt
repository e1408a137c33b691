//! The verdict on each solid of a file, as far as there is room.

ghost use Rattle.iges_base.specs.declared.entry_no.EntryNo.{EntryNo as AnyEntryNo};
ghost use Rattle.shell_rules.specs.ShellObligations.{solid_obligations};
ghost use Rattle.solid_data.specs.Obligations.{IsVerdict};
ghost use Rattle.solid_verdict.specs.Closed.{IsVerdictOn};
ghost use Rattle.solid_data.specs.declared.verdict.Verdict.{Verdict as AnyVerdict};
ghost use Rattle.std.specs.Prelude.{◌≡◌, ◌<◌, ◌≤◌, List, IfOk, IfSome, Some, length, map, slice_get, ℕ};
ghost use Rattle.where_overview.specs.Overview.{AreVerdicts, has_room, is_judged, size_of, total_after};

use crate::recalling::{Judged, LastNaming, lone_shell, recalled};
use brep_walk::{WalkFault, Walker};
use iges_base::{EntryNo, ItemList, NoMemory};
use iges_params::File;
use named_sizes::solid_sizes;
use solid_data::{Solid, Verdict};
use solid_hints::all_faults;
use std::alloc::Global;
use where_places::PlacedFile;
use where_solids::verdict;

/// Solids of a file, the size of each, and how large those are together at most that are judged.
#[derive(Drop)]
pub struct SizedSolids<'a> {
    pub file: &'a File,
    pub solids: &'a [EntryNo],
    pub sizes: &'a [u64],
    pub limit: u64,
}

fn size_at(sizes: &[u64], i: usize) -> u64
    requires { i < length sizes.now }
    ensures { slice_get sizes.now i ≡ Some result }
{
    sizes[i]
}

// The verdict on a solid whose records were walked.
fn judged(alloc: Global, solid: &Solid) -> Result<Verdict, NoMemory>
    ensures { IfOk result (IsVerdict (solid_obligations solid.now)) }
{
    let all = all_faults(alloc, solid)?;
    let verdict = verdict(solid, &all);
    drop(all);
    Ok(verdict)
}

fn verdict_on(alloc: Global, walker: &mut Walker<'_>, no: EntryNo) -> Result<Verdict, NoMemory>
    ensures file { walker.new ≡ walker.old }
    ensures verdict { IfOk result (IsVerdictOn walker.old no.0) }
{
    let solid = match walker.walk(alloc, no) {
        Ok(solid) => solid,
        Err(WalkFault::Fails(failing)) => return Ok(Verdict::Fails(failing)),
        Err(WalkFault::NoMemory) => return Err(NoMemory),
    };
    let verdict = judged(alloc, &solid);
    drop(solid);
    verdict
}

// The verdict on a solid that an earlier one with the same only shell has, where there is one.
fn earlier_verdict(last: &mut LastNaming, judged: &Judged<'_>, no: EntryNo) -> Option<Verdict>
    requires { (j : ℕ) (n : AnyEntryNo) (v : AnyVerdict)
        → slice_get judged.now.solids.now j ≡ Some n → slice_get judged.now.verdicts.now j ≡ Some (Some v)
        → IsVerdictOn judged.now.file.now n.0 v }
    ensures { IfSome result (IsVerdictOn judged.now.file.now no.0) }
{
    let shell = lone_shell(judged.file, no)?;
    let place = last.replace(judged.file, shell, judged.verdicts.len())?;
    recalled(judged, place, no, shell)
}

// The verdict on the next solid. Of solids that name the same shell alone, with the same flag, only one is walked and judged.
fn next_verdict(
    alloc: Global,
    walker: &mut Walker<'_>,
    last: &mut LastNaming,
    judged: &Judged<'_>,
    no: EntryNo,
) -> Result<Verdict, NoMemory>
    requires file { walker.old ≡ judged.now.file.now }
    requires judged { (j : ℕ) (n : AnyEntryNo) (v : AnyVerdict)
        → slice_get judged.now.solids.now j ≡ Some n → slice_get judged.now.verdicts.now j ≡ Some (Some v)
        → IsVerdictOn judged.now.file.now n.0 v }
    ensures file { walker.new ≡ walker.old }
    ensures verdict { IfOk result (IsVerdictOn walker.old no.0) }
{
    match earlier_verdict(last, judged, no) {
        Some(verdict) => Ok(verdict),
        None => verdict_on(alloc, walker, no),
    }
}

// The same, if there is room for it.
fn next_judged(
    alloc: Global,
    walker: &mut Walker<'_>,
    last: &mut LastNaming,
    judged: &Judged<'_>,
    no: EntryNo,
    room: bool,
) -> Result<Option<Verdict>, NoMemory>
    requires file { walker.old ≡ judged.now.file.now }
    requires judged { (j : ℕ) (n : AnyEntryNo) (v : AnyVerdict)
        → slice_get judged.now.solids.now j ≡ Some n → slice_get judged.now.verdicts.now j ≡ Some (Some v)
        → IsVerdictOn judged.now.file.now n.0 v }
    ensures file { walker.new ≡ walker.old }
    ensures room { IfOk result (λ v. is_judged v ≡ room) }
    ensures verdict { IfOk result (λ o. IfSome o (IsVerdictOn walker.old no.0)) }
{
    if !room {
        return Ok(None);
    }
    let verdict = next_verdict(alloc, walker, last, judged, no)?;
    Ok(Some(verdict))
}

// Whether a solid of this size is judged.
fn has_room(limit: u64, total: u64, size: u64) -> bool
    requires { total ≤ limit }
    ensures { result ≡ has_room limit total size }
{
    size <= limit - total
}

fn total_after(limit: u64, total: u64, size: u64) -> u64
    requires { total ≤ limit }
    ensures within { result ≤ limit }
    ensures is { result ≡ total_after limit total size }
{
    if has_room(limit, total, size) {
        return total + size;
    }
    total
}

// The verdict on each of these solids, as far as there is room.
fn judge_each(
    alloc: Global,
    walker: &mut Walker<'_>,
    last: &mut LastNaming,
    sized: &SizedSolids<'_>,
) -> Result<ItemList<Option<Verdict>>, NoMemory>
    requires file { walker.old ≡ sized.now.file.now }
    requires sizes { sized.now.sizes.now ≡ map (size_of sized.now.file.now) sized.now.solids.now }
    ensures { IfOk result (AreVerdicts sized.now.file.now sized.now.limit sized.now.solids.now) }
{
    let mut verdicts = ItemList::with_room(alloc, sized.solids.len())?;
    let mut total = 0;
    'solids: for i in 0..sized.solids.len() {
        let size = size_at(sized.sizes, i);
        let judged = Judged {
            file: sized.file,
            solids: sized.solids,
            verdicts: verdicts.as_slice(),
        };
        let room = has_room(sized.limit, total, size);
        let verdict = next_judged(alloc, walker, last, &judged, sized.solids[i], room)?;
        verdicts.push(verdict)?;
        total = total_after(sized.limit, total, size);
    }
    Ok(verdicts)
}

// How many entries a table of named shells has room for. A lone solid needs none.
fn naming_room(file: &File, solids: usize) -> usize {
    if solids > 1 { file.entry_count() } else { 0 }
}

fn judge_sized(
    alloc: Global,
    sized: &SizedSolids<'_>,
) -> Result<ItemList<Option<Verdict>>, NoMemory>
    requires { sized.now.sizes.now ≡ map (size_of sized.now.file.now) sized.now.solids.now }
    ensures { IfOk result (AreVerdicts sized.now.file.now sized.now.limit sized.now.solids.now) }
{
    let mut last = LastNaming::new(alloc, naming_room(sized.file, sized.solids.len()))?;
    let mut walker = Walker::new(alloc, sized.file);
    let verdicts = judge_each(alloc, &mut walker, &mut last, sized);
    drop(walker);
    drop(last);
    verdicts
}

/// The verdict on each of these solids of a file. One isn't judged where its size and those of the solids judged before it are
/// together more than the bytes of the file.
pub fn verdicts(
    alloc: Global,
    placed: &PlacedFile,
    solids: &[EntryNo],
) -> Result<ItemList<Option<Verdict>>, NoMemory>
    ensures { IfOk result (AreVerdicts placed.now.file (length placed.now.bytes) solids.now) }
{
    let sizes = solid_sizes(alloc, &placed.file, solids)?;
    let sized = SizedSolids {
        file: &placed.file,
        solids,
        sizes: sizes.as_slice(),
        limit: placed.bytes.as_slice().len() as u64,
    };
    let verdicts = judge_sized(alloc, &sized);
    drop(sizes);
    verdicts
}
