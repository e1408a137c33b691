//! Verdicts on solids that name one shell alone, for solids that name the same one.

ghost use Rattle.brep_lists.specs.Record.{HasForm, type_number};
ghost use Rattle.brep_lists.specs.declared.entity_kind.EntityKind.TheVariants.{Solid as solid};
ghost use Rattle.iges_base.specs.declared.entry_no.EntryNo.{EntryNo as AnyEntryNo};
ghost use Rattle.solid_data.specs.declared.verdict.Verdict.{Verdict as AnyVerdict};
ghost use Rattle.solid_verdict.specs.Closed.{IsVerdictOn};
ghost use Rattle.std.specs.Prelude.{◌≡◌, ◌∷◌, [], ℕ, IfOk, IfSome, IsTrue, Some, slice_get};
ghost use Rattle.where_overview.specs.Recalled.{IsOfOther, IsSolidOf};

use brep_lists::EntityKind;
use brep_loops::SolidRecord;
use iges_base::{EntryNo, NoMemory};
use iges_directory::Entry;
use iges_params::File;
use solid_data::Verdict;
use std::alloc::Global;

/// For each entry the last solid, by its place among the solids, that names this entry as its only shell: with the flag 1, and
/// with the flag 0.
#[derive(Drop)]
pub struct LastNaming {
    along: Vec<Option<u32>>,
    against: Vec<Option<u32>>,
}

/// Solids of a file, and the verdicts on the first of them.
#[derive(Drop)]
pub struct Judged<'a> {
    pub file: &'a File,
    pub solids: &'a [EntryNo],
    pub verdicts: &'a [Option<Verdict>],
}

fn is_solid(entry: &Entry) -> bool
    ensures { IsTrue result → (entry.now.kind ≡ type_number solid) × HasForm solid entry.now.form }
{
    EntityKind::Solid.is_of(entry.kind, entry.form)
}

/// The only shell of a solid, and its flag. None where the entry is no solid, its record doesn't fit, or it has voids.
pub fn lone_shell(file: &File, no: EntryNo) -> Option<(i64, bool)>
    ensures { IfSome result (λ shell. IsSolidOf file.now no.0 (shell ∷ [])) }
{
    let entry = file.entry(no)?;
    if !is_solid(entry) {
        return None;
    }
    let record = SolidRecord::of(file.values(no)?)?;
    if record.len() != 1 {
        return None;
    }
    record.item(0)
}

// What a place of a table holds, in whose place this is put.
fn exchange(table: &mut [Option<u32>], at: usize, place: usize) -> Option<u32> {
    if at >= table.len() {
        return None;
    }
    let last = table[at];
    table[at] = u32::try_from(place).ok();
    last
}

impl LastNaming {
    /// No solid was seen yet, of a file with so many entries.
    pub fn new(alloc: Global, entries: usize) -> Result<LastNaming, NoMemory> {
        Ok(LastNaming {
            along: vec![in alloc; None; entries]?,
            against: vec![in alloc; None; entries]?,
        })
    }

    /// The last solid that names this shell alone with this flag. The one at `place` is remembered for it.
    pub fn replace(&mut self, file: &File, shell: (i64, bool), place: usize) -> Option<u32> {
        let no = file.entry_no_of(shell.0)?;
        let at = no.0 as usize / 2;
        if shell.1 {
            exchange(self.along.as_mut_slice(), at, place)
        } else {
            exchange(self.against.as_mut_slice(), at, place)
        }
    }
}

// Whether nothing that fails is said of the entry itself.
fn is_of_other(verdict: Verdict, no: EntryNo) -> bool
    ensures { IsTrue result → IsOfOther no.0 verdict }
{
    match verdict {
        Verdict::Closed => true,
        Verdict::Fails(failing) => failing.entity.0 != no.0,
    }
}

fn is_same_shell(one: (i64, bool), other: (i64, bool)) -> bool
    ensures { IsTrue result → one ≡ other }
{
    one.0 == other.0 && one.1 == other.1
}

fn solid_at(solids: &[EntryNo], place: u32) -> Option<EntryNo>
    ensures { result ≡ slice_get solids.now place }
{
    solids.get(place as usize).copied()
}

fn verdict_at(verdicts: &[Option<Verdict>], place: u32) -> Option<Verdict>
    ensures { IfSome result (λ v. slice_get verdicts.now place ≡ Some (Some v)) }
{
    match verdicts.get(place as usize) {
        Some(verdict) => *verdict,
        None => None,
    }
}

/// The verdict on a solid with this only shell, if the solid at a place has the same one, and its verdict is there and isn't
/// of its own entry.
pub fn recalled(judged: &Judged<'_>, place: u32, no: EntryNo, shell: (i64, bool)) -> Option<Verdict>
    requires shell { IsSolidOf judged.now.file.now no.0 (shell ∷ []) }
    requires judged { (j : ℕ) (n : AnyEntryNo) (v : AnyVerdict)
        → slice_get judged.now.solids.now j ≡ Some n → slice_get judged.now.verdicts.now j ≡ Some (Some v)
        → IsVerdictOn judged.now.file.now n.0 v }
    ensures { IfSome result (IsVerdictOn judged.now.file.now no.0) }
{
    let other = solid_at(judged.solids, place)?;
    let verdict = verdict_at(judged.verdicts, place)?;
    let seen = lone_shell(judged.file, other)?;
    if !is_same_shell(seen, shell) || !is_of_other(verdict, other) {
        return None;
    }
    Some(verdict)
}
