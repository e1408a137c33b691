//! The records of a file, read from the last to the first: so the memory of their lines can be given back from the end.

ghost use Rattle.iges_base.specs.declared.TheConstants.{FILE_LIMIT};
ghost use Rattle.iges_directory.specs.declared.entry.Placed.{Placed};
ghost use Rattle.iges_fields.specs.Delims.{Delims, are_permitted};
ghost use Rattle.iges_params.specs.FromLast.{AreRead, IsFront, IsNeedOf, IsPut, LieWithin};
ghost use Rattle.std.specs.Prelude.{◌≡◌, ℕ, ◌+◌, ◌*◌, ◌<◌, ◌≤◌, ◌^◌, [], Some, List, IfOk, IsTrue, OnOk, length, slice_get, vec_len};

use crate::record::{Params, need_of, read_record};
use iges_base::{FILE_LIMIT, NoMemory};
use iges_directory::Directory;
use iges_fields::{Delimiters, Values};
use iges_lines::{LineFault, PassFault, Sections};
use std::alloc::Global;

// After so many entries, lines are given back.
const BLOCK: usize = 64;

/// The records read so far, and room for the next one.
#[derive(Drop)]
pub struct RecordsRead {
    /// How many entries are left, which are the first ones.
    pub left: usize,
    /// The values of the records that were read, the last entry's first.
    pub values: Vec<Values>,
    /// The fault of the first of these entries that fails.
    pub fault: Option<LineFault>,
    text: Vec<u8>,
    spare: Values,
}

impl RecordsRead {
    fn none(alloc: Global, count: usize) -> Result<RecordsRead, NoMemory>
        ensures left { IfOk result (λ r. r.left ≡ count) }
        ensures spare_empty { IfOk result (λ r. r.spare ≡ []) }
        ensures read { IfOk result (λ r. (above : ℕ) (params : List (List ℕ)) (d : Delims)
            (ps : List Placed) → length ps ≡ count → AreRead above params d ps r) }
    {
        Ok(RecordsRead {
            left: count,
            values: Vec::with_capacity(alloc, count)?,
            fault: None,
            text: Vec::new(alloc),
            spare: Values::new(alloc),
        })
    }

    // Takes what was read of a record.
    fn put(&mut self, answer: Result<Values, PassFault>) -> Result<(), NoMemory>
        ensures left { self.new.left ≡ self.old.left }
        ensures spare { self.new.spare ≡ self.old.spare }
        ensures put { OnOk result (IsPut answer self.old self.new) }
    {
        match answer {
            Ok(values) => {
                self.values.push(values)?;
                Ok(())
            }
            Err(PassFault::Bad(fault)) => {
                self.fault = Some(fault);
                Ok(())
            }
            Err(PassFault::NoMemory) => Err(NoMemory),
        }
    }

    // Reads the records of the entries from this place on that are left.
    fn read_down(
        &mut self,
        alloc: Global,
        params: &Params<'_>,
        entries: &Directory,
        from: usize,
    ) -> Result<(), NoMemory>
        requires from { from ≤ self.old.left }
        requires entries { self.old.left ≤ length entries.now }
        requires permitted { IsTrue (are_permitted params.now.delims) }
        requires few { 80 * (params.now.above + length params.now.lines.now.param) ≤ FILE_LIMIT }
        requires records { LieWithin (length params.now.lines.now.param) self.old.left entries.now }
        requires spare_empty { self.old.spare ≡ [] }
        ensures left { OnOk result (self.new.left ≡ from) }
        ensures spare_empty { OnOk result (self.new.spare ≡ []) }
        ensures read { OnOk result ((all : List (List ℕ)) → IsFront params.now.lines.now.param all
            → AreRead params.now.above all params.now.delims entries.now self.old
            → AreRead params.now.above all params.now.delims entries.now self.new) }
    {
        let count = entries.count();
        'entries: while self.left > from {
            prove!(self.left <= count);
            let place = self.left - 1;
            let placed = entries.placed_at(place).unwrap();
            let number = 2 * place + 1;
            let answer = read_record(
                alloc,
                params,
                number,
                placed,
                &mut self.text,
                &mut self.spare,
            );
            self.left = place;
            self.put(answer)?;
        }
        Ok(())
    }
}

/// Reads the records of all entries.
pub fn read_records(
    alloc: Global,
    params: &Params<'_>,
    entries: &Directory,
) -> Result<RecordsRead, NoMemory>
    requires permitted { IsTrue (are_permitted params.now.delims) }
    requires few { 80 * (params.now.above + length params.now.lines.now.param) ≤ FILE_LIMIT }
    requires records { LieWithin (length params.now.lines.now.param) (length entries.now) entries.now }
    ensures left { IfOk result (λ r. r.left ≡ 0) }
    ensures read { IfOk result (λ r. AreRead params.now.above params.now.lines.now.param params.now.delims entries.now r) }
{
    let mut records = RecordsRead::none(alloc, entries.count())?;
    records.read_down(alloc, params, entries, 0)?;
    Ok(records)
}

// Puts what the entries before the i-th need at the end, where a block begins with this one.
fn push_need(needs: &mut Vec<usize>, i: usize, most: usize) -> Result<(), NoMemory>
    requires small { i < 2 ^ 62 }
    requires few { BLOCK * vec_len needs.old < i + BLOCK }
    requires many { i ≤ BLOCK * vec_len needs.old }
    ensures few { OnOk result (BLOCK * vec_len needs.new ≤ i + BLOCK) }
    ensures many { OnOk result (i < BLOCK * vec_len needs.new) }
    ensures items { OnOk result ((block need : ℕ) → slice_get needs.new.items block ≡ Some need
        → IsNeedOf needs.old.items i most block need) }
{
    if i < BLOCK * needs.len() {
        return Ok(());
    }
    needs.push(most)?;
    Ok(())
}

// How many parameter lines must be there for the entries before each block of them.
fn block_needs(alloc: Global, entries: &Directory) -> Result<Vec<usize>, NoMemory>
    requires { (n : ℕ) × (n < 2 ^ 62) × LieWithin n (length entries.now) entries.now }
    ensures many { IfOk result (λ needs. length entries.now ≤ BLOCK * vec_len needs) }
    ensures needs { IfOk result (λ needs. (block need : ℕ) → slice_get needs.items block ≡ Some need
        → LieWithin need (BLOCK * block) entries.now) }
{
    let mut needs = Vec::new(alloc);
    let mut most = 0;
    'entries: for i in 0..entries.count() {
        push_need(&mut needs, i, most)?;
        let need = need_of(entries.placed_at(i).unwrap());
        most = most.max(need);
    }
    Ok(needs)
}

/// Reads the records of all entries, where so many lines come before the parameter lines. These are taken off, and their
/// memory is given back, as soon as no record that is left needs them.
pub fn read_and_give_back(
    alloc: Global,
    lines: &mut Sections,
    above: u64,
    delims: Delimiters,
    entries: &Directory,
) -> Result<RecordsRead, NoMemory>
    requires permitted { IsTrue (are_permitted delims) }
    requires few { 80 * (above + length lines.old.param) ≤ FILE_LIMIT }
    requires records { LieWithin (length lines.old.param) (length entries.now) entries.now }
    ensures left { IfOk result (λ r. r.left ≡ 0) }
    ensures read { IfOk result (λ r. AreRead above lines.old.param delims entries.now r) }
{
    let needs = block_needs(alloc, entries)?;
    let mut records = RecordsRead::none(alloc, entries.count())?;
    'down: while records.left > 0 {
        let block = (records.left - 1) / BLOCK;
        let params = Params {
            lines,
            above,
            delims,
        };
        records.read_down(alloc, &params, entries, BLOCK * block)?;
        lines.keep_params(needs[block]);
    }
    Ok(records)
}
