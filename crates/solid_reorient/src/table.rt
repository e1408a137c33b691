//! Which list of flags is for the entry at each place of a directory.

ghost use Rattle.solid_reorient.specs.Reflagged.{flags_for};
ghost use Rattle.solid_reorient.specs.Steps.{list_numbered, noted};
ghost use Rattle.std.specs.Prelude.{◌≡◌, ◌<◌, ◌≤◌, ◌+◌, ◌*◌, [], ℕ, Bool, List, IfOk, MatchOption, get_or, length, replicate};
ghost use Rattle.iges_base.specs.declared.TheConstants.{ENTRY_LIMIT};

use iges_base::NoMemory;
use orient_certificate::FlagList;
use std::alloc::Global;

fn blank_table(alloc: Global, count: usize) -> Result<Vec<usize>, NoMemory>
    ensures { IfOk result (λ table. table.items ≡ replicate count 0) }
{
    Ok(vec![in alloc; 0usize; count]?)
}

// Notes a list for the entry that the number names, if there is one.
fn note(table: &mut Vec<usize>, number: i64, list: usize)
    requires { length table.old.items ≤ ENTRY_LIMIT }
    ensures long { length table.new.items ≡ length table.old.items }
    ensures noted { (p : ℕ) → p < length table.old.items
        → get_or table.new.items p 0 ≡ noted number list p (get_or table.old.items p 0) }
{
    let Ok(no) = u32::try_from(number) else {
        return;
    };
    let place = (no / 2) as usize;
    if no % 2 == 1 && place < table.len() {
        table[place] = list;
    }
}

/// The list for the entry at each of so many places, where these are the shells that the lists are for: lists count from
/// 1, and 0 stands where there is none.
pub(crate) fn table_of(alloc: Global, count: usize, shells: &[i64]) -> Result<Vec<usize>, NoMemory>
    requires { count ≤ ENTRY_LIMIT }
    ensures long { IfOk result (λ table. length table.items ≡ count) }
    ensures told { IfOk result (λ table. (flags : List (List Bool)) (p : ℕ) → p < count
        → list_numbered flags (get_or table.items p 0) ≡ flags_for flags shells.now (2 * p + 1)) }
{
    let mut table = blank_table(alloc, count)?;
    let mut k = shells.len();
    'shells: while k > 0 {
        k -= 1;
        note(&mut table, shells[k], k + 1);
    }
    Ok(table)
}

/// The list of this number, from 1, if there is one.
pub(crate) fn list_numbered(flags: &[FlagList], number: usize) -> Option<&FlagList>
    ensures { MatchOption result (list_numbered flags.now number ≡ [])
        (λ x. list_numbered flags.now number ≡ x.now) }
{
    if number == 0 {
        return None;
    }
    flags.get(number - 1)
}
