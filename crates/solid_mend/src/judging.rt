//! Whether solids of a file are closed.

ghost use Rattle.iges_params.specs.Solids.{is_solid_at};
ghost use Rattle.solid_mend.specs.Mended.{AreClosed};
ghost use Rattle.solid_verdict.specs.Closed.{IsClosed};
ghost use Rattle.std.specs.Prelude.{◌≡◌, ◌≤◌, ◌<◌, ◌+◌, ◌*◌, ℕ, IfOk, IsTrue, length};

use brep_walk::{WalkFault, Walker};
use iges_base::{EntryNo, NoMemory};
use iges_params::File;
use solid_faults::is_closed;
use std::alloc::Global;

fn is_closed_in(alloc: Global, walker: &mut Walker<'_>, no: EntryNo) -> Result<bool, NoMemory>
    ensures file { walker.new ≡ walker.old }
    ensures closed { IfOk result (λ b. IsTrue b → IsClosed walker.old no.0) }
{
    match walker.walk(alloc, no) {
        Ok(solid) => is_closed(alloc, &solid),
        Err(WalkFault::Fails(_)) => Ok(false),
        Err(WalkFault::NoMemory) => Err(NoMemory),
    }
}

// Whether the i-th entry is closed, if it is a solid.
fn is_closed_at(
    alloc: Global,
    file: &File,
    walker: &mut Walker<'_>,
    i: usize,
) -> Result<bool, NoMemory>
    requires file { walker.old ≡ file.now }
    requires within { i < length file.now.entries }
    ensures file { walker.new ≡ walker.old }
    ensures closed { IfOk result (λ b. IsTrue b → IsTrue (is_solid_at file.now i)
        → IsClosed file.now (2 * i + 1)) }
{
    if !file.is_solid_at(i) {
        return Ok(true);
    }
    is_closed_in(alloc, walker, file.entry_no(i))
}

fn are_closed_from(
    alloc: Global,
    file: &File,
    walker: &mut Walker<'_>,
    from: usize,
) -> Result<bool, NoMemory>
    requires { walker.old ≡ file.now }
    ensures { IfOk result (λ b. IsTrue b → (i : ℕ) → from ≤ i
        → IsTrue (is_solid_at file.now i) → IsClosed file.now (2 * i + 1)) }
{
    'entries: for i in from..file.entry_count() {
        if !is_closed_at(alloc, file, walker, i)? {
            return Ok(false);
        }
    }
    Ok(true)
}

fn all_closed(
    alloc: Global,
    file: &File,
    walker: &mut Walker<'_>,
    no: EntryNo,
    from: usize,
) -> Result<bool, NoMemory>
    requires { walker.old ≡ file.now }
    ensures { IfOk result (λ b. IsTrue b → AreClosed file.now no.0 from) }
{
    if !is_closed_in(alloc, walker, no)? {
        return Ok(false);
    }
    are_closed_from(alloc, file, walker, from)
}

/// Whether a solid is closed, and each solid among the entries from a place on.
pub(crate) fn are_closed(
    alloc: Global,
    file: &File,
    no: EntryNo,
    from: usize,
) -> Result<bool, NoMemory>
    ensures { IfOk result (λ b. IsTrue b → AreClosed file.now no.0 from) }
{
    let mut walker = Walker::new(alloc, file);
    let closed = all_closed(alloc, file, &mut walker, no, from);
    drop(walker);
    closed
}
