//! Verdicts on solids.

ghost use Rattle.solid_verdict.specs.Closed.{IsVerdictOn};
ghost use Rattle.std.specs.Prelude.{IfOk};

use cert_maker::verdict;
use iges_base::{EntryNo, NoMemory};
use iges_params::File;
use solid_data::Verdict;
use std::alloc::Global;

/// What is said of a solid of a file: that it is closed, or the first rule that fails.
pub fn verdict_on(alloc: Global, file: &File, no: EntryNo) -> Result<Verdict, NoMemory>
    ensures { IfOk result (IsVerdictOn file.now no.0) }
{
    match verdict(alloc, file, no)? {
        Verdict::Closed => Ok(Verdict::Closed),
        Verdict::Fails(failing) => Ok(Verdict::Fails(failing)),
    }
}
