//! An example of a caller of the crates: what is said of a solid of a file that is given as bytes.
#![tactic(auto)]

ghost use Rattle.std.specs.Prelude.{◌≡◌, IsTrue};
ghost use Rattle.library_example.specs.Finds.{Finds};

use cert_maker::verdict;
use iges_base::{EntryNo, FILE_LIMIT, NoMemory};
use iges_lines::LineFault;
use iges_params::{ReadFileFault, read_file};
use solid_data::{Failing, Verdict};
use std::alloc::Global;

#[cfg(test)]
mod tests;

/// What is said of a solid.
#[derive(Clone, Copy)]
pub enum Finding {
    /// The solid is closed.
    Closed,
    /// It isn't: the first rule that fails, and where.
    Fails(Failing),
    /// The bytes are no file: the first line that fails, and why.
    BadFile(LineFault),
    /// The bytes are more than a file may have.
    TooLarge,
    /// Memory ran out.
    NoMemory,
}

/// What is said of the solid of the entry `no` in the file that the bytes are.
pub fn judge(alloc: Global, bytes: &[u8], no: EntryNo) -> Finding
    ensures { Finds bytes.now no.0 result }
{
    if bytes.len() as u64 > FILE_LIMIT {
        return Finding::TooLarge;
    }
    let file = match read_file(alloc, bytes) {
        Ok(file) => file,
        Err(ReadFileFault::Bad(fault)) => return Finding::BadFile(fault),
        Err(ReadFileFault::NoMemory) => return Finding::NoMemory,
    };
    match verdict(alloc, &file, no) {
        Ok(Verdict::Closed) => Finding::Closed,
        Ok(Verdict::Fails(failing)) => Finding::Fails(failing),
        Err(NoMemory) => Finding::NoMemory,
    }
}
