//! A line of an orientation's text.

use crate::lists::{FlagList, NumberList};
use iges_base::{EntryNo, NoMemory};

/// A line of an orientation's text. Shells and rows are numbered from 1 in a line.
#[derive(Drop)]
pub enum OrientLine {
    /// `ORIENT`, and the directory number of the solid.
    Head(EntryNo),
    /// `F`, a shell, and a flag for each of its faces.
    Flags { shell: u32, flags: FlagList },
    /// `O`, a shell, and the rows of a ring.
    Ring { shell: u32, rows: NumberList },
    /// `END`.
    End,
}

/// Why bytes were not read as a line.
#[derive(Clone, Copy)]
pub enum OrientLineFault {
    /// The bytes spell none of the four kinds of lines, or have no LF at their end.
    Misspelt,
    /// Memory ran out.
    NoMemory,
}

impl From<NoMemory> for OrientLineFault {
    ghost use Rattle.std.specs.Prelude.{◌≡◌};
    ghost use Rattle.orient_certificate.specs.declared.line.OrientLineFault.TheVariants.{NoMemory as OutOfMemory};

    ghost from_gives = { λ _ e. e ≡ OutOfMemory };

    fn from(_: NoMemory) -> OrientLineFault {
        OrientLineFault::NoMemory
    }
}
