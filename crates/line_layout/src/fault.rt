//! Why a file can't be given the layout: its first bad line, or no memory.

use iges_base::NoMemory;

/// Why the content of a line can't be told apart for certain.
#[derive(Clone, Copy)]
pub enum LayoutReason {
    /// The line begins with the mark of UTF-16.
    Utf16,
    /// The line begins as a gzip file does.
    Gzip,
    /// The line fails, and it has a tab: its columns were lost.
    Tab,
    /// The line has no column 73, and isn't blank.
    Short,
    /// Column 73 holds no letter of a section.
    Letter,
    /// Columns 74 to 80 hold another byte than digits, signs and blanks.
    Number,
    /// A byte after column 80 isn't blank.
    Long,
    /// A line of a later section comes before it.
    Order,
    /// A section that must come before it hasn't come.
    Missing,
    /// Its section has more lines than seven columns can number.
    Many,
    /// Its number isn't its place, and the numbers of its section are the places in another order.
    Shuffled,
}

/// A line, counted from 1, and what is wrong there.
#[derive(Clone, Copy)]
pub struct LayoutFault {
    pub line: u64,
    pub reason: LayoutReason,
}

/// Why no file was made.
#[derive(Clone, Copy)]
pub enum RelaidFault {
    /// The first line that fails, and why.
    Bad(LayoutFault),
    /// Memory ran out.
    NoMemory,
}

impl From<NoMemory> for RelaidFault {
    ghost use Rattle.std.specs.Prelude.{◌≡◌};
    ghost use Rattle.line_layout.specs.declared.fault.RelaidFault.TheVariants.{NoMemory};

    ghost from_gives = { λ _ e. e ≡ NoMemory };

    fn from(_: NoMemory) -> RelaidFault {
        RelaidFault::NoMemory
    }
}
