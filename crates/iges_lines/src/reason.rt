//! The 17 reasons of refusal, with their numbers and words.

ghost use Rattle.iges_lines.specs.Reasons.{reason_number, reason_word};
ghost use Rattle.std.specs.Prelude.{◌≡◌};

/// Why a file is refused. Reasons 1 to 7 are of the pass over the lines, 8 to 11 of that over
/// the directory, 12 to 14 of that over the global section, and 15 to 17 of that over the records.
#[derive(Clone, Copy, PartialEq, Eq)]
pub enum Reason {
    /// The file is of the binary or of the compressed form.
    NotFixed = 1,
    /// The line doesn't have 80 columns.
    Length = 2,
    /// Column 73 holds no letter of a section, or the sections are out of order.
    Letter = 3,
    /// Columns 74 to 80 don't hold the line's place in its section.
    Number = 4,
    /// The terminate line doesn't give the numbers of lines of the sections.
    Counts = 5,
    /// A section that must come hasn't come.
    Missing = 6,
    /// Something comes after the terminate line.
    After = 7,
    /// A directory entry has one line alone.
    Unpaired = 8,
    /// A field of a directory entry doesn't hold what it must.
    Field = 9,
    /// The two lines of a directory entry name two types.
    TypesDiffer = 10,
    /// A directory entry's record doesn't lie among the parameter lines.
    Range = 11,
    /// The global section names no two delimiters.
    Delimiter = 12,
    /// The values of the global section can't be read.
    GlobalValue = 13,
    /// A value of the global section is of another kind.
    GlobalKind = 14,
    /// A parameter line names another entry.
    BackPointer = 15,
    /// The values of a record can't be read.
    RecordValue = 16,
    /// A record begins with another type number than its entry's.
    RecordType = 17,
}

impl Reason {
    /// The number that the format's description gives the reason, from 1.
    pub fn number(self) -> u8
        ensures { result ≡ reason_number self }
    {
        self as u8
    }

    /// The word that is printed for the reason.
    pub fn word(self) -> &'static [u8]
        ensures { result.now ≡ reason_word self }
    {
        match self {
            Reason::NotFixed => b"not-fixed",
            Reason::Length => b"length",
            Reason::Letter => b"letter",
            Reason::Number => b"number",
            Reason::Counts => b"counts",
            Reason::Missing => b"missing",
            Reason::After => b"after",
            Reason::Unpaired => b"unpaired",
            Reason::Field => b"field",
            Reason::TypesDiffer => b"types-differ",
            Reason::Range => b"range",
            Reason::Delimiter => b"delimiter",
            Reason::GlobalValue => b"global-value",
            Reason::GlobalKind => b"global-kind",
            Reason::BackPointer => b"back-pointer",
            Reason::RecordValue => b"record-value",
            Reason::RecordType => b"record-type",
        }
    }
}
