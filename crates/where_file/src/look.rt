//! What a bad file, or the line of it that fails, looks like.

/// A kind of file that isn't one of IGES, told by its first bytes.
#[derive(Clone, Copy)]
pub enum FileKind {
    Empty,
    Gzip,
    Zip,
    Pdf,
    Utf16,
    ByteOrderMark,
    Certificate,
    Brep,
    Parasolid,
    Dwg,
    Stl,
    Step,
    Markup,
}

/// What was done to the line that fails.
#[derive(Clone, Copy)]
pub enum LineKind {
    ControlZ,
    Nuls,
    SecondFile,
    LowerCase,
    NoLineEnds,
    TwoCrs,
    CrAlone,
    Tabs,
    Utf8,
    NoNumbers,
    Blank,
    CutOff,
}
