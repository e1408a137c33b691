//! Sections and their letters, in upper and lower case.

ghost use Rattle.line_layout.specs.Letters.{is_last, letter_of, section_of};
ghost use Rattle.std.specs.Prelude.{◌≡◌};

/// The sections of a file, in their order (IGES 5.3, 2.2.4).
#[derive(Clone, Copy)]
pub enum Section {
    /// `S` (IGES 5.3, 2.2.4.1).
    Start,
    /// `G` (IGES 5.3, 2.2.4.3).
    Global,
    /// `D` (IGES 5.3, 2.2.4.4).
    Directory,
    /// `P` (IGES 5.3, 2.2.4.5).
    Param,
    /// `T` (IGES 5.3, 2.2.4.6).
    Terminate,
}

// The section that a letter names, in lower case too.
#[tactic(auto, unfolding(crate::specs::Letters::section_of))]
pub(crate) fn section_of(letter: u8) -> Option<Section>
    ensures { result ≡ section_of letter }
{
    if letter == b'S' || letter == b's' {
        return Some(Section::Start);
    }
    if letter == b'G' || letter == b'g' {
        return Some(Section::Global);
    }
    if letter == b'D' || letter == b'd' {
        return Some(Section::Directory);
    }
    if letter == b'P' || letter == b'p' {
        return Some(Section::Param);
    }
    if letter == b'T' || letter == b't' {
        return Some(Section::Terminate);
    }
    None
}

// Whether no section comes after it.
pub(crate) fn is_last(section: Section) -> bool
    ensures { result ≡ is_last section }
{
    matches!(section, Section::Terminate)
}

// The letter of a section.
pub(crate) fn letter_of(section: Section) -> u8
    ensures { result ≡ letter_of section }
{
    match section {
        Section::Start => b'S',
        Section::Global => b'G',
        Section::Directory => b'D',
        Section::Param => b'P',
        Section::Terminate => b'T',
    }
}
