//! What is wrong with the lines of a certificate.

/// What is wrong with line 1 or 2 of a certificate: it is spelled as no line, or it is too long or another line than is
/// due.
#[derive(Clone, Copy)]
pub enum Misfit {
    /// The bytes spell none of the kinds of lines, or have no LF.
    Misspelt,
    /// The line is spelled but isn't the one that is due, or it has too many bytes, whatever they are.
    Unfit,
}

/// The first line that keeps a certificate from being legal, by its number from 1: it is spelled as no line, it
/// doesn't fit where it is, or it isn't there.
#[derive(Clone, Copy, PartialEq, Eq)]
pub enum Illegal {
    /// The line spells none of the kinds of lines, or has no LF.
    Misspelt { line: u64 },
    /// The line is spelled but doesn't fit after the lines before it, or it has too many bytes, whatever they are.
    Unfit { line: u64 },
    /// The text ends where this line is due.
    Missing { line: u64 },
}
