//! What is named as a part of another entity.

/// A kind of entity that records of others name as members (IGES 5.3, 4.49 and 4.149).
#[derive(Clone, Copy)]
pub enum Member {
    /// A shell, which solids name.
    Shell,
    /// A face, which shells name.
    Face,
}
