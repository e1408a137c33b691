//! Why a search ended.

use crate::path::Path;

/// Why a search for the obligation of a name ended before all were looked at.
#[derive(Clone, Copy)]
pub enum Ended {
    /// It is found, on this path.
    Found(Path),
    /// A record isn't what its place asks for, and nothing after that place is known.
    Lost,
}
