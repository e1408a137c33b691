//! The counts of a shell in its lines.

/// The counts of a SHELL line: how many rows, edges, corner and point lines, and faces the shell has.
#[derive(Clone, Copy)]
pub struct ShellCounts {
    /// How many edge uses it has.
    pub rows: u32,
    /// How many E lines it has, one for each edge that occurs in it.
    pub edges: u32,
    /// How many C and I lines it has together, one for each vertex that occurs in it.
    pub corners: u32,
    /// How many faces it has.
    pub faces: u32,
}

/// The counts of a TALLY line: how many vertices, edges, faces and loops the shell has.
#[derive(Clone, Copy)]
pub struct TallyCounts {
    pub vertices: u32,
    pub edges: u32,
    pub faces: u32,
    pub loops: u32,
}
