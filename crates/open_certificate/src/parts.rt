//! A certificate of an open shell as its parts.

use cert_lines::ReachRows;
use iges_base::{EntryNo, ItemList};
use solid_data::{LoopAt, RowId, RowList};

/// The rows of an edge.
#[derive(Clone, Copy)]
pub enum OpenEdge {
    /// The only one, which is a border row.
    One(RowId),
    /// The row along the edge, and the row against it.
    Two(RowId, RowId),
}

/// The rows of each edge that occurs in the shell, by rising edge.
pub type OpenEdges = ItemList<OpenEdge>;

/// What lies at a vertex.
#[derive(Drop)]
pub enum OpenCorner {
    /// The rows that start there, from the least one on by turns; the last turns to the first.
    Cycle(RowList),
    /// The rows that start there, each turning to the next; the last is a border row.
    Path(RowList),
    /// The one loop without an edge.
    Point(LoopAt),
}

/// What lies at each vertex that occurs in the shell, by rising number.
pub type OpenCorners = ItemList<OpenCorner>;

/// The cycles of border rows, by their least rows; each from its least row on.
pub type Borders = ItemList<RowList>;

/// A certificate of an open shell: the shell, how many rows and faces it has, and its lines.
#[derive(Drop)]
pub struct OpenCertificate {
    /// The shell's directory number (IGES 5.3, 2.2.4.4).
    pub shell: EntryNo,
    /// How many edge uses the shell has.
    pub rows: u32,
    /// As many as edges occur in the shell; each row is numbered within the shell, from 0.
    pub edges: OpenEdges,
    /// As many as vertices occur in the shell.
    pub corners: OpenCorners,
    /// How many faces the shell has.
    pub faces: u32,
    /// One row for each face but the first, numbered within the shell, from 0.
    pub reach: ReachRows,
    /// Each row that has no mate is in one of them.
    pub borders: Borders,
}
