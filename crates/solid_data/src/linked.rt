//! What lies round a vertex of a closed shell.

use crate::lists::RowList;
use crate::solid::LoopAt;
use iges_base::ItemList;

/// What lies round a vertex.
#[derive(Drop)]
pub enum Corner {
    /// The rows that start there, each once: from the least one on each turns to the next, and the last to the first. No loop
    /// without an edge lies there.
    Cycle(RowList),
    /// The one loop without an edge that lies there. No row starts there.
    Point(LoopAt),
}

/// A corner for each vertex of a shell, by rising number.
pub type Corners = ItemList<Corner>;
