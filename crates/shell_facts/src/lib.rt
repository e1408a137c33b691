//! What is said of a shell: where its rows are in the file, its rows edge by edge, its parts, and what lies at its vertices:
//! the rows of fans, loops without an edge, and faces.
#![tactic(auto)]

mod by_edge;
mod faces;
mod grouping;
mod parting;
mod placing;
mod turning;

pub use by_edge::rows_by_edge;
pub use faces::{FacesUpTo, VertexFaces, faces_by_vertex};
pub use parting::{Part, PartTables, part_tables, parts};
pub use placing::{RowPlace, row_places};
pub use shell_components::Groups;
pub use turning::{AtVertex, VertexTables, around, vertex_tables};
