//! A shell that is described, and the text on it.

ghost use Rattle.std.specs.Prelude.{◌≡◌};

use edge_uses::Rows;
use iges_base::Out;
use iges_params::File;
use shell_facts::VertexFaces;
use solid_data::{ShellAt, Solid};
use spelled_solid::SpelledSolid;
use where_text::{EntryNumbers, Listing};

/// A shell of a solid of a file, the solid's words, the shell's rows, the faces at each vertex of the solid, and how much is written of each
/// list, and of the gaps.
#[derive(Drop)]
pub struct ShellView<'a> {
    pub file: &'a File,
    pub solid: &'a Solid,
    pub spelled: &'a SpelledSolid<'a>,
    pub at: ShellAt,
    pub rows: &'a Rows,
    pub faces: &'a VertexFaces,
    pub listing: Listing,
    pub gaps: Listing,
    ghost same: { spelled.now ≡ record { file = file.now; solid = solid.now } },
}

/// A text, and the entities that its facts name, in the order of writing, with repeats.
#[derive(Drop)]
pub struct Page {
    pub out: Out,
    pub named: EntryNumbers,
}
