//! A solid whose remedies are told.

ghost use Rattle.std.specs.Prelude.{◌≡◌};

use iges_params::File;
use solid_data::Solid;
use spelled_solid::SpelledSolid;
use where_text::Listing;

/// A solid of a file, its words, and how much is written of each list. A change may be of another file's solid with the same
/// shells, faces, loops, edges and vertices in the same order.
#[derive(Drop)]
pub struct RemedyView<'a> {
    pub file: &'a File,
    pub solid: &'a Solid,
    pub spelled: &'a SpelledSolid<'a>,
    pub listing: Listing,
    ghost same: { spelled.now ≡ record { file = file.now; solid = solid.now } },
}
