//! Lists of flags and of numbers, and what is found of a shell.

use iges_base::ItemList;
use solid_data::RowList;

/// A flag for each face of a shell, in the order of the shell's record; 1 means that directions agree (IGES 5.3, 4.149).
pub type FlagList = ItemList<bool>;

/// The numbers of a line as they are printed, rows counted from 1.
pub type NumberList = ItemList<u32>;

/// What is found of a shell.
#[derive(Drop)]
pub enum Orientation {
    /// Flags under which the two rows of each edge run in opposite directions, the first face's its own.
    Flags(FlagList),
    /// Rows that lead from face to face and back, over an odd number of edges that ask the two faces for different flags:
    /// no flags will do.
    Ring(RowList),
}
