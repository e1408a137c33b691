//! Bytes determine where entries stand.

ghost use Rattle.where_places.specs.PlacedFiles.{OnePlacedFile};

/// Bytes are at most one file, and its entries stand at one place each.
pub fn one_placed_file()
    ensures { OnePlacedFile }
{}
