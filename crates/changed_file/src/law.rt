//! What stays of a file in which shells of a solid change.

ghost use Rattle.changed_file.specs.Staying.{OthersStay};

/// Each entry stays as it is, but for the solid, its shells, the loops of their faces, and faces that are removed.
pub fn others_stay()
    ensures { OthersStay }
{}
