//! Laws of files with other flags.

ghost use Rattle.solid_reorient.specs.Laws.{ReflaggedIsMade};
ghost use Rattle.solid_reorient.specs.Once.{NoOtherFlags, OneReoriented, ReflaggedIsExtracted};
ghost use Rattle.solid_reorient.specs.Turned.{ReflaggedPlaces, ReflaggedSolid};

/// A file that can be made can be made with other flags.
pub fn reflagged_is_made()
    ensures { ReflaggedIsMade }
{}

/// Where the places of a solid hold, they still hold with other flags for its shells' faces, and its records describe the
/// same solid with these flags.
pub fn reflagged_solid_is_turned()
    ensures places { ReflaggedPlaces }
    ensures solid { ReflaggedSolid }
{}

/// A solid has one choice of flags, and is reoriented in one way.
pub fn one_reorientation()
    ensures flags { NoOtherFlags }
    ensures file { OneReoriented }
{}

/// A file that is what is extracted of it still is with other flags, one for each face.
pub fn reflagged_is_extracted()
    ensures { ReflaggedIsExtracted }
{}
