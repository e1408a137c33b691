//! Laws of reoriented solids.

ghost use Rattle.reorient_laws.specs.Closed.{ClosedWithFlags, ReorientedIsClosed, ReorientedIsPaired, SolidIsReoriented};
ghost use Rattle.reorient_laws.specs.Stays.{ClosedStays, OwnFlagsStay, ReorientedAgain};
ghost use Rattle.reorient_laws.specs.Written.{ReorientedIsWritable, WrittenIsReoriented};

/// The places of the solid hold in the reoriented file, whose records describe the solid of its file with the flags that
/// were found, with directory numbers renamed.
pub fn solid_is_reoriented()
    ensures { SolidIsReoriented }
{}

/// PAIR holds in the reoriented file. The solid is closed there exactly where the solid with the flags that were found is
/// closed; so it is where JOIN, LINK and APART hold of that solid.
pub fn reoriented_is_closed()
    ensures paired { ReorientedIsPaired }
    ensures exactly { ClosedWithFlags }
    ensures closed { ReorientedIsClosed }
{}

/// What is reoriented of a file whose canonical text reads back has a text that reads back.
pub fn reoriented_is_writable()
    ensures { ReorientedIsWritable }
{}

/// The canonical text of what is reoriented of a file that was read, where it has at most `FILE_LIMIT` bytes, is read as
/// exactly that file.
pub fn written_is_reoriented()
    ensures { WrittenIsReoriented }
{}

/// Where the flags that are found are the solid's own, the file is the extracted one; so it is where the solid is closed
/// already.
pub fn own_flags_stay()
    ensures own { OwnFlagsStay }
    ensures closed { ClosedStays }
{}

/// Reoriented again from the reoriented file, the solid gives the same file.
pub fn reoriented_again()
    ensures { ReorientedAgain }
{}
