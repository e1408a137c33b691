//! What is owed of mending, and that what is mended reads back, is closed, and keeps its geometry.

ghost use Rattle.mend_commands.specs.Laws.{ClosedIsExtracted, GeometryStays, MendedReadsBack, OneMendAnswer, OneMended, SomeMendAnswer};

/// Of a solid that fails by no rule on shells, also without what it names twice, one answer is owed, and one text.
pub fn one_mend_answer()
    ensures { OneMendAnswer }
{}

/// In a file within its limits some answer is owed of mending any solid.
pub fn some_mend_answer()
    ensures { SomeMendAnswer }
{}

/// A closed solid is written as `extract` writes it.
pub fn closed_is_extracted()
    ensures { ClosedIsExtracted }
{}

/// For given changes one file is made.
pub fn one_mended()
    ensures { OneMended }
{}

/// The text of a mended file is read as exactly that file, and in it the solid and each new one are closed.
pub fn mended_reads_back()
    ensures { MendedReadsBack }
{}

/// A mended file has each entry as it was extracted, but for the solid, its shells, their loops and removed faces; and each use that
/// stays runs between its places, along its curve, but for seams and moves that the change tells.
pub fn geometry_stays()
    ensures { GeometryStays }
{}
