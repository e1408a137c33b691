//! Laws of extracted and of compacted solids.

ghost use Rattle.extraction_laws.specs.Again.{CompactedAgain, CompactedIsExtracted, CompactedStays};
ghost use Rattle.extraction_laws.specs.Compacted.{ClosedIsCompacted, NoOtherVerdict as NoOtherCompacted, SolidIsCompacted, VerdictIsCompacted};
ghost use Rattle.extraction_laws.specs.CompactedWritten.{CompactedIsMade, CompactedIsWritable, WrittenIsCompacted, WrittenKeepsVerdict as CompactedKeepsVerdict};
ghost use Rattle.extraction_laws.specs.Kept.{PlacesAreAlike, PlacesAreKept, SolidIsKept};
ghost use Rattle.extraction_laws.specs.KeptVerdict.{VerdictIsKept, NoOtherVerdict, ClosedIsKept};
ghost use Rattle.extraction_laws.specs.Ranked.{SolidIsRanked, VerdictIsRanked};
ghost use Rattle.extraction_laws.specs.Renamed.{RenamedFailAlike, RenamedKeepsVerdict, RenamedTellsPlace};
ghost use Rattle.extraction_laws.specs.Written.{ExtractedIsWritable, WrittenAgain, WrittenIsExtracted, WrittenKeepsVerdict};

/// Solids that differ only in the names of entities, edges and vertices, list and index, fail the rules of a closed
/// shell at the same loops, edges, faces and vertices: the rules read names only to say what fails. Where no two names
/// become one, the new name of what fails gives the old one.
pub fn relabelled_solids_fail_alike()
    ensures items { RenamedFailAlike }
    ensures verdict { RenamedKeepsVerdict }
    ensures place { RenamedTellsPlace }
{}

/// The places of a solid in its extracted file are those that it had, with entities renamed, up to the first false one.
pub fn places_are_kept()
    ensures items { PlacesAreAlike }
    ensures verdict { PlacesAreKept }
{}

/// Where the places of a solid hold, its extracted file describes the same solid, with directory numbers renamed.
pub fn solid_is_kept()
    ensures { SolidIsKept }
{}

/// An extracted solid has the verdict that it had in its file, with the entity renamed.
pub fn verdict_is_kept()
    ensures verdict { VerdictIsKept }
    ensures only { NoOtherVerdict }
    ensures closed { ClosedIsKept }
{}

/// What is extracted of a file whose canonical text reads back has a text that reads back.
pub fn extracted_is_writable()
    ensures { ExtractedIsWritable }
{}

/// The canonical text of what is extracted of a file that was read, where it has at most `FILE_LIMIT` bytes, is read as
/// exactly what was extracted.
pub fn written_is_extracted()
    ensures { WrittenIsExtracted }
{}

/// That text is exactly one file, and the solid has the verdict there that it had, with the entity renamed.
pub fn written_keeps_verdict()
    ensures { WrittenKeepsVerdict }
{}

/// Extracted again from that text, the solid gives the same file and the same text.
pub fn written_again()
    ensures { WrittenAgain }
{}

/// Where the places of a solid hold, the solid is the same once unused items are dropped, with each list index by its
/// rank.
pub fn solid_is_ranked()
    ensures { SolidIsRanked }
{}

/// So it has the verdict that it had, at the rank of the place where the rule names an edge or a vertex.
pub fn verdict_is_ranked()
    ensures { VerdictIsRanked }
{}

/// The compacted file describes the solid of its file, with each directory number renamed by the two extractions and each
/// list index by its rank.
pub fn solid_is_compacted()
    ensures { SolidIsCompacted }
{}

/// A compacted solid has the verdict that it had in its file, with the entity renamed and the place by its rank where
/// the rule names an edge or a vertex.
pub fn verdict_is_compacted()
    ensures verdict { VerdictIsCompacted }
    ensures only { NoOtherCompacted }
    ensures closed { ClosedIsCompacted }
{}

/// A compacted file can be compacted again: it is what is extracted of it, and its places hold. That drops what only
/// loops used which the second extraction left out; where nothing is left to drop, it gives the same file.
pub fn compacted_again()
    ensures extracted { CompactedIsExtracted }
    ensures dropped { CompactedAgain }
    ensures stays { CompactedStays }
{}

/// What is compacted of a file that can be made can be made, and where the file's canonical text reads back, so does that
/// of the compacted one.
pub fn compacted_is_writable()
    ensures made { CompactedIsMade }
    ensures writable { CompactedIsWritable }
{}

/// The canonical text of what is compacted of a file that was read, where it has at most `FILE_LIMIT` bytes, is read as
/// exactly what was compacted.
pub fn written_is_compacted()
    ensures { WrittenIsCompacted }
{}

/// That text is exactly one file, and the solid has the verdict there that it had, with the entity renamed and the place
/// by its rank where the rule names an edge or a vertex.
pub fn compacted_keeps_verdict()
    ensures { CompactedKeepsVerdict }
{}
