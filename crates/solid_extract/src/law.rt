//! Laws of extraction.

ghost use Rattle.solid_extract.specs.Again.{ExtractedAgain};
ghost use Rattle.solid_extract.specs.Kept.{RecordsAreKept, KeptAreNamed, ItemsAreKept};
ghost use Rattle.solid_extract.specs.MadeAgain.{ExtractedIsMade};
ghost use Rattle.solid_extract.specs.OneExtraction.{OneFile, OneRefusal, NotBoth};

/// A solid is extracted to at most one file, or refused for at most one entity and reason, and never both.
pub fn one_extraction()
    ensures file { OneFile }
    ensures refusal { OneRefusal }
    ensures not_both { NotBoth }
{}

/// A record of one of a solid's six kinds stays one of that kind in the extracted file, with the same items but for
/// renamed pointers.
pub fn records_are_kept()
    ensures { RecordsAreKept }
{}

/// A kept entry is named by its new number, and where it is of one of a solid's six kinds it has the same items, with
/// pointers renamed.
pub fn items_are_kept()
    ensures named { KeptAreNamed }
    ensures items { ItemsAreKept }
{}

/// What is extracted from a file that can be made can be made too: its entries fit their columns, and it is within the
/// limits of a file.
pub fn extracted_is_made()
    ensures { ExtractedIsMade }
{}

/// What is extracted is extracted again as the same file.
pub fn extracted_again()
    ensures { ExtractedAgain }
{}
