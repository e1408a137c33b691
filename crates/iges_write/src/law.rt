//! One canonical text for each file, and when it reads back.

ghost use Rattle.iges_write.specs.Writable.{ReadsBack, CanBeMade, OneText};

/// The canonical text of a file that can be made, where it has at most `FILE_LIMIT` bytes, is read as that file.
pub fn every_text_reads_back()
    ensures { ReadsBack }
{}

/// Each file that is read from at most `FILE_LIMIT` bytes can be made, so its canonical text reads back.
pub fn every_read_file_can_be_made()
    ensures { CanBeMade }
{}

/// Each file has exactly one canonical text.
pub fn every_file_has_one_text()
    ensures { OneText }
{}
