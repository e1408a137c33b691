//! The directory of a file has one reading.

ghost use Rattle.iges_directory.specs.DirectoryFaults.{IsDirectoryFault};
ghost use Rattle.iges_directory.specs.Entries.{AreEntries};
ghost use Rattle.iges_lines.specs.Lines.{SectionLines};
ghost use Rattle.iges_lines.specs.OneReading.{HasOneReading};
ghost use Rattle.std.specs.Prelude.{length};

/// A table of sections has one list of entries and no faulty line, or one first faulty line and no list of entries.
pub fn directory_has_one_reading()
    ensures { (s : SectionLines) → HasOneReading (AreEntries (length s.param) s.directory)
        (IsDirectoryFault s) }
{}
