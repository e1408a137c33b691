//! The terminate line, which counts those of the other sections.

ghost use Rattle.iges_write.specs.FileSheet.{with_counts};
ghost use Rattle.iges_write.specs.Sheet.{Steps};
ghost use Rattle.iges_write.specs.Text.{counts_columns};
ghost use Rattle.std.specs.Prelude.{◌≡◌, length};

use crate::column::count_field;
use crate::fault::WriteFileFault;
use crate::line_text::LineText;
use crate::page::Page;

/// How many lines each section has.
#[derive(Clone, Copy)]
pub struct Counts {
    /// The number of start lines (IGES 5.3, 2.2.4.1).
    pub start: u64,
    /// The number of global lines (IGES 5.3, 2.2.4.3).
    pub global: u64,
    /// The number of directory lines, two for each entry (IGES 5.3, 2.2.4.4).
    pub directory: u64,
    /// The number of parameter lines (IGES 5.3, 2.2.4.5).
    pub params: u64,
}

// The columns 1 to 72 of the terminate line.
fn columns_of(counts: &Counts) -> LineText
    ensures { (result ≡ counts_columns counts.now.start counts.now.global counts.now.directory counts.now.params)
        × (length result ≡ 72) }
{
    let mut line = LineText::new();
    line.push(&count_field(b'S', counts.start));
    line.push(&count_field(b'G', counts.global));
    line.push(&count_field(b'D', counts.directory));
    line.push(&count_field(b'P', counts.params));
    line.pad(72);
    line
}

/// Puts the terminate line.
pub fn put_terminate(page: &mut Page, counts: &Counts) -> Result<(), WriteFileFault>
    ensures { Steps result page.new (with_counts page.old counts.now) }
{
    let line = columns_of(counts);
    page.begin(b'T', 72);
    page.put_line(line.as_slice())
}
