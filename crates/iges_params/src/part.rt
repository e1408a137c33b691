//! The free text of a section, joined from columns of its lines.

ghost use Rattle.iges_base.specs.InLine.{is_in_line};
ghost use Rattle.iges_lines.specs.Lines.{columns};
ghost use Rattle.iges_params.specs.Parts.{part_lines};
ghost use Rattle.std.specs.Prelude.{◌≡◌, ◌+◌, ◌^◌, ◌<◌, ◌≤◌, ◌↔◌, IsSome, IfSome, IfOk, IsTrue, OnOk, flat_map, length, option_copied, slice_get, slice_range};

use iges_base::NoMemory;
use iges_lines::{Sections, columns};

/// A section with free text (IGES 5.3, 2.2.4.3 and 2.2.4.5).
#[derive(Clone, Copy)]
pub enum Part {
    Global,
    Param,
}

// The line of a part, from 0.
fn line(sections: &Sections, part: Part, i: usize) -> Option<&[u8]>
    ensures line { option_copied result ≡ slice_get (part_lines part sections.now) i }
    ensures within { IsSome result ↔ (i < length (part_lines part sections.now)) }
    ensures long { IfSome result (λ line. length line.now ≡ 80) }
    ensures in_line { IfSome result (λ line. IsTrue (is_in_line line.now)) }
{
    match part {
        Part::Global => sections.global(i),
        Part::Param => sections.param(i),
    }
}

// The most bytes of room that are kept from one text to the next.
const ROOM: usize = 65_536;

/// Puts columns 1 to `width` of so many lines of a part, from a place on, in place of the text.
#[inline(always)]
pub fn put_text(
    text: &mut Vec<u8>,
    sections: &Sections,
    part: Part,
    width: usize,
    from: usize,
    count: usize,
) -> Result<(), NoMemory>
    requires some { 0 < width }
    requires width { width ≤ 80 }
    requires within { from + count ≤ length (part_lines part sections.now) }
    requires few { from + count < 2 ^ 64 }
    ensures text { OnOk result (text.new.items
        ≡ flat_map (columns 1 width) (slice_range (part_lines part sections.now) from
        (from + count))) }
    ensures in_line { OnOk result (IsTrue (is_in_line text.new.items)) }
{
    text.clear();
    text.shrink_to(ROOM);
    'lines: for i in 0..count {
        let Some(line) = line(sections, part, from + i) else {
            unreachable!();
        };
        text.extend_from_slice(columns(line, 1, width))?;
    }
    Ok(())
}
