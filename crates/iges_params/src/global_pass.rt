//! The pass over the global section.

ghost use Rattle.iges_base.specs.InLine.{is_in_line};
ghost use Rattle.iges_lines.specs.Gives.{Gives};
ghost use Rattle.iges_params.specs.Global.{head};
ghost use Rattle.iges_params.specs.Heads.{IsHead};
ghost use Rattle.iges_params.specs.Reading.{global_of_head, head_values, read_global, with_kinds};
ghost use Rattle.std.specs.Prelude.{◌≡◌, ◌+◌, ◌<◌, ◌^◌, Some, IsTrue, length, option_copied};

use crate::global::Global26;
use crate::head::{Head, head_of};
use crate::kinds::have_kinds;
use crate::part::{Part, put_text};
use crate::passage::{Passage, bad, passage_values};
use iges_fields::{Delimiters, Values};
use iges_lines::{PassFault, Reason, Sections};
use std::alloc::Global;

// The values after a head of the text.
fn head_values(
    alloc: Global,
    text: &[u8],
    front: &Head<'_>,
    first: u64,
) -> Result<Values, PassFault>
    requires front { IsHead (Some front.now) (head text.now) }
    requires in_line { IsTrue (is_in_line text.now) }
    requires few { first + length text.now < 2 ^ 64 }
    ensures { Gives result (head_values first text.now front.now.delims
        (option_copied front.now.values)) }
{
    let Some(rest) = front.values else {
        return Ok(Values::new(alloc));
    };
    let passage = Passage {
        columns: text,
        text: rest,
        first,
        width: 72,
    };
    passage_values(alloc, &passage, front.delims, Reason::GlobalValue)
}

// The global of these values, where they are of their kinds.
fn with_kinds(first: u64, delims: Delimiters, values: Values) -> Result<Global26, PassFault>
    ensures { Gives result (with_kinds first delims values) }
{
    if !have_kinds(values.as_slice()) {
        return Err(bad(first, Reason::GlobalKind));
    }
    Ok(Global26 { delims, values })
}

// The global that a text in lines of 72 bytes is, the first of which has this number.
fn global_of_text(alloc: Global, text: &[u8], first: u64) -> Result<Global26, PassFault>
    requires in_line { IsTrue (is_in_line text.now) }
    requires few { first + length text.now < 2 ^ 64 }
    ensures { Gives result (global_of_head first text.now (head text.now)) }
{
    let Some(front) = head_of(text) else {
        return Err(bad(first, Reason::Delimiter));
    };
    let values = head_values(alloc, text, &front, first)?;
    with_kinds(first, front.delims, values)
}

/// The global of a file's sections. Its text, columns 1 to 72 of the global lines (IGES 5.3, 2.2.4.3), is put in place
/// of `text`.
pub fn read_global(
    alloc: Global,
    sections: &Sections,
    text: &mut Vec<u8>,
) -> Result<Global26, PassFault>
    ensures { Gives result (read_global sections.now) }
{
    put_text(text, sections, Part::Global, 72, 0, sections.global_count())?;
    global_of_text(alloc, text, sections.start_count() as u64 + 1)
}
