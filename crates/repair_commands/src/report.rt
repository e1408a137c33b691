//! What is written of a layout.

ghost use Rattle.iges_base.specs.declared.TheConstants.{FILE_LIMIT};
ghost use Rattle.repair_commands.specs.Texts.{bad_layout_line, change_line, change_word, changes_text, layout_word, tally_line};
ghost use Rattle.std.specs.Prelude.{◌≡◌, ◌++◌, ◌≤◌, OnOk, length};

use iges_base::{NoMemory, Out, write_number};
use line_layout::{Change, ChangeCount, LayoutFault, LayoutReason, tally};

fn layout_word(reason: LayoutReason) -> &'static str
    ensures { result.now ≡ layout_word reason }
{
    match reason {
        LayoutReason::Utf16 => "utf16",
        LayoutReason::Gzip => "gzip",
        LayoutReason::Tab => "tab",
        LayoutReason::Short => "short",
        LayoutReason::Letter => "letter",
        LayoutReason::Number => "number",
        LayoutReason::Long => "long",
        LayoutReason::Order => "order",
        LayoutReason::Missing => "missing",
        LayoutReason::Many => "many",
        LayoutReason::Shuffled => "shuffled",
    }
}

/// Puts the line on a file whose content can't be told apart. It errs only where memory runs out.
pub fn put_bad_layout(out: &mut Out, fault: LayoutFault) -> Result<(), NoMemory>
    ensures { OnOk result (out.new ≡ out.old ++ bad_layout_line fault) }
{
    out.put(b"bad layout line ")?;
    write_number(out, fault.line)?;
    out.put(b" ")?;
    out.put(layout_word(fault.reason).as_bytes())?;
    out.put(b"\n")
}

fn change_word(change: Change) -> &'static str
    ensures { result.now ≡ change_word change }
{
    match change {
        Change::Mark => "mark",
        Change::Blank => "blank",
        Change::End => "end",
        Change::Letter => "letter",
        Change::Past => "past",
        Change::Number => "number",
        Change::Ahead => "ahead",
        Change::Counts => "counts",
        Change::FewerStart => "fewer-S",
        Change::FewerGlobal => "fewer-G",
        Change::FewerDirectory => "fewer-D",
        Change::FewerParam => "fewer-P",
        Change::After => "after",
    }
}

fn put_tally(out: &mut Out, word: &str, tally: ChangeCount) -> Result<(), NoMemory>
    ensures { OnOk result (out.new ≡ out.old ++ tally_line word.now tally) }
{
    if tally.times == 0 {
        return Ok(());
    }
    out.put(word.as_bytes())?;
    out.put(b" ")?;
    write_number(out, tally.times)?;
    out.put(b" line ")?;
    write_number(out, tally.first)?;
    out.put(b"\n")
}

#[tactic(auto, unfolding(crate::specs::Texts::change_line))]
fn put_change(out: &mut Out, bytes: &[u8], change: Change) -> Result<(), NoMemory>
    requires { length bytes.now ≤ FILE_LIMIT }
    ensures { OnOk result (out.new ≡ out.old ++ change_line bytes.now change) }
{
    put_tally(out, change_word(change), tally(bytes, change))
}

/// Puts a line for each kind of change that is made. It errs only where memory runs out.
#[tactic(auto, unfolding(crate::specs::Texts::changes_text))]
pub fn put_changes(out: &mut Out, bytes: &[u8]) -> Result<(), NoMemory>
    requires { length bytes.now ≤ FILE_LIMIT }
    ensures { OnOk result (out.new ≡ out.old ++ changes_text bytes.now) }
{
    put_change(out, bytes, Change::Mark)?;
    put_change(out, bytes, Change::Blank)?;
    put_change(out, bytes, Change::End)?;
    put_change(out, bytes, Change::Letter)?;
    put_change(out, bytes, Change::Past)?;
    put_change(out, bytes, Change::Number)?;
    put_change(out, bytes, Change::Ahead)?;
    put_change(out, bytes, Change::Counts)?;
    put_change(out, bytes, Change::FewerStart)?;
    put_change(out, bytes, Change::FewerGlobal)?;
    put_change(out, bytes, Change::FewerDirectory)?;
    put_change(out, bytes, Change::FewerParam)?;
    put_change(out, bytes, Change::After)
}
