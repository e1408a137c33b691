//! What is said of a bad file after the sentence of its reason.

ghost use Rattle.std.specs.Prelude.{◌≡◌, ◌++◌, OnOk};
ghost use Rattle.where_file.specs.BadFile.{bad_file_facts, bad_hints, is_of_lines, layout_hint, line_text, line_kind_of, look_hint, file_kind_of};
ghost use Rattle.where_file.specs.Looks.{is_of_whole};

use crate::facts::{put_line_facts, put_line_head};
use crate::fields::field_of;
use crate::line_kinds::kind_of_line;
use crate::look::{FileKind, LineKind};
use crate::texts::{put_file_kind, put_line_kind};
use crate::whole::kind_of_file;
use iges_base::{NoMemory, Out};
use iges_lines::{LineFault, Reason};
use where_places::{from_line, has_lf, line_of};

#[tactic(auto, unfolding(crate::specs::BadFile::line_text))]
fn put_line(out: &mut Out, fault: LineFault, rest: &[u8]) -> Result<(), NoMemory>
    ensures { OnOk result (out.new ≡ out.old ++ line_text fault rest.now) }
{
    if rest.is_empty() {
        return Ok(());
    }
    put_line_head(out, fault.line, rest)?;
    put_line_facts(out, line_of(rest), field_of(fault.reason))
}

fn is_of_whole(reason: Reason) -> bool
    ensures { result ≡ is_of_whole reason }
{
    match reason {
        Reason::NotFixed | Reason::Length | Reason::Letter | Reason::Missing => true,
        _ => false,
    }
}

#[tactic(auto, unfolding(crate::specs::BadFile::file_kind_of))]
fn file_kind_of(fault: LineFault, bytes: &[u8]) -> Option<FileKind>
    ensures { result ≡ file_kind_of fault bytes.now }
{
    if fault.line == 1 && is_of_whole(fault.reason) {
        return kind_of_file(bytes);
    }
    None
}

#[tactic(auto, unfolding(crate::specs::BadFile::line_kind_of))]
fn line_kind_of(fault: LineFault, rest: &[u8]) -> Option<LineKind>
    ensures { result ≡ line_kind_of fault rest.now }
{
    if rest.is_empty() {
        return None;
    }
    kind_of_line(fault.reason, line_of(rest), !has_lf(rest))
}

// The hint on the line, where there is none on the file.
#[tactic(auto, unfolding(crate::specs::BadFile::look_hint))]
fn put_look_hint(
    out: &mut Out,
    file: Option<FileKind>,
    line: Option<LineKind>,
) -> Result<(), NoMemory>
    ensures { OnOk result (out.new ≡ out.old ++ look_hint file line) }
{
    match (file, line) {
        (Some(kind), _) => put_file_kind(out, kind),
        (None, Some(kind)) => put_line_kind(out, kind),
        (None, None) => Ok(()),
    }
}

fn is_of_lines(reason: Reason) -> bool
    ensures { result ≡ is_of_lines reason }
{
    match reason {
        Reason::NotFixed | Reason::Length | Reason::Letter | Reason::Number => true,
        Reason::Counts | Reason::Missing | Reason::After => true,
        _ => false,
    }
}

const LAYOUT: &str =
    "hint layout\n  igesolid layout FILE says whether the lines can be mended, and how.\n";

#[tactic(auto, unfolding(crate::specs::BadFile::layout_hint))]
fn put_layout_hint(out: &mut Out, reason: Reason) -> Result<(), NoMemory>
    ensures { OnOk result (out.new ≡ out.old ++ layout_hint reason) }
{
    if is_of_lines(reason) {
        return out.put(LAYOUT.as_bytes());
    }
    Ok(())
}

// The hints, where `rest` are the bytes of the file from the line on.
#[tactic(auto, unfolding(crate::specs::BadFile::bad_hints))]
fn put_hints(out: &mut Out, fault: LineFault, bytes: &[u8], rest: &[u8]) -> Result<(), NoMemory>
    ensures { OnOk result (out.new ≡ out.old ++ bad_hints fault bytes.now rest.now) }
{
    put_look_hint(out, file_kind_of(fault, bytes), line_kind_of(fault, rest))?;
    put_layout_hint(out, fault.reason)
}

/// Appends what is known of a bad file: the line that fails as it stands there, what the file or the line looks like, and
/// which command mends lines.
#[tactic(auto, unfolding(crate::specs::BadFile::bad_file_facts))]
pub fn put_bad_file(out: &mut Out, bytes: &[u8], fault: LineFault) -> Result<(), NoMemory>
    ensures text { OnOk result (out.new ≡ out.old ++ bad_file_facts fault bytes.now) }
{
    let rest = from_line(bytes, fault.line.saturating_sub(1));
    put_line(out, fault, rest)?;
    put_hints(out, fault, bytes, rest)
}
