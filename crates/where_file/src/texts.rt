//! The text of each hint on a bad file.

ghost use Rattle.std.specs.Prelude.{◌≡◌, ◌++◌, OnOk};
ghost use Rattle.where_file.specs.Looks.{file_kind_text, line_kind_text};

use crate::look::{FileKind, LineKind};
use iges_base::{NoMemory, Out};

#[tactic(auto, unfolding(crate::specs::Looks::file_kind_text))]
fn file_kind_text(kind: FileKind) -> &'static str
    ensures { result.now ≡ file_kind_text kind }
{
    match kind {
        FileKind::Empty => { "hint looks-like empty\n  The file is empty.\n" },
        FileKind::Gzip => {
            "hint looks-like gzip\n  This is a compressed file (gzip). Unpack it first.\n"
        },
        FileKind::Zip => { "hint looks-like zip\n  This is a zip archive. Unpack it first.\n" },
        FileKind::Pdf => { "hint looks-like pdf\n  This is a PDF document.\n" },
        FileKind::Utf16 => {
            "hint looks-like utf-16\n  This is text in UTF-16. Save it as plain ASCII.\n"
        },
        FileKind::ByteOrderMark => {
            "hint looks-like byte-order-mark\n  The file begins with the byte order mark of UTF-8.\n"
        },
        FileKind::Certificate => {
            "hint looks-like certificate\n  This is a certificate of igesolid. Name the IGES file first.\n"
        },
        FileKind::Brep => { "hint looks-like brep\n  This is a BREP file of Open CASCADE.\n" },
        FileKind::Parasolid => { "hint looks-like parasolid\n  This is a Parasolid file.\n" },
        FileKind::Dwg => { "hint looks-like dwg\n  This is a DWG drawing.\n" },
        FileKind::Stl => {
            "hint looks-like stl\n  This seems to be an STL file: triangles, without solids of faces and edges.\n"
        },
        FileKind::Step => {
            "hint looks-like step\n  This is a STEP file (ISO 10303-21). Convert it to IGES.\n"
        },
        FileKind::Markup => {
            "hint looks-like markup\n  This seems to be a web page or an XML file; a download may have given an\n  error page in place of the file.\n"
        },
    }
}

#[tactic(auto, unfolding(crate::specs::Looks::line_kind_text))]
fn line_kind_text(kind: LineKind) -> &'static str
    ensures { result.now ≡ line_kind_text kind }
{
    match kind {
        LineKind::ControlZ => {
            "hint looks-like control-z\n  The file ends in a Control-Z, the end mark of old systems.\n"
        },
        LineKind::Nuls => { "hint looks-like nuls\n  The file is filled up with zero bytes.\n" },
        LineKind::SecondFile => {
            "hint looks-like second-file\n  Another IGES file follows the T line. Cut the file into two.\n"
        },
        LineKind::LowerCase => {
            "hint looks-like lower-case\n  Column 73 has the letter in lower case: the file was turned into lower case.\n"
        },
        LineKind::NoLineEnds => {
            "hint looks-like no-line-ends\n  The lines have 80 columns, but no line ends.\n"
        },
        LineKind::TwoCrs => {
            "hint looks-like two-crs\n  The line ends in CR CR LF: the file was converted to CR LF twice.\n"
        },
        LineKind::CrAlone => {
            "hint looks-like cr-alone\n  The line has a CR inside: lines that end in CR alone, as on old Macs.\n"
        },
        LineKind::Tabs => {
            "hint looks-like tabs\n  The line has a tab: an editor has put it for several spaces.\n"
        },
        LineKind::Utf8 => {
            "hint looks-like utf-8\n  The line has 80 characters but more bytes: letters that aren't ASCII, in\n  UTF-8. Columns count bytes.\n"
        },
        LineKind::NoNumbers => {
            "hint looks-like no-numbers\n  The line has 72 columns: what columns 73 to 80 should hold, the section's\n  letter and the line's number, was cut off or stands in the next line.\n"
        },
        LineKind::Blank => { "hint looks-like blank\n  The line is blank.\n" },
        LineKind::CutOff => {
            "hint looks-like cut-off\n  The file ends within this line: it was cut off. Fetch it again.\n"
        },
    }
}

/// Appends the hint on what a file looks like, with its sentence.
pub fn put_file_kind(out: &mut Out, kind: FileKind) -> Result<(), NoMemory>
    ensures { OnOk result (out.new ≡ out.old ++ file_kind_text kind) }
{
    out.put(file_kind_text(kind).as_bytes())
}

/// Appends the hint on what a line looks like, with its sentence.
pub fn put_line_kind(out: &mut Out, kind: LineKind) -> Result<(), NoMemory>
    ensures { OnOk result (out.new ≡ out.old ++ line_kind_text kind) }
{
    out.put(line_kind_text(kind).as_bytes())
}
