//! A whole file as text, section by section.

ghost use Rattle.iges_base.specs.declared.TheConstants.{FILE_LIMIT};
ghost use Rattle.iges_params.specs.Contents.{Contents};
ghost use Rattle.iges_write.specs.FileSheet.{ArePages, Writes, blank, file_sheet, params_sheet, with_counts, with_directory, with_front};
ghost use Rattle.iges_write.specs.Gives.{Gives};
ghost use Rattle.iges_write.specs.Filling.{text_of};
ghost use Rattle.iges_write.specs.Sheet.{Fails, Steps, StepsBoth, append_text};
ghost use Rattle.iges_fields.specs.Delims.{are_permitted};
ghost use Rattle.iges_fields.specs.InLine.{is_value};
ghost use Rattle.iges_params.specs.IsFile.{IsFile};
ghost use Rattle.iges_write.specs.Text.{IsText};
ghost use Rattle.iges_write.specs.Writable.{IsHeld, IsWritable};
ghost use Rattle.std.specs.List.{AllByRecursion, list_all};
ghost use Rattle.std.specs.Prelude.{◌≡◌, ◌<◌, ◌≤◌, ℕ, List, Ok, Err, IfErr, IfOk, IsTrue, OnOk, length};

use crate::counts::{Counts, put_terminate};
use crate::entries::put_entries;
use crate::fault::WriteFileFault;
use crate::page::Page;
use crate::room::LINE_SIZE;
use crate::start::put_start;
use iges_base::{Bytes, FILE_LIMIT};
use iges_params::File;
use std::alloc::Global;

/// So many entries are few.
const FEW_ENTRIES: usize = 10_000;

// The start section and the global section.
fn put_front(page: &mut Page, file: &File) -> Result<(), WriteFileFault>
    ensures steps { Steps result page.new (with_front page.old file.now) }
    ensures global { OnOk result (IsTrue (are_permitted file.now.global.delims)
        × IsTrue (list_all is_value file.now.global.values)) }
{
    page.begin(b'S', 72);
    put_start(page, file)?;
    page.begin(b'G', 72);
    let global = file.global();
    page.put_global(global.values.as_slice(), &global.delims)
}

// For how many lines of each of so many entries room is taken: of few for four, so that the directory isn't copied when the records
// come behind it, nor they as they grow. What is longer is moved without a copy.
fn lines_for(entries: usize, lines: usize) -> usize
    requires { lines ≤ 4 }
    ensures { result ≤ 4 }
{
    if entries < FEW_ENTRIES { 4 } else { lines }
}

// The directory section, and on a page beside it the parameter section. Each entry has two lines, and each record one at
// least.
fn put_records(page: &mut Page, params: &mut Page, file: &File) -> Result<(), WriteFileFault>
    requires { params.old ≡ blank page.old.limit 80 64 }
    ensures steps { StepsBoth result page.new (with_directory page.old file.now)
        params.new (params_sheet page.old.limit file.now) }
    ensures held { OnOk result (AllByRecursion IsHeld file.now.entries) }
{
    let entries = file.entry_count();
    page.reserve(entries * lines_for(entries, 2) * LINE_SIZE);
    params.reserve(entries * lines_for(entries, 1) * LINE_SIZE);
    page.begin(b'D', 72);
    put_entries(page, params, file)
}

// The lines of a file but the last, which counts them. The directory says where the records are, so that both are made side by
// side, each on a page.
#[derive(Drop)]
struct Pages {
    front: Page,
    params: Page,
    counts: Counts,
}

// The same on pages that are there.
fn put_pages(front: &mut Page, params: &mut Page, file: &File) -> Result<Counts, WriteFileFault>
    requires front { front.old ≡ blank front.old.limit 83 72 }
    requires params { params.old ≡ blank front.old.limit 80 64 }
    ensures made { IfOk result (ArePages front.old.limit file.now front.new params.new) }
    ensures fault { IfErr result (λ fault. Fails fault (file_sheet front.old.limit file.now)) }
    ensures writable { OnOk result (IsWritable file.now) }
{
    put_front(front, file)?;
    let global = front.number() - 1;
    put_records(front, params, file)?;
    Ok(Counts {
        start: file.start_count() as u64,
        global,
        directory: front.number() - 1,
        params: params.number() - 1,
    })
}

// The records' page has room for so many bytes.
fn pages_of(alloc: Global, file: &File, limit: u64, room: usize) -> Result<Pages, WriteFileFault>
    requires { limit ≤ FILE_LIMIT }
    ensures made { IfOk result (λ pages. ArePages limit file.now pages.front pages.params pages.counts) }
    ensures fault { IfErr result (λ fault. Fails fault (file_sheet limit file.now)) }
    ensures writable { OnOk result (IsWritable file.now) }
{
    let mut front = Page::new(alloc, limit, b'S', 72);
    let mut params = Page::new(alloc, limit, b'P', 64);
    params.reserve(room);
    let counts = put_pages(&mut front, &mut params, file)?;
    Ok(Pages {
        front,
        params,
        counts,
    })
}

// Puts the parameter section behind the directory, and the last line.
fn put_end(front: &mut Page, params: &Page, counts: &Counts) -> Result<(), WriteFileFault>
    ensures { Steps result front.new (with_counts (append_text front.old params.now.text) counts.now) }
{
    front.append(params, LINE_SIZE)?;
    put_terminate(front, counts)
}

// The whole text.
fn joined(alloc: Global, mut pages: Pages) -> Result<Bytes, WriteFileFault>
    ensures { (limit : ℕ) (f : Contents) → ArePages limit f pages.front pages.params pages.counts
        → Writes limit result (text_of f) }
{
    put_end(&mut pages.front, &pages.params, &pages.counts)?;
    Ok(pages.front.into_bytes(alloc)?)
}

// The canonical text, where it has at most `limit` bytes.
fn write(alloc: Global, file: &File, limit: u64) -> Result<Bytes, WriteFileFault>
    requires { limit ≤ FILE_LIMIT }
    ensures text { Writes limit result (text_of file.now) }
    ensures writable { OnOk result (IsWritable file.now) }
{
    let pages = pages_of(alloc, file, limit, 0)?;
    joined(alloc, pages)
}

// The same of a file that isn't needed any more. Its memory serves for the whole text.
fn write_taken(alloc: Global, file: File, limit: u64, room: usize) -> Result<Bytes, WriteFileFault>
    requires { limit ≤ FILE_LIMIT }
    ensures text { Writes limit result (text_of file) }
    ensures writable { OnOk result (IsWritable file) }
{
    let pages = pages_of(alloc, &file, limit, room);
    drop(file);
    joined(alloc, pages?)
}

/// The canonical text of a file (its sections and lines are those of IGES 5.3, 2.2.4), which reads as this file. It
/// errs where the text has more than `limit` bytes, and where memory runs out.
pub fn write_file(alloc: Global, file: &File, limit: u64) -> Result<Bytes, WriteFileFault>
    requires { limit ≤ FILE_LIMIT }
    ensures found { IfOk result (IsText file.now) }
    ensures within { IfOk result (λ bytes. length bytes ≤ limit) }
    ensures back { IfOk result (λ bytes. IsFile bytes file.now) }
    ensures only { (bytes : List ℕ) → IsText file.now bytes → length bytes ≤ limit
        → Gives result (Ok bytes) }
    ensures large { result ≡ Err WriteFileFault.TooLarge → (bytes : List ℕ) → IsText file.now bytes
        → limit < length bytes }
    ensures only_large { (bytes : List ℕ) → IsText file.now bytes → limit < length bytes
        → Gives result (Err WriteFileFault.TooLarge) }
{
    write(alloc, file, limit)
}

/// The same as `write_file`, of a file that isn't needed any more: its memory serves for the text. If there is memory for it, room for
/// so many bytes of records is taken at once, so that the text isn't moved as it grows.
pub fn into_text(
    alloc: Global,
    file: File,
    limit: u64,
    room: usize,
) -> Result<Bytes, WriteFileFault>
    requires { limit ≤ FILE_LIMIT }
    ensures found { IfOk result (IsText file) }
    ensures within { IfOk result (λ bytes. length bytes ≤ limit) }
    ensures back { IfOk result (λ bytes. IsFile bytes file) }
    ensures only { (bytes : List ℕ) → IsText file bytes → length bytes ≤ limit
        → Gives result (Ok bytes) }
    ensures large { result ≡ Err WriteFileFault.TooLarge → (bytes : List ℕ) → IsText file bytes
        → limit < length bytes }
    ensures only_large { (bytes : List ℕ) → IsText file bytes → limit < length bytes
        → Gives result (Err WriteFileFault.TooLarge) }
{
    write_taken(alloc, file, limit, room)
}
