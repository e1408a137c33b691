//! Files as replies.

ghost use Rattle.file_replies.specs.Written.{OfWritten};
ghost use Rattle.iges_base.specs.declared.TheConstants.{FILE_LIMIT};
ghost use Rattle.iges_write.specs.Text.{IsText};
ghost use Rattle.std.specs.Prelude.{◌≡◌, ◌<◌, ◌≤◌, Err, IfOk, List, ℕ, length};

use command_replies::{Answer, Reply, too_large};
use iges_base::{Bytes, FILE_LIMIT, NoMemory};
use iges_params::File;
use iges_write::{WriteFileFault, into_text, records_room, write_file};
use std::alloc::Global;

// The memory of a file with so many entries serves for its text.
const MANY_ENTRIES: usize = 10_000;

// What becomes of the memory of a file that isn't needed any more.
#[derive(Clone, Copy)]
enum Left {
    /// It serves for the text, of whose records so many bytes get room at once.
    Freed(usize),
    /// It is left to the system.
    Kept,
}

// The text of a file that isn't needed any more.
fn text_of(alloc: Global, file: File, left: Left) -> Result<Bytes, WriteFileFault>
    ensures found { IfOk result (IsText file) }
    ensures within { IfOk result (λ bytes. length bytes ≤ FILE_LIMIT) }
    ensures large { result ≡ Err WriteFileFault.TooLarge → (bytes : List ℕ) → IsText file bytes
        → FILE_LIMIT < length bytes }
{
    match left {
        Left::Freed(room) => into_text(alloc, file, FILE_LIMIT, room),
        Left::Kept => {
            let text = write_file(alloc, &file, FILE_LIMIT);
            file.memory().release(file);
            text
        }
    }
}

fn written_by(alloc: Global, file: File, left: Left) -> Result<Reply, NoMemory>
    ensures { IfOk result (λ reply. OfWritten file reply.answer reply.text) }
{
    match text_of(alloc, file, left) {
        Ok(text) => Ok(Reply {
            answer: Answer::Done,
            text,
        }),
        Err(WriteFileFault::TooLarge) => Ok(too_large()),
        Err(WriteFileFault::NoMemory) => Err(NoMemory),
    }
}

/// The reply that is the text of a file, or that this is too large.
pub fn written(alloc: Global, file: File) -> Result<Reply, NoMemory>
    ensures { IfOk result (λ reply. OfWritten file reply.answer reply.text) }
{
    let left = if file.entry_count() >= MANY_ENTRIES {
        Left::Freed(0)
    } else {
        Left::Kept
    };
    written_by(alloc, file, left)
}

/// The same of a file that may be many times as long as the one that was read.
pub fn written_new(alloc: Global, file: File) -> Result<Reply, NoMemory>
    ensures { IfOk result (λ reply. OfWritten file reply.answer reply.text) }
{
    let room = records_room(&file);
    written_by(alloc, file, Left::Freed(room))
}
