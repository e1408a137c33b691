//! The words of a caller, who gives them as one text.

ghost use Rattle.igesolid_c.specs.Words.{AreWords};
ghost use Rattle.std.specs.List.{slice_split};
ghost use Rattle.std.specs.Prelude.{◌≡◌, ◌==◌, ◌++◌, IfOk, OnOk, map};

use command_replies::Words;
use iges_base::NoMemory;
use std::alloc::{AllocError, Global};

// The pieces of a text, between its line feeds.
fn pieces_of<'a>(alloc: Global, text: &'a str) -> Result<Vec<&'a str>, AllocError>
    ensures { IfOk result (λ pieces. map (λ piece. piece.now) pieces.items
        ≡ slice_split (λ b. b == 10) text.now) }
{
    text.split('\n').collect(alloc)
}

// Puts the pieces at the end of the words.
fn add_all(words: &mut Words, pieces: &[&str]) -> Result<(), NoMemory>
    ensures { OnOk result (words.new ≡ words.old ++ map (λ piece. piece.now) pieces.now) }
{
    'adds: for piece in pieces {
        words.push(piece)?;
    }
    Ok(())
}

/// The words that lie between the line feeds of the text; none where it isn't UTF-8. It errs only where memory runs out.
pub fn words_in(alloc: Global, text: &[u8]) -> Result<Words, NoMemory>
    ensures { IfOk result (λ words. AreWords text.now words) }
{
    let mut words = Words::new(alloc);
    let Ok(text) = str::from_utf8(text) else {
        return Ok(words);
    };
    let pieces = pieces_of(alloc, text)?;
    add_all(&mut words, pieces.as_slice())?;
    Ok(words)
}
