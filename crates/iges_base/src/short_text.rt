//! Texts that take no memory of their own where they are short.

ghost use Rattle.iges_base.specs.ShortTexts.{IsKept, text_bytes};
ghost use Rattle.iges_base.specs.declared.short_text.TheConstants.{FULL, MIDDLE, SHORT};
ghost use Rattle.std.specs.Prelude.{◌≡◌, ◌≤◌, IfOk, IfSome, length, take};

use crate::no_memory::NoMemory;
use std::alloc::Global;
use std::marker::Model;

// The most bytes of a text that is kept with its length, of one that takes no memory of its own, and of one that takes one
// small block.
const SHORT: usize = 14;

const FULL: usize = 15;

const MIDDLE: usize = 23;

// A text with its length, in the least block that the C library gives.
#[derive(Drop)]
struct Middle {
    len: u8,
    bytes: [u8; MIDDLE],
}

#[derive(Drop)]
enum Kept {
    Short { len: u8, bytes: [u8; SHORT] },
    Full([u8; FULL]),
    Middle(Box<Middle>),
    Long(Box<Vec<u8>>),
}

/// A text that doesn't change, seen as the list of its bytes. Up to 15 bytes take no memory of their own; more lie behind a
/// pointer, so that an integer, which may stand in its place, takes no more than it needs.
#[derive(Drop)]
pub struct ShortText {
    text: Kept,
}

impl Model for ShortText {
    ghost use Rattle.iges_base.specs.ShortTexts.{IsKept, text_bytes};
    ghost use Rattle.std.specs.Prelude.{ℕ, List};

    ghost Value = { List ℕ };

    ghost view = { λ s. text_bytes s.text };

    ghost invariant = { λ s. IsKept s.text };
}

fn short_kept(text: &[u8]) -> Kept
    requires { length text.now ≤ SHORT }
    ensures is { text_bytes result ≡ text.now }
    ensures room { IsKept result }
{
    let mut bytes = [0u8; SHORT];
    bytes[..text.len()].copy_from_slice(text);
    Kept::Short {
        len: text.len() as u8,
        bytes,
    }
}

fn full_kept(text: &[u8]) -> Kept
    requires { length text.now ≡ FULL }
    ensures is { text_bytes result ≡ text.now }
    ensures room { IsKept result }
{
    let mut bytes = [0u8; FULL];
    bytes.copy_from_slice(text);
    Kept::Full(bytes)
}

fn middle_kept(alloc: Global, text: &[u8]) -> Result<Kept, NoMemory>
    requires { length text.now ≤ MIDDLE }
    ensures { IfOk result (λ text_kept. (text_bytes text_kept ≡ text.now) × IsKept text_kept) }
{
    let mut bytes = [0u8; MIDDLE];
    bytes[..text.len()].copy_from_slice(text);
    let middle = Middle {
        len: text.len() as u8,
        bytes,
    };
    Ok(Kept::Middle(Box::new(alloc, middle)?))
}

fn kept_of(alloc: Global, text: &[u8]) -> Result<Kept, NoMemory>
    ensures { IfOk result (λ text_kept. (text_bytes text_kept ≡ text.now) × IsKept text_kept) }
{
    if text.len() <= SHORT {
        return Ok(short_kept(text));
    }
    if text.len() == FULL {
        return Ok(full_kept(text));
    }
    if text.len() <= MIDDLE {
        return middle_kept(alloc, text);
    }
    let bytes = Vec::from_slice(alloc, text)?;
    Ok(Kept::Long(Box::new(alloc, bytes)?))
}

impl ShortText {
    /// A copy of the text. It errs only where memory runs out.
    pub fn of(alloc: Global, text: &[u8]) -> Result<ShortText, NoMemory>
        ensures { IfOk result (λ s. s ≡ text.now) }
    {
        Ok(ShortText {
            text: kept_of(alloc, text)?,
        })
    }

    /// A copy of the first so many bytes of a text, by a few instructions; None where the call `of` is needed.
    #[inline(always)]
    pub fn of_front(text: &[u8], len: usize) -> Option<ShortText>
        ensures { IfSome result (λ s. s ≡ take len text.now) }
    {
        if len > SHORT {
            return None;
        }
        let Some((bytes, _)) = text.split_first_chunk::<SHORT>() else {
            return None;
        };
        Some(ShortText {
            text: Kept::Short {
                len: len as u8,
                bytes: *bytes,
            },
        })
    }

    /// The bytes in their order.
    pub fn as_slice(&self) -> &[u8]
        ensures { result.now ≡ self.now }
    {
        match &self.text {
            Kept::Short { len, bytes } => &bytes[..usize::from(*len)],
            Kept::Full(bytes) => bytes,
            Kept::Middle(middle) => &middle.bytes[..usize::from(middle.len)],
            Kept::Long(bytes) => bytes.as_slice(),
        }
    }
}
