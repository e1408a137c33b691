//! The text of one line, in an array.

ghost use Rattle.iges_base.specs.Word.{spaces};
ghost use Rattle.iges_write.specs.Filled.{padded};
ghost use Rattle.iges_write.specs.Sheet.{tail_bytes};
ghost use Rattle.std.specs.Prelude.{◌≡◌, ◌+◌, ◌<◌, ◌≤◌, [], ◌∷◌, ◌++◌, OnErr, OnOk, length};

use std::alloc::AllocError;
use std::marker::Model;

/// The bytes of a line as far as it is made, with its end at most. The room behind them holds spaces, so that a line is
/// filled up without a write.
#[derive(Drop)]
pub struct LineText {
    bytes: [u8; 96],
    len: usize,
}

impl Model for LineText {
    ghost use Rattle.std.specs.Prelude.{List, ℕ, take};
    ghost use Rattle.iges_write.specs.LineRoom.{IsLineText};

    ghost Value = { List ℕ };

    ghost view = { λ l. take l.len l.bytes };

    ghost invariant = { λ l. IsLineText l.bytes l.len };
}

#[inline(always)]
fn blank() -> [u8; 96]
    ensures { result ≡ spaces 96 }
{
    [b' '; 96]
}

impl LineText {
    /// A line without a byte.
    #[inline(always)]
    pub fn new() -> LineText
        ensures { result ≡ [] }
    {
        LineText {
            bytes: blank(),
            len: 0,
        }
    }

    /// How many bytes there are.
    #[inline(always)]
    pub fn len(&self) -> usize
        ensures is { result ≡ length self.now }
        ensures few { result ≤ 96 }
    {
        self.len
    }

    /// The bytes in their order.
    #[inline(always)]
    pub fn as_slice(&self) -> &[u8]
        ensures { result.now ≡ self.now }
    {
        &self.bytes[..self.len]
    }

    /// Takes all bytes out.
    #[inline(always)]
    pub fn clear(&mut self)
        ensures { self.new ≡ [] }
    {
        self.bytes = blank();
        self.len = 0;
    }

    /// Puts bytes at the end.
    #[inline(always)]
    pub fn push(&mut self, piece: &[u8])
        requires { length self.old + length piece.now ≤ 96 }
        ensures is { self.new ≡ self.old ++ piece.now }
        ensures long { length self.new ≡ length self.old + length piece.now }
    {
        let end = self.len + piece.len();
        self.bytes[self.len..end].copy_from_slice(piece);
        self.len = end;
    }

    // The same of bytes that the first `half` of them and the last cover, so that each is copied at a fixed length.
    #[inline(always)]
    fn push_halves(&mut self, piece: &[u8], half: usize)
        requires room { length self.old + length piece.now ≤ 96 }
        requires few { half ≤ length piece.now }
        requires many { length piece.now ≤ half + half }
        ensures is { self.new ≡ self.old ++ piece.now }
        ensures long { length self.new ≡ length self.old + length piece.now }
    {
        let end = self.len + piece.len();
        let (front, _) = piece.split_at(half);
        let (_, back) = piece.split_at(piece.len() - half);
        self.bytes[self.len..self.len + half].copy_from_slice(front);
        self.bytes[end - half..end].copy_from_slice(back);
        self.len = end;
    }

    // The same of a word of eight bytes at least, and most often of sixteen at most.
    #[inline(always)]
    fn push_longer(&mut self, word: &[u8])
        requires room { length self.old + length word.now ≤ 96 }
        requires many { 8 ≤ length word.now }
        ensures is { self.new ≡ self.old ++ word.now }
        ensures long { length self.new ≡ length self.old + length word.now }
    {
        let count = word.len();
        if count <= 16 {
            self.push_halves(word, 8);
        } else if count <= 32 {
            self.push_halves(word, 16);
        } else {
            self.push(word);
        }
    }

    /// The same as `push`, of a word that most often is short.
    #[inline(always)]
    pub fn push_word(&mut self, word: &[u8])
        requires { length self.old + length word.now ≤ 96 }
        ensures is { self.new ≡ self.old ++ word.now }
        ensures long { length self.new ≡ length self.old + length word.now }
    {
        let count = word.len();
        if count >= 8 {
            self.push_longer(word);
        } else if count >= 4 {
            self.push_halves(word, 4);
        } else if count >= 2 {
            self.push_halves(word, 2);
        } else {
            self.push(word);
        }
    }

    /// Fills a shorter line up with spaces.
    #[inline(always)]
    pub fn pad(&mut self, width: usize)
        requires { width ≤ 96 }
        ensures is { self.new ≡ padded width self.old }
        ensures long { length self.old ≤ width → length self.new ≡ width }
    {
        if self.len < width {
            self.len = width;
        }
    }

    // Puts the tail, where there is one.
    #[inline(always)]
    fn push_tail(&mut self, tail: Option<[u8; 8]>)
        requires { length self.old ≤ 72 }
        ensures is { self.new ≡ self.old ++ tail_bytes tail }
        ensures few { length self.new ≤ 80 }
    {
        if let Some(tail) = tail {
            self.push(&tail);
        }
    }

    /// Ends the line: spaces up to its width, the tail, the section's letter and the number, and LF.
    #[inline(always)]
    pub fn end(&mut self, width: usize, tail: Option<[u8; 8]>, ending: [u8; 8])
        requires held { length self.old ≤ width }
        requires narrow { width ≤ 72 }
        ensures { self.new ≡ ((padded width self.old ++ tail_bytes tail) ++ ending) ++ 10 ∷ [] }
    {
        self.pad(width);
        self.push_tail(tail);
        self.push(&ending);
        self.push(b"\n");
    }

    /// Appends the bytes to a text. Where memory runs out, the text is as it was. Nearly each line that is ended has 81 bytes,
    /// which are copied at a fixed length.
    #[inline(always)]
    pub fn put_into(&self, text: &mut Vec<u8>) -> Result<(), AllocError>
        ensures ok { OnOk result (text.new.items ≡ text.old.items ++ self.now) }
        ensures err { OnErr result (text.new.items ≡ text.old.items) }
    {
        if self.len == 81 {
            return text.extend_from_slice(&self.bytes[..81]);
        }
        text.extend_from_slice(&self.bytes[..self.len])
    }
}
