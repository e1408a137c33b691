//! The first bytes of a line.

ghost use Rattle.std.specs.Prelude.{◌≡◌, ◌≤◌, ◌<◌, ◌++◌, [], ◌∷◌, length, take};

use std::marker::Model;

/// The most bytes that line 1 or 2 of a certificate may have, and one more.
const ROOM: usize = 65;

/// The first bytes of a line, which takes no memory.
#[derive(Drop)]
pub struct LineStart {
    bytes: [u8; ROOM],
    len: usize,
}

impl Model for LineStart {
    ghost use Rattle.std.specs.Prelude.{◌≤◌, ℕ, List, take};

    ghost Value = { List ℕ };

    ghost view = { λ l. take l.len l.bytes };

    ghost invariant = { λ l. l.len ≤ 65 };
}

impl LineStart {
    /// No bytes.
    pub fn new() -> LineStart
        ensures { result ≡ [] }
    {
        LineStart {
            bytes: [0; ROOM],
            len: 0,
        }
    }

    /// Whether there is no byte.
    pub fn len(&self) -> usize
        ensures { result ≡ length self.now }
    {
        self.len
    }

    /// Puts a byte at the end.
    pub fn push(&mut self, byte: u8)
        requires { length self.old < 65 }
        ensures { self.new ≡ self.old ++ byte ∷ [] }
    {
        self.bytes[self.len] = byte;
        self.len += 1;
    }

    /// Takes all bytes off.
    pub fn clear(&mut self)
        ensures { self.new ≡ [] }
    {
        self.len = 0;
    }

    /// The bytes.
    pub fn as_slice(&self) -> &[u8]
        ensures { result.now ≡ self.now }
    {
        &self.bytes[..self.len]
    }

    /// Puts the first of these bytes at the end, as many as have room beside the LF.
    pub fn keep(&mut self, bytes: &[u8])
        requires { length self.old ≤ 64 }
        ensures { self.new ≡ take 64 (self.old ++ bytes.now) }
    {
        let mut i = 0;
        'bytes: while i < bytes.len() && self.len() < ROOM - 1 {
            self.push(bytes[i]);
            i += 1;
        }
    }
}
