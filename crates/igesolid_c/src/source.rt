//! The caller's bytes as a source.

ghost use Rattle.std.specs.Prelude.{◌≡◌, Some};

use iges_io::{Failed, Source};
use std::marker::Model;

/// Bytes of the caller, which are read from the front. No read fails.
#[derive(Drop)]
pub struct ByteSource<'a> {
    left: &'a [u8],
}

impl<'a> Model for ByteSource<'a> {
    ghost use Rattle.std.specs.Prelude.{List, ℕ};

    ghost Value = { List ℕ };

    ghost view = { λ s. s.left.now };
}

impl<'a> ByteSource<'a> {
    /// A source of these bytes.
    pub fn new(bytes: &'a [u8]) -> ByteSource<'a>
        ensures { result ≡ bytes.now }
    {
        ByteSource { left: bytes }
    }
}

impl<'a> Source for ByteSource<'a> {
    ghost left = { λ s. Some s };

    ghost faults = { λ _. 0 };

    fn read(&mut self, buf: &mut [u8]) -> Result<usize, Failed> {
        let count = buf.len().min(self.left.len());
        let (front, rest) = self.left.split_at(count);
        buf[..count].copy_from_slice(front);
        self.left = rest;
        Ok(count)
    }
}
