//! The text that the caller gets, as a sink.

ghost use Rattle.std.specs.Prelude.{◌≡◌, ◌<◌, [], IfOk, Some, length};
ghost use Rattle.std.specs.Io.{WritesAtMost};
ghost use Rattle.std.specs.Io.KnownBytes.{WriteAppends};
ghost use Rattle.iges_io.specs.Faults.{CountsFault};

use iges_io::{Failed, Sink};
use std::alloc::Global;
use std::marker::Model;

/// A text that grows at its end. A write fails where memory runs out.
#[derive(Drop)]
pub struct TextSink {
    text: Vec<u8>,
    faults: u64,
}

impl Model for TextSink {
    ghost use Rattle.igesolid_c.specs.Text.{Text};

    ghost Value = { Text };

    ghost view = { λ s. record { text = s.text.items; faults = s.faults } };
}

impl TextSink {
    /// An empty text.
    pub fn new(alloc: Global) -> TextSink
        ensures { result ≡ record { text = []; faults = 0 } }
    {
        TextSink {
            text: Vec::new(alloc),
            faults: 0,
        }
    }

    /// What was written, for a caller who frees it. Of an empty text nothing stays.
    pub fn kept(self) -> &'static [u8]
        ensures { result.now ≡ self.text }
    {
        if self.text.is_empty() {
            return &[];
        }
        self.text.leak()
    }
}

impl Sink for TextSink {
    ghost written = { λ s. Some s.text };

    ghost faults = { λ s. s.faults };

    fn write(&mut self, piece: &[u8]) -> Result<usize, Failed>
        ensures bound { WritesAtMost result piece.now }
        ensures some { IfOk result (λ count. 0 < length piece.now → 0 < count) }
        ensures bytes { WriteAppends (Some self.old.text) (Some self.new.text) result piece.now }
        ensures cause { CountsFault self.old.faults self.new.faults result }
    {
        if self.text.extend_from_slice(piece).is_err() {
            self.faults = self.faults.saturating_add(1);
            return Err(Failed);
        }
        Ok(piece.len())
    }
}
