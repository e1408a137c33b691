//! Lines of equal length, kept in one piece of memory.

ghost use Rattle.iges_base.specs.Word.{is_empty};
ghost use Rattle.std.specs.Prelude.{◌≡◌, ◌↔◌, ◌<◌, ◌^◌, [], ◌∷◌, ◌++◌, OnOk, OnErr, length, take, slice_get, option_copied, IsSome, IfSome};

use iges_base::NoMemory;
use std::alloc::Global;
use std::marker::Model;

/// The bytes of a line.
pub const WIDTH: usize = 80;

/// Lines of 80 bytes, one after the other.
#[derive(Drop)]
pub struct LineList {
    text: Vec<u8>,
    count: usize,
}

impl Model for LineList {
    ghost use Rattle.iges_lines.specs.declared.line_list.TheConstants.{WIDTH};
    ghost use Rattle.iges_lines.specs.Rows.{rows};
    ghost use Rattle.std.specs.Prelude.{◌≡◌, ◌*◌, ℕ, List, length};

    ghost Value = { List (List ℕ) };

    ghost view = { λ l. rows WIDTH l.count l.text.items };

    ghost invariant = { λ l. length l.text.items ≡ l.count * WIDTH };
}

impl LineList {
    /// No lines.
    pub fn new(alloc: Global) -> LineList
        ensures { result ≡ [] }
    {
        LineList {
            text: Vec::new(alloc),
            count: 0,
        }
    }

    /// How many lines there are.
    pub fn count(&self) -> usize
        ensures count { result ≡ length self.now }
        ensures few { result < 2 ^ 60 }
    {
        self.count
    }

    /// Whether there is no line.
    pub fn is_empty(&self) -> bool
        ensures { result ≡ is_empty self.now }
    {
        self.count == 0
    }

    /// Puts the line at the end.
    #[inline(always)]
    pub fn push(&mut self, line: &[u8]) -> Result<(), NoMemory>
        requires { length line.now ≡ 80 }
        ensures ok { OnOk result (self.new ≡ self.old ++ line.now ∷ []) }
        ensures err { OnErr result (self.new ≡ self.old) }
    {
        self.text.extend_from_slice(line)?;
        self.count += 1;
        Ok(())
    }

    /// Takes off the lines after the first ones.
    pub fn truncate(&mut self, count: usize)
        ensures { self.new ≡ take count self.old }
    {
        if count < self.count {
            self.text.truncate(count * WIDTH);
            self.count = count;
        }
    }

    /// Takes off the lines after the first ones, and gives their memory back.
    pub fn keep(&mut self, count: usize)
        ensures { self.new ≡ take count self.old }
    {
        self.truncate(count);
        self.text.shrink_to_fit();
    }

    /// Takes all lines off, and gives their memory back.
    pub fn clear(&mut self)
        ensures { self.new ≡ [] }
    {
        self.text.clear();
        self.text.shrink_to_fit();
        self.count = 0;
    }

    /// The line at a place, from 0.
    pub fn get(&self, i: usize) -> Option<&[u8]>
        ensures line { option_copied result ≡ slice_get self.now i }
        ensures within { IsSome result ↔ (i < length self.now) }
        ensures long { IfSome result (λ line. length line.now ≡ 80) }
    {
        if i < self.count {
            Some(&self.text[i * WIDTH..(i + 1) * WIDTH])
        } else {
            None
        }
    }
}
