//! The words that a program is given.

ghost use Rattle.std.specs.Prelude.{◌≡◌, ◌∷◌, ◌++◌, [], IfOk, OnErr, OnOk, drop, map, string_bytes};
ghost use Rattle.std.specs.Vec.Iter.{into_iter_items};

use iges_base::NoMemory;
use std::alloc::Global;
use std::env::Args;
use std::marker::Model;

/// The words of a command line, without the program's name.
#[derive(Drop)]
pub struct Words {
    alloc: Global,
    words: Vec<String>,
}

impl Model for Words {
    ghost use Rattle.std.specs.Prelude.{List, ℕ, map, string_bytes};

    ghost Value = { List (List ℕ) };

    ghost view = { λ w. map string_bytes w.words.items };
}

impl Words {
    /// No words, as where there is the program's name alone.
    pub fn new(alloc: Global) -> Words
        ensures { result ≡ [] }
    {
        Words {
            alloc,
            words: Vec::new(alloc),
        }
    }

    /// All words that the system gives but the first, which is the program's name. It errs only where memory runs
    /// out.
    pub fn behind_name(alloc: Global, args: Args) -> Result<Words, NoMemory>
        ensures { IfOk result (λ words. words ≡ drop 1 (map string_bytes (into_iter_items args))) }
    {
        let words = args.skip(1).collect(alloc)?;
        Ok(Words { alloc, words })
    }

    /// Puts a word at the end. Where memory runs out, the words stay as they were.
    pub fn push(&mut self, word: &str) -> Result<(), NoMemory>
        ensures ok { OnOk result (self.new ≡ self.old ++ word.now ∷ []) }
        ensures err { OnErr result (self.new ≡ self.old) }
    {
        let word = String::from_str(self.alloc, word)?;
        self.words.push(word)?;
        Ok(())
    }

    /// The words in their order.
    pub fn as_slice(&self) -> &[String]
        ensures { map string_bytes result.now ≡ self.now }
    {
        self.words.as_slice()
    }
}
