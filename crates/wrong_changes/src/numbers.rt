//! A row of numbers, read one after another.

/// A row of numbers, each a character, of which `0` stands for 0; and how many were read.
#[derive(Drop)]
pub struct Row<'a> {
    pub numbers: &'a [u8],
    pub at: usize,
}

impl<'a> Row<'a> {
    /// The next number; 0 past the last.
    pub fn number(&mut self) -> u32 {
        let number = match self.numbers.get(self.at) {
            Some(character) => u32::from(*character).saturating_sub(48),
            None => 0,
        };
        self.at = self.at.saturating_add(1);
        number
    }

    /// The next number as a flag.
    pub fn flag(&mut self) -> bool {
        self.number() == 1
    }

    /// A number that may be left out: 0 where it is, and else one more than it.
    pub fn maybe(&mut self) -> Option<u32> {
        self.number().checked_sub(1)
    }
}
