//! The text of a line.

ghost use Rattle.std.specs.Prelude.{◌≡◌, ◌++◌, ◌∷◌, [], IfOk};
ghost use Rattle.cert_text.specs.Text.{spaced};

use iges_base::{NoMemory, Out, put_number};

/// Appends numbers, each after a space.
pub fn put_numbers(out: &mut Out, numbers: &[u64]) -> Result<(), NoMemory>
    ensures { IfOk result (λ _. out.new ≡ out.old ++ spaced numbers.now) }
{
    'numbers: for i in 0..numbers.len() {
        put_number(out, numbers[i])?;
    }
    Ok(())
}

/// Appends a line: its word, its numbers, each after a space, and LF.
pub fn put_line(out: &mut Out, word: &[u8], numbers: &[u64]) -> Result<(), NoMemory>
    ensures { IfOk result (λ _. out.new ≡ out.old
        ++ ((word.now ++ spaced numbers.now) ++ 10 ∷ [])) }
{
    out.put(word)?;
    put_numbers(out, numbers)?;
    out.put(b"\n")
}
