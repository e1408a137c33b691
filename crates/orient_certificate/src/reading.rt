//! A line, read from its bytes.

ghost use Rattle.std.specs.Prelude.{◌≡◌, ◌≢◌, ℕ, Bool, List, ◌∷◌, ◌++◌, IfOk, IfErr, MatchOption, length, map};
ghost use Rattle.orient_certificate.specs.declared.line.OrientLine.{OrientLine as AnyLine};
ghost use Rattle.orient_certificate.specs.Line.{IsSpelled, IsLineFault, flag_number};
ghost use Rattle.cert_text.specs.Text.{AreNumbers, Begins, IsSpaced};
ghost use Rattle.orient_certificate.specs.Spells.{Spells, IsTextFault};

use crate::line::{OrientLine, OrientLineFault};
use crate::lists::{FlagList, NumberList};
use cert_text::{after_word, is_word, next_number, one_number};
use iges_base::{EntryNo, NoMemory};
use std::alloc::Global;

/// The numbers that a text is, each after a space.
fn numbers_of(alloc: Global, text: &[u8]) -> Result<Option<NumberList>, NoMemory>
    ensures { IfOk result (λ read. MatchOption read (¬ IsSpaced text.now)
        (λ ns. AreNumbers text.now ns)) }
{
    let mut list = NumberList::new(alloc);
    let mut rest = text;
    'numbers: while !rest.is_empty() {
        let Some((number, after)) = next_number(rest) else {
            return Ok(None);
        };
        list.push(number)?;
        rest = after;
    }
    Ok(Some(list))
}

// None for a number that is neither 0 nor 1.
fn flag_of(number: u32) -> Option<bool>
    ensures { MatchOption result ((b : Bool) → number ≢ flag_number b)
        (λ b. number ≡ flag_number b) }
{
    match number {
        0 => Some(false),
        1 => Some(true),
        _ => None,
    }
}

/// The flags that some numbers are.
fn flags_of(alloc: Global, numbers: &[u32]) -> Result<Option<FlagList>, NoMemory>
    ensures { IfOk result (λ read. MatchOption read ((flags : List Bool)
        → numbers.now ≢ map flag_number flags) (λ flags. numbers.now ≡ map flag_number flags)) }
{
    let mut list = FlagList::new(alloc);
    'numbers: for i in 0..numbers.len() {
        let Some(flag) = flag_of(numbers[i]) else {
            return Ok(None);
        };
        list.push(flag)?;
    }
    Ok(Some(list))
}

fn head_words(text: &[u8]) -> Option<OrientLine>
    ensures { MatchOption result ((n : ℕ) → ¬ Spells text.now (OrientLine.Head (record { 0 = n })))
        (λ l. Spells text.now l) }
{
    let Some(rest) = after_word(text, b"ORIENT") else {
        return None;
    };
    match one_number(rest) {
        Some(number) => Some(OrientLine::Head(EntryNo(number))),
        None => None,
    }
}

/// The numbers of a line that begins with a letter: the shell, and those after it.
fn listed<'a>(text: &'a [u8], letter: &[u8]) -> Option<(u32, &'a [u8])>
    ensures { MatchOption result ((k : ℕ) (ns rest : List ℕ) → text.now ≡ letter.now ++ rest → ¬ AreNumbers rest (k ∷ ns))
        (λ p. (rest : List ℕ) × (text.now ≡ letter.now ++ rest) × Begins rest p.0 p.1.now) }
{
    let Some(rest) = after_word(text, letter) else {
        return None;
    };
    next_number(rest)
}

fn flag_words(alloc: Global, text: &[u8]) -> Result<Option<OrientLine>, NoMemory>
    ensures { IfOk result (λ read. MatchOption read ((k : ℕ) (flags : List Bool)
        → ¬ Spells text.now (OrientLine.Flags k flags)) (λ l. Spells text.now l)) }
{
    let Some((shell, rest)) = listed(text, b"F") else {
        return Ok(None);
    };
    let Some(numbers) = numbers_of(alloc, rest)? else {
        return Ok(None);
    };
    if numbers.len() == 0 {
        return Ok(None);
    }
    let Some(flags) = flags_of(alloc, numbers.as_slice())? else {
        return Ok(None);
    };
    Ok(Some(OrientLine::Flags { shell, flags }))
}

fn ring_words(alloc: Global, text: &[u8]) -> Result<Option<OrientLine>, NoMemory>
    ensures { IfOk result (λ read. MatchOption read ((k : ℕ) (rows : List ℕ)
        → ¬ Spells text.now (OrientLine.Ring k rows)) (λ l. Spells text.now l)) }
{
    let Some((shell, rest)) = listed(text, b"O") else {
        return Ok(None);
    };
    let Some(rows) = numbers_of(alloc, rest)? else {
        return Ok(None);
    };
    if rows.len() == 0 {
        return Ok(None);
    }
    Ok(Some(OrientLine::Ring { shell, rows }))
}

/// The line that a text without its LF spells.
fn read_words(alloc: Global, text: &[u8]) -> Result<OrientLine, OrientLineFault>
    ensures found { IfOk result (Spells text.now) }
    ensures fault { IfErr result (IsTextFault text.now) }
{
    if is_word(text, b"END") {
        return Ok(OrientLine::End);
    }
    if let Some(line) = head_words(text) {
        return Ok(line);
    }
    if let Some(line) = flag_words(alloc, text)? {
        return Ok(line);
    }
    if let Some(line) = ring_words(alloc, text)? {
        return Ok(line);
    }
    Err(OrientLineFault::Misspelt)
}

// The line with its LF; without one it is misspelt.
fn read_line(alloc: Global, line: &[u8]) -> Result<OrientLine, OrientLineFault>
    ensures found { IfOk result (IsSpelled line.now) }
    ensures fault { IfErr result (IsLineFault line.now) }
{
    let Some((last, text)) = line.split_last() else {
        return Err(OrientLineFault::Misspelt);
    };
    if *last != b'\n' {
        return Err(OrientLineFault::Misspelt);
    }
    read_words(alloc, text)
}

/// The line that bytes spell with their LF. Misspelt comes exactly where they spell none.
pub fn orient_line(alloc: Global, line: &[u8]) -> Result<OrientLine, OrientLineFault>
    ensures found { IfOk result (IsSpelled line.now) }
    ensures fault { IfErr result (IsLineFault line.now) }
    ensures only { (l : AnyLine) → IsSpelled line.now l → IfOk result (λ read. read ≡ l) }
{
    read_line(alloc, line)
}
