//! Lines out of place, and whether a section is shuffled.

ghost use Rattle.line_layout.specs.Changes.{MayCount};
ghost use Rattle.line_layout.specs.Counts.{AreFew};
ghost use Rattle.line_layout.specs.Strays.{are_shuffled, first_shuffled, shuffled_line, stray_at, with_letter};
ghost use Rattle.std.specs.List.{list_any};
ghost use Rattle.std.specs.List.Sorted.{IsSorted};
ghost use Rattle.std.specs.Ordering.{nat_cmp};
ghost use Rattle.std.specs.Prelude.{◌≡◌, ◌++◌, ◌∷◌, ◌==◌, [], IfOk, OnOk, if◌then◌else◌, map};

use crate::columns::{columns, number_in};
use crate::counting::{LineCounts, count_of};
use crate::judging::Judged;
use crate::letters::{is_last, letter_of};
use iges_base::NoMemory;
use std::alloc::Global;

/// A line whose number isn't its place.
#[derive(Clone, Copy)]
pub struct Stray {
    /// Which line of the file it is.
    pub line: u64,
    /// The letter of its section.
    pub letter: u8,
    /// Its place in that section.
    pub place: u64,
    /// The number that it holds.
    pub number: u64,
}

// Appends the line of a piece that comes before the terminate line, where its number isn't its place.
pub(crate) fn note_stray(
    strays: &mut Vec<Stray>,
    counts: LineCounts,
    judged: Judged,
    number: u64,
    line: &[u8],
) -> Result<(), NoMemory>
    requires few { AreFew counts }
    requires next { MayCount counts judged }
    ensures { OnOk result (strays.new.items
        ≡ strays.old.items ++ stray_at number counts line.now judged) }
{
    let Judged::Good(section) = judged else {
        return Ok(());
    };
    if is_last(section) {
        return Ok(());
    }
    let place = count_of(counts, section) + 1;
    let found = number_in(columns(line, 74, 80));
    if found == place {
        return Ok(());
    }
    strays.push(Stray {
        line: number,
        letter: letter_of(section),
        place,
        number: found,
    })?;
    Ok(())
}

fn push_if(strays: &mut Vec<Stray>, stray: Stray, wanted: bool) -> Result<(), NoMemory>
    ensures { OnOk result (strays.new.items
        ≡ strays.old.items ++ (if wanted then stray ∷ [] else [])) }
{
    if wanted {
        strays.push(stray)?;
    }
    Ok(())
}

// Those of a section.
fn with_letter(alloc: Global, strays: &[Stray], letter: u8) -> Result<Vec<Stray>, NoMemory>
    ensures { IfOk result (λ own. own.items ≡ with_letter letter strays.now) }
{
    let mut own = Vec::new(alloc);
    'strays: for i in 0..strays.len() {
        push_if(&mut own, strays[i], strays[i].letter == letter)?;
    }
    Ok(own)
}

fn numbers_of(alloc: Global, strays: &[Stray]) -> Result<Vec<u64>, NoMemory>
    ensures { IfOk result (λ numbers. numbers.items ≡ map (λ r. r.number) strays.now) }
{
    let mut numbers = Vec::with_capacity(alloc, strays.len())?;
    'strays: for i in 0..strays.len() {
        numbers.push(strays[i].number)?;
    }
    Ok(numbers)
}

fn is_among(numbers: &[u64], n: u64) -> bool
    requires { IsSorted nat_cmp numbers.now }
    ensures { result ≡ list_any (λ k. k == n) numbers.now }
{
    numbers.binary_search(&n).is_ok()
}

// Whether the numbers of these lines are their places in another order.
fn are_shuffled(alloc: Global, strays: &[Stray]) -> Result<bool, NoMemory>
    ensures { IfOk result (λ b. b ≡ are_shuffled strays.now) }
{
    let mut numbers = numbers_of(alloc, strays)?;
    numbers.sort_unstable();
    'strays: for i in 0..strays.len() {
        if !is_among(numbers.as_slice(), strays[i].place) {
            return Ok(false);
        }
    }
    Ok(true)
}

// The first of those of a section, where they are shuffled.
fn first_shuffled(alloc: Global, strays: &[Stray], letter: u8) -> Result<Option<u64>, NoMemory>
    ensures { IfOk result (λ line. line ≡ first_shuffled (with_letter letter strays.now)) }
{
    let own = with_letter(alloc, strays, letter)?;
    if own.is_empty() || !are_shuffled(alloc, own.as_slice())? {
        return Ok(None);
    }
    Ok(Some(own[0].line))
}

// The first line of the first section that is shuffled whose number isn't its place.
pub(crate) fn shuffled_line(alloc: Global, strays: &[Stray]) -> Result<Option<u64>, NoMemory>
    ensures { IfOk result (λ line. line ≡ shuffled_line strays.now) }
{
    if let Some(line) = first_shuffled(alloc, strays, b'S')? {
        return Ok(Some(line));
    }
    if let Some(line) = first_shuffled(alloc, strays, b'G')? {
        return Ok(Some(line));
    }
    if let Some(line) = first_shuffled(alloc, strays, b'D')? {
        return Ok(Some(line));
    }
    first_shuffled(alloc, strays, b'P')
}
