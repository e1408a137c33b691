//! A value for each number of a range.

ghost use Rattle.std.specs.Prelude.{◌≡◌, Contains, MatchOption, Some, slice_get};
ghost use Rattle.std.specs.List.Sorted.{IsStrictlyIncreasing};
ghost use Rattle.solid_data.specs.Cells.{value_count};

use crate::spanning::{Span, is_far, span_of};
use iges_base::NoMemory;
use std::alloc::Global;
use std::marker::Model;

/// A value for each number of a range, to be set where a number is one of some that rise. They take room for no more
/// than a few values for each of these, also where these lie far apart.
#[derive(Drop)]
pub struct Cells<'a, T> {
    numbers: &'a [u32],
    span: Span,
    far: bool,
    blank: T,
    values: Vec<T>,
}

impl<'a, T> Model for Cells<'a, T> {
    ghost use Rattle.solid_data.specs.Cells.{AreCells, Celled, cells_of};

    ghost Value = { Celled T };

    ghost view = { λ c. record {
      numbers = c.numbers.now;
      span = c.span;
      blank = c.blank;
      cells = cells_of c.far c.numbers.now c.span c.blank c.values.items;
    } };

    ghost invariant = { λ c. AreCells c.far c.numbers.now c.span c.values.items };
}

/// The place, from 0, of a number in a list that rises, if it is there.
pub fn place_of(numbers: &[u32], n: u32) -> Option<usize>
    requires { IsStrictlyIncreasing numbers.now }
    ensures { MatchOption result (¬ (Contains numbers.now n))
        (λ i. slice_get numbers.now i ≡ Some n) }
{
    match numbers.binary_search(&n) {
        Ok(i) => Some(i),
        Err(_) => None,
    }
}

fn value_count(far: bool, numbers: &[u32], span: Span) -> usize
    ensures { result ≡ value_count far numbers.now span }
{
    if far { numbers.len() } else { span.count }
}

impl<'a, T: Copy> Cells<'a, T> {
    ghost use Rattle.std.specs.Prelude.{◌≡◌, Contains, IfOk, replicate};
    ghost use Rattle.std.specs.List.Sorted.{IsStrictlyIncreasing};
    ghost use Rattle.solid_data.specs.Cells.{cell_of, with_cell};
    ghost use Rattle.solid_data.specs.Ranges.{IsSpanOf, IsWithin};

    /// The same value for each number of the range of some that rise.
    pub fn new(alloc: Global, numbers: &'a [u32], blank: T) -> Result<Cells<'a, T>, NoMemory>
        requires rise { IsStrictlyIncreasing numbers.now }
        requires clones { (x : T) → T.is_clone blank x → x ≡ blank }
        ensures numbers { IfOk result (λ c. c.numbers ≡ numbers.now) }
        ensures span { IfOk result (λ c. IsSpanOf c.span numbers.now) }
        ensures blank { IfOk result (λ c. c.blank ≡ blank) }
        ensures cells { IfOk result (λ c. c.cells ≡ replicate c.span.count blank) }
    {
        let span = span_of(numbers);
        let far = is_far(span, numbers.len());
        let values = vec![in alloc; blank; value_count(far, numbers, span)]?;
        Ok(Cells {
            numbers,
            span,
            far,
            blank,
            values,
        })
    }

    /// The value of a number of the range.
    pub fn at(&self, n: u32) -> T
        requires { IsWithin self.now.span n }
        ensures { result ≡ cell_of self.now n }
    {
        if !self.far {
            return self.values[(n - self.span.least) as usize];
        }
        match place_of(self.numbers, n) {
            Some(i) => self.values[i],
            None => self.blank,
        }
    }

    /// Gives one of the numbers another value.
    pub fn set(&mut self, n: u32, value: T)
        requires { Contains self.old.numbers n }
        ensures { self.new ≡ with_cell self.old n value }
    {
        if !self.far {
            self.values[(n - self.span.least) as usize] = value;
            return;
        }
        if let Some(i) = place_of(self.numbers, n) {
            self.values[i] = value;
        }
    }
}
