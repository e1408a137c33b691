//! Numbers of lines by their points.

ghost use Rattle.equal_values.specs.Keys.{marked};
ghost use Rattle.record_numbers.specs.Keys.{AreNumbers, KeepsNumbers};
ghost use Rattle.solid_geometry.specs.Curves.{is_line};
ghost use Rattle.solid_geometry.specs.Lines.{IsLineNumber, IsLineOf, ends_key, pair_key, point_key};
ghost use Rattle.std.specs.Fmt.{decimal};
ghost use Rattle.std.specs.List.{AllZip};
ghost use Rattle.std.specs.Prelude.{◌≡◌, ◌↔◌, ◌++◌, ◌+◌, ◌≤◌, ◌<◌, ◌^◌, IfOk, IfSome, IsTrue, OnOk};

use crate::values::put_at;
use equal_values::put_text;
use iges_base::NoMemory;
use iges_params::File;
use itoa::Buffer;
use record_numbers::{KeyNumbers, number_by_key};
use std::alloc::Global;

// Whether the entry is a line (IGES 5.3, 4.13) without a matrix.
fn is_line(file: &File, number: i64) -> bool
    ensures { result ≡ is_line file.now number }
{
    let Some(no) = file.entry_no_of(number) else {
        return false;
    };
    match file.entry(no) {
        Some(entry) => entry.kind == 110 && entry.matrix == 0,
        None => false,
    }
}

/// The key of the point whose three coordinates begin in a place, from 0.
#[tactic(auto, unfolding(crate::specs::Curves::point, crate::specs::Lines::point_key))]
pub fn point_key(alloc: Global, file: &File, number: i64, place: usize) -> Result<Vec<u8>, NoMemory>
    requires { place < 2 ^ 32 }
    ensures { IfOk result (λ key. key.items ≡ point_key file.now number place) }
{
    let mut key = Vec::new(alloc);
    put_at(alloc, &mut key, file, number, place)?;
    put_at(alloc, &mut key, file, number, place + 1)?;
    put_at(alloc, &mut key, file, number, place + 2)?;
    Ok(key)
}

fn pair_key(alloc: Global, a: u32, b: u32) -> Result<Vec<u8>, NoMemory>
    ensures { IfOk result (λ key. key.items ≡ pair_key a b) }
{
    let mut key = Vec::new(alloc);
    put_text(&mut key, Buffer::new().format(a).as_bytes())?;
    put_text(&mut key, Buffer::new().format(b).as_bytes())?;
    Ok(key)
}

// The key of two points, whichever comes first.
fn ends_key(alloc: Global, a: u32, b: u32) -> Result<Vec<u8>, NoMemory>
    ensures { IfOk result (λ key. key.items ≡ ends_key a b) }
{
    if a <= b {
        pair_key(alloc, a, b)
    } else {
        pair_key(alloc, b, a)
    }
}

/// Numbers of points, and of pairs of them.
#[derive(Drop)]
pub struct LineNumbers {
    pub points: KeyNumbers,
    pub pairs: KeyNumbers,
}

fn number_of_line(
    alloc: Global,
    file: &File,
    numbers: &mut LineNumbers,
    line: i64,
) -> Result<u32, NoMemory>
    ensures number { IfOk result (λ n. AreNumbers numbers.old.points → IsLineNumber file.now numbers.new.points numbers.new.pairs line n) }
    ensures points { OnOk result (AreNumbers numbers.old.points → KeepsNumbers numbers.old.points numbers.new.points × AreNumbers numbers.new.points) }
    ensures pairs { OnOk result (AreNumbers numbers.old.pairs → KeepsNumbers numbers.old.pairs numbers.new.pairs × AreNumbers numbers.new.pairs) }
{
    let start = number_by_key(&mut numbers.points, point_key(alloc, file, line, 0)?)?;
    let end = number_by_key(&mut numbers.points, point_key(alloc, file, line, 3)?)?;
    let number = number_by_key(&mut numbers.pairs, ends_key(alloc, start, end)?)?;
    Ok(number)
}

fn line_of(
    alloc: Global,
    file: &File,
    numbers: &mut LineNumbers,
    curve: i64,
) -> Result<Option<u32>, NoMemory>
    ensures line { IfOk result (λ line. AreNumbers numbers.old.points → IsLineOf file.now numbers.new.points numbers.new.pairs curve line) }
    ensures points { OnOk result (AreNumbers numbers.old.points → KeepsNumbers numbers.old.points numbers.new.points × AreNumbers numbers.new.points) }
    ensures pairs { OnOk result (AreNumbers numbers.old.pairs → KeepsNumbers numbers.old.pairs numbers.new.pairs × AreNumbers numbers.new.pairs) }
{
    if !is_line(file, curve) {
        return Ok(None);
    }
    Ok(Some(number_of_line(alloc, file, numbers, curve)?))
}

/// A curve that was looked at, and its number if it's a line.
#[derive(Clone, Copy)]
struct Seen {
    curve: i64,
    line: Option<u32>,
}

// The number of a curve that is a line; edges that follow one another often have one curve.
fn line_after(
    alloc: Global,
    file: &File,
    numbers: &mut LineNumbers,
    seen: Option<Seen>,
    curve: i64,
) -> Result<Option<u32>, NoMemory>
    ensures line { IfOk result (λ line. AreNumbers numbers.old.points
        → IfSome seen (λ s. IsLineOf file.now numbers.old.points numbers.old.pairs s.curve s.line)
        → IsLineOf file.now numbers.new.points numbers.new.pairs curve line) }
    ensures points { OnOk result (AreNumbers numbers.old.points → KeepsNumbers numbers.old.points numbers.new.points × AreNumbers numbers.new.points) }
    ensures pairs { OnOk result (AreNumbers numbers.old.pairs → KeepsNumbers numbers.old.pairs numbers.new.pairs × AreNumbers numbers.new.pairs) }
{
    match seen {
        Some(seen) if seen.curve == curve => Ok(seen.line),
        _ => line_of(alloc, file, numbers, curve),
    }
}

/// The number of each of the curves that is a line.
pub fn lines_of(
    alloc: Global,
    file: &File,
    numbers: &mut LineNumbers,
    curves: &[i64],
) -> Result<Vec<Option<u32>>, NoMemory>
    requires points { AreNumbers numbers.old.points }
    requires pairs { AreNumbers numbers.old.pairs }
    ensures lines { IfOk result (λ lines. AllZip (IsLineOf file.now numbers.new.points numbers.new.pairs) curves.now lines.items) }
    ensures points { OnOk result (AreNumbers numbers.new.points) }
    ensures pairs { OnOk result (AreNumbers numbers.new.pairs) }
{
    let mut lines = Vec::with_capacity(alloc, curves.len())?;
    let mut seen = None;
    'curves: for curve in curves {
        let line = line_after(alloc, file, numbers, seen, *curve)?;
        seen = Some(Seen {
            curve: *curve,
            line,
        });
        lines.push(line)?;
    }
    Ok(lines)
}
