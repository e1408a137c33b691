//! Whether a line fits as that of a shell.

ghost use Rattle.std.specs.Prelude.{◌≡◌, ◌+◌, ◌<◌, ◌↔◌, ℕ, suc, List, length, map, IfOk, IsTrue, MatchOption};
ghost use Rattle.orient_certificate.specs.OddRing.{row_numbers};
ghost use Rattle.orient_commands.specs.Shells.{IsCounted};
ghost use Rattle.orient_commands.specs.Text.{FitsAs, NameOddRing};

use face_orient::{NumberList, OrientChecker, OrientLine};
use iges_base::NoMemory;
use solid_data::{RowId, RowList, ShellAt, Solid};
use std::alloc::Global;

/// The rows that numbers name, which count from 1. None where one of them is 0.
fn rows_named(alloc: Global, numbers: &[u32]) -> Result<Option<RowList>, NoMemory>
    ensures { IfOk result (λ read. MatchOption read ((rows : List ℕ)
        → ¬ (numbers.now ≡ map suc rows)) (λ rows. numbers.now ≡ map suc (row_numbers rows))) }
{
    let mut rows = RowList::new(alloc);
    'numbers: for i in 0..numbers.len() {
        let number = numbers[i];
        if number == 0 {
            return Ok(None);
        }
        rows.push(RowId(number - 1))?;
    }
    Ok(Some(rows))
}

/// The checker of a shell of which COUNT holds.
fn checker_of(alloc: Global, solid: &Solid, at: ShellAt) -> Result<OrientChecker<'_>, NoMemory>
    requires within { at.0 < length solid.now.shells }
    requires counted { IsCounted solid.now at.0 }
    ensures { IfOk result (λ c. c ≡ record { solid = solid.now; shell = at.0 }) }
{
    match OrientChecker::new(alloc, solid, at) {
        Ok(checker) => Ok(checker),
        // COUNT holds, so that nothing but memory can be wanting.
        Err(_) => Err(NoMemory),
    }
}

/// Whether numbers, which count from 1, name rows that are an odd ring of the checker's shell.
fn ring_fits(
    alloc: Global,
    checker: &OrientChecker<'_>,
    numbers: &NumberList,
) -> Result<bool, NoMemory>
    ensures { IfOk result (λ fit. IsTrue fit
        ↔ NameOddRing checker.now.solid checker.now.shell numbers.now) }
{
    match rows_named(alloc, numbers.as_slice())? {
        Some(rows) => Ok(checker.ring(&rows)),
        None => Ok(false),
    }
}

/// Whether a number in a line is that of the shell, from 1.
fn is_number_of(number: u32, at: ShellAt) -> bool
    ensures { IsTrue result ↔ (number ≡ at.0 + 1) }
{
    u64::from(number) == u64::from(at.0) + 1
}

/// Whether a line fits as that of a shell of which COUNT holds.
pub(crate) fn fits(
    alloc: Global,
    solid: &Solid,
    at: ShellAt,
    line: &OrientLine,
) -> Result<bool, NoMemory>
    requires within { at.0 < length solid.now.shells }
    requires counted { IsCounted solid.now at.0 }
    ensures { IfOk result (λ fit. IsTrue fit ↔ FitsAs solid.now (at.0 + 2) line.now) }
{
    let checker = checker_of(alloc, solid, at)?;
    match line {
        OrientLine::Flags { shell, flags } => {
            Ok(is_number_of(*shell, at) && checker.flags(flags))
        }
        OrientLine::Ring { shell, rows } => {
            if !is_number_of(*shell, at) {
                return Ok(false);
            }
            ring_fits(alloc, &checker, rows)
        }
        OrientLine::Head(_) | OrientLine::End => Ok(false),
    }
}
