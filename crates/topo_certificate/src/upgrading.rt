//! A certificate of version 1 as one of version 2.

ghost use Rattle.std.specs.Prelude.{◌≡◌, ℕ, ◌+◌, ◌<◌, ◌≤◌, ◌^◌, ◌++◌, ◌∷◌, List, Some, IfOk, IfErr, length, slice_get};
ghost use Rattle.cert_lines.specs.Line.{tally, spelling, cut_lines};
ghost use Rattle.topo_certificate.specs.Upgraded.{starts_with, tally_of_shell, tally_before, with_tallies, joined, upgraded};
ghost use Rattle.topo_certificate.specs.Upgrades.{IsUpgradeFault};

use cert_lines::{Version, first_line, head_text, put_head_line, put_tally_line};
use cert_state::loop_count;
use cert_text::after_word;
use edge_uses::rows;
use iges_base::{Bytes, NoMemory, Out};
use solid_data::{Shell, ShellAt, Solid};
use std::alloc::Global;

/// Why a certificate isn't upgraded.
#[derive(Clone, Copy, PartialEq, Eq)]
pub enum UpgradeFault {
    /// The upgraded text has more bytes than were asked for.
    TooLarge,
    /// Memory ran out.
    NoMemory,
}

impl From<NoMemory> for UpgradeFault {
    ghost use Rattle.std.specs.Prelude.{◌≡◌};
    ghost use Rattle.topo_certificate.specs.declared.upgrading.UpgradeFault.TheVariants.{NoMemory as OutOfMemory};

    ghost from_gives = { λ _ fault. fault ≡ OutOfMemory };

    fn from(_: NoMemory) -> UpgradeFault {
        UpgradeFault::NoMemory
    }
}

/// Whether a text begins with a word.
fn begins(text: &[u8], word: &[u8]) -> bool
    ensures { result ≡ starts_with word.now text.now }
{
    match after_word(text, word) {
        Some(_) => true,
        None => false,
    }
}

/// The TALLY line of a shell of the solid.
fn put_tally_of(
    alloc: Global,
    out: &mut Out,
    solid: &Solid,
    at: ShellAt,
    shell: &Shell,
) -> Result<(), NoMemory>
    requires at { slice_get solid.now.shells at.0 ≡ Some shell.now }
    ensures { IfOk result (λ _. out.new ≡ out.old
        ++ spelling (tally (tally_of_shell solid.now shell.now))) }
{
    solid.recall_numbering();
    let rows = rows(alloc, solid, at)?;
    let vertices = rows.vertex_count() as u64;
    let edges = rows.edge_count() as u64;
    let faces = rows.face_count() as u64;
    put_tally_line(out, vertices, edges, faces, loop_count(shell))
}

fn shell_at(solid: &Solid, at: ShellAt) -> &Shell
    requires { at.0 < length solid.now.shells }
    ensures { slice_get solid.now.shells at.0 ≡ Some result.now }
{
    solid.shell(at).unwrap()
}

/// The TALLY line of the last of so many shells, where it is there.
fn put_tally_before(
    alloc: Global,
    out: &mut Out,
    solid: &Solid,
    shells: usize,
) -> Result<(), NoMemory>
    ensures { IfOk result (λ _. out.new ≡ out.old ++ joined (tally_before solid.now shells)) }
{
    if shells == 0 || shells > solid.shell_count() {
        return Ok(());
    }
    let at = ShellAt((shells - 1) as u32);
    let shell = shell_at(solid, at);
    put_tally_of(alloc, out, solid, at, shell)?;
    Ok(())
}

/// Puts a line before which so many shells have begun, and what stands before it; the result is how many shells have
/// begun then.
fn put_line(
    alloc: Global,
    out: &mut Out,
    solid: &Solid,
    shells: usize,
    line: &[u8],
) -> Result<usize, NoMemory>
    requires few { shells < 2 ^ 63 }
    ensures text { IfOk result (λ n. (ls : List (List ℕ))
        → out.new ++ joined (with_tallies solid.now n ls)
        ≡ out.old ++ joined (with_tallies solid.now shells (line.now ∷ ls))) }
    ensures few { IfOk result (λ n. n ≤ shells + 1) }
{
    if begins(line, b"SHELL") {
        put_tally_before(alloc, out, solid, shells)?;
        out.put(line)?;
        return Ok(shells + 1);
    }
    if begins(line, b"END") {
        put_tally_before(alloc, out, solid, shells)?;
    }
    out.put(line)?;
    Ok(shells)
}

// Puts the lines, and after those of each shell the line of its counts.
fn put_lines(alloc: Global, out: &mut Out, solid: &Solid, text: &[u8]) -> Result<(), NoMemory>
    ensures { IfOk result (λ _. out.new ≡ out.old
        ++ joined (with_tallies solid.now 0 (cut_lines text.now))) }
{
    let mut rest = text;
    let mut shells = 0;
    'lines: while let Some((line, after)) = first_line(rest) {
        shells = put_line(alloc, out, solid, shells, line)?;
        rest = after;
    }
    Ok(())
}

// A text that isn't of version 1 is copied as it is.
fn upgraded_text(alloc: Global, solid: &Solid, text: &[u8]) -> Result<Bytes, NoMemory>
    ensures { IfOk result (λ t. t ≡ upgraded solid.now text.now) }
{
    let Some((first, rest)) = first_line(text) else {
        return Bytes::copy(alloc, text);
    };
    if !begins(first, head_text(Version::One)) {
        return Bytes::copy(alloc, text);
    }
    let mut out = Out::new(alloc);
    put_head_line(&mut out, Version::Two)?;
    put_lines(alloc, &mut out, solid, rest)?;
    Ok(out.into_bytes())
}

/// A certificate of version 1 as one of version 2: the head of version 2, and the line of the counts of each shell after
/// its lines. A certificate of another version is given back as it is. What is accepted for the solid stays accepted.
/// TooLarge comes exactly where the text would have more bytes than the limit.
pub fn upgrade(alloc: Global, solid: &Solid, text: &[u8], limit: u64) -> Result<Bytes, UpgradeFault>
    ensures text { IfOk result (λ t. t ≡ upgraded solid.now text.now) }
    ensures within { IfOk result (λ t. length t ≤ limit) }
    ensures fault { IfErr result (IsUpgradeFault (limit < length (upgraded solid.now text.now))) }
{
    let bytes = upgraded_text(alloc, solid, text)?;
    if bytes.as_slice().len() as u64 > limit {
        return Err(UpgradeFault::TooLarge);
    }
    Ok(bytes)
}
