//! Whether the rows of a corner line turn to one another.

ghost use Rattle.std.specs.Prelude.{◌≡◌, ◌↔◌, ℕ, ◌<◌, List, ◌∷◌, IsTrue, IfSome, length, MatchOption};
ghost use Rattle.cert_state.specs.Progress.{TurnsTo};
ghost use Rattle.cert_state.specs.CheckState.{HoldsMates};
ghost use Rattle.cert_state.specs.Ring.{IsRing, EndsNumbers, BeginsWithNumbers};

use crate::fitting::turn_of;
use cert_text::next_number;
use edge_uses::Rows;

/// Whether a row turns to another, both from 1.
pub fn turns_to(rows: &Rows, mates: &[u32], row: u32, next: u32) -> bool
    ensures { (pairs : List (ℕ × ℕ)) → HoldsMates mates.now pairs → IsTrue result
        ↔ TurnsTo rows.now pairs row next }
{
    match turn_of(rows, mates, row) {
        Some(turn) => turn == u64::from(next),
        None => false,
    }
}

/// Whether a row may follow the last one of a corner line.
fn goes_on(rows: &Rows, mates: &[u32], first: u32, last: u32, next: u32) -> bool
    ensures { (pairs : List (ℕ × ℕ)) → HoldsMates mates.now pairs → IsTrue result
        ↔ (first < next) × TurnsTo rows.now pairs last next }
{
    first < next && turns_to(rows, mates, last, next)
}

/// Whether nothing that a line may go on with follows its numbers.
fn ends_numbers(rest: &[u8]) -> bool
    ensures { IsTrue result ↔ EndsNumbers rest.now }
{
    match rest.first() {
        Some(byte) => *byte < b' ',
        None => true,
    }
}

/// How many rows turn to one another from a first one on, back to it, which is the least, and what follows them. The
/// others are the numbers that a text begins with, each after a space.
pub(crate) fn ring_len<'t>(
    rows: &Rows,
    mates: &[u32],
    first: u32,
    others: &'t [u8],
) -> Option<(usize, &'t [u8])>
    ensures numbers { IfSome result (λ p. (rs : List ℕ) × BeginsWithNumbers others.now rs p.1.now) }
    ensures ring { (pairs : List (ℕ × ℕ)) (rs rest : List ℕ) → HoldsMates mates.now pairs → BeginsWithNumbers others.now rs rest →
        MatchOption result (¬ IsRing rows.now pairs first first rs)
        (λ p. IsRing rows.now pairs first first rs × (p.0 ≡ length (first ∷ rs)) × (p.1.now ≡ rest)) }
{
    let mut last = first;
    let mut rest = others;
    let mut count = 1;
    'turns: while let Some((next, after)) = next_number(rest) {
        if !goes_on(rows, mates, first, last, next) {
            return None;
        }
        last = next;
        rest = after;
        count += 1;
    }
    if !ends_numbers(rest) {
        return None;
    }
    if turns_to(rows, mates, last, first) {
        Some((count, rest))
    } else {
        None
    }
}
