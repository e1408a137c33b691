//! The line at the start of a text.

ghost use Rattle.std.specs.Prelude.{IfSome};
ghost use Rattle.cert_lines.specs.Line.{edge, reach};
ghost use Rattle.cert_lines.specs.Cutting.{BeginsLine};

use cert_text::{after_byte, next_number};

/// The two rows of the edge line at the start of a text, and what follows the line.
pub fn leading_edge(text: &[u8]) -> Option<(u32, u32, &[u8])>
    ensures { IfSome result (λ p. BeginsLine text.now (edge p.0 p.1) p.2.now) }
{
    let Some(numbers) = after_byte(text, b'E') else {
        return None;
    };
    let Some((along, rest)) = next_number(numbers) else {
        return None;
    };
    let Some((against, rest)) = next_number(rest) else {
        return None;
    };
    match after_byte(rest, b'\n') {
        Some(after) => Some((along, against, after)),
        None => None,
    }
}

/// The row of the reach line at the start of a text, and what follows the line.
pub fn leading_reach(text: &[u8]) -> Option<(u32, &[u8])>
    ensures { IfSome result (λ p. BeginsLine text.now (reach p.0) p.1.now) }
{
    let Some(numbers) = after_byte(text, b'R') else {
        return None;
    };
    let Some((row, rest)) = next_number(numbers) else {
        return None;
    };
    match after_byte(rest, b'\n') {
        Some(after) => Some((row, after)),
        None => None,
    }
}
