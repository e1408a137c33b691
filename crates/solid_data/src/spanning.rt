//! The range in which some numbers lie.

ghost use Rattle.std.specs.Prelude.{◌≡◌, ◌+◌, ◌/◌, ◌≤◌, ◌^◌, [], ◌↔◌, nat_lt, All, Contains, IfSome, IsNone};
ghost use Rattle.solid_data.specs.Ranges.{IsSpanOf};

/// The numbers from `least` on, `count` of them. Arrays over the edges or vertices of a shell start at its least one,
/// so that they are no longer than the shell where it shares none.
#[derive(Clone, Copy)]
pub struct Span {
    pub least: u32,
    pub count: usize,
}

// A number that occurs is worth so many places of an array.
const PLACES_EACH: usize = 8;

/// Whether a range is many times longer than a list, so that an array over the range would take much more room than the
/// list, and numbers are better searched.
pub fn is_far(span: Span, len: usize) -> bool
    ensures { result ≡ nat_lt len (span.count / 8) }
{
    len < span.count / PLACES_EACH
}

fn least_of(numbers: &[u32]) -> Option<u32>
    ensures low { IfSome result (λ m. All (λ n. m ≤ n) numbers.now) }
    ensures among { IfSome result (Contains numbers.now) }
    ensures none { IsNone result ↔ (numbers.now ≡ []) }
{
    numbers.iter().copied().min()
}

fn greatest_of(numbers: &[u32]) -> Option<u32>
    ensures high { IfSome result (λ m. All (λ n. n ≤ m) numbers.now) }
    ensures among { IfSome result (Contains numbers.now) }
    ensures none { IsNone result ↔ (numbers.now ≡ []) }
{
    numbers.iter().copied().max()
}

/// The shortest range that holds all of some numbers, or an empty one where there are none.
pub fn span_of(numbers: &[u32]) -> Span
    ensures span { IsSpanOf result numbers.now }
    ensures small { result.least + result.count ≤ 2 ^ 32 }
{
    let Some(least) = least_of(numbers) else {
        return Span { least: 0, count: 0 };
    };
    let Some(greatest) = greatest_of(numbers) else {
        return Span { least: 0, count: 0 };
    };
    Span {
        least,
        count: (greatest - least) as usize + 1,
    }
}
