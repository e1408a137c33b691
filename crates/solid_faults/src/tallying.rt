//! How many of the edges that aren't paired are used once, twice and more often.

ghost use Rattle.std.specs.Prelude.{◌≡◌, ◌<◌, ◌+◌, ◌^◌, ◌==◌, nat_lt, if◌then◌else◌};
ghost use Rattle.solid_faults.specs.UseCounts.{use_count, once_count, same_way_count, many_count};

use crate::edge::Unpaired;

/// How many of some edges that aren't paired have one row, two and more.
#[derive(Clone, Copy)]
pub struct UseCounts {
    /// With one row.
    pub once: usize,
    /// With two rows, which run the same way.
    pub same_way: usize,
    /// With more than two rows, whatever their directions.
    pub many: usize,
}

fn one_more(counts: UseCounts, edge: Unpaired) -> UseCounts
    requires once { counts.once + 1 < 2 ^ 64 }
    requires same_way { counts.same_way + 1 < 2 ^ 64 }
    requires many { counts.many + 1 < 2 ^ 64 }
    ensures once { result.once ≡ counts.once + (if use_count edge == 1 then 1 else 0) }
    ensures same_way { result.same_way ≡ counts.same_way + (if use_count edge == 2 then 1 else 0) }
    ensures many { result.many ≡ counts.many + (if nat_lt 2 (use_count edge) then 1 else 0) }
{
    let uses = u64::from(edge.along) + u64::from(edge.against);
    UseCounts {
        once: counts.once + usize::from(uses == 1),
        same_way: counts.same_way + usize::from(uses == 2),
        many: counts.many + usize::from(uses > 2),
    }
}

/// How many of these edges have one row, two and more.
pub fn use_counts(unpaired: &[Unpaired]) -> UseCounts
    ensures once { result.once ≡ once_count unpaired.now }
    ensures same_way { result.same_way ≡ same_way_count unpaired.now }
    ensures many { result.many ≡ many_count unpaired.now }
{
    let mut counts = UseCounts {
        once: 0,
        same_way: 0,
        many: 0,
    };
    'edges: for i in 0..unpaired.len() {
        counts = one_more(counts, unpaired[i]);
    }
    counts
}
