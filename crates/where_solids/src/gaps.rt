//! How the gaps of a solid's loops are listed.

ghost use Rattle.std.specs.Prelude.{◌≡◌, nat_lt};
ghost use Rattle.where_solids.specs.ShellTexts.{gap_count, gap_listing};
ghost use Rattle.where_solids.specs.declared.TheConstants.{GAP_LIMIT};

use crate::GAP_LIMIT;
use solid_faults::ShellFaults;
use where_text::Listing;

// Whether the shells have more gaps together than are written.
fn has_many_gaps(all: &[ShellFaults]) -> bool
    ensures { result ≡ nat_lt GAP_LIMIT (gap_count all.now) }
{
    let mut left = GAP_LIMIT;
    'shells: for k in 0..all.len() {
        let count = all[k].gaps().len();
        if count > left {
            return true;
        }
        left -= count;
    }
    false
}

/// How much is written of the gaps of each shell: as much as of other lists, or little where all shells have too many together.
#[tactic(auto, unfolding(crate::specs::ShellTexts::gap_listing))]
pub fn gap_listing(listing: Listing, all: &[ShellFaults]) -> Listing
    ensures { result ≡ gap_listing listing all.now }
{
    if has_many_gaps(all) {
        return Listing::Few;
    }
    listing
}
