//! Numbers by rising number.

ghost use Rattle.std.specs.Prelude.{◌≡◌, ◌<◌, ℕ, All};
ghost use Rattle.solid_data.specs.Ring.{numbers_from};
ghost use Rattle.solid_data.specs.SolidData.{occurring};

/// Puts numbers in rising order, each once.
pub fn rise(numbers: &mut Vec<u32>)
    ensures { (n : ℕ) → All (λ k. k < n) numbers.old.items
        → numbers.new.items ≡ occurring (numbers_from 0 n) numbers.old.items }
{
    numbers.sort_unstable();
    numbers.dedup();
}
