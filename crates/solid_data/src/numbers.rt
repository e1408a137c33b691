//! Counting from 0, as a list.

ghost use Rattle.solid_data.specs.Ring.{numbers_from};
ghost use Rattle.std.specs.Prelude.{◌≡◌, IfOk};

use iges_base::NoMemory;
use std::alloc::Global;

/// The numbers below `count`, rising. It errs where memory runs out, and where `count` is more than 4,294,967,295.
pub fn numbers_below(alloc: Global, count: usize) -> Result<Vec<u32>, NoMemory>
    ensures { IfOk result (λ v. v.items ≡ numbers_from 0 count) }
{
    if count > u32::MAX as usize {
        return Err(NoMemory);
    }
    let mut numbers = Vec::new(alloc);
    'numbers: for i in 0..count {
        numbers.push(i as u32)?;
    }
    Ok(numbers)
}
