//! Whether a list has each number below another.

ghost use Rattle.std.specs.Prelude.{◌≡◌, ◌↔◌, ◌<◌, ◌==◌, ◌||◌, ℕ, false, IsTrue, IfOk, length, vec_len, get_or};
ghost use Rattle.std.specs.List.{list_any};
ghost use Rattle.change_fits.specs.NewNames.{Covers};

use iges_base::NoMemory;
use std::alloc::Global;

fn mark(marks: &mut [bool], n: u32)
    ensures len { length marks.new ≡ length marks.old }
    ensures marks { (k : ℕ) → k < length marks.old
        → get_or marks.new k false ≡ (get_or marks.old k false || (n == k)) }
{
    let n = n as usize;
    if n < marks.len() {
        marks[n] = true;
    }
}

// One mark for each number below the count: whether it is among these.
fn marks_of(alloc: Global, numbers: &[u32], count: usize) -> Result<Vec<bool>, NoMemory>
    ensures len { IfOk result (λ marks. vec_len marks ≡ count) }
    ensures marks { IfOk result (λ marks. (k : ℕ) → k < count
        → get_or marks.items k false ≡ list_any (λ m. m == k) numbers.now) }
{
    let mut marks = vec![in alloc; false; count]?;
    'numbers: for i in 0..numbers.len() {
        mark(&mut marks, numbers[i]);
    }
    Ok(marks)
}

fn all_marked(marks: &[bool]) -> bool
    ensures holds { IsTrue result → (k : ℕ) → k < length marks.now → IsTrue (get_or marks.now k false) }
    ensures only { ((k : ℕ) → k < length marks.now → IsTrue (get_or marks.now k false)) → IsTrue result }
{
    'marks: for i in 0..marks.len() {
        if !marks[i] {
            return false;
        }
    }
    true
}

/// Whether each number below the count is in a list.
pub fn covers(alloc: Global, numbers: &[u32], count: usize) -> Result<bool, NoMemory>
    ensures { IfOk result (λ all. IsTrue all ↔ Covers numbers.now count) }
{
    let marks = marks_of(alloc, numbers, count)?;
    Ok(all_marked(marks.as_slice()))
}
