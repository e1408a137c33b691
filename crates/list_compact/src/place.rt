//! Items of lists.

ghost use Rattle.std.specs.Prelude.{◌≡◌, ◌+◌, ◌*◌, ℕ, pos, IfNone, IfSome};

/// An item of a list, by the entry and the item, both from 0.
#[derive(Clone, Copy)]
pub struct ListItem {
    /// The place of the list in the directory, from 0: its directory number is twice that and one more.
    pub entry: usize,
    /// One less than the index that names the item.
    pub item: usize,
}

/// The item that the number of a list and an index name; None where they can name none.
pub fn place_of(list: i64, index: i64) -> Option<ListItem>
    ensures some { IfSome result (λ p. (list ≡ pos (2 * p.entry + 1))
        × (index ≡ pos (p.item + 1))) }
    ensures none { IfNone result ((k i : ℕ) → list ≡ pos (2 * k + 1) → ¬ (index ≡ pos (i + 1))) }
{
    let (Ok(number), Ok(index)) = (u64::try_from(list), u64::try_from(index)) else {
        return None;
    };
    if number % 2 == 0 || index == 0 {
        return None;
    }
    Some(ListItem {
        entry: (number / 2) as usize,
        item: (index - 1) as usize,
    })
}
