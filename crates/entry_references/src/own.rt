//! The own values of a record.

ghost use Rattle.entry_references.specs.Layout.{value_at, is_pointer};
ghost use Rattle.std.specs.List.{list_all, range_with_len};
ghost use Rattle.std.specs.Prelude.{◌≡◌, ◌+◌, ◌<◌, ◌^◌, ◌++◌, [], Some, None, IfOk, if◌then◌else◌};

use crate::place::are_pointers;
use iges_base::{ItemList, NoMemory};
use iges_fields::Values;
use std::alloc::Global;
use std::marker::Model;

/// How many values of a record are its own, which come before the groups of pointers (IGES 5.3, 2.2.4.5.2), and the
/// places of pointers among them, from 1: of those that are followed, and of those that are cut.
#[derive(Drop)]
pub struct Own {
    /// How many own values there are, the type number not counted.
    pub count: usize,
    /// Places after the type number, from 1, of pointers whose entries are taken too.
    pub pointers: ItemList<usize>,
    /// Places after the type number, from 1, of pointers that an extraction sets to 0.
    pub cut: ItemList<usize>,
}

impl Model for Own {
    ghost use Rattle.entry_references.specs.Layout.{Own as OwnValues};

    ghost Value = { OwnValues };

    ghost view = { λ own. record { count = own.count; pointers = own.pointers; cut = own.cut } };
}

impl Own {
    /// So many own values without a pointer; the empty list keeps its room.
    pub fn plain(alloc: Global, count: usize, spare: ItemList<usize>) -> Own
        requires { spare ≡ [] }
        ensures { result ≡ record { count = count; pointers = []; cut = [] } }
    {
        Own {
            count,
            pointers: spare,
            cut: ItemList::new(alloc),
        }
    }

    /// The room of the places that were followed, in an empty list.
    pub fn into_spare(self) -> ItemList<usize>
        ensures { result ≡ [] }
    {
        let mut spare = self.pointers;
        spare.truncate(0);
        spare
    }

    /// So many own values with pointers in these places.
    pub fn with_pointers(alloc: Global, count: usize, pointers: ItemList<usize>) -> Own
        ensures { result ≡ record { count = count; pointers = pointers; cut = [] } }
    {
        Own {
            count,
            pointers,
            cut: ItemList::new(alloc),
        }
    }

    // Whether pointers may be in all places of pointers.
    fn fits(&self, values: &Values) -> bool
        ensures { result ≡ list_all (λ k. is_pointer (value_at values.now k)) (self.now.pointers
            ++ self.now.cut) }
    {
        are_pointers(values, self.pointers.as_slice()) && are_pointers(values, self.cut.as_slice())
    }

    /// The own values, where pointers may be in all places of pointers.
    pub fn checked(self, values: &Values) -> Option<Own>
        ensures { result ≡ if list_all (λ k. is_pointer (value_at values.now k)) (self.pointers
            ++ self.cut) then Some self else None }
    {
        if self.fits(values) {
            return Some(self);
        }
        drop(self);
        None
    }
}

/// These places, from 1, in an empty list, whose room serves for them.
pub fn places(spare: ItemList<usize>, listed: &[usize]) -> Result<ItemList<usize>, NoMemory>
    requires { spare ≡ [] }
    ensures { IfOk result (λ list. list ≡ listed.now) }
{
    let mut list = spare;
    'listed: for place in listed {
        list.push(*place)?;
    }
    Ok(list)
}

/// So many places from the first on, one after the other, in an empty list.
pub fn places_from(
    spare: ItemList<usize>,
    first: usize,
    count: usize,
) -> Result<ItemList<usize>, NoMemory>
    requires few { first + count < 2 ^ 64 }
    requires empty { spare ≡ [] }
    ensures { IfOk result (λ list. list ≡ range_with_len first count) }
{
    let mut list = spare;
    'count: for i in 0..count {
        list.push(first + i)?;
    }
    Ok(list)
}
