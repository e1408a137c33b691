//! Flags that suit a solid.

ghost use Rattle.flag_choice.specs.Suiting.{AllSuit, FlagsSuit};
ghost use Rattle.std.specs.Prelude.{◌<◌, Bool, IfNone, IfOk, IfSome, List, length};

use crate::choosing::chosen_for;
use face_orient::orient;
use iges_base::{ItemList, NoMemory};
use orient_certificate::{FlagList, OrientFault, Orientation};
use solid_data::{ShellAt, Solid};
use std::alloc::Global;

/// Flags for the faces of each shell of a solid, in the order of the solid's record.
pub type FlagLists = ItemList<FlagList>;

// Flags that suit a shell; None where no flags do.
fn shell_flags(alloc: Global, solid: &Solid, at: ShellAt) -> Result<Option<FlagList>, NoMemory>
    requires { at.0 < length solid.now.shells }
    ensures found { IfOk result (λ o. IfSome o (FlagsSuit solid.now at.0)) }
    ensures none { IfOk result (λ o. IfNone o ((x : List Bool) → ¬ FlagsSuit solid.now at.0 x)) }
{
    match orient(alloc, solid, at) {
        Ok(Orientation::Flags(kept)) => {
            let flags = chosen_for(alloc, solid, at, kept)?;
            Ok(Some(flags))
        }
        Ok(Orientation::Ring(_rows)) => Ok(None),
        Err(OrientFault::Fails(_failing)) => Ok(None),
        Err(OrientFault::NoMemory) => Err(NoMemory),
    }
}

/// Flags for each shell under which each edge is used in opposite directions, of the two lists that fit the one that is
/// chosen; None where some shell has none.
pub fn fitting_flags(alloc: Global, solid: &Solid) -> Result<Option<FlagLists>, NoMemory>
    ensures found { IfOk result (λ o. IfSome o (AllSuit solid.now)) }
    ensures none { IfOk result
        (λ o. IfNone o ((x : List (List Bool)) → ¬ AllSuit solid.now x)) }
{
    let mut lists = ItemList::new(alloc);
    'shells: for k in 0..solid.shell_count() {
        let Some(flags) = shell_flags(alloc, solid, ShellAt(k as u32))? else {
            return Ok(None);
        };
        lists.push(flags)?;
    }
    Ok(Some(lists))
}
