//! The uses of a loop, of which few take no memory.

ghost use Rattle.std.specs.Prelude.{◌≡◌, ◌<◌, ◌^◌, ◌↔◌, ◌∷◌, ◌++◌, [], length, IfOk, IsSome, IfSome, OnOk, OnErr, option_copied, slice_get};
ghost use Rattle.solid_data.specs.HeldUses.{uses_held, HoldsFew};

use crate::solid::{LoopUse, VertexId};
use iges_base::NoMemory;
use std::alloc::Global;
use std::marker::Model;
use std::mem::size_of;

// Most faces have at most four edges.
const FEW: usize = 4;

const BLANK: LoopUse = LoopUse::VertexUse {
    vertex: VertexId(0),
};

#[derive(Drop)]
struct Few {
    count: u32,
    uses: [LoopUse; 4],
}

#[derive(Drop)]
enum Held {
    Few(Few),
    Many(Vec<LoopUse>),
}

/// The uses of a loop, in the order of the loop's record (IGES 5.3, 4.147). Up to four of them take no memory.
#[derive(Drop)]
pub struct Uses {
    alloc: Global,
    held: Held,
}

impl Model for Uses {
    ghost use Rattle.std.specs.Prelude.{List};
    ghost use Rattle.solid_data.specs.HeldUses.{uses_held, HoldsFew};
    ghost use Rattle.solid_data.specs.declared.solid.LoopUse.{LoopUse as OneUse};

    ghost Value = { List OneUse };

    ghost view = { λ u. uses_held u.held };

    ghost invariant = { λ u. HoldsFew u.held };
}

fn slice_of(held: &Held) -> &[LoopUse]
    requires { HoldsFew held.now }
    ensures { result.now ≡ uses_held held.now }
{
    match held {
        Held::Few(few) => &few.uses[..few.count as usize],
        Held::Many(uses) => uses.as_slice(),
    }
}

// Some uses and one more, as the many.
fn spilled(alloc: Global, uses: &[LoopUse], item: LoopUse) -> Result<Vec<LoopUse>, NoMemory>
    ensures { IfOk result (λ many. many.items ≡ uses.now ++ item ∷ []) }
{
    let mut many = Vec::with_capacity(alloc, 2 * FEW)?;
    many.extend_from_slice(uses)?;
    many.push(item)?;
    Ok(many)
}

// Puts a use among the many. Where memory runs out, the uses are as they were.
fn push_many(alloc: Global, held: &mut Held, item: LoopUse) -> Result<(), NoMemory>
    requires { HoldsFew held.old }
    ensures kept { HoldsFew held.new }
    ensures ok { OnOk result (uses_held held.new ≡ uses_held held.old ++ item ∷ []) }
    ensures err { OnErr result (uses_held held.new ≡ uses_held held.old) }
{
    if let Held::Many(many) = held {
        many.push(item)?;
        return Ok(());
    }
    let many = spilled(alloc, slice_of(held), item)?;
    *held = Held::Many(many);
    Ok(())
}

impl Uses {
    /// A list of no uses.
    pub fn new(alloc: Global) -> Uses
        ensures { result ≡ [] }
    {
        Uses {
            alloc,
            held: Held::Few(Few {
                count: 0,
                uses: [BLANK; 4],
            }),
        }
    }

    /// A list of no uses, with memory for so many. It errs only where memory runs out.
    pub fn with_room(alloc: Global, count: usize) -> Result<Uses, NoMemory>
        ensures { IfOk result (λ list. list ≡ []) }
    {
        if count <= FEW {
            return Ok(Uses::new(alloc));
        }
        Ok(Uses {
            alloc,
            held: Held::Many(Vec::with_capacity(alloc, count)?),
        })
    }

    /// Puts a use at the end. Where memory runs out, the list is as it was.
    #[inline(always)]
    pub fn push(&mut self, item: LoopUse) -> Result<(), NoMemory>
        ensures ok { OnOk result (self.new ≡ self.old ++ item ∷ []) }
        ensures err { OnErr result (self.new ≡ self.old) }
    {
        if let Held::Few(few) = &mut self.held {
            let at = few.count as usize;
            if at < FEW {
                few.uses[at] = item;
                few.count += 1;
                return Ok(());
            }
        }
        push_many(self.alloc, &mut self.held, item)
    }

    /// How many uses there are.
    pub fn len(&self) -> usize
        ensures { result ≡ length self.now }
    {
        self.as_slice().len()
    }

    /// The uses in their order.
    #[inline(always)]
    pub fn as_slice(&self) -> &[LoopUse]
        ensures { result.now ≡ self.now }
    {
        slice_of(&self.held)
    }

    /// The i-th use, counted from 0; None past the end.
    pub fn get(&self, i: usize) -> Option<&LoopUse>
        ensures item { option_copied result ≡ slice_get self.now i }
        ensures within { IsSome result ↔ (i < length self.now) }
        ensures few { IfSome result (λ _. length self.now < 2 ^ 64) }
    {
        let uses = self.as_slice();
        if i >= uses.len() {
            return None;
        }
        Some(&uses[i])
    }
}

const _: () = prove!(size_of::<Uses>() == 56);
