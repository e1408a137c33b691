//! The loops of a face, of which one takes no memory.

ghost use Rattle.std.specs.Prelude.{◌≡◌, ◌<◌, ◌^◌, ◌↔◌, ◌∷◌, ◌++◌, [], length, IfOk, IsSome, IfSome, OnOk, OnErr, option_copied, slice_get, None};
ghost use Rattle.solid_data.specs.OneOrMany.{one_or_many};

use crate::solid::Loop;
use iges_base::NoMemory;
use std::alloc::Global;
use std::marker::Model;
use std::mem::size_of;
use std::slice;

/// The loops of a face, in the order of the face's record (IGES 5.3, 4.148). One loop alone takes no memory.
#[derive(Drop)]
pub struct Loops {
    // Where there is one, the many are of no account.
    one: Option<Loop>,
    many: Vec<Loop>,
}

impl Model for Loops {
    ghost use Rattle.std.specs.Prelude.{List};
    ghost use Rattle.solid_data.specs.declared.solid.Loop.{Loop as OneLoop};
    ghost use Rattle.solid_data.specs.OneOrMany.{one_or_many};

    ghost Value = { List OneLoop };

    ghost view = { λ l. one_or_many l.one l.many.items };
}

impl Loops {
    /// A list of no loops.
    pub fn new(alloc: Global) -> Loops
        ensures { result ≡ [] }
    {
        Loops {
            one: None,
            many: Vec::new(alloc),
        }
    }

    /// A list of no loops, with memory for so many. It errs only where memory runs out.
    pub fn with_room(alloc: Global, count: usize) -> Result<Loops, NoMemory>
        ensures { IfOk result (λ list. list ≡ []) }
    {
        if count < 2 {
            return Ok(Loops::new(alloc));
        }
        Ok(Loops {
            one: None,
            many: Vec::with_capacity(alloc, count)?,
        })
    }

    /// Puts a loop at the end. Where memory runs out, the loop is dropped and the list is as it was.
    #[inline(always)]
    pub fn push(&mut self, item: Loop) -> Result<(), NoMemory>
        ensures ok { OnOk result (self.new ≡ self.old ++ item ∷ []) }
        ensures err { OnErr result (self.new ≡ self.old) }
    {
        if self.one.is_none() && self.many.is_empty() {
            self.one = Some(item);
            return Ok(());
        }
        move_one(&mut self.one, &mut self.many)?;
        self.many.push(item)?;
        Ok(())
    }

    /// How many loops there are.
    pub fn len(&self) -> usize
        ensures { result ≡ length self.now }
    {
        self.as_slice().len()
    }

    /// The loops in their order.
    #[inline(always)]
    pub fn as_slice(&self) -> &[Loop]
        ensures { result.now ≡ self.now }
    {
        match &self.one {
            Some(one) => slice::from_ref(one),
            None => self.many.as_slice(),
        }
    }

    /// The i-th loop, counted from 0; None past the end.
    pub fn get(&self, i: usize) -> Option<&Loop>
        ensures item { option_copied result ≡ slice_get self.now i }
        ensures within { IsSome result ↔ (i < length self.now) }
        ensures few { IfSome result (λ _. length self.now < 2 ^ 64) }
    {
        let loops = self.as_slice();
        if i >= loops.len() {
            return None;
        }
        Some(&loops[i])
    }
}

// Moves the one loop, where there is one, to the many. Where memory runs out, the loops are as they were.
fn move_one(one: &mut Option<Loop>, many: &mut Vec<Loop>) -> Result<(), NoMemory>
    ensures none { OnOk result (one.new ≡ None) }
    ensures many { OnOk result (many.new.items ≡ one_or_many one.old many.old.items) }
    ensures err { OnErr result (one_or_many one.new many.new.items ≡ one_or_many one.old many.old.items) }
{
    if one.is_none() {
        return Ok(());
    }
    many.clear();
    many.reserve(2)?;
    if let Some(first) = one.take() {
        many.push_reserved(first);
    }
    Ok(())
}

const _: () = prove!(size_of::<Loops>() == 96);
