//! Lists of values, whose texts hold no LF.

ghost use Rattle.iges_fields.specs.InLine.{is_value, stays_in_line};
ghost use Rattle.std.specs.List.{list_all};
ghost use Rattle.std.specs.Prelude.{◌≡◌, [], ◌∷◌, ◌++◌, ◌<◌, ◌≤◌, ◌^◌, ◌↔◌, IfOk, IfSome, IsSome, IsTrue, OnOk, OnErr, length, slice_get, option_copied};

mod editing;

use crate::value::Value;
use iges_base::{ItemList, NoMemory};
use std::alloc::Global;
use std::marker::Model;

/// The values of a free text in their order, of which no text holds an LF: a free text lies in lines
/// (IGES 5.3, 2.2.3).
#[derive(Drop)]
pub struct Values {
    values: ItemList<Value>,
}

impl Model for Values {
    ghost use Rattle.std.specs.List.{list_all};
    ghost use Rattle.std.specs.Prelude.{List, IsTrue};
    ghost use Rattle.iges_fields.specs.InLine.{is_value};
    ghost use Rattle.iges_fields.specs.declared.value.Value.{Value as OneValue};

    ghost Value = { List OneValue };

    ghost view = { λ v. v.values };

    ghost invariant = { λ v. IsTrue (list_all is_value v.values) };
}

impl Values {
    /// A list of no values, which takes no memory yet.
    pub fn new(alloc: Global) -> Values
        ensures { result ≡ [] }
    {
        Values {
            values: ItemList::new(alloc),
        }
    }

    /// A list of no values, with room for so many. It errs only where memory runs out.
    pub fn with_room(alloc: Global, count: usize) -> Result<Values, NoMemory>
        ensures { IfOk result (λ values. values ≡ []) }
    {
        Ok(Values {
            values: ItemList::with_room(alloc, count)?,
        })
    }

    /// Puts the value at the end. Where memory runs out, the value is dropped and the list is as it was.
    #[inline(always)]
    pub fn push(&mut self, value: Value) -> Result<(), NoMemory>
        requires { IsTrue (stays_in_line value) }
        ensures ok { OnOk result (self.new ≡ self.old ++ value ∷ []) }
        ensures err { OnErr result (self.new ≡ self.old) }
    {
        self.values.push(value)
    }

    /// Gives back the room that no value needs. Where memory for a smaller block runs out, the room stays.
    pub fn fit(&mut self)
        ensures { self.new ≡ self.old }
    {
        self.values.fit();
    }

    /// How many values there are.
    pub fn len(&self) -> usize
        ensures is { result ≡ length self.now }
        ensures values { IsTrue (list_all is_value self.now) }
    {
        self.values.len()
    }

    /// The values in their order.
    pub fn as_slice(&self) -> &[Value]
        ensures is { result.now ≡ self.now }
        ensures values { IsTrue (list_all is_value self.now) }
    {
        self.values.as_slice()
    }

    /// The i-th value, counted from 0; None past the end.
    pub fn get(&self, i: usize) -> Option<&Value>
        ensures value { option_copied result ≡ slice_get self.now i }
        ensures within { IsSome result ↔ (i < length self.now) }
        ensures few { IfSome result (λ _. length self.now < 2 ^ 64) }
        ensures is_value { IfSome result (λ v. IsTrue (is_value v.now)) }
    {
        self.values.get(i)
    }
}
