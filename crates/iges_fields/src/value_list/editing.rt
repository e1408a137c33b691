//! Replacing a value of a list, dropping those at its end, and taking all of them.

ghost use Rattle.iges_fields.specs.InLine.{stays_in_line};
ghost use Rattle.std.specs.Prelude.{◌≡◌, ◌<◌, [], IfOk, IsTrue, Some, length, set, slice_get, take};

use crate::value::Value;
use crate::value_list::Values;
use iges_base::NoMemory;
use std::alloc::Global;

impl Values {
    /// Puts a value in the place of the i-th, counted from 0, which is dropped.
    #[inline(always)]
    pub fn set(&mut self, i: usize, value: Value)
        requires within { i < length self.old }
        requires in_line { IsTrue (stays_in_line value) }
        ensures { self.new ≡ set self.old i value }
    {
        self.values.set(i, value);
    }

    /// Puts a value in the place of the i-th, counted from 0, and gives that.
    #[inline(always)]
    pub fn replace(&mut self, i: usize, value: Value) -> Value
        requires within { i < length self.old }
        requires in_line { IsTrue (stays_in_line value) }
        ensures values { self.new ≡ set self.old i value }
        ensures old { slice_get self.old i ≡ Some result }
    {
        self.values.replace(i, value)
    }

    /// Drops all values after the first so many.
    pub fn truncate(&mut self, count: usize)
        ensures { self.new ≡ take count self.old }
    {
        self.values.truncate(count);
    }

    /// The values in a list of their own, which takes no more memory than they need. None are left here, but their room
    /// is, also where memory runs out.
    pub fn taken(&mut self, alloc: Global) -> Result<Values, NoMemory>
        ensures ok { IfOk result (λ values. values ≡ self.old) }
        ensures left { self.new ≡ [] }
    {
        Ok(Values {
            values: self.values.taken(alloc)?,
        })
    }
}
