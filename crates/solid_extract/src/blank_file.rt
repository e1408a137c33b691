//! The file that an extraction begins with.

ghost use Rattle.iges_params.specs.Global.{have_kinds};
ghost use Rattle.std.specs.Prelude.{◌≡◌, [], IfOk};

use iges_base::NoMemory;
use iges_fields::{Delimiters, Values};
use iges_params::{File, Global26};
use std::alloc::Global;

/// A file with these delimiters, a blank start line and no entry, which is to take the front of another.
pub fn blank(alloc: Global, delims: Delimiters) -> Result<File, NoMemory>
    ensures { IfOk result (λ new. new.entries ≡ []) }
{
    let global = Global26 {
        delims,
        values: Values::new(alloc),
    };
    File::new(alloc, &[b' '; 72], global)
}
