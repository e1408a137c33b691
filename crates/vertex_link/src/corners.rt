//! What lies round each vertex.

use solid_data::{Corner, Corners};
use std::marker::Model;

/// A corner for each vertex of a shell, by rising number.
#[derive(Drop)]
pub struct Links {
    corners: Corners,
}

impl Model for Links {
    ghost use Rattle.std.specs.Prelude.{List};
    ghost use Rattle.solid_data.specs.declared.linked.Corner.{Corner};

    ghost Value = { List Corner };

    ghost view = { λ l. l.corners };
}

impl Links {
    ghost use Rattle.std.specs.Prelude.{◌≡◌, length, slice_get, option_copied};

    pub(crate) fn of(corners: Corners) -> Links
        ensures { result ≡ corners }
    {
        Links { corners }
    }

    /// How many vertices occur in the shell.
    pub fn len(&self) -> usize
        ensures { result ≡ length self.now }
    {
        self.corners.len()
    }

    /// What lies round the i-th vertex of the shell, by rising number, i from 0; None past the end.
    pub fn corner(&self, i: usize) -> Option<&Corner>
        ensures { option_copied result ≡ slice_get self.now i }
    {
        self.corners.get(i)
    }

    /// What lies round each vertex, by rising number.
    pub fn into_corners(self) -> Corners
        ensures { result ≡ self }
    {
        self.corners
    }
}
