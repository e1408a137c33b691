//! The vertices of the first shells of a solid.

use crate::table::Rows;
use solid_data::VertexId;
use std::marker::Model;

/// The vertices of the first shells of a solid. They are the ones below a number, since vertices are numbered by first
/// appearance; so whoever goes over the shells in order keeps this number alone, and judges each shell in one
/// comparison.
#[derive(Clone, Copy)]
pub struct VerticesBefore {
    below: usize,
}

impl Model for VerticesBefore {
    ghost use Rattle.std.specs.Prelude.{ℕ};

    ghost Value = { ℕ };

    ghost view = { λ b. b.below };

    ghost inverse = { λ n. record { below = n } };
}

impl VerticesBefore {
    ghost use Rattle.std.specs.Prelude.{◌≡◌, ◌+◌, ◌<◌, ℕ, length, slice_get, MatchOption};
    ghost use Rattle.std.specs.List.{AllByRecursion};
    ghost use Rattle.solid_data.specs.Numbering.{IsNumberedSolid};
    ghost use Rattle.solid_data.specs.Obligations.{FirstNot};
    ghost use Rattle.solid_data.specs.SolidData.{SolidData};
    ghost use Rattle.edge_uses.specs.Before.{AreBelow, IsApart};
    ghost use Rattle.edge_uses.specs.ShellRows.{rows_of};

    pub(crate) fn below(below: usize) -> VerticesBefore
        ensures { result ≡ below }
    {
        VerticesBefore { below }
    }

    /// No vertices, as before the first shell.
    pub fn none() -> VerticesBefore
        ensures { (s : SolidData) → AreBelow s 0 result }
    {
        VerticesBefore { below: 0 }
    }

    /// The least vertex of the next shell, whose rows are given, that is one of these.
    pub fn first_shared(self, rows: &Rows) -> Option<VertexId>
        ensures { (s : SolidData) (k : ℕ) → AreBelow s k self → rows.now ≡ rows_of s (slice_get s.shells k) →
            MatchOption result (AllByRecursion (IsApart s k) rows.now.vertices) (λ v. FirstNot (IsApart s k) rows.now.vertices v.0) }
    {
        let least = *rows.vertex_slice().first()?;
        if (least as usize) < self.below {
            Some(VertexId(least))
        } else {
            None
        }
    }

    /// These vertices and those of the next shell, whose rows are given.
    pub fn with(self, rows: &Rows) -> VerticesBefore
        ensures { (s : SolidData) (k : ℕ) → IsNumberedSolid s → k < length s.shells → AreBelow s k self → rows.now ≡ rows_of s (slice_get s.shells k) →
            AreBelow s (k + 1) result }
    {
        match rows.vertex_slice().last() {
            Some(last) => VerticesBefore {
                below: self.below.max(*last as usize + 1),
            },
            None => self,
        }
    }
}
