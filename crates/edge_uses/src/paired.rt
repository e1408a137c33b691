//! Rows that are paired.

use crate::table::Rows;
use solid_data::RowId;
use std::marker::Model;

/// The rows of a shell of which each has one mate: the row that runs on its edge in the other direction.
#[derive(Drop)]
pub struct Paired<'a> {
    rows: &'a Rows,
    mates: Vec<u32>,
}

impl<'a> Model for Paired<'a> {
    ghost use Rattle.edge_uses.specs.ShellRows.{ShellRows};

    ghost Value = { ShellRows };

    ghost use Rattle.edge_uses.specs.Mates.{HaveMates};

    ghost view = { λ p. p.rows.now };

    ghost invariant = { λ p. HaveMates p.rows.now p.mates.items };
}

impl<'a> Paired<'a> {
    ghost use Rattle.std.specs.Prelude.{◌≡◌, ◌≤◌, length, MatchOption};
    ghost use Rattle.edge_uses.specs.RowRelations.{AreMates, Turns};
    ghost use Rattle.edge_uses.specs.Mates.{ArePaired, HaveMates, AreInvolution, TurnsPermute};

    pub(crate) fn of(rows: &'a Rows, mates: Vec<u32>) -> Paired<'a>
        requires { HaveMates rows.now mates.items }
        ensures { result ≡ rows.now }
    {
        Paired { rows, mates }
    }

    /// The rows that were paired.
    pub fn rows(&self) -> &Rows
        ensures rows { result.now ≡ self.now }
        ensures whole { ArePaired self.now }
        ensures mates { AreInvolution self.now }
        ensures turns { TurnsPermute self.now }
    {
        self.rows
    }

    /// The row that runs on the same edge in the other direction; none past the end.
    pub fn mate(&self, r: RowId) -> Option<RowId>
        ensures { MatchOption result (length self.now.rows ≤ r.0) (λ m. AreMates self.now r.0 m.0) }
    {
        match self.mates.get(r.0 as usize) {
            Some(mate) => Some(RowId(*mate)),
            None => None,
        }
    }

    /// The row that follows the mate of a row; none past the end. Both start at one vertex.
    pub fn turn(&self, r: RowId) -> Option<RowId>
        ensures { MatchOption result (length self.now.rows ≤ r.0) (λ t. Turns self.now r.0 t.0) }
    {
        let mate = self.mate(r)?;
        self.rows.follows(mate)
    }
}
