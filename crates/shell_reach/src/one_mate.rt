//! Rows of which each has one mate at most.

ghost use Rattle.std.specs.Prelude.{◌≡◌, ◌<◌, ℕ, length, MatchOption};
ghost use Rattle.edge_uses.specs.ShellRows.{ShellRows};
ghost use Rattle.edge_uses.specs.RowRelations.{AreMates};
ghost use Rattle.shell_reach.specs.OneMate.{HaveOneMate};

use edge_uses::{Paired, Rows};
use solid_data::RowId;

/// The rows of a shell, of which each has one mate at most.
pub trait Mates {
    /// The rows.
    ghost shell: { Self → ShellRows };

    /// The table of the rows.
    fn table(&self) -> &Rows
        ensures rows { result.now ≡ shell self.now }
        ensures one { HaveOneMate (shell self.now) };

    /// The mate of a row, where it has one.
    fn mate_of(&self, r: RowId) -> Option<RowId>
        requires { r.0 < length (shell self.now).rows }
        ensures { MatchOption result ((m : ℕ) → ¬ AreMates (shell self.now) r.0 m)
            (λ m. AreMates (shell self.now) r.0 m.0) };
}

impl<'a> Mates for Paired<'a> {
    ghost shell = { λ p. p };

    fn table(&self) -> &Rows {
        self.rows()
    }

    fn mate_of(&self, r: RowId) -> Option<RowId> {
        self.mate(r)
    }
}
