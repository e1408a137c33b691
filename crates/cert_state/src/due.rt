//! The lines that are due of a shell.

ghost use Rattle.std.specs.Prelude.{◌≡◌, ◌↔◌, ◌<◌, ◌^◌, IsTrue, length};
ghost use Rattle.cert_state.specs.Progress.{CornerDue, EdgeDue, ReachDue, TallyDue, tallies as tallies_of};
ghost use Rattle.cert_state.specs.CheckState.{all_due, lines_due};

use cert_lines::Version;
use edge_uses::Rows;

/// How many lines of each kind are still due of a shell; corner and point lines are one kind. The kinds come one
/// after the other, in the order of the fields.
#[derive(Clone, Copy)]
pub struct Due {
    pub edges: u32,
    pub corners: u32,
    pub reach: u32,
    pub tally: u32,
}

/// How many TALLY lines end a shell.
fn tallies(version: Version) -> u32
    ensures { result ≡ tallies_of version }
{
    match version {
        Version::One => 0,
        Version::Two | Version::Three => 1,
    }
}

impl Due {
    /// All lines of a shell.
    pub(crate) fn of_shell(version: Version, rows: &Rows) -> Due
        requires some { 0 < rows.now.face_count }
        requires few_edges { length rows.now.edges < 2 ^ 30 }
        requires few_vertices { length rows.now.vertices < 2 ^ 30 }
        ensures all { result ≡ all_due version rows.now }
        ensures few { lines_due result < 2 ^ 34 }
    {
        // Its clause says that a shell has few faces.
        let _count = rows.len();
        Due {
            edges: rows.edge_count() as u32,
            corners: rows.vertex_count() as u32,
            reach: rows.face_count() as u32 - 1,
            tally: tallies(version),
        }
    }

    /// Whether no line is due.
    pub(crate) fn is_none(&self) -> bool
        ensures { IsTrue result ↔ (lines_due self.now ≡ 0) }
    {
        self.edges == 0 && self.corners == 0 && self.reach == 0 && self.tally == 0
    }

    /// Whether an edge line may come next.
    pub(crate) fn has_edge(&self) -> bool
        ensures { IsTrue result ↔ EdgeDue self.now }
    {
        self.edges != 0
    }

    /// Whether a corner or a point line may come next.
    pub(crate) fn has_corner(&self) -> bool
        ensures { IsTrue result ↔ CornerDue self.now }
    {
        self.edges == 0 && self.corners != 0
    }

    /// Whether a reach line may come next.
    pub(crate) fn has_reach(&self) -> bool
        ensures { IsTrue result ↔ ReachDue self.now }
    {
        self.edges == 0 && self.corners == 0 && self.reach != 0
    }

    /// Whether a TALLY line may come next.
    pub(crate) fn has_tally(&self) -> bool
        ensures { IsTrue result ↔ TallyDue self.now }
    {
        self.edges == 0 && self.corners == 0 && self.reach == 0 && self.tally != 0
    }
}
