//! A certificate as its parts.

use crate::version::Version;
use iges_base::{EntryNo, ItemList};
use solid_data::{Corners, RowId, RowList};

/// The two rows of each edge that occurs in a shell, the one along it first, by rising edge.
pub type EdgePairs = ItemList<(RowId, RowId)>;

/// Rows by which the faces but the first are reached, in a fitting order.
pub type ReachRows = RowList;

/// What a certificate says of a shell: how many rows, vertices, faces and loops it has, and its lines.
#[derive(Drop)]
pub struct ShellPart {
    /// How many edge uses the shell has.
    pub rows: u32,
    /// As many pairs as edges occur in the shell; each row is numbered within the shell, from 0.
    pub edges: EdgePairs,
    /// What lies at each vertex that occurs in the shell, those of loops without an edge among them.
    pub corners: Corners,
    /// How many faces the shell has.
    pub faces: u32,
    /// One row for each face but the first, numbered within the shell, from 0.
    pub reach: ReachRows,
    /// How many vertices occur in the shell; only versions 2 and 3 print it.
    pub vertices: u32,
    /// How many loops the faces of the shell have; only versions 2 and 3 print it.
    pub loops: u32,
}

/// The parts of the shells, the outer one first.
pub type ShellParts = ItemList<ShellPart>;

/// A certificate: its version, the solid that it names, and a part for each of its shells.
#[derive(Drop)]
pub struct Certificate {
    /// The version whose lines are written.
    pub version: Version,
    /// The solid's directory number (IGES 5.3, 2.2.4.4).
    pub solid: EntryNo,
    /// The outer shell first, and then the voids in the order of the solid's record.
    pub shells: ShellParts,
}

/// The certificates that are the parts of a book, by rising solid.
pub type Certificates = ItemList<Certificate>;
