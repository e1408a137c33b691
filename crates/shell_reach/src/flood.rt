//! The faces that are reached so far.

ghost use Rattle.std.specs.Prelude.{◌≡◌, ◌<◌, ◌≤◌, ◌++◌, ◌∷◌, [], ℕ, true, length, Some, slice_get, slice_set, IfOk};
ghost use Rattle.edge_uses.specs.RowRelations.{OnFace, AreMates};
ghost use Rattle.solid_data.proofs.Members.{Has};
ghost use Rattle.shell_tables.specs.FaceRows.{AreFaceRows};
ghost use Rattle.shell_reach.specs.Reaching.{across, row_numbers};
ghost use Rattle.shell_reach.specs.OneMate.{HaveOneMate};
ghost use Rattle.shell_reach.specs.Flood.{face_numbers, IsFlood, IsDone, Grows, HasCrossed, Crosses, mate_at, across_place, across_all};

use crate::one_mate::Mates;
use iges_base::NoMemory;
use shell_tables::{FaceRows, face_of};
use solid_data::{FaceAt, RowId, RowList};
use std::alloc::Global;

/// Which faces are reached, in which order, and by which rows.
#[derive(Drop)]
pub struct Flood {
    /// One for each face of the shell, by its number from 0: whether it is reached.
    pub marks: Vec<bool>,
    /// The reached faces, from 0, in the order in which they were reached; the first face is the first.
    pub order: Vec<FaceAt>,
    /// For each face of `order` but the first, its row whose mate is on a face that was reached before.
    pub rows: RowList,
}

impl Flood {
    // Counts a face as reached by this row of it.
    fn add(&mut self, face: FaceAt, row: RowId) -> Result<(), NoMemory>
        requires { face.0 < length self.old.marks.items }
        ensures marks { IfOk result (λ _. self.new.marks.items
            ≡ slice_set self.old.marks.items face.0 true) }
        ensures order { IfOk result (λ _. self.new.order.items
            ≡ self.old.order.items ++ face ∷ []) }
        ensures rows { IfOk result (λ _. self.new.rows
            ≡ self.old.rows ++ row ∷ []) }
    {
        self.order.push(face)?;
        self.rows.push(row)?;
        self.marks[face.0 as usize] = true;
        Ok(())
    }

    /// Goes on from a row of a reached face to the face of its mate, where it has one.
    fn cross<M: Mates>(&mut self, mates: &M, face: FaceAt, r: RowId) -> Result<(), NoMemory>
        requires whole { HaveOneMate (M.shell mates.now) }
        requires row { OnFace (M.shell mates.now) face.0 r.0 }
        requires known { Has (face_numbers self.old.order.items) face.0 }
        requires flood { IsFlood (M.shell mates.now) self.old.marks.items (face_numbers self.old.order.items)
            (row_numbers self.old.rows) }
        ensures flood { IfOk result
            (λ _. IsFlood (M.shell mates.now) self.new.marks.items (face_numbers self.new.order.items)
            (row_numbers self.new.rows)) }
        ensures grows { IfOk result (λ _. Grows (face_numbers self.old.order.items) (face_numbers self.new.order.items)) }
        ensures there { IfOk result (λ _. (m g : ℕ) → AreMates (M.shell mates.now) r.0 m
            → OnFace (M.shell mates.now) g m → Has (face_numbers self.new.order.items) g) }
        ensures crossed { IfOk result (λ _. Crosses (M.shell mates.now) (mate_at r.0) (face_numbers self.old.order.items)
            (row_numbers self.old.rows) (face_numbers self.new.order.items) (row_numbers self.new.rows)) }
    {
        let Some(mate) = mates.mate_of(r) else {
            return Ok(());
        };
        let rows = mates.table();
        let other = face_of(rows, mate.0);
        if self.marks[other as usize] {
            return Ok(());
        }
        self.add(FaceAt(other), mate)
    }

    /// Goes on from each row of a reached face, by rising number.
    fn leave<M: Mates>(&mut self, mates: &M, faces: &FaceRows, face: FaceAt) -> Result<(), NoMemory>
        requires whole { HaveOneMate (M.shell mates.now) }
        requires table { AreFaceRows (M.shell mates.now) faces.now.first.items faces.now.next.items }
        requires known { Has (face_numbers self.old.order.items) face.0 }
        requires low { face.0 < (M.shell mates.now).face_count }
        requires flood { IsFlood (M.shell mates.now) self.old.marks.items (face_numbers self.old.order.items)
            (row_numbers self.old.rows) }
        ensures flood { IfOk result
            (λ _. IsFlood (M.shell mates.now) self.new.marks.items (face_numbers self.new.order.items)
            (row_numbers self.new.rows)) }
        ensures grows { IfOk result (λ _. Grows (face_numbers self.old.order.items) (face_numbers self.new.order.items)) }
        ensures done { IfOk result (λ _. IsDone (M.shell mates.now) (face_numbers self.new.order.items) face.0) }
        ensures crossed { IfOk result (λ _. Crosses (M.shell mates.now)
            (λ row_mates. across (M.shell mates.now) row_mates face.0) (face_numbers self.old.order.items)
            (row_numbers self.old.rows) (face_numbers self.new.order.items) (row_numbers self.new.rows)) }
    {
        let mut r = faces.first[face.0 as usize];
        'rows: while (r as usize) < faces.next.len() {
            self.cross(mates, face, RowId(r))?;
            r = faces.next[r as usize];
        }
        Ok(())
    }

    /// The first face alone.
    pub fn start<M: Mates>(alloc: Global, mates: &M, count: usize) -> Result<Flood, NoMemory>
        requires some { 0 < count }
        requires count { count ≡ (M.shell mates.now).face_count }
        ensures flood { IfOk result (λ flood. IsFlood (M.shell mates.now) flood.marks.items (face_numbers flood.order.items)
            (row_numbers flood.rows)) }
        ensures crossed { IfOk result (λ flood. HasCrossed (M.shell mates.now) [] (face_numbers flood.order.items)
            (row_numbers flood.rows)) }
    {
        let mut marks = vec![in alloc; false; count]?;
        marks[0] = true;
        let mut order = Vec::new(alloc);
        order.push(FaceAt(0))?;
        Ok(Flood {
            marks,
            order,
            rows: RowList::new(alloc),
        })
    }

    // Goes on from the face at a place of `order`, from 0; past the last one nothing is done.
    fn leave_next<M: Mates>(
        &mut self,
        mates: &M,
        faces: &FaceRows,
        q: usize,
    ) -> Result<(), NoMemory>
        requires whole { HaveOneMate (M.shell mates.now) }
        requires table { AreFaceRows (M.shell mates.now) faces.now.first.items faces.now.next.items }
        requires flood { IsFlood (M.shell mates.now) self.old.marks.items (face_numbers self.old.order.items)
            (row_numbers self.old.rows) }
        ensures flood { IfOk result
            (λ _. IsFlood (M.shell mates.now) self.new.marks.items (face_numbers self.new.order.items)
            (row_numbers self.new.rows)) }
        ensures grows { IfOk result (λ _. Grows (face_numbers self.old.order.items) (face_numbers self.new.order.items)) }
        ensures same { IfOk result (λ _. length (face_numbers self.old.order.items) ≤ q
            → (face_numbers self.new.order.items) ≡ (face_numbers self.old.order.items)) }
        ensures done { IfOk result (λ _. (f : ℕ) → slice_get (face_numbers self.new.order.items) q ≡ Some f
            → IsDone (M.shell mates.now) (face_numbers self.new.order.items) f) }
        ensures crossed { IfOk result (λ _. Crosses (M.shell mates.now)
            (across_place (M.shell mates.now) (face_numbers self.old.order.items) q) (face_numbers self.old.order.items)
            (row_numbers self.old.rows) (face_numbers self.new.order.items) (row_numbers self.new.rows)) }
    {
        if q >= self.order.len() {
            return Ok(());
        }
        let face = self.order[q];
        self.leave(mates, faces, face)
    }

    /// Goes on until no face is left.
    pub fn run<M: Mates>(
        &mut self,
        mates: &M,
        faces: &FaceRows,
        count: usize,
    ) -> Result<(), NoMemory>
        requires whole { HaveOneMate (M.shell mates.now) }
        requires table { AreFaceRows (M.shell mates.now) faces.now.first.items faces.now.next.items }
        requires count { count ≡ (M.shell mates.now).face_count }
        requires flood { IsFlood (M.shell mates.now) self.old.marks.items (face_numbers self.old.order.items)
            (row_numbers self.old.rows) }
        ensures flood { IfOk result
            (λ _. IsFlood (M.shell mates.now) self.new.marks.items (face_numbers self.new.order.items)
            (row_numbers self.new.rows)) }
        ensures done { IfOk result (λ _. (f : ℕ) → Has (face_numbers self.new.order.items) f
            → IsDone (M.shell mates.now) (face_numbers self.new.order.items) f) }
        ensures crossed { IfOk result (λ _. Crosses (M.shell mates.now)
            (across_all (M.shell mates.now) (face_numbers self.new.order.items)) (face_numbers self.old.order.items)
            (row_numbers self.old.rows) (face_numbers self.new.order.items) (row_numbers self.new.rows)) }
    {
        'places: for q in 0..count {
            self.leave_next(mates, faces, q)?;
        }
        Ok(())
    }
}
