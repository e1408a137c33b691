//! The loops of faces, the faces of shells and the shells of solids.

ghost use Rattle.brep_walk.specs.Known.{uses_places};
ghost use Rattle.brep_walk.specs.Numbered.{face_tuples, shell_tuples};
ghost use Rattle.brep_walk.specs.Places.{tuples, loops, numbers, faces};
ghost use Rattle.brep_walk.specs.SolidOf.{loop_by, use_by, face_by, shell_by};
ghost use Rattle.brep_walk.specs.Stands.{Stands};
ghost use Rattle.brep_walk.specs.Walked.{IsFault};
ghost use Rattle.solid_data.specs.Obligations.{AllHold};
ghost use Rattle.std.specs.Prelude.{◌≡◌, ◌∷◌, ◌++◌, ◌<◌, ◌^◌, [], map, flat_map, length, pos, IfOk, IfErr, OnOk};

use crate::fault::WalkFault;
use crate::naming::names_geometry;
use crate::once::note;
use crate::state::WalkState;
use brep_loops::{FaceRecord, LoopRecord, ShellRecord, SolidRecord};
use iges_base::EntryNo;
use solid_data::{FaceUse, Faces, Loop, Loops, Place, Rule, Shell, Shells, Uses};
use std::alloc::Global;

impl<'a> WalkState<'a> {
    ghost use Rattle.brep_walk.specs.Walks.{FacesAlike, IsMadeAt, NamesAlike, NamesFaces, NamesLoops, Walks, face_here, faces_in_shell, loop_here, loops_in_face, shell_here, shells_in_solid};

    // The uses of a loop. How the walk of its tuples ends is remembered.
    fn loop_uses(
        &mut self,
        alloc: Global,
        no: EntryNo,
        listed: &LoopRecord<'_>,
    ) -> Result<Uses, WalkFault>
        requires few { length listed.now < 2 ^ 31 }
        requires listed { listed.now ≡ tuples self.old.lists (pos no.0) }
        requires stands { Stands self.old.lists self.old.lists self.old.numbering }
        ensures walks { Walks self.old self.new result listed.now }
        ensures others { OnOk result (NamesAlike self.old self.new) }
        ensures made { IfOk result (IsMadeAt self.new (λ keys. map (use_by keys) listed.now)) }
        ensures holds { OnOk result (AllHold (uses_places self.old.lists (pos no.0))) }
        ensures fault { IfErr result (IsFault (uses_places self.old.lists (pos no.0))) }
    {
        if let Some(failing) = self.lists.failing_of(no) {
            return Err(WalkFault::Fails(failing));
        }
        let is_known = self.lists.is_walked(no);
        match self.walk_tuples(alloc, no, listed, is_known) {
            Ok(uses) => {
                self.lists.keep_walked(no)?;
                Ok(uses)
            }
            Err(WalkFault::Fails(failing)) => {
                self.lists.keep_failing(no, failing)?;
                Err(WalkFault::Fails(failing))
            }
            Err(WalkFault::NoMemory) => Err(WalkFault::NoMemory),
        }
    }

    /// The loop that the number at a place names, where all that it names is there.
    pub fn walk_loop(&mut self, alloc: Global, at: Place, number: i64) -> Result<Loop, WalkFault>
        requires { Stands self.old.lists self.old.lists self.old.numbering }
        ensures walks { Walks self.old self.new result (tuples self.old.lists number) }
        ensures named { OnOk result (self.new.loops ≡ self.old.loops ++ number ∷ []) }
        ensures others { OnOk result (FacesAlike self.old self.new) }
        ensures made { IfOk result (IsMadeAt self.new
            (λ keys. loop_by self.old.lists keys number)) }
        ensures holds { OnOk result (AllHold (loop_here self.old at number)) }
        ensures fault { IfErr result (IsFault (loop_here self.old at number)) }
    {
        let (entity, listed) = self.lists.record::<LoopRecord<'a>>(at, number)?;
        note(&mut self.loops, at, number, entity)?;
        let uses = self.loop_uses(alloc, entity, &listed)?;
        Ok(Loop { entity, uses })
    }

    /// The loops that a face's record lists, in its order, where all that they name is there.
    pub fn walk_loops(
        &mut self,
        alloc: Global,
        no: EntryNo,
        listed: &FaceRecord<'_>,
    ) -> Result<Loops, WalkFault>
        requires few { length listed.now.loops < 2 ^ 31 }
        requires stands { Stands self.old.lists self.old.lists self.old.numbering }
        ensures walks { Walks self.old self.new result
            (flat_map (tuples self.old.lists) listed.now.loops) }
        ensures named { OnOk result (self.new.loops ≡ self.old.loops ++ listed.now.loops) }
        ensures others { OnOk result (FacesAlike self.old self.new) }
        ensures made { IfOk result (IsMadeAt self.new
            (λ keys. map (loop_by self.old.lists keys) listed.now.loops)) }
        ensures holds { OnOk result (AllHold (loops_in_face self.old no listed.now.loops)) }
        ensures fault { IfErr result (IsFault (loops_in_face self.old no listed.now.loops)) }
    {
        let mut loops = Loops::with_room(alloc, listed.len())?;
        'loops: for i in 0..listed.len() {
            let number = listed.item(i).unwrap();
            let item = i as u32 + 1;
            let made = self.walk_loop(alloc, Place { entity: no, item }, number)?;
            loops.push(made)?;
        }
        Ok(loops)
    }

    /// The face that the number at a place names, with the flag of the shell that lists it, where all that it names is
    /// there.
    pub fn walk_face(
        &mut self,
        alloc: Global,
        at: Place,
        number: i64,
        flag: bool,
    ) -> Result<FaceUse, WalkFault>
        requires stands { Stands self.old.lists self.old.lists self.old.numbering }
        requires loops { NamesLoops self.old.lists self.old }
        ensures walks { Walks self.old self.new result (face_tuples self.old.lists (number, flag)) }
        ensures named { OnOk result (self.new.faces ≡ self.old.faces ++ number ∷ []) }
        ensures loops { OnOk result (NamesLoops self.old.lists self.new) }
        ensures others { OnOk result (self.new.shells ≡ self.old.shells) }
        ensures made { IfOk result (IsMadeAt self.new
            (λ keys. face_by self.old.lists keys (number, flag))) }
        ensures holds { OnOk result (AllHold (face_here self.old at number)) }
        ensures fault { IfErr result (IsFault (face_here self.old at number)) }
    {
        let (entity, listed) = self.lists.record::<FaceRecord<'a>>(at, number)?;
        note(&mut self.faces, at, number, entity)?;
        if !names_geometry(self.lists.file(), listed.surface()) {
            let place = Place { entity, item: 0 };
            return Err(WalkFault::Fails(place.fails(Rule::BadGeometry)));
        }
        let loops = self.walk_loops(alloc, entity, &listed)?;
        Ok(FaceUse {
            entity,
            flag,
            loops,
        })
    }

    /// The faces that a shell's record lists, in its order, where all that they name is there.
    pub fn walk_faces(
        &mut self,
        alloc: Global,
        no: EntryNo,
        listed: &ShellRecord<'_>,
    ) -> Result<Faces, WalkFault>
        requires few { length listed.now < 2 ^ 31 }
        requires stands { Stands self.old.lists self.old.lists self.old.numbering }
        requires loops { NamesLoops self.old.lists self.old }
        ensures walks { Walks self.old self.new result
            (flat_map (face_tuples self.old.lists) listed.now) }
        ensures named { OnOk result (self.new.faces ≡ self.old.faces ++ numbers listed.now) }
        ensures loops { OnOk result (NamesLoops self.old.lists self.new) }
        ensures others { OnOk result (self.new.shells ≡ self.old.shells) }
        ensures made { IfOk result (IsMadeAt self.new
            (λ keys. map (face_by self.old.lists keys) listed.now)) }
        ensures holds { OnOk result (AllHold (faces_in_shell self.old no listed.now)) }
        ensures fault { IfErr result (IsFault (faces_in_shell self.old no listed.now)) }
    {
        let mut faces = Faces::with_room(alloc, listed.len())?;
        'faces: for i in 0..listed.len() {
            let (number, flag) = listed.item(i).unwrap();
            let item = i as u32 + 1;
            let made = self.walk_face(alloc, Place { entity: no, item }, number, flag)?;
            faces.push(made)?;
        }
        Ok(faces)
    }

    /// The shell that the number at a place names, with the flag of the solid that lists it, where all that it names is
    /// there.
    pub fn walk_shell(
        &mut self,
        alloc: Global,
        at: Place,
        number: i64,
        flag: bool,
    ) -> Result<Shell, WalkFault>
        requires stands { Stands self.old.lists self.old.lists self.old.numbering }
        requires faces { NamesFaces self.old.lists self.old }
        requires loops { NamesLoops self.old.lists self.old }
        ensures walks { Walks self.old self.new result
            (shell_tuples self.old.lists (number, flag)) }
        ensures named { OnOk result (self.new.shells ≡ self.old.shells ++ number ∷ []) }
        ensures faces { OnOk result (NamesFaces self.old.lists self.new) }
        ensures loops { OnOk result (NamesLoops self.old.lists self.new) }
        ensures made { IfOk result (IsMadeAt self.new
            (λ keys. shell_by self.old.lists keys (number, flag))) }
        ensures holds { OnOk result (AllHold (shell_here self.old at number)) }
        ensures fault { IfErr result (IsFault (shell_here self.old at number)) }
    {
        let (entity, listed) = self.lists.record::<ShellRecord<'a>>(at, number)?;
        note(&mut self.shells, at, number, entity)?;
        let faces = self.walk_faces(alloc, entity, &listed)?;
        Ok(Shell {
            entity,
            flag,
            faces,
        })
    }

    /// The shells of a solid, which are the first that are walked.
    pub fn walk_shells(
        &mut self,
        alloc: Global,
        no: EntryNo,
        listed: &SolidRecord<'_>,
    ) -> Result<Shells, WalkFault>
        requires few { length listed.now.voids < 2 ^ 31 }
        requires stands { Stands self.old.lists self.old.lists self.old.numbering }
        requires named { self.old.shells ≡ [] }
        requires faces { self.old.faces ≡ [] }
        requires loops { self.old.loops ≡ [] }
        ensures walks { Walks self.old self.new result
            (flat_map (shell_tuples self.old.lists) (listed.now.outer ∷ listed.now.voids)) }
        ensures made { IfOk result (IsMadeAt self.new
            (λ keys. map (shell_by self.old.lists keys) (listed.now.outer ∷ listed.now.voids))) }
        ensures holds { OnOk result (AllHold (shells_in_solid self.old no
            (listed.now.outer ∷ listed.now.voids))) }
        ensures fault { IfErr result (IsFault (shells_in_solid self.old no
            (listed.now.outer ∷ listed.now.voids))) }
    {
        let mut shells = Shells::new(alloc);
        'shells: for i in 0..listed.len() {
            let (number, flag) = listed.item(i).unwrap();
            let item = i as u32 + 1;
            let made = self.walk_shell(alloc, Place { entity: no, item }, number, flag)?;
            shells.push(made)?;
        }
        Ok(shells)
    }
}
