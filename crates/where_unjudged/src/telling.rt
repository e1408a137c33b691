//! All that is said of what stands in a file beside its solids.

ghost use Rattle.std.specs.Prelude.{◌≡◌, ◌++◌, OnOk};
ghost use Rattle.where_unjudged.specs.Counts.{AreTypeCounts};
ghost use Rattle.where_unjudged.specs.Hints.{other_solid_types, surface_types};
ghost use Rattle.where_unjudged.specs.Loose.{loose as loose_members};
ghost use Rattle.where_unjudged.specs.Unjudged.{unjudged_hints, unjudged_lines, unjudged_text};
ghost use Rattle.where_unjudged.specs.declared.member.Member.TheVariants as member;

use crate::counting::type_counts;
use crate::hints::{
    has_some, put_faces_hint, put_other_solids_hint, put_shells_hint, put_trimmed_hint,
};
use crate::lines::{put_members, put_types};
use crate::loose::loose;
use crate::member::Member;
use iges_base::{NoMemory, Out};
use iges_params::File;
use std::alloc::Global;
use where_text::EntryNumbers;

// Bounded and trimmed surfaces.
const SURFACES: [u16; 2] = [143, 144];

// Solids that are made by other means than faces.
const OTHER_SOLIDS: [u16; 12] = [150, 152, 154, 156, 158, 160, 162, 164, 168, 180, 184, 430];

#[tactic(auto, unfolding(crate::specs::Unjudged::unjudged_lines))]
fn put_lines(
    out: &mut Out,
    file: &File,
    shells: &EntryNumbers,
    faces: &EntryNumbers,
    counts: &[usize],
) -> Result<(), NoMemory>
    requires shells { shells.now ≡ loose_members member.Shell file.now }
    requires faces { faces.now ≡ loose_members member.Face file.now }
    requires counts { AreTypeCounts file.now counts.now }
    ensures { OnOk result (out.new ≡ out.old ++ unjudged_lines file.now) }
{
    put_members(out, Member::Shell, file, shells)?;
    put_members(out, Member::Face, file, faces)?;
    put_types(out, counts, &SURFACES)?;
    put_types(out, counts, &OTHER_SOLIDS)
}

#[tactic(auto, unfolding(crate::specs::Unjudged::unjudged_hints))]
fn put_hints(
    out: &mut Out,
    file: &File,
    shells: &EntryNumbers,
    faces: &EntryNumbers,
    counts: &[usize],
) -> Result<(), NoMemory>
    requires shells { shells.now ≡ loose_members member.Shell file.now }
    requires faces { faces.now ≡ loose_members member.Face file.now }
    requires counts { AreTypeCounts file.now counts.now }
    ensures { OnOk result (out.new ≡ out.old ++ unjudged_hints file.now) }
{
    put_shells_hint(out, file, shells)?;
    put_faces_hint(out, faces)?;
    put_trimmed_hint(out, has_some(counts, &SURFACES))?;
    put_other_solids_hint(out, has_some(counts, &OTHER_SOLIDS))
}

/// Appends what is said of what stands in a file beside its solids: the shells that no solid names, the faces that no shell
/// names, the first 20 of each by number, and how many entities there are of other types that may describe a body; and what
/// can be done with them. Nothing is followed through groups, instances and subfigures. The file's records are gone through
/// once for shells, once for faces and once for types.
#[tactic(auto, unfolding(crate::specs::Unjudged::unjudged_text))]
pub fn put_unjudged(alloc: Global, out: &mut Out, file: &File) -> Result<(), NoMemory>
    ensures text { OnOk result (out.new ≡ out.old ++ unjudged_text file.now) }
{
    let shells = loose(alloc, Member::Shell, file)?;
    let faces = loose(alloc, Member::Face, file)?;
    let counts = type_counts(alloc, file)?;
    put_lines(out, file, &shells, &faces, counts.as_slice())?;
    put_hints(out, file, &shells, &faces, counts.as_slice())
}
