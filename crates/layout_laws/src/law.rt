//! What a file keeps in the new layout, and that its lines pass and stay as they are.

ghost use Rattle.iges_base.specs.Ended.{ended};
ghost use Rattle.iges_base.specs.declared.TheConstants.{FILE_LIMIT};
ghost use Rattle.iges_lines.specs.LineFaults.{IsLineFault};
ghost use Rattle.iges_lines.specs.Lines.{SectionLines, joined};
ghost use Rattle.iges_lines.specs.Sectioned.{IsSectioned};
ghost use Rattle.iges_lines.specs.declared.fault.LineFault.{LineFault};
ghost use Rattle.layout_laws.specs.Kept.{IsMadeOf};
ghost use Rattle.line_layout.specs.Changes.{changed_lines};
ghost use Rattle.line_layout.specs.Judging.{line_fault};
ghost use Rattle.line_layout.specs.Marks.{is_tail_byte};
ghost use Rattle.line_layout.specs.Relaid.{relaid};
ghost use Rattle.line_layout.specs.declared.change.Change.{Change};
ghost use Rattle.std.specs.List.{list_all};
ghost use Rattle.std.specs.Prelude.{◌≡◌, ◌≤◌, ◌↔◌, ℕ, List, [], ◌++◌, ◌∷◌, None, Ok, IsTrue, IsFalse, flat_map, length};

/// A line with a byte too many or too few before its letter is refused: no content is moved into other columns.
pub fn shifted_line_is_refused()
    ensures { (content tail : List ℕ) (letter : ℕ) → IsTrue (list_all is_tail_byte tail)
        → IsFalse (is_tail_byte letter) → line_fault (content ++ letter ∷ tail) ≡ None
        → length content ≡ 72 }
{}

/// The file that is made has five sections, and their lines are those that were kept, in order, each with its columns 1
/// to 72 and in its section. No line fails, so none of the reasons of the pass over the lines refuses it.
pub fn made_file_is_read()
    ensures made { (bytes out : List ℕ) → relaid bytes ≡ Ok out → IsMadeOf bytes out }
    ensures passes { (bytes out : List ℕ) → relaid bytes ≡ Ok out
        → (fault : LineFault) → ¬ IsLineFault out fault }
{}

/// Making it again changes nothing.
pub fn made_file_stays()
    ensures { (bytes out : List ℕ) → relaid bytes ≡ Ok out → relaid out ≡ Ok out }
{}

/// A file whose lines are those of five sections is made again with the same sections, each line with its 80 columns.
/// Where each of its lines ends in LF and nothing follows the terminate line, every byte stays.
pub fn good_file_stays()
    ensures sections { (bytes : List ℕ) (s : SectionLines) → length bytes ≤ FILE_LIMIT
        → IsSectioned bytes s → (out : List ℕ) × (relaid bytes ≡ Ok out) × IsSectioned out s }
    ensures bytes { (bytes : List ℕ) (s : SectionLines) → length bytes ≤ FILE_LIMIT
        → (h : IsSectioned bytes s) → bytes ≡ flat_map ended (joined s ++ h.last ∷ [])
        → relaid bytes ≡ Ok bytes }
{}

/// The file that is made is the bytes themselves exactly where nothing is changed: where no counter counts anything.
pub fn unchanged_file_stays()
    ensures { (bytes out : List ℕ) → relaid bytes ≡ Ok out
        → ((out ≡ bytes) ↔ ((change : Change) → changed_lines change bytes ≡ [])) }
{}
