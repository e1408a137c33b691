//! The words of entity types.

ghost use Rattle.std.specs.Ordering.{int_eq};
ghost use Rattle.std.specs.Prelude.{◌≡◌, ◌++◌, codes, find, map, MatchOption};
ghost use Rattle.where_text.specs.Spelled.{signed};
ghost use Rattle.where_text.specs.Types.{type_names, type_word};
ghost use Rattle.where_text.specs.TypeTable.{name_meant};

/// An entity type, by its number, and the word for it.
#[derive(Clone, Copy)]
pub struct TypeName(pub i64, pub &'static str);

// The types that have a word of their own (IGES 5.3, chapter 4; the words are own).
const TYPE_NAMES: &[TypeName] = &[
    TypeName(100, "circular-arc"),
    TypeName(102, "composite-curve"),
    TypeName(104, "conic-arc"),
    TypeName(106, "copious-data"),
    TypeName(108, "plane"),
    TypeName(110, "line"),
    TypeName(112, "spline-curve"),
    TypeName(114, "spline-surface"),
    TypeName(116, "point"),
    TypeName(118, "ruled-surface"),
    TypeName(120, "surface-of-revolution"),
    TypeName(122, "tabulated-cylinder"),
    TypeName(123, "direction"),
    TypeName(124, "matrix"),
    TypeName(126, "b-spline-curve"),
    TypeName(128, "b-spline-surface"),
    TypeName(130, "offset-curve"),
    TypeName(140, "offset-surface"),
    TypeName(141, "boundary"),
    TypeName(142, "curve-on-surface"),
    TypeName(143, "bounded-surface"),
    TypeName(144, "trimmed-surface"),
    TypeName(150, "block"),
    TypeName(152, "wedge"),
    TypeName(154, "right-cylinder"),
    TypeName(156, "right-cone"),
    TypeName(158, "ball"),
    TypeName(160, "ring"),
    TypeName(162, "solid-of-revolution"),
    TypeName(164, "solid-of-extrusion"),
    TypeName(168, "ellipsoid"),
    TypeName(180, "boolean-tree"),
    TypeName(184, "assembly"),
    TypeName(186, "solid"),
    TypeName(190, "plane-surface"),
    TypeName(192, "cylinder"),
    TypeName(194, "cone"),
    TypeName(196, "sphere"),
    TypeName(198, "torus"),
    TypeName(212, "note"),
    TypeName(308, "subfigure"),
    TypeName(314, "colour"),
    TypeName(402, "group"),
    TypeName(406, "property"),
    TypeName(408, "instance"),
    TypeName(430, "solid-instance"),
    TypeName(502, "vertex-list"),
    TypeName(504, "edge-list"),
    TypeName(508, "loop"),
    TypeName(510, "face"),
    TypeName(514, "shell"),
];

// The row of a type among rows.
fn name_in(rows: &[TypeName], kind: i64) -> Option<TypeName>
    ensures { result ≡ find (λ r. int_eq kind r.0) rows.now }
{
    'rows: for row in rows {
        if kind == row.0 {
            return Some(*row);
        }
    }
    None
}

fn listed() -> &'static [TypeName]
    ensures { map name_meant result.now ≡ type_names }
{
    TYPE_NAMES
}

/// The word of a type that has one of its own.
pub fn known_word(kind: i64) -> Option<&'static str>
    ensures { MatchOption result (type_word kind ≡ codes "type-" ++ signed kind)
        (λ word. type_word kind ≡ word.now) }
{
    match name_in(listed(), kind) {
        Some(row) => Some(row.1),
        None => None,
    }
}
