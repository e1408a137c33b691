//! The types that extraction follows, but for those of a solid's own records.

ghost use Rattle.entry_references.specs.Layout.{layout_of, listed, is_other_property};
ghost use Rattle.entry_references.specs.Rows.{layout_of_row, layout_in_form};
ghost use Rattle.std.specs.Prelude.{find};
ghost use Rattle.std.specs.Ordering.{int_eq};
ghost use Rattle.std.specs.Prelude.{◌≡◌, ℤ, pos, option_map};

use iges_directory::Entry;

/// How many values of a record are its own, and which of them are pointers, in places counted from 1 without the type
/// number (IGES 5.3, chapter 4).
#[derive(Clone, Copy)]
pub enum Layout {
    /// So many values, with pointers in these places.
    Fixed(usize, &'static [usize]),
    /// N, and then N pointers (type 102).
    CompositeCurve,
    /// IP and N, and then 1 + 2N, 3N or 6N values for IP 1, 2, 3 (type 106).
    CopiousData,
    /// 4 values, of which N is the last, and then N + 1, 12N and 12 (type 112).
    SplineCurve,
    /// 4 values, of which the last is cut (type 116; the cut is own).
    Point,
    /// 6 values, of which K and M are the first, and then K + M + 2, 4(K + 1) and 5 (type 126).
    RationalCurve,
    /// 9 values, of which K1, K2, M1 and M2 are the first, and then K1 + M1 + 2, K2 + M2 + 2, 4(K1 + 1)(K2 + 1) and 4
    /// (type 128).
    RationalSurface,
}

/// The layouts of a type by its forms (IGES 5.3, chapter 4).
#[derive(Clone, Copy)]
pub enum Forms {
    /// One layout in each form.
    Every(Layout),
    /// One layout in form 1, and another in form 0, as which each other form is read.
    First(Layout, Layout),
}

// The layouts of a type; each is beside its name and its section (IGES 5.3, chapter 4). A table would be copied at each call.
fn forms_of(kind: i64) -> Option<Forms>
    ensures { (form : ℤ) → option_map (layout_in_form form) result
        ≡ option_map (λ row. row.1) (find (λ row. int_eq kind (pos row.0)) (listed form)) }
{
    match kind {
        100 => Some(Forms::Every(Layout::Fixed(7, &[]))), // circular arc, 4.3
        102 => Some(Forms::Every(Layout::CompositeCurve)), // composite curve, 4.4
        104 => Some(Forms::Every(Layout::Fixed(11, &[]))), // conic arc, 4.5
        106 => Some(Forms::Every(Layout::CopiousData)), // copious data, 4.6
        108 => Some(Forms::Every(Layout::Fixed(9, &[5]))), // plane, 4.12
        110 => Some(Forms::Every(Layout::Fixed(6, &[]))), // line, 4.13
        112 => Some(Forms::Every(Layout::SplineCurve)), // parametric spline curve, 4.14
        116 => Some(Forms::Every(Layout::Point)), // point, 4.16
        118 => Some(Forms::Every(Layout::Fixed(4, &[1, 2]))), // ruled surface, 4.17
        120 => Some(Forms::Every(Layout::Fixed(4, &[1, 2]))), // surface of revolution, 4.18
        122 => Some(Forms::Every(Layout::Fixed(4, &[1]))), // tabulated cylinder, 4.19
        123 => Some(Forms::Every(Layout::Fixed(3, &[]))), // direction, 4.20
        124 => Some(Forms::Every(Layout::Fixed(12, &[]))), // transformation matrix, 4.21
        126 => Some(Forms::Every(Layout::RationalCurve)), // rational B-spline curve, 4.23
        128 => Some(Forms::Every(Layout::RationalSurface)), // rational B-spline surface, 4.24
        140 => Some(Forms::Every(Layout::Fixed(5, &[5]))), // offset surface, 4.30
        // plane surface, 4.50
        190 => Some(Forms::First(Layout::Fixed(3, &[1, 2, 3]), Layout::Fixed(2, &[1, 2]))),
        // right circular cylindrical surface, 4.51
        192 => Some(Forms::First(Layout::Fixed(4, &[1, 2, 4]), Layout::Fixed(3, &[1, 2]))),
        // right circular conical surface, 4.52
        194 => Some(Forms::First(Layout::Fixed(5, &[1, 2, 5]), Layout::Fixed(4, &[1, 2]))),
        // spherical surface, 4.53
        196 => Some(Forms::First(Layout::Fixed(4, &[1, 3, 4]), Layout::Fixed(2, &[1]))),
        // toroidal surface, 4.54
        198 => Some(Forms::First(Layout::Fixed(5, &[1, 2, 5]), Layout::Fixed(4, &[1, 2]))),
        314 => Some(Forms::Every(Layout::Fixed(4, &[]))), // colour definition, in chapter 4
        406 => Some(Forms::Every(Layout::Fixed(2, &[]))), // property, in chapter 4; form 15 is the name
        _ => None,
    }
}

// The layout in this form; of two the first is that of form 1.
fn in_form(forms: Forms, form: i64) -> Layout
    ensures { layout_of_row result ≡ layout_in_form form forms }
{
    match forms {
        Forms::Every(layout) => layout,
        Forms::First(layout, _) if form == 1 => layout,
        Forms::First(_, layout) => layout,
    }
}

// Whether the entry is a property that isn't a name.
fn is_other_property(entry: &Entry) -> bool
    ensures { result ≡ is_other_property entry.now }
{
    entry.kind == 406 && entry.form != 15
}

/// The layout of a type in a form (IGES 5.3, chapter 4); None where the type isn't listed. Of the analytic
/// surfaces each form but 1 is read as 0, and of the properties only the name is listed.
pub fn layout_of(entry: &Entry) -> Option<Layout>
    ensures { option_map layout_of_row result ≡ layout_of entry.now }
{
    if is_other_property(entry) {
        return None;
    }
    match forms_of(entry.kind) {
        Some(forms) => Some(in_form(forms, entry.form)),
        None => None,
    }
}
