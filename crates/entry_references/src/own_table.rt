//! The own values of a record whose type is in the table.

ghost use Rattle.entry_references.specs.Layout.{own_in, fixed};
ghost use Rattle.entry_references.specs.PointForms.{form_number};
ghost use Rattle.entry_references.specs.Rows.{layout_of_row};
ghost use Rattle.entry_references.specs.declared.layout.Layout.TheVariants.{CompositeCurve, CopiousData, SplineCurve, Point, RationalCurve, RationalSurface};
ghost use Rattle.iges_base.specs.declared.TheConstants.{FILE_LIMIT};
ghost use Rattle.std.specs.Prelude.{◌≡◌, ◌+◌, ◌*◌, ◌≤◌, ◌==◌, [], IfOk, length, if◌then◌else◌};

use crate::layout::Layout;
use crate::own::{Own, places, places_from};
use crate::place::{PointForm, count_in, form_in};
use iges_base::{ItemList, NoMemory};
use iges_fields::Values;
use std::alloc::Global;

// A row with so many values (IGES 5.3, chapter 4; the section of each type is in the table).
fn with_fixed(
    alloc: Global,
    spare: ItemList<usize>,
    values: &Values,
    count: usize,
    pointers: &[usize],
) -> Result<Option<Own>, NoMemory>
    requires { spare ≡ [] }
    ensures { IfOk result (λ own. own ≡ own_in (fixed count pointers.now) values.now) }
{
    let own = Own::with_pointers(alloc, count, places(spare, pointers)?);
    Ok(own.checked(values))
}

// Composite curve (type 102; IGES 5.3, 4.4): N, and N curves.
fn of_composite_curve(
    alloc: Global,
    spare: ItemList<usize>,
    values: &Values,
) -> Result<Option<Own>, NoMemory>
    requires few { length values.now ≤ FILE_LIMIT }
    requires empty { spare ≡ [] }
    ensures { IfOk result (λ own. own ≡ own_in (layout_of_row CompositeCurve) values.now) }
{
    let Some(curves) = count_in(values, 1) else {
        return Ok(None);
    };
    let own = Own::with_pointers(alloc, 1 + curves, places_from(spare, 2, curves)?);
    Ok(own.checked(values))
}

// How many values so many points have.
fn point_values(form: PointForm, points: usize) -> usize
    requires { points ≤ FILE_LIMIT }
    ensures is { result ≡ if form_number form == 1 then 1 + 2 * points
        else (if form_number form == 2 then 3 * points else 6 * points) }
    ensures few { result ≤ 1 + 6 * points }
{
    match form {
        PointForm::Plane => 1 + 2 * points,
        PointForm::Space => 3 * points,
        PointForm::Directed => 6 * points,
    }
}

// Copious data (type 106; IGES 5.3, 4.6): IP, N, and N points by IP.
fn of_copious_data(alloc: Global, spare: ItemList<usize>, values: &Values) -> Option<Own>
    requires few { length values.now ≤ FILE_LIMIT }
    requires empty { spare ≡ [] }
    ensures { result ≡ own_in (layout_of_row CopiousData) values.now }
{
    let form = form_in(values, 1)?;
    let points = count_in(values, 2)?;
    Some(Own::plain(alloc, 2 + point_values(form, points), spare))
}

// Parametric spline curve (type 112; IGES 5.3, 4.14): 4 values, the last of which is N; N + 1 break points; 12
// coefficients for each of N segments; 12 values at the end.
fn of_spline_curve(alloc: Global, spare: ItemList<usize>, values: &Values) -> Option<Own>
    requires few { length values.now ≤ FILE_LIMIT }
    requires empty { spare ≡ [] }
    ensures { result ≡ own_in (layout_of_row SplineCurve) values.now }
{
    let segments = count_in(values, 4)?;
    Some(Own::plain(alloc, 4 + (segments + 1) + 12 * segments + 12, spare))
}

// Point (type 116; IGES 5.3, 4.16): 3 coordinates, and a display symbol, which is cut.
fn of_point(alloc: Global, spare: ItemList<usize>, values: &Values) -> Result<Option<Own>, NoMemory>
    requires { spare ≡ [] }
    ensures { IfOk result (λ own. own ≡ own_in (layout_of_row Point) values.now) }
{
    let cut = places(ItemList::new(alloc), &[4])?;
    let own = Own {
        count: 4,
        pointers: spare,
        cut,
    };
    Ok(own.checked(values))
}

// Rational B-spline curve (type 126; IGES 5.3, 4.23): K, M and 4 properties; K + M + 2 knots; K + 1 weights, and as
// many points of 3 values; the range of 2 values, and the normal of 3.
fn of_rational_curve(alloc: Global, spare: ItemList<usize>, values: &Values) -> Option<Own>
    requires few { length values.now ≤ FILE_LIMIT }
    requires empty { spare ≡ [] }
    ensures { result ≡ own_in (layout_of_row RationalCurve) values.now }
{
    let upper = count_in(values, 1)?;
    let degree = count_in(values, 2)?;
    Some(Own::plain(alloc, 6 + (upper + degree + 2) + 4 * (upper + 1) + 5, spare))
}

// How many own values a rational B-spline surface (type 128) has, by its upper indices and its degrees.
fn surface_values(uppers: (usize, usize), degrees: (usize, usize)) -> usize
    requires first { uppers.0 ≤ FILE_LIMIT }
    requires second { uppers.1 ≤ FILE_LIMIT }
    requires first_degree { degrees.0 ≤ FILE_LIMIT }
    requires second_degree { degrees.1 ≤ FILE_LIMIT }
    ensures { result ≡ 9 + (uppers.0 + degrees.0 + 2) + (uppers.1 + degrees.1 + 2) + 4 *
        (uppers.0 + 1) * (uppers.1 + 1) + 4 }
{
    let knots = (uppers.0 + degrees.0 + 2) + (uppers.1 + degrees.1 + 2);
    9 + knots + 4 * (uppers.0 + 1) * (uppers.1 + 1) + 4
}

// Rational B-spline surface (type 128; IGES 5.3, 4.24): K1, K2, M1, M2 and 5 properties; the knots of both directions;
// (K1 + 1)(K2 + 1) weights, and as many points of 3 values; the ranges of 2 values each.
fn of_rational_surface(alloc: Global, spare: ItemList<usize>, values: &Values) -> Option<Own>
    requires few { length values.now ≤ FILE_LIMIT }
    requires empty { spare ≡ [] }
    ensures { result ≡ own_in (layout_of_row RationalSurface) values.now }
{
    let first = count_in(values, 1)?;
    let second = count_in(values, 2)?;
    let first_degree = count_in(values, 3)?;
    let second_degree = count_in(values, 4)?;
    Some(Own::plain(
        alloc,
        surface_values((first, second), (first_degree, second_degree)),
        spare,
    ))
}

/// The own values by a layout (IGES 5.3, chapter 4); None where the record doesn't fit it. Each count is at
/// most the number of values, so that no product passes 64 bits. The places are put into the empty list.
pub fn own_in(
    alloc: Global,
    spare: ItemList<usize>,
    layout: Layout,
    values: &Values,
) -> Result<Option<Own>, NoMemory>
    requires few { length values.now ≤ FILE_LIMIT }
    requires empty { spare ≡ [] }
    ensures { IfOk result (λ own. own ≡ own_in (layout_of_row layout) values.now) }
{
    match layout {
        Layout::Fixed(count, pointers) => with_fixed(alloc, spare, values, count, pointers),
        Layout::CompositeCurve => of_composite_curve(alloc, spare, values),
        Layout::CopiousData => Ok(of_copious_data(alloc, spare, values)),
        Layout::SplineCurve => Ok(of_spline_curve(alloc, spare, values)),
        Layout::Point => of_point(alloc, spare, values),
        Layout::RationalCurve => Ok(of_rational_curve(alloc, spare, values)),
        Layout::RationalSurface => Ok(of_rational_surface(alloc, spare, values)),
    }
}
