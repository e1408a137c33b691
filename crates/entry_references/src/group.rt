//! The groups of pointers after the own values.

ghost use Rattle.entry_references.specs.GroupPlaces.{group_between};
ghost use Rattle.entry_references.specs.Layout.{is_pointer};
ghost use Rattle.entry_references.specs.Refs.{is_group, group_at, second_group, are_groups, is_left_out};
ghost use Rattle.iges_base.specs.declared.TheConstants.{FILE_LIMIT};
ghost use Rattle.std.specs.List.{list_all};
ghost use Rattle.std.specs.Prelude.{◌≡◌, ◌+◌, ◌≤◌, true, false, MatchOption, drop, length, take, ◌*◌, ◌^◌, ◌<◌};

use crate::own::Own;
use crate::place::{count_in, is_pointer};
use iges_fields::{Value, Values};

/// A group of pointers (IGES 5.3, 2.2.4.5.2).
#[derive(Clone, Copy)]
pub struct Group {
    /// How many values come before the first pointer.
    pub before: usize,
    /// How many pointers there are, of which some may be missing at the record's end.
    pub count: usize,
}

fn are_pointers(values: &Values, before: usize, count: usize) -> bool
    requires few { before + count < 2 ^ 64 }
    ensures { result ≡ list_all is_pointer (take count (drop before values.now)) }
{
    let mut i = 0;
    'values: while i < count {
        let Some(value) = values.get(before + i) else {
            return true;
        };
        if !is_pointer(value) {
            return false;
        }
        i += 1;
    }
    true
}

fn is_left_out(value: &Value) -> bool
    ensures { result ≡ is_left_out value.now }
{
    matches!(value, Value::Default)
}

// Whether only left-out values come after so many values.
fn are_left_out(values: &Values, before: usize) -> bool
    ensures { result ≡ list_all is_left_out (drop before values.now) }
{
    let mut i = before;
    'values: while let Some(value) = values.get(i) {
        if !is_left_out(value) {
            return false;
        }
        i += 1;
    }
    true
}

// The group that comes after so many values.
fn group_at(values: &Values, before: usize) -> Option<Group>
    requires small { before ≤ 3 * FILE_LIMIT }
    requires few { length values.now ≤ FILE_LIMIT }
    ensures { MatchOption result (is_group values.now (group_at (drop before values.now)) ≡ false)
        (λ g. (is_group values.now (group_at (drop before values.now)) ≡ true) × (group_at (drop before values.now) ≡ group_between values.now g.before g.count)
        × (g.before ≡ before + 1) × (g.count ≤ length values.now)) }
{
    let count = count_in(values, before + 1)?;
    if !are_pointers(values, before + 1, count) {
        return None;
    }
    Some(Group {
        before: before + 1,
        count,
    })
}

/// The second of the two groups after the own values, where nothing else is there; a group may be missing.
pub fn second_group(own: &Own, values: &Values) -> Option<Group>
    requires { length values.now ≤ FILE_LIMIT }
    ensures { MatchOption result (are_groups own.now values.now ≡ false)
        (λ g. (are_groups own.now values.now ≡ true) × (second_group own.now values.now ≡ group_between values.now g.before g.count)
        × (g.before ≤ 3 * FILE_LIMIT) × (g.count ≤ FILE_LIMIT)) }
{
    let first = group_at(values, own.count.min(values.len()))?;
    let second = group_at(values, first.before + first.count)?;
    if !are_left_out(values, second.before + second.count) {
        return None;
    }
    Some(second)
}
