//! Lists that are read and written at any place: beyond the end there is nothing.

/// No number.
pub const NONE: u32 = u32::MAX;

/// A count as a number; `NONE` where it is too large.
pub fn short(count: usize) -> u32 {
    if count < NONE as usize {
        count as u32
    } else {
        NONE
    }
}

/// The item at a place, or another beyond the end.
pub fn item_at<T: Copy>(list: &[T], i: u32, other: T) -> T {
    let i = i as usize;
    if i < list.len() { list[i] } else { other }
}

/// Writes the item at a place, and nothing beyond the end.
pub fn put_item<T: Copy>(list: &mut [T], i: u32, item: T) {
    let i = i as usize;
    if i < list.len() {
        list[i] = item;
    }
}

/// The number at a place; `NONE` beyond the end.
pub fn at(list: &[u32], i: u32) -> u32 {
    item_at(list, i, NONE)
}

/// Writes the number at a place.
pub fn put(list: &mut [u32], i: u32, n: u32) {
    put_item(list, i, n);
}

/// Adds one to the number at a place.
pub fn more(list: &mut [u32], i: u32) {
    let n = at(list, i);
    put(list, i, n.saturating_add(1));
}

/// Whether it is true at a place; not beyond the end.
pub fn is_set(list: &[bool], i: u32) -> bool {
    item_at(list, i, false)
}

/// Writes whether it is true at a place.
pub fn set(list: &mut [bool], i: u32, truth: bool) {
    put_item(list, i, truth);
}
