//! Columns of lines that may be short, and the numbers in them.

ghost use Rattle.line_layout.specs.Columns.{columns, has_count, has_greater, has_number, is_letter, natural, number_in, plain};
ghost use Rattle.iges_base.specs.Word.{column_number};
ghost use Rattle.std.specs.Option.{option_map_or};
ghost use Rattle.std.specs.Prelude.{◌≡◌, ◌≤◌, ◌<◌, ◌+◌, ◌^◌, drop, length, map, take};

use crate::marks::is_blank_byte;
use iges_base::column_number;

// Columns of a line, counted from 1, as far as it has them.
pub(crate) fn columns(line: &[u8], from: usize, to: usize) -> &[u8]
    requires from { 0 < from }
    requires to { from ≤ to }
    ensures is { result.now ≡ columns from to line.now }
    ensures length { length result.now + from ≤ to + 1 }
{
    if to <= line.len() {
        return &line[from - 1..to];
    }
    if from <= line.len() {
        return &line[from - 1..];
    }
    &line[line.len()..]
}

// What comes after column 80.
pub(crate) fn beyond(line: &[u8]) -> &[u8]
    ensures { result.now ≡ drop 80 line.now }
{
    if line.len() > 80 {
        return &line[80..];
    }
    &line[line.len()..]
}

// Whether a field of at most eight columns holds the number.
pub(crate) fn holds_number(field: &[u8], n: u64) -> bool
    requires field { length field.now ≤ 8 }
    requires n { n < 2 ^ 63 }
    ensures { result ≡ has_number field.now n }
{
    match column_number(field) {
        Some(z) => z == n as i64,
        None => false,
    }
}

// Whether a field of at most eight columns has the letter and then the count.
pub(crate) fn holds_count(field: &[u8], letter: u8, n: u64) -> bool
    requires field { length field.now ≤ 8 }
    requires letter { 0 < letter }
    requires n { n < 2 ^ 63 }
    ensures { result ≡ has_count letter n field.now }
{
    if field.is_empty() {
        return false;
    }
    field[0] == letter && holds_number(&field[1..], n)
}

// 0 for a number below 0.
fn natural(z: i64) -> u64
    ensures { result ≡ natural z }
{
    if z < 0 { 0 } else { z as u64 }
}

// A blank byte as a space.
fn plain(byte: u8) -> u8
    ensures { result ≡ plain byte }
{
    if is_blank_byte(byte) { b' ' } else { byte }
}

// The bytes of a field of at most eight columns, with its blank ones as spaces, and behind them spaces.
fn plain_columns(field: &[u8]) -> [u8; 8]
    requires { length field.now ≤ 8 }
    ensures { take (length field.now) result ≡ map plain field.now }
{
    let mut columns = [b' '; 8];
    'bytes: for i in 0..field.len() {
        columns[i] = plain(field[i]);
    }
    columns
}

// The number in a field of at most eight columns, with its blank bytes as spaces.
fn plain_number(field: &[u8]) -> u64
    requires { length field.now ≤ 8 }
    ensures { result ≡ option_map_or natural (column_number (map plain field.now)) 0 }
{
    let columns = plain_columns(field);
    match column_number(&columns[..field.len()]) {
        Some(z) => natural(z),
        None => 0,
    }
}

// The number in a field of at most eight columns, whatever blank bytes are around it; 0 where there is none.
pub(crate) fn number_in(field: &[u8]) -> u64
    requires { length field.now ≤ 8 }
    ensures { result ≡ number_in field.now }
{
    match column_number(field) {
        Some(z) => natural(z),
        None => plain_number(field),
    }
}

// Whether this is the letter, in lower case too.
fn is_letter(byte: u8, letter: u8) -> bool
    requires { letter < 128 }
    ensures { result ≡ is_letter letter byte }
{
    byte == letter || byte == letter + 32
}

// Whether a field of at most eight columns has the letter and then a greater count.
pub(crate) fn has_greater(field: &[u8], letter: u8, n: u64) -> bool
    requires field { length field.now ≤ 8 }
    requires some { 0 < letter }
    requires upper { letter < 128 }
    ensures { result ≡ has_greater letter n field.now }
{
    if field.is_empty() {
        return false;
    }
    is_letter(field[0], letter) && n < number_in(&field[1..])
}
