//! The ten fields of a directory line: their bytes, their numbers and the status.

ghost use Rattle.iges_directory.specs.Bounds.{fits_columns};
ghost use Rattle.iges_directory.specs.Entries.{field, status_of};
ghost use Rattle.iges_base.specs.Word.{column_number};
ghost use Rattle.std.specs.Char.{is_ascii_digit};
ghost use Rattle.std.specs.Int.{to_be_bytes, w64};
ghost use Rattle.std.specs.List.{list_all};
ghost use Rattle.std.specs.Prelude.{◌≡◌, ◌+◌, ◌%◌, ◌<◌, ◌≤◌, ◌==◌, Some, if◌then◌else◌, length, IsTrue, IsFalse, IfSome, IfNone};

use iges_base::{column_number, low_digit};
use iges_lines::columns;

// The k-th field of a line, from 1.
fn field(line: &[u8], k: usize) -> &[u8]
    requires long { length line.now ≡ 80 }
    requires some { 0 < k }
    requires within { k ≤ 10 }
    ensures is { result.now ≡ field k line.now }
    ensures length { length result.now ≡ 8 }
{
    columns(line, 8 * k - 7, 8 * k)
}

/// The bytes of the k-th field of a line, from 1, as one number, of which the last is the lowest byte.
#[inline(always)]
pub fn word_in(line: &[u8], k: usize) -> u64
    requires long { length line.now ≡ 80 }
    requires some { 0 < k }
    requires within { k ≤ 10 }
    ensures { to_be_bytes w64 result ≡ field k line.now }
{
    u64::from_be_bytes(bytes_in(line, k))
}

// Seven spaces and the digit 0.
const ZERO_FIELD: u64 = 0x2020_2020_2020_2030;

// The digit in the last of the eight bytes, where the others are spaces.
#[inline(always)]
fn lone_digit(word: u64) -> Option<i64>
    ensures { IfSome result (λ n. column_number (to_be_bytes w64 word) ≡ Some n) }
{
    let above = word.wrapping_sub(ZERO_FIELD);
    if above < 10 { Some(above as i64) } else { None }
}

// Spaces and the digit 0 in seven columns, in six, in five, in four and in three.
const ZERO_IN_SEVEN: u64 = 0x0020_2020_2020_2030;

const ZERO_IN_SIX: u64 = 0x2020_2020_2030;

const ZERO_IN_FIVE: u64 = 0x0020_2020_2030;

const ZERO_IN_FOUR: u64 = 0x2020_2030;

const ZERO_IN_THREE: u64 = 0x0020_2030;

// The number of two digits behind spaces.
#[inline(always)]
fn two_digits(word: u64) -> Option<i64>
    ensures { IfSome result (λ n. column_number (to_be_bytes w64 word) ≡ Some n) }
{
    let ones = low_digit(word)?;
    let tens = (word / 0x100).wrapping_sub(ZERO_IN_SEVEN);
    if tens < 10 {
        return Some((tens * 10 + ones) as i64);
    }
    None
}

// The number of three digits behind spaces.
#[inline(always)]
fn three_digits(word: u64) -> Option<i64>
    ensures { IfSome result (λ n. column_number (to_be_bytes w64 word) ≡ Some n) }
{
    let ones = low_digit(word)?;
    let tens = low_digit(word / 0x100)?;
    let hundreds = (word / 0x1_0000).wrapping_sub(ZERO_IN_SIX);
    if hundreds < 10 {
        return Some((hundreds * 100 + tens * 10 + ones) as i64);
    }
    None
}

// The number of four digits behind spaces.
#[inline(always)]
fn four_digits(word: u64) -> Option<i64>
    ensures { IfSome result (λ n. column_number (to_be_bytes w64 word) ≡ Some n) }
{
    let ones = low_digit(word)?;
    let tens = low_digit(word / 0x100)?;
    let hundreds = low_digit(word / 0x1_0000)?;
    let thousands = (word / 0x100_0000).wrapping_sub(ZERO_IN_FIVE);
    if thousands < 10 {
        return Some((thousands * 1000 + hundreds * 100 + tens * 10 + ones) as i64);
    }
    None
}

// The number of five digits behind spaces.
#[inline(always)]
fn five_digits(word: u64) -> Option<i64>
    ensures { IfSome result (λ n. column_number (to_be_bytes w64 word) ≡ Some n) }
{
    let ones = low_digit(word)?;
    let tens = low_digit(word / 0x100)?;
    let hundreds = low_digit(word / 0x1_0000)?;
    let thousands = low_digit(word / 0x100_0000)?;
    let over = (word / 0x1_0000_0000).wrapping_sub(ZERO_IN_FOUR);
    if over < 10 {
        return Some((over * 10000 + thousands * 1000 + hundreds * 100 + tens * 10 + ones) as i64);
    }
    None
}

// The number of six digits behind spaces.
#[inline(always)]
fn six_digits(word: u64) -> Option<i64>
    ensures { IfSome result (λ n. column_number (to_be_bytes w64 word) ≡ Some n) }
{
    let ones = low_digit(word)?;
    let tens = low_digit(word / 0x100)?;
    let hundreds = low_digit(word / 0x1_0000)?;
    let thousands = low_digit(word / 0x100_0000)?;
    let above = low_digit(word / 0x1_0000_0000)?;
    let over = (word / 0x100_0000_0000).wrapping_sub(ZERO_IN_THREE);
    if over < 10 {
        let front = over * 100_000 + above * 10000;
        return Some((front + thousands * 1000 + hundreds * 100 + tens * 10 + ones) as i64);
    }
    None
}

// The number of two to six digits behind spaces.
#[inline(always)]
fn few_digits(word: u64) -> Option<i64>
    ensures { IfSome result (λ n. column_number (to_be_bytes w64 word) ≡ Some n) }
{
    if let Some(number) = two_digits(word) {
        return Some(number);
    }
    if let Some(number) = three_digits(word) {
        return Some(number);
    }
    if let Some(number) = four_digits(word) {
        return Some(number);
    }
    if let Some(number) = five_digits(word) {
        return Some(number);
    }
    six_digits(word)
}

/// The number in eight columns, of which the last is the lowest byte, where they are spaces and then one to six
/// digits. None may also be said of others that hold a number.
#[inline(always)]
pub fn short_number(word: u64) -> Option<i64>
    ensures { IfSome result (λ n. column_number (to_be_bytes w64 word) ≡ Some n) }
{
    match lone_digit(word) {
        Some(number) => Some(number),
        None => few_digits(word),
    }
}

// The number in the k-th field of a line, from 1, however it is spelled.
#[inline(never)]
fn spelled_number(line: &[u8], k: usize) -> Option<i64>
    requires long { length line.now ≡ 80 }
    requires some { 0 < k }
    requires within { k ≤ 10 }
    ensures { result ≡ column_number (field k line.now) }
{
    column_number(field(line, k))
}

// The number in the k-th field of a line, from 1, which mostly is that of a few digits.
#[inline(never)]
fn longer_number(line: &[u8], k: usize) -> Option<i64>
    requires long { length line.now ≡ 80 }
    requires some { 0 < k }
    requires within { k ≤ 10 }
    ensures { result ≡ column_number (field k line.now) }
{
    match few_digits(word_in(line, k)) {
        Some(number) => Some(number),
        None => spelled_number(line, k),
    }
}

/// The number in the k-th field of a line, from 1.
#[inline(always)]
pub fn number_in(line: &[u8], k: usize) -> Option<i64>
    requires long { length line.now ≡ 80 }
    requires some { 0 < k }
    requires within { k ≤ 10 }
    ensures number { result ≡ column_number (field k line.now) }
    ensures fits { IfSome result (λ n. IsTrue (fits_columns n)) }
{
    // Most fields have no more than a digit.
    match lone_digit(word_in(line, k)) {
        Some(number) => Some(number),
        None => longer_number(line, k),
    }
}

/// The bytes of the k-th field of a line, from 1.
pub fn bytes_in(line: &[u8], k: usize) -> [u8; 8]
    requires long { length line.now ≡ 80 }
    requires some { 0 < k }
    requires within { k ≤ 10 }
    ensures { result ≡ field k line.now }
{
    let mut bytes = [0; 8];
    bytes.copy_from_slice(field(line, k));
    bytes
}

// A byte, or 0 for a space.
fn digit_of(b: u8) -> u8
    ensures { result ≡ (if b == 32 then 48 else b) }
{
    if b == b' ' { b'0' } else { b }
}

// Eight bytes with 0 for each space.
fn with_zeros(bytes: [u8; 8]) -> [u8; 8]
    ensures { result ≡ status_of bytes }
{
    let mut digits = [b'0'; 8];
    'bytes: for (i, byte) in bytes.iter().enumerate() {
        digits[i] = digit_of(*byte);
    }
    digits
}

fn are_digits(bytes: &[u8]) -> bool
    ensures { result ≡ list_all is_ascii_digit bytes.now }
{
    bytes.iter().all(|b| b.is_ascii_digit())
}

// The status in the eight bytes, of which some may be spaces.
#[inline(never)]
fn spaced_status(bytes: [u8; 8]) -> Option<[u8; 8]>
    ensures none { IfNone result (IsFalse (list_all is_ascii_digit (status_of bytes))) }
    ensures some { IfSome result (λ status. status ≡ status_of bytes) }
    ensures digits { IfSome result (λ status. IsTrue (list_all is_ascii_digit status)) }
{
    let status = with_zeros(bytes);
    if are_digits(&status) {
        Some(status)
    } else {
        None
    }
}

/// The status in the 9th field of a line.
#[inline(always)]
pub fn status_in(line: &[u8]) -> Option<[u8; 8]>
    requires { length line.now ≡ 80 }
    ensures none { IfNone result (IsFalse (list_all is_ascii_digit
        (status_of (field 9 line.now)))) }
    ensures some { IfSome result (λ status. status ≡ status_of (field 9 line.now)) }
    ensures digits { IfSome result (λ status. IsTrue (list_all is_ascii_digit status)) }
{
    let bytes = bytes_in(line, 9);
    if are_digits(&bytes) {
        return Some(bytes);
    }
    spaced_status(bytes)
}
