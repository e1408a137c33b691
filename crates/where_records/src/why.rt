//! Why a number names no entry.

ghost use Rattle.std.specs.Prelude.{◌≡◌};
ghost use Rattle.where_records.specs.RecordText.{why_word};

use iges_params::File;

/// Why the number names no entry (IGES 5.3, 2.2.4.4), where it doesn't; the first reason that holds.
pub fn why(file: &File, number: i64) -> &'static str
    ensures { result.now ≡ why_word file.now number }
{
    if number < 0 {
        return "negative";
    }
    let number = number as u64;
    if number == 0 {
        "zero"
    } else if number % 2 == 0 {
        "even"
    } else if number > 2 * file.entry_count() as u64 {
        "beyond"
    } else {
        "null"
    }
}
