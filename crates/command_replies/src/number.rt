//! The numbers that words write.

ghost use Rattle.command_replies.specs.Numbers.{is_entry_number, is_number};
ghost use Rattle.iges_base.specs.Word.{are_digits};
ghost use Rattle.std.specs.Char.{is_ascii_digit};
ghost use Rattle.std.specs.List.{list_all};
ghost use Rattle.std.specs.Prelude.{◌≡◌, ◌&&◌, MatchOption, false, length, nat_le, true};
ghost use Rattle.std.specs.Str.Parse.{digits_value};

use iges_base::LINE_LIMIT;

fn all_digits(word: &[u8]) -> bool
    ensures { result ≡ list_all is_ascii_digit word.now }
{
    word.iter().all(|b| b.is_ascii_digit())
}

// Whether a word is at least one digit and at most so many.
fn is_short_number(word: &[u8], digits: usize) -> bool
    ensures { result ≡ (are_digits word.now && nat_le (length word.now) digits) }
{
    !word.is_empty() && all_digits(word) && word.len() <= digits
}

/// The number from the least to the greatest that a word writes in at most so many digits.
pub fn number_in(word: &str, digits: usize, least: u32, greatest: u32) -> Option<u32>
    ensures { MatchOption result (is_number digits least greatest word.now ≡ false)
        (λ n. (is_number digits least greatest word.now ≡ true)
        × (n ≡ digits_value 10 word.now)) }
{
    if !is_short_number(word.as_bytes(), digits) {
        return None;
    }
    let Ok(n) = word.parse::<u32>() else {
        return None;
    };
    if n < least || n > greatest {
        return None;
    }
    Some(n)
}

/// The directory number of an entry that a word writes: that of the first of its two lines (IGES 5.3, 2.2.4.4).
pub fn entry_number_in(word: &str) -> Option<u32>
    ensures { MatchOption result (is_entry_number word.now ≡ false)
        (λ n. (is_entry_number word.now ≡ true) × (n ≡ digits_value 10 word.now)) }
{
    number_in(word, 7, 1, LINE_LIMIT as u32)
}
