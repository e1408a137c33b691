//! What the words of a command line ask for, and the file that they name.

ghost use Rattle.std.specs.Prelude.{◌≡◌, ◌∷◌, [], List, MatchOption, None, Some, bytes_eq, codes, if◌then◌else◌, map, string_bytes, ℕ};
ghost use Rattle.where_command.specs.Asked.{asked_of, file_named, one_asked};

use command_replies::{Words, entry_number_in};
use where_text::Listing;

/// The usage line.
pub const USAGE: &[u8] = b"usage: igesolid-where FILE [N [all]]\n";

/// What the words of a command line ask for.
#[derive(Clone, Copy)]
pub enum Asked {
    /// The verdict on each solid of the file.
    Overview,
    /// Where a solid, named by its directory number, fails, with so many members of each list.
    Solid(u32, Listing),
}

// None where the word is no directory number.
fn one_asked(number: &str, listing: Listing) -> Option<Asked>
    ensures { result ≡ one_asked number.now listing }
{
    match entry_number_in(number) {
        Some(n) => Some(Asked::Solid(n, listing)),
        None => None,
    }
}

// The same with nothing left out of the listing, where the second word is `all`.
fn all_asked(number: &str, word: &str) -> Option<Asked>
    ensures { result ≡ if bytes_eq word.now (codes "all") then one_asked number.now Listing.All
        else None }
{
    if word == "all" {
        return one_asked(number, Listing::All);
    }
    None
}

fn asked_in(words: &[String]) -> Option<Asked>
    ensures { result ≡ asked_of (map string_bytes words.now) }
{
    match words {
        [_] => Some(Asked::Overview),
        [_, number] => one_asked(number.as_str(), Listing::Few),
        [_, number, word] => all_asked(number.as_str(), word.as_str()),
        _ => None,
    }
}

// The first of the words.
fn first_of(words: &[String]) -> Option<&str>
    ensures { MatchOption result (words.now ≡ [])
        (λ name. (rest : List (List ℕ)) × (map string_bytes words.now ≡ name.now ∷ rest)) }
{
    match words {
        [] => None,
        [file, ..] => Some(file.as_str()),
    }
}

/// What the words ask for; None where they have no listed form.
pub fn asked_of(words: &Words) -> Option<Asked>
    ensures { result ≡ asked_of words.now }
{
    asked_in(words.as_slice())
}

/// The name of the file that the words name; None where they have no listed form.
pub fn file_named(words: &Words) -> Option<&str>
    ensures { MatchOption result (file_named words.now ≡ None)
        (λ name. file_named words.now ≡ Some name.now) }
{
    match asked_of(words) {
        Some(_) => first_of(words.as_slice()),
        None => None,
    }
}
