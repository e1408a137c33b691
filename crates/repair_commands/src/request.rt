//! What the words of a command line ask for, and the file that they name.

ghost use Rattle.repair_commands.specs.Request.{choice_at, choice_of, chosen_request, command_named, file_named, mend_request, mended_request, numbered_request, one_request, request_of, second};
ghost use Rattle.std.specs.Prelude.{◌≡◌, MatchOption, None, Some, map, option_map, string_bytes};

use command_replies::{Words, entry_number_in};
use mend_commands::Choice;

/// The usage line.
pub const USAGE: &[u8] =
    b"usage: igesolid-repair relayout FILE | layout FILE | reorient FILE N | mend FILE N [R] | mended FILE N [R]\n";

/// A command on the lines of a file.
#[derive(Clone, Copy)]
pub enum LineCommand {
    /// The file in the layout of the fixed form.
    Relayout,
    /// What is changed to make that file.
    Layout,
}

/// What the words of a command line ask for.
#[derive(Clone, Copy)]
pub enum Request {
    /// A command on the lines of a file.
    Lines(LineCommand),
    /// The file of a solid, named by its directory number, with face flags that fit.
    Reorient(u32),
    /// The file of a solid, named by its directory number, in which it is closed, by these remedies.
    Mend(u32, Choice),
    /// What is changed to make that file.
    Mended(u32, Choice),
}

fn command_named(word: &str) -> Option<LineCommand>
    ensures { result ≡ command_named word.now }
{
    if word == "relayout" {
        return Some(LineCommand::Relayout);
    }
    if word == "layout" {
        return Some(LineCommand::Layout);
    }
    None
}

fn lines_request(command: &str) -> Option<Request>
    ensures { result ≡ option_map Request.Lines (command_named command.now) }
{
    match command_named(command) {
        Some(command) => Some(Request::Lines(command)),
        None => None,
    }
}

fn one_request(number: &str) -> Option<Request>
    ensures { result ≡ one_request number.now }
{
    match entry_number_in(number) {
        Some(n) => Some(Request::Reorient(n)),
        None => None,
    }
}

fn mend_request(number: &str, choice: Choice) -> Option<Request>
    ensures { result ≡ mend_request number.now choice }
{
    match entry_number_in(number) {
        Some(n) => Some(Request::Mend(n, choice)),
        None => None,
    }
}

fn mended_request(number: &str, choice: Choice) -> Option<Request>
    ensures { result ≡ mended_request number.now choice }
{
    match entry_number_in(number) {
        Some(n) => Some(Request::Mended(n, choice)),
        None => None,
    }
}

fn numbered_request(command: &str, number: &str) -> Option<Request>
    ensures { result ≡ numbered_request command.now number.now }
{
    if command == "reorient" {
        return one_request(number);
    }
    if command == "mend" {
        return mend_request(number, Choice::Sure);
    }
    if command == "mended" {
        return mended_request(number, Choice::Sure);
    }
    None
}

// The number of a remedy: one digit from 1 to 6.
fn choice_in(word: &str) -> Option<Choice>
    ensures { result ≡ choice_of word.now }
{
    match word.as_bytes() {
        [digit] => choice_at(*digit),
        _ => None,
    }
}

fn choice_at(digit: u8) -> Option<Choice>
    ensures { result ≡ choice_at digit }
{
    if digit < b'1' || digit > b'6' {
        return None;
    }
    Some(Choice::Numbered(u32::from(digit - b'0')))
}

fn chosen_request(command: &str, number: &str, word: &str) -> Option<Request>
    ensures { result ≡ chosen_request command.now number.now (choice_of word.now) }
{
    let Some(choice) = choice_in(word) else {
        return None;
    };
    if command == "mend" {
        return mend_request(number, choice);
    }
    if command == "mended" {
        return mended_request(number, choice);
    }
    None
}

fn request_in(words: &[String]) -> Option<Request>
    ensures { result ≡ request_of (map string_bytes words.now) }
{
    match words {
        [command, _] => lines_request(command.as_str()),
        [command, _, number] => numbered_request(command.as_str(), number.as_str()),
        [command, _, number, choice] => {
            chosen_request(command.as_str(), number.as_str(), choice.as_str())
        }
        _ => None,
    }
}

// The second word; None where there are fewer.
fn second_of(words: &[String]) -> Option<&str>
    ensures { MatchOption result (second (map string_bytes words.now) ≡ None)
        (λ word. second (map string_bytes words.now) ≡ Some word.now) }
{
    match words {
        [_, word, ..] => Some(word.as_str()),
        _ => None,
    }
}

/// What the words ask for; None where they have no listed form.
pub fn request_of(words: &Words) -> Option<Request>
    ensures { result ≡ request_of words.now }
{
    request_in(words.as_slice())
}

/// The name of the file that the words name; None where they have no listed form.
pub fn file_named(words: &Words) -> Option<&str>
    ensures { MatchOption result (file_named words.now ≡ None)
        (λ name. file_named words.now ≡ Some name.now) }
{
    match request_of(words) {
        Some(_) => second_of(words.as_slice()),
        None => None,
    }
}
