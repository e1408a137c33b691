//! How many members of a list are written.

ghost use Rattle.std.specs.Prelude.{◌≡◌, ◌≤◌, ◌++◌, [], codes, OnOk};
ghost use Rattle.where_text.specs.Listing.{left_line, left_words, shown, shown_count};

use iges_base::{EntryNo, ItemList, NoMemory, Out, write_number};

/// How many members of a list are written where only few are.
const LIMIT: usize = 20;

/// How many members of each list are written.
#[derive(Clone, Copy)]
pub enum Listing {
    /// The first 20 members.
    Few,
    /// All members.
    All,
}

impl Listing {
    ghost use Rattle.std.specs.Prelude.{◌≡◌};
    ghost use Rattle.where_text.specs.Listing.{shown_count};

    /// How many members of a list of so many are written: the first ones.
    pub fn count(self, len: usize) -> usize
        ensures { result ≡ shown_count self len }
    {
        match self {
            Listing::Few => len.min(LIMIT),
            Listing::All => len,
        }
    }
}

// It is no more than the length.
fn shown_length(listing: Listing, len: usize) -> usize
    ensures is { result ≡ shown_count listing len }
    ensures within { result ≤ len }
{
    listing.count(len)
}

/// The members of a list that are written: the first ones.
pub fn shown_members<T>(listing: Listing, members: &[T]) -> &[T]
    ensures { result.now ≡ shown listing members.now }
{
    let count = shown_length(listing, members.len());
    &members[..count]
}

/// Numbers of entries that written facts name, in the order of writing, with repeats.
pub type EntryNumbers = ItemList<EntryNo>;

// The line that says how many more there are; nothing where there are none.
#[tactic(auto, unfolding(crate::specs::Listing::left_line))]
fn put_left(out: &mut Out, indent: &str, left: usize) -> Result<(), NoMemory>
    ensures { OnOk result (out.new ≡ out.old ++ left_line indent.now left) }
{
    if left == 0 {
        return Ok(());
    }
    out.put(indent.as_bytes())?;
    out.put(b"more ")?;
    write_number(out, left as u64)?;
    out.put(b"\n")
}

/// Appends the line that says how many paragraphs of a list aren't written; nothing where all are.
pub fn put_more_items(out: &mut Out, left: usize) -> Result<(), NoMemory>
    ensures text { OnOk result (out.new ≡ out.old ++ left_line [] left) }
{
    put_left(out, "", left)
}

/// Appends the line that says how many facts of a list aren't written; nothing where all are.
pub fn put_more_facts(out: &mut Out, left: usize) -> Result<(), NoMemory>
    ensures text { OnOk result (out.new ≡ out.old ++ left_line (codes "  ") left) }
{
    put_left(out, "  ", left)
}

/// Appends to a line of words how many words of a list aren't written; nothing where all are.
#[tactic(auto, unfolding(crate::specs::Listing::left_words))]
pub fn put_more_words(out: &mut Out, left: usize) -> Result<(), NoMemory>
    ensures text { OnOk result (out.new ≡ out.old ++ left_words left) }
{
    if left == 0 {
        return Ok(());
    }
    out.put(b" more ")?;
    write_number(out, left as u64)
}
