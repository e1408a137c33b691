//! Marks of entries.

ghost use Rattle.record_numbers.specs.Marked.{mark_of, with_mark};
ghost use Rattle.std.specs.Prelude.{◌≡◌};

/// What is known of the number of an entry.
#[derive(Clone, Copy)]
pub enum Mark {
    /// It wasn't looked at.
    Unknown,
    /// It has none: something that it names has none.
    Endless,
    /// It has this one.
    Numbered(u32),
}

/// The mark of the entry that a number names.
pub fn mark_of(marks: &[Mark], number: i64) -> Mark
    ensures { result ≡ mark_of marks.now number }
{
    match usize::try_from(number) {
        Ok(place) if place < marks.len() => marks[place],
        _ => Mark::Unknown,
    }
}

/// Sets the mark of the entry that a number names.
pub fn set_mark(marks: &mut Vec<Mark>, number: i64, mark: Mark)
    ensures { marks.new.items ≡ with_mark marks.old.items number mark }
{
    if let Ok(place) = usize::try_from(number)
        && place < marks.len()
    {
        marks[place] = mark;
    }
}
