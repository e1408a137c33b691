//! The word for the type of an entity.

ghost use Rattle.iges_params.specs.Named.{named};
ghost use Rattle.std.specs.Prelude.{◌≡◌, ◌++◌, None, MatchOption, OnOk, codes, pos};
ghost use Rattle.where_text.specs.Spelled.{signed, space_word};
ghost use Rattle.where_text.specs.Types.{type_of, type_word};

use crate::type_names::known_word;
use iges_base::{NoMemory, Out};
use iges_params::File;
use itoa::Buffer;

fn put_unknown(out: &mut Out, kind: i64) -> Result<(), NoMemory>
    ensures { OnOk result (out.new ≡ out.old ++ (codes "type-" ++ signed kind)) }
{
    out.put(b"type-")?;
    out.put(Buffer::new().format(kind).as_bytes())
}

fn put_name(out: &mut Out, kind: i64) -> Result<(), NoMemory>
    ensures { OnOk result (out.new ≡ out.old ++ type_word kind) }
{
    match known_word(kind) {
        Some(word) => out.put(word.as_bytes()),
        None => put_unknown(out, kind),
    }
}

/// Appends a space and the word of a type.
pub fn put_type_word(out: &mut Out, kind: i64) -> Result<(), NoMemory>
    ensures text { OnOk result (out.new ≡ out.old ++ space_word (type_word kind)) }
{
    out.put(b" ")?;
    put_name(out, kind)
}

/// Appends a space and the word for the type of the entry that the number names; `-` where it names none.
#[tactic(auto, unfolding(crate::specs::Types::type_of))]
pub fn put_type(out: &mut Out, file: &File, number: i64) -> Result<(), NoMemory>
    ensures text { OnOk result (out.new ≡ out.old ++ space_word (type_of file.now number)) }
{
    let Some(no) = file.entry_no_of(number) else {
        return out.put(b" -");
    };
    match file.entry(no) {
        Some(entry) => put_type_word(out, entry.kind),
        None => out.put(b" -"),
    }
}
