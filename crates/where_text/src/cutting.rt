//! Words of any length, cut.

ghost use Rattle.std.specs.Prelude.{◌≡◌, ◌<◌, ◌≤◌, ◌++◌, OnOk, length};
ghost use Rattle.where_text.specs.Spelled.{continues, cut_mark, cut_place, kept, may_cut, shortened, text_shown};

use crate::masking::put_masked;
use iges_base::{NoMemory, Out};

/// How many bytes of a word are written where it stands by itself.
pub const WORD_LIMIT: usize = 100;

/// How many bytes of a number are written in a list.
pub const LIST_LIMIT: usize = 32;

// Whether a byte continues a character of UTF-8.
fn continues(b: u8) -> bool
    ensures { result ≡ continues b }
{
    b >= 128 && b < 192
}

#[tactic(auto, unfolding(crate::specs::Spelled::may_cut))]
fn may_cut(word: &[u8], i: usize) -> bool
    requires { i < length word.now }
    ensures { result ≡ may_cut word.now i }
{
    !continues(word[i])
}

// Where a long word is cut, so that no character is cut in two.
#[tactic(auto, unfolding(crate::specs::Spelled::cut_place))]
fn cut_place(word: &[u8], limit: usize) -> usize
    requires least { 3 ≤ limit }
    requires long { limit < length word.now }
    ensures is { result ≡ cut_place limit word.now }
    ensures within { result ≤ limit }
{
    if may_cut(word, limit) {
        limit
    } else if may_cut(word, limit - 1) {
        limit - 1
    } else if may_cut(word, limit - 2) {
        limit - 2
    } else if may_cut(word, limit - 3) {
        limit - 3
    } else {
        limit
    }
}

#[tactic(auto, unfolding(crate::specs::Spelled::kept))]
fn kept(word: &[u8], limit: usize) -> &[u8]
    requires { 3 ≤ limit }
    ensures { result.now ≡ kept limit word.now }
{
    if word.len() > limit {
        let place = cut_place(word, limit);
        return &word[..place];
    }
    word
}

#[tactic(auto, unfolding(crate::specs::Spelled::cut_mark))]
fn put_cut_mark(out: &mut Out, word: &[u8], limit: usize) -> Result<(), NoMemory>
    ensures { OnOk result (out.new ≡ out.old ++ cut_mark limit word.now) }
{
    if word.len() > limit {
        return out.put(b"..");
    }
    Ok(())
}

/// Appends a word; of one of more bytes than the limit the first ones, and two dots.
pub fn put_shortened(out: &mut Out, word: &[u8], limit: usize) -> Result<(), NoMemory>
    requires { 3 ≤ limit }
    ensures text { OnOk result (out.new ≡ out.old ++ shortened limit word.now) }
{
    out.put(kept(word, limit))?;
    put_cut_mark(out, word, limit)
}

/// Appends a text, each byte below 32 and each 127 as `?`; of one of more than 100 bytes the first ones, and two dots. No
/// character of UTF-8 is cut in two.
pub fn put_text(out: &mut Out, text: &[u8]) -> Result<(), NoMemory>
    ensures text { OnOk result (out.new ≡ out.old ++ text_shown text.now) }
{
    put_masked(out, kept(text, WORD_LIMIT))?;
    put_cut_mark(out, text, WORD_LIMIT)
}
