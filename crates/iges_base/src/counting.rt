//! How often a byte occurs in a text, many bytes at a time.

ghost use Rattle.std.specs.Prelude.{◌≡◌, ◌≤◌, length};

const ONES: u64 = 0x0101_0101_0101_0101;

const LOW_BITS: u64 = 0x7f7f_7f7f_7f7f_7f7f;

// How many bytes of the word are those of the pattern.
fn alike(word: u64, pattern: u64) -> usize {
    let differ = word ^ pattern;
    let marks = (differ & LOW_BITS).wrapping_add(LOW_BITS) | differ | LOW_BITS;
    ((!marks >> 7).wrapping_mul(ONES) >> 56) as usize
}

fn word_of(bytes: &[u8]) -> u64
    requires { length bytes.now ≡ 8 }
{
    let mut word = [0; 8];
    word.copy_from_slice(bytes);
    u64::from_le_bytes(word)
}

// The last so many bytes of a word, and zeros behind them.
fn last_of(word: u64, count: usize) -> u64
    requires { count ≤ 8 }
{
    if count == 0 {
        return 0;
    }
    word >> (8 * (8 - count))
}

// The count in a block of fewer than 256 bytes.
#[inline(always)]
fn count_in_block(block: &[u8], byte: u8) -> usize {
    let mut count: u8 = 0;
    'bytes: for b in block {
        count = count.wrapping_add(u8::from(*b == byte));
    }
    usize::from(count)
}

// The count in the blocks of 16 bytes at the front, and how many bytes are behind these.
#[inline(always)]
fn count_in_blocks(text: &[u8], byte: u8) -> (usize, usize)
    ensures { result.1 ≤ length text.now }
{
    let mut count: usize = 0;
    let mut rest = text;
    'pieces: while rest.len() >= 16 {
        let (block, behind) = rest.split_at(16);
        count = count.wrapping_add(count_in_block(block, byte));
        rest = behind;
    }
    (count, rest.len())
}

// The count in the last so many bytes.
#[inline(always)]
fn count_in_last(text: &[u8], count: usize, byte: u8) -> usize
    requires { count ≤ length text.now }
{
    if text.len() < 16 || count > 16 {
        let (_, last) = text.split_at(text.len() - count);
        return count_in_block(last, byte);
    }
    let (_, last) = text.split_at(text.len() - 16);
    let (low, high) = last.split_at(8);
    let pattern = ONES.wrapping_mul(u64::from(byte));
    let more = last_of(word_of(low), count.saturating_sub(8));
    let less = last_of(word_of(high), count.min(8));
    alike(more, pattern).wrapping_add(alike(less, pattern))
}

/// How often the byte occurs in the text. No more than a guess is promised, by which room is taken.
pub fn about_count(text: &[u8], byte: u8) -> usize {
    let (count, left) = count_in_blocks(text, byte);
    count.wrapping_add(count_in_last(text, left, byte))
}
