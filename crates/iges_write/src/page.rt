//! Values laid out in lines, each with its letter and its number.

ghost use Rattle.iges_fields.specs.Delims.{are_permitted};
ghost use Rattle.iges_base.specs.declared.TheConstants.{FILE_LIMIT};
ghost use Rattle.iges_fields.specs.declared.value.Value.TheVariants as value;
ghost use Rattle.iges_write.specs.FileSheet.{blank};
ghost use Rattle.iges_write.specs.Filling.{fill};
ghost use Rattle.iges_write.specs.Text.{count_field};
ghost use Rattle.iges_write.specs.Parts.{parts, single_parts, value_parts, word_parts};
ghost use Rattle.iges_write.specs.Sheet.{Steps, add, append_text, begin, end_line, make_room, next_delimiter, put_lines, put_part, put_parts, record_tail, with_tail};
ghost use Rattle.std.specs.Prelude.{◌≡◌, ◌+◌, ◌<◌, ◌≤◌, ◌^◌, [], ◌∷◌, ◌++◌, ◌-◌, length, map, IfErr, IfOk, IsTrue, OnErr, OnOk, decimal};

use crate::column::{count_field, next_field};
use crate::fault::WriteFileFault;
use crate::line_text::LineText;
use iges_base::{Bytes, NoMemory};
use iges_fields::{Delimiters, Value};
use itoa::{Buffer, write_digits};
use std::alloc::Global;
use std::marker::Model;

/// Lines that are written one after the other: the finished ones, each with its section's letter and its number, and the
/// line being made, whose letter and number are `ending`. A section has lines of `width` free columns, 72, or 64 where `tail`
/// comes after them.
#[derive(Drop)]
pub struct Page {
    text: Vec<u8>,
    line: LineText,
    tail: Option<[u8; 8]>,
    ending: [u8; 8],
    letter: u8,
    number: u64,
    width: usize,
    limit: u64,
}

impl Model for Page {
    ghost use Rattle.iges_write.specs.Sheet.{IsPage, Sheet, tail_bytes};

    ghost Value = { Sheet };

    ghost view = { λ p. record {
      text = p.text.items;
      line = p.line;
      tail = tail_bytes p.tail;
      letter = p.letter;
      number = p.number;
      width = p.width;
      limit = p.limit;
    } };

    ghost invariant = { λ p. IsPage p.text.items p.line p.ending p.letter p.number p.width p.limit };
}

impl Page {
    /// No lines yet. The text grows to at most `limit` bytes.
    pub fn new(alloc: Global, limit: u64, letter: u8, width: usize) -> Page
        requires limit { limit ≤ FILE_LIMIT }
        requires wide { 0 < width }
        requires narrow { width ≤ 72 }
        ensures { result ≡ blank limit letter width }
    {
        Page {
            text: Vec::new(alloc),
            line: LineText::new(),
            tail: None,
            ending: first_ending(letter),
            letter,
            number: 1,
            width,
            limit,
        }
    }

    /// Takes room for so many bytes of text more, where there is memory for it, so that the text isn't moved as it grows.
    pub fn reserve(&mut self, room: usize)
        ensures { self.new ≡ self.old }
    {
        let _reserved = self.text.reserve_exact(room);
    }

    // Ends the line being made.
    fn end_line(&mut self) -> Result<(), WriteFileFault>
        ensures { Steps result self.new (end_line self.old) }
    {
        let next = next_field(self.ending, self.letter, self.number);
        self.line.end(self.width, self.tail, self.ending);
        let put = put_ended(&mut self.text, &self.line, self.limit);
        self.line.clear();
        put?;
        self.ending = next;
        self.number += 1;
        Ok(())
    }

    // Appends to the line being made.
    #[inline(always)]
    fn add(&mut self, bytes: &[u8])
        requires { length self.old.line + length bytes.now ≤ self.old.width }
        ensures { self.new ≡ add self.old bytes.now }
    {
        self.line.push(bytes);
    }

    // The same of a word that most often is short.
    #[inline(always)]
    fn add_word(&mut self, word: &[u8])
        requires { length self.old.line + length word.now ≤ self.old.width }
        ensures { self.new ≡ add self.old word.now }
    {
        self.line.push_word(word);
    }

    // Ends the line being made where it has no room for so many bytes.
    #[inline(always)]
    fn make_room(&mut self, size: usize) -> Result<(), WriteFileFault>
        requires { size ≤ self.old.width }
        ensures steps { Steps result self.new (make_room self.old size) }
        ensures room { OnOk result (length self.new.line + size ≤ self.new.width) }
    {
        if self.line.len() + size <= self.width {
            return Ok(());
        }
        self.end_line()
    }

    // Puts bytes that may not be cut.
    #[inline(always)]
    fn put_part(&mut self, part: &[u8]) -> Result<(), WriteFileFault>
        requires { length part.now ≤ self.old.width }
        ensures { Steps result self.new (put_part self.old part.now) }
    {
        self.make_room(part.len())?;
        self.add(part);
        Ok(())
    }

    // Puts a byte.
    fn put_single(&mut self, byte: u8) -> Result<(), WriteFileFault>
        ensures { Steps result self.new (put_part self.old (byte ∷ [])) }
    {
        let _width = self.width;
        self.put_part(&[byte])
    }

    // Each byte is a part.
    fn put_singles(&mut self, bytes: &[u8]) -> Result<(), WriteFileFault>
        ensures { Steps result self.new (put_parts self.old (single_parts bytes.now)) }
    {
        let mut rest = bytes;
        'bytes: while let Some((byte, others)) = rest.split_first() {
            self.put_single(*byte)?;
            rest = others;
        }
        Ok(())
    }

    // A word and the delimiter after it, which no line holds.
    #[inline(never)]
    fn put_long_word(&mut self, word: &[u8], end: u8) -> Result<(), WriteFileFault>
        requires { self.old.width ≤ length word.now }
        ensures { Steps result self.new (put_parts self.old (word_parts self.old.width (word.now
            ++ end ∷ []))) }
    {
        let (front, behind) = word.split_at(self.width);
        self.put_part(front)?;
        self.put_singles(behind)?;
        self.put_single(end)
    }

    // A word and the delimiter after it, which a line holds.
    #[inline(always)]
    fn put_short_word(&mut self, word: &[u8], end: u8) -> Result<(), WriteFileFault>
        requires { length word.now < self.old.width }
        ensures { Steps result self.new (put_parts self.old (word_parts self.old.width (word.now
            ++ end ∷ []))) }
    {
        self.make_room(word.len() + 1)?;
        self.add_word(word);
        self.add(&[end]);
        Ok(())
    }

    // A word and the byte after it.
    #[inline(never)]
    fn put_word(&mut self, word: &[u8], end: u8) -> Result<(), WriteFileFault>
        ensures { Steps result self.new (put_parts self.old (word_parts self.old.width (word.now
            ++ end ∷ []))) }
    {
        if word.len() < self.width {
            self.put_short_word(word, end)
        } else {
            self.put_long_word(word, end)
        }
    }

    // A text and the delimiter after it.
    #[inline(never)]
    fn put_text(&mut self, text: &[u8], delimiter: u8) -> Result<(), WriteFileFault>
        ensures { Steps result self.new (put_parts self.old
            (value_parts self.old.width (value.Text text.now) delimiter)) }
    {
        self.put_word(Buffer::new().format(text.len()).as_bytes(), b'H')?;
        self.put_singles(text)?;
        self.put_single(delimiter)
    }

    // A digit and the delimiter after it, which a line holds.
    #[inline(always)]
    fn put_digit(&mut self, n: u64, delimiter: u8) -> Result<(), WriteFileFault>
        requires digit { n < 10 }
        requires width { 1 < self.old.width }
        ensures { Steps result self.new (put_parts self.old (word_parts self.old.width (decimal n
            ++ delimiter ∷ []))) }
    {
        self.put_part(&[digit(n), delimiter])
    }

    // A number of two digits and the delimiter after it, which a line holds. So with the next ones.
    #[inline(always)]
    fn put_two(&mut self, n: u64, delimiter: u8) -> Result<(), WriteFileFault>
        requires digits { (10 ≤ n) × (n < 100) }
        requires width { 2 < self.old.width }
        ensures { Steps result self.new (put_parts self.old (word_parts self.old.width (decimal n
            ++ delimiter ∷ []))) }
    {
        self.put_part(&[digit(n / 10), digit(n % 10), delimiter])
    }

    #[inline(always)]
    fn put_three(&mut self, n: u64, delimiter: u8) -> Result<(), WriteFileFault>
        requires digits { (100 ≤ n) × (n < 1000) }
        requires width { 3 < self.old.width }
        ensures { Steps result self.new (put_parts self.old (word_parts self.old.width (decimal n
            ++ delimiter ∷ []))) }
    {
        let tens = n / 10;
        self.put_part(&[digit(tens / 10), digit(tens % 10), digit(n % 10), delimiter])
    }

    #[inline(always)]
    fn put_four(&mut self, n: u64, delimiter: u8) -> Result<(), WriteFileFault>
        requires digits { (1000 ≤ n) × (n < 10000) }
        requires width { 4 < self.old.width }
        ensures { Steps result self.new (put_parts self.old (word_parts self.old.width (decimal n
            ++ delimiter ∷ []))) }
    {
        let tens = n / 10;
        let hundreds = tens / 10;
        self.put_part(&[
            digit(hundreds / 10),
            digit(hundreds % 10),
            digit(tens % 10),
            digit(n % 10),
            delimiter,
        ])
    }

    #[inline(always)]
    fn put_five(&mut self, n: u64, delimiter: u8) -> Result<(), WriteFileFault>
        requires digits { (10000 ≤ n) × (n < 100000) }
        requires width { 5 < self.old.width }
        ensures { Steps result self.new (put_parts self.old (word_parts self.old.width (decimal n
            ++ delimiter ∷ []))) }
    {
        let tens = n / 10;
        let hundreds = tens / 10;
        let thousands = hundreds / 10;
        self.put_part(&[
            digit(thousands / 10),
            digit(thousands % 10),
            digit(hundreds % 10),
            digit(tens % 10),
            digit(n % 10),
            delimiter,
        ])
    }

    // A number without a sign and the delimiter after it, which a line holds. Short ones are the most by far.
    #[inline(always)]
    fn put_number(&mut self, n: u64, delimiter: u8) -> Result<(), WriteFileFault>
        requires { 20 < self.old.width }
        ensures { Steps result self.new (put_parts self.old (word_parts self.old.width (decimal n
            ++ delimiter ∷ []))) }
    {
        if n < 10 {
            self.put_digit(n, delimiter)
        } else if n < 100 {
            self.put_two(n, delimiter)
        } else if n < 1000 {
            self.put_three(n, delimiter)
        } else if n < 10_000 {
            self.put_four(n, delimiter)
        } else if n < 100_000 {
            self.put_five(n, delimiter)
        } else {
            self.put_digits(n, delimiter)
        }
    }

    // The same of a number of any length.
    #[inline(never)]
    fn put_digits(&mut self, n: u64, delimiter: u8) -> Result<(), WriteFileFault>
        requires { 20 < self.old.width }
        ensures { Steps result self.new (put_parts self.old (word_parts self.old.width (decimal n
            ++ delimiter ∷ []))) }
    {
        let mut word = [delimiter; 21];
        let start = write_digits(n, &mut word, 20);
        self.put_part(&word[start..])
    }

    // An integer and the delimiter after it.
    #[inline(always)]
    fn put_integer(&mut self, n: &i64, delimiter: u8) -> Result<(), WriteFileFault>
        ensures { Steps result self.new (put_parts self.old
            (value_parts self.old.width (value.Int n.now) delimiter)) }
    {
        match u64::try_from(*n) {
            Ok(n) if self.width > 20 => self.put_number(n, delimiter),
            _ => self.put_word(Buffer::new().format(*n).as_bytes(), delimiter),
        }
    }

    // A real and the delimiter after it: a word, without the call.
    #[inline(always)]
    fn put_real(&mut self, word: &[u8], end: u8) -> Result<(), WriteFileFault>
        ensures { Steps result self.new (put_parts self.old (word_parts self.old.width (word.now
            ++ end ∷ []))) }
    {
        if word.len() < self.width {
            self.put_short_word(word, end)
        } else {
            self.put_long_word(word, end)
        }
    }

    // A value and the delimiter after it.
    #[inline(always)]
    fn put_value(&mut self, value: &Value, delimiter: u8) -> Result<(), WriteFileFault>
        ensures { Steps result self.new (put_parts self.old
            (value_parts self.old.width value.now delimiter)) }
    {
        match value {
            Value::Default => self.put_word(b"", delimiter),
            Value::Int(n) => self.put_integer(n, delimiter),
            Value::Real(word) => self.put_real(word.as_slice(), delimiter),
            Value::Text(text) => self.put_text(text.as_slice(), delimiter),
        }
    }

    // Values parted by the parameter delimiter and ended by the record delimiter.
    fn put_values(&mut self, values: &[Value], delims: &Delimiters) -> Result<(), WriteFileFault>
        ensures { Steps result self.new (put_parts self.old
            (parts self.old.width delims.now values.now)) }
    {
        let mut rest = values;
        'values: while let Some((value, others)) = rest.split_first() {
            self.put_value(value, delimiter_before(others, delims))?;
            rest = others;
        }
        Ok(())
    }

    /// Begins a section: its lines have this letter, so many free columns, and are numbered from 1.
    pub fn begin(&mut self, letter: u8, width: usize)
        requires wide { 0 < width }
        requires narrow { width ≤ 72 }
        ensures { self.new ≡ begin self.old letter width }
    {
        self.line.clear();
        self.tail = None;
        self.ending = first_ending(letter);
        self.letter = letter;
        self.number = 1;
        self.width = width;
    }

    /// Puts a line of which all free columns are given.
    pub fn put_line(&mut self, columns: &[u8]) -> Result<(), WriteFileFault>
        requires long { length columns.now ≡ self.old.width }
        requires empty { self.old.line ≡ [] }
        ensures { Steps result self.new (put_lines self.old (columns.now ∷ [])) }
    {
        self.add(columns);
        self.end_line()
    }

    /// The same of a line in an array, which is ended there.
    #[inline(always)]
    pub fn put_whole(&mut self, line: &mut LineText) -> Result<(), WriteFileFault>
        requires long { length line.old ≡ self.old.width }
        requires empty { self.old.line ≡ [] }
        ensures { Steps result self.new (put_lines self.old (line.old ∷ [])) }
    {
        let next = next_field(self.ending, self.letter, self.number);
        line.end(self.width, self.tail, self.ending);
        put_ended(&mut self.text, line, self.limit)?;
        self.ending = next;
        self.number += 1;
        Ok(())
    }

    // The type number and the values of a record.
    fn fill_record(
        &mut self,
        kind: &i64,
        values: &[Value],
        delims: &Delimiters,
    ) -> Result<(), WriteFileFault>
        requires { self.old.line ≡ [] }
        ensures { Steps result self.new (put_lines self.old
            (fill self.old.width [] (parts self.old.width delims.now (value.Int kind.now
            ∷ values.now)))) }
    {
        self.put_integer(kind, delimiter_before(values, delims))?;
        self.put_values(values, delims)?;
        self.end_line()
    }

    // From here on an entry's number comes after the free columns.
    fn set_tail(&mut self, number: u64)
        ensures { self.new ≡ with_tail self.old (record_tail number) }
    {
        self.tail = Some(count_field(b' ', number));
    }

    // From here on nothing comes after the free columns.
    fn clear_tail(&mut self)
        ensures { self.new ≡ with_tail self.old [] }
    {
        self.tail = None;
    }

    /// Puts the record of the entry with this number, on lines of its own.
    pub fn put_record(
        &mut self,
        number: u64,
        kind: &i64,
        values: &[Value],
        delims: &Delimiters,
    ) -> Result<(), WriteFileFault>
        requires empty { self.old.line ≡ [] }
        requires no_tail { self.old.tail ≡ [] }
        ensures { Steps result self.new (put_lines self.old (map (λ l. l ++ record_tail number)
            (fill self.old.width [] (parts self.old.width delims.now (value.Int kind.now ∷ values.now))))) }
    {
        self.set_tail(number);
        self.fill_record(kind, values, delims)?;
        self.clear_tail();
        Ok(())
    }

    // The two delimiters as texts, and a byte after them.
    fn put_delimiters(&mut self, delims: &Delimiters, behind: u8) -> Result<(), WriteFileFault>
        ensures steps { Steps result self.new (put_parts self.old (value_parts self.old.width (value.Text (delims.now.param ∷ [])) delims.now.param
            ++ value_parts self.old.width (value.Text (delims.now.end ∷ [])) behind)) }
        ensures permitted { IsTrue (are_permitted delims.now) }
    {
        let param = delims.param();
        self.put_text(&[param], param)?;
        self.put_text(&[delims.end()], behind)
    }

    /// Puts the global: its delimiters as two texts, and its values.
    pub fn put_global(
        &mut self,
        values: &[Value],
        delims: &Delimiters,
    ) -> Result<(), WriteFileFault>
        requires { self.old.line ≡ [] }
        ensures steps { Steps result self.new (put_lines self.old (fill self.old.width [] (parts self.old.width delims.now
            (value.Text (delims.now.param ∷ []) ∷ value.Text (delims.now.end ∷ []) ∷ values.now)))) }
        ensures permitted { IsTrue (are_permitted delims.now) }
    {
        self.put_delimiters(delims, delimiter_before(values, delims))?;
        self.put_values(values, delims)?;
        self.end_line()
    }

    /// The number of the line being made.
    pub fn number(&self) -> u64
        ensures { result ≡ self.now.number }
    {
        self.number
    }

    /// Appends the finished lines of another page, with room for so many bytes behind them.
    pub fn append(&mut self, other: &Page, room: usize) -> Result<(), WriteFileFault>
        requires { room < 2 ^ 32 }
        ensures { Steps result self.new (append_text self.old other.now.text) }
    {
        let more = other.text.as_slice();
        if more.len() as u64 > self.limit - self.text.len() as u64 {
            return Err(WriteFileFault::TooLarge);
        }
        let _reserved = self.text.reserve_exact(more.len() + room);
        self.text.extend_from_slice(more)?;
        Ok(())
    }

    /// The finished lines. It errs only where memory runs out.
    pub fn into_bytes(self, alloc: Global) -> Result<Bytes, NoMemory>
        ensures is { IfOk result (λ bytes. bytes ≡ self.text) }
        ensures within { length self.text ≤ self.limit }
    {
        Bytes::from_vec(alloc, self.text)
    }
}

// Appends an ended line to the text, where this stays within the limit.
#[inline(always)]
fn put_ended(text: &mut Vec<u8>, line: &LineText, limit: u64) -> Result<(), WriteFileFault>
    requires { length text.old.items ≤ limit }
    ensures ok { OnOk result ((text.new.items ≡ text.old.items ++ line.now) × (length line.now ≤ limit - length text.old.items)) }
    ensures err { OnErr result (text.new.items ≡ text.old.items) }
    ensures large { IfErr result (λ fault. fault ≡ WriteFileFault.TooLarge → limit - length text.old.items < length line.now) }
{
    if line.len() as u64 > limit - text.len() as u64 {
        return Err(WriteFileFault::TooLarge);
    }
    line.put_into(text)?;
    Ok(())
}

// A digit as a byte.
#[inline(always)]
fn digit(n: u64) -> u8
    requires { n < 10 }
    ensures { result ≡ 48 + n }
{
    b'0' + n as u8
}

// The ending of a section's first line.
fn first_ending(letter: u8) -> [u8; 8]
    ensures { result ≡ count_field letter 1 }
{
    [letter, b' ', b' ', b' ', b' ', b' ', b' ', b'1']
}

// The delimiter before these values.
fn delimiter_before(values: &[Value], delims: &Delimiters) -> u8
    ensures { result ≡ next_delimiter delims.now values.now }
{
    if values.is_empty() {
        delims.end()
    } else {
        delims.param()
    }
}
