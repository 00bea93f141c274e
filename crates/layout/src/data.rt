// The data section: what an operand writes, and the one place where the data grow.
ghost use Rattle.layout.specs.Code.Numbers.{numbered};
ghost use Rattle.std.specs.Prelude.{◌≡◌, ◌||◌, List, ◌++◌, ℕ, ◌≤◌, length, drop, pos};
ghost use Rattle.std.specs.Prelude.{Some};
ghost use Rattle.numbers.specs.Text.{is_digit};
ghost use Rattle.numbers.specs.Results.{mapped};
ghost use Rattle.numbers.specs.Numbers.{imm64_of};
ghost use Rattle.numbers.specs.Code.Spans.{spanned};
ghost use Rattle.numbers.specs.Literals.{string_of};
ghost use Rattle.numbers.specs.Strings.{string_bytes};
ghost use Rattle.layout.specs.declared.data.Readings.TheVariants.{Numbers};
ghost use Rattle.layout.specs.Limits.{text_limit, data_limit};
ghost use Rattle.layout.specs.Directives.{gap, is_label_start, is_label_name, width_bytes, read_at, range_at, unread};
ghost use Rattle.layout.specs.Directives.{number_or_name, operand_write, string_write};
ghost use Rattle.layout.specs.Stage.{write_size, add_label_word, data_write, data_line};
ghost use Rattle.layout.specs.Code.Spans.{SpanWithin, LineIn};
ghost use Rattle.layout.specs.Code.Rows.{SourceFits, ReservedSmall};
ghost use Rattle.layout.specs.Code.Writes.{write_at, WriteFits, reading_at, ReadingFits, written_bytes, TextSized};
ghost use Rattle.layout.specs.Code.Writes.{source_readings, readings_from, ReadingsFit, NextIs};
ghost use Rattle.layout.specs.Code.Lent.{LabelWordsReady, LabelWordsSteps, DataReady, DataSteps};

use crate::directives::{Reservation, Source, Store, Width, place_after, reservation_of};
use crate::limits::{LABEL_WORD_LIMIT, Room};
use crate::little_endian::put_number;
use crate::pieces::part_in;
use crate::records::{LabelWordRecord, Record};
use crate::refusal::Refusal;
use crate::state::DataCount;
use crate::writers::{put_string, put_zeros};
use numbers::imm::{parse_imm, parse_imm64};
use numbers::ints::{bits_of_i64, i32_of_bits, in_byte, in_half, widened};
use numbers::literals::parse_str_lit;
use numbers::operands::operand_at;
use numbers::short::short_number;
use numbers::strings::{Quoted, parse_string};
use numbers::text::{Span, is_digit, span_bytes};

// What an operand writes: a number of a width, a string of the text and so many bytes 0, zeros, or the address of a label.
#[derive(Clone, Copy)]
pub enum Write {
    Number(Width, i64),
    Text(Quoted, usize),
    Gap(Reservation),
    Address(Span),
}

impl Width {
    fn bytes(self) -> usize
        ensures { result ≡ width_bytes self }
    {
        match self {
            Width::Byte => 1,
            Width::Half => 2,
            Width::Word => 4,
            Width::Dword => 8,
        }
    }

    // An operand's number, as this width reads it.
    fn read(self, s: &[u8]) -> Option<i64>
        ensures { result ≡ read_at self s.now }
    {
        match self {
            Width::Byte => widened(parse_imm(s)),
            Width::Half => widened(parse_imm(s)),
            Width::Word => widened(parse_imm(s)),
            Width::Dword => parse_imm64(s),
        }
    }

    // What this width reads where v stands: but for `.dword`, the upper half of 32 bits is negative.
    fn signed(self, v: u32) -> i64
        ensures { (s : List ℕ) → imm64_of s ≡ Some (pos v) → read_at self s ≡ Some result }
    {
        match self {
            Width::Byte => i32_of_bits(v) as i64,
            Width::Half => i32_of_bits(v) as i64,
            Width::Word => i32_of_bits(v) as i64,
            Width::Dword => v as i64,
        }
    }

    // Does this width store the number?
    fn takes(self, v: i64) -> bool
        ensures { result ≡ range_at self v }
    {
        match self {
            Width::Byte => in_byte(v),
            Width::Half => in_half(v),
            Width::Word => true,
            Width::Dword => true,
        }
    }
}

fn is_label_start(b: u8) -> bool
    ensures { result ≡ is_label_start b }
{
    b.is_ascii_alphabetic() | (b == b'_') | (b == b'.')
}

fn is_label_byte(b: u8) -> bool
    ensures { result ≡ is_label_start b || is_digit b }
{
    is_label_start(b) | is_digit(b)
}

// Is s a name that a `.word` may have?
fn is_label_name(s: &[u8]) -> bool
    ensures { result ≡ is_label_name s.now }
{
    let Some((&first, rest)) = s.split_first() else {
        return false;
    };
    is_label_start(first) && rest.iter().all(|&b| is_label_byte(b))
}

// An operand that is no number: a label's name for `.word`, else refused.
fn unread_operand(text: &[u8], width: Width, operand: Span) -> Result<Write, Refusal>
    requires { SpanWithin text.now operand }
    ensures { (reading_at text.now result ≡ unread width (spanned text.now operand))
        × ReadingFits text.now result }
{
    let Width::Word = width else {
        return Err(Refusal::InvalidNumber);
    };
    if !is_label_name(span_bytes(text, operand)) {
        return Err(Refusal::InvalidWord);
    }
    Ok(Write::Address(operand))
}

// A number, where the width stores it.
fn number_write(width: Width, v: i64) -> Result<Write, Refusal>
    ensures { (t s : List ℕ) → (reading_at t result ≡ number_or_name width (Some v) s) × ReadingFits t result }
{
    if !width.takes(v) {
        return Err(Refusal::NumberOutOfRange);
    }
    Ok(Write::Number(width, v))
}

fn operand_write(text: &[u8], width: Width, operand: Span) -> Result<Write, Refusal>
    requires { SpanWithin text.now operand }
    ensures { (reading_at text.now result ≡ operand_write width (spanned text.now operand))
        × ReadingFits text.now result }
{
    let Some(v) = width.read(span_bytes(text, operand)) else {
        return unread_operand(text, width, operand);
    };
    number_write(width, v)
}

// A string as document 01 has it: what stands between the quotes at its ends, unchanged (in as many bytes as it has), and so many bytes 0
// after it.
fn unchanged_write(text: &[u8], part: Span, zeros: usize) -> Result<Write, Refusal>
    requires { SpanWithin text.now part × (zeros ≤ 1) }
    ensures { (reading_at text.now result ≡ string_write zeros (string_of (spanned text.now part)))
        × ReadingFits text.now result }
{
    let inner = parse_str_lit(span_bytes(text, part)).ok_or(Refusal::InvalidString)?;
    let between = part_in(text, part, inner);
    let unchanged = Quoted {
        part: between,
        size: between.len,
    };
    Ok(Write::Text(unchanged, zeros))
}

// A string to its closing quote, its escapes decoded, and so many bytes 0 after it.
fn string_write(text: &[u8], part: Span, zeros: usize) -> Result<Write, Refusal>
    requires { SpanWithin text.now part × (zeros ≤ 1) }
    ensures { (reading_at text.now result ≡ string_write zeros (string_bytes (spanned text.now part)))
        × ReadingFits text.now result }
{
    let quoted = parse_string(span_bytes(text, part)).ok_or(Refusal::InvalidString)?;
    let there = Quoted {
        part: part_in(text, part, quoted.part),
        size: quoted.size,
    };
    Ok(Write::Text(there, zeros))
}

fn gap_of(reserved: Result<Reservation, Refusal>) -> Result<Write, Refusal>
    ensures { (t : List ℕ) → (reading_at t result ≡ mapped gap (numbered reserved)) × (ReservedSmall reserved → ReadingFits t result) }
{
    reserved.map(Write::Gap)
}

impl Write {
    // How many bytes it takes where the data have so many.
    fn size(self, text: &[u8], at: usize) -> usize
        requires { WriteFits text.now self × (length text.now ≤ text_limit) × (at ≤ data_limit) }
        ensures { (result ≡ write_size at (write_at text.now self)) × (result ≤ 4294967296) }
    {
        match self {
            Write::Number(width, _) => width.bytes(),
            Write::Text(quoted, zeros) => quoted.size + zeros,
            Write::Gap(reservation) => place_after(at, reservation) - at,
            Write::Address(_) => 4,
        }
    }

    // Its n bytes, at the start of the part of the data that is lent.
    fn put(self, text: &[u8], dst: &mut [u8], n: usize)
        requires { WriteFits text.now self × TextSized self n × (n ≤ length dst.old) }
        ensures { dst.new ≡ written_bytes text.now n self ++ drop n dst.old }
    {
        match self {
            Write::Number(_, v) => put_number(dst, n, bits_of_i64(v)),
            Write::Text(quoted, zeros) => {
                put_string(dst, span_bytes(text, quoted.part), quoted.size);
                let end = quoted.size;
                put_zeros(&mut dst[end..], zeros);
            }
            Write::Gap(_) => put_zeros(dst, n),
            Write::Address(_) => put_zeros(dst, n),
        }
    }
}

// The label word that a write makes, if it makes one. The contract alone names the text.
fn add_label_word(
    text: &[u8],
    label_words: &mut [u8],
    count: usize,
    line: u32,
    at: usize,
    write: Write,
) -> Result<usize, Refusal>
    requires { LabelWordsReady text.now label_words.old count × LineIn text.now line
        × WriteFits text.now write × (at ≤ data_limit) }
    ensures { LabelWordsSteps text.now label_words count result
        (add_label_word line at (write_at text.now write)) }
{
    let Write::Address(name) = write else {
        return Ok(count);
    };
    if LABEL_WORD_LIMIT <= count {
        return Err(Refusal::LabelWordsFull);
    }
    let word = LabelWordRecord {
        at: at as u32,
        start: name.start as u32,
        len: name.len as u32,
        line,
    };
    word.put(label_words, count);
    Ok(count + 1)
}

// The one place where the data grow.
fn data_write(
    text: &[u8],
    data_bytes: &mut [u8],
    label_words: &mut [u8],
    room: Room,
    st: DataCount,
    line: u32,
    write: Write,
) -> Result<DataCount, Refusal>
    requires { DataReady text.now data_bytes.old label_words.old room st × LineIn text.now line
        × WriteFits text.now write }
    ensures { DataSteps text.now data_bytes label_words room st result
        (data_write room line (write_at text.now write)) }
{
    let at = st.bytes;
    let n = write.size(text, at);
    if room.bytes < at + n {
        return Err(Refusal::DataFull);
    }
    write.put(text, &mut data_bytes[at..], n);
    let count = add_label_word(text, label_words, st.label_words, line, at, write)?;
    Ok(DataCount {
        bytes: at + n,
        label_words: count,
    })
}

// The operand that begins at a place: most are short numbers.
fn next_number(
    text: &[u8],
    width: Width,
    part: Span,
    at: usize,
) -> Result<Option<(Write, usize)>, Refusal>
    requires { SpanWithin text.now part }
    ensures { NextIs text.now (Numbers width) (spanned text.now part) at result }
{
    let bytes = span_bytes(text, part);
    if let Some((v, after)) = short_number(bytes, at) {
        return Ok(Some((number_write(width, width.signed(v))?, after)));
    }
    let Some((operand, after)) = operand_at(bytes, at) else {
        return Ok(None);
    };
    let place = part_in(text, part, operand);
    Ok(Some((operand_write(text, width, place)?, after)))
}

// What a line reads: numbers operand by operand, all else at once, before the loop over them: there its readers would be inlined, and cost
// each number some registers.
#[derive(Clone, Copy)]
enum Readings {
    Numbers(Width),
    Once(Result<Write, Refusal>),
}

fn readings_of(text: &[u8], source: Source, part: Span) -> Readings
    requires { SpanWithin text.now part × SourceFits source }
    ensures { (readings_from text.now result (spanned text.now part) 0 ≡ source_readings source (spanned text.now part))
        × ReadingsFit text.now result }
{
    match source {
        Source::Stores(what) => match what {
            Store::Numbers(width) => Readings::Numbers(width),
            Store::Text(zeros) => Readings::Once(unchanged_write(text, part, zeros)),
            Store::Float => Readings::Once(Err(Refusal::Unsupported)),
        },
        Source::String(zeros) => Readings::Once(string_write(text, part, zeros)),
        Source::Reserves(what) => Readings::Once(gap_of(reservation_of(
            what,
            span_bytes(text, part),
        ))),
    }
}

fn next_write(
    text: &[u8],
    readings: Readings,
    part: Span,
    at: usize,
) -> Result<Option<(Write, usize)>, Refusal>
    requires { SpanWithin text.now part × ReadingsFit text.now readings }
    ensures { NextIs text.now readings (spanned text.now part) at result }
{
    match readings {
        Readings::Numbers(width) => next_number(text, width, part, at),
        Readings::Once(reading) => {
            if 0 < at {
                return Ok(None);
            }
            Ok(Some((reading?, 1)))
        }
    }
}

// A directive and what follows its name. One loop for all of them: `data_write` is called at one place, and inlined there. What is read at
// once is read before the loop, so that its readers are not inlined into the loop over numbers.
pub fn data_line(
    text: &[u8],
    data_bytes: &mut [u8],
    label_words: &mut [u8],
    room: Room,
    st: DataCount,
    line: u32,
    source: Source,
    part: Span,
) -> Result<DataCount, Refusal>
    requires { DataReady text.now data_bytes.old label_words.old room st × LineIn text.now line
        × SpanWithin text.now part × SourceFits source }
    ensures { DataSteps text.now data_bytes label_words room st result
        (data_line room line (source_readings source (spanned text.now part))) }
{
    let readings = readings_of(text, source, part);
    let mut now = st;
    let mut at = 0;
    // Not an iterator: each write begins where the one before ends and may be refused, so that the place and the `?` would stay here.
    while let Some((write, after)) = next_write(text, readings, part, at)? {
        now = data_write(text, data_bytes, label_words, room, now, line, write)?;
        at = after;
    }
    Ok(now)
}
