// Pseudo-instructions: the table of their spellings, a text line's kind, and the words that it reserves.
ghost use Rattle.layout.specs.Code.Numbers.{numbered};
ghost use Rattle.std.specs.Prelude.{◌≡◌, ◌≤◌};
ghost use Rattle.layout.specs.Pseudos.{item_of, pseudo_operands, is_single, li_words, pseudo_words, reserved_words, item_kind};
ghost use Rattle.layout.specs.Code.Kinds.{PseudoNames, begins_as_pseudo, text_line_code};

use crate::pieces::word_len;
use crate::refusal::Refusal;
use numbers::imm::parse_imm_one_spaced;
use numbers::ints::in_signed12;
use numbers::operands::item_operand_at;
use numbers::table::{ROW, SLOTS, word_in};
use numbers::text::{first_is, span_bytes, text_before};

// The nine pseudo-instructions, each by its item kind; an ordinary line's kind is 0.
#[derive(Clone, Copy)]
pub enum Pseudo {
    Li = 1,
    La = 2,
    Push = 3,
    Pop = 4,
    Print = 5,
    PrintStr = 6,
    Read = 7,
    ReadByte = 8,
    Random = 9,
}

const COUNT: usize = 20;

// The columns: the kind of what a row's name is, 0 for one of the four others, and whether it may end the line.
const KIND: usize = 14;

const BARE: usize = 15;

// First, at which row each slot's rows begin and where the last one's end; then the rows, slot by slot (`tools/table`
// prints it).
const ROWS: [u8; SLOTS + 1 + COUNT * ROW] = *b"\
    \x00\x01\x01\x01\x01\x01\x01\x02\x03\x04\x05\x05\x06\x07\x08\x09\
    \x09\x09\x09\x09\x09\x09\x09\x09\x09\x09\x0a\x0a\x0a\x0b\x0b\x0c\
    \x0c\x0c\x0c\x0c\x0d\x0d\x0d\x0e\x0e\x0e\x0e\x0e\x0e\x0e\x0e\x0e\
    \x0e\x0f\x0f\x0f\x10\x11\x12\x13\x13\x13\x13\x14\x14\x14\x14\x14\
    \x14\
    print_str_ln  \x00\x01\
    la            \x02\x00\
    readWord      \x00\x01\
    readByte      \x08\x01\
    readHalf      \x00\x01\
    push          \x03\x00\
    read_word     \x00\x01\
    read_byte     \x08\x01\
    read_half     \x00\x01\
    randomBytes   \x00\x00\
    pop           \x04\x00\
    random_bytes  \x00\x00\
    print         \x05\x01\
    li            \x01\x00\
    printStr      \x06\x01\
    read          \x07\x01\
    printString   \x06\x01\
    print_str     \x06\x01\
    printStrLn    \x00\x01\
    random        \x09\x01";

// The table of all spellings.
#[derive(Drop)]
pub struct Names {
    rows: [u8; SLOTS + 1 + COUNT * ROW],
    ghost named: { PseudoNames rows },
}

impl Names {
    // A constant is built anew where it is used: the table is made once a call, and lent down.
    pub fn new() -> Self {
        Names { rows: ROWS }
    }
}

impl Pseudo {
    // The pseudo of an item's kind; none of an ordinary line's.
    pub fn numbered(kind: u32) -> Option<Pseudo>
        ensures { kind ≤ 9 → item_kind result ≡ kind }
    {
        match kind {
            1 => Some(Pseudo::Li),
            2 => Some(Pseudo::La),
            3 => Some(Pseudo::Push),
            4 => Some(Pseudo::Pop),
            5 => Some(Pseudo::Print),
            6 => Some(Pseudo::PrintStr),
            7 => Some(Pseudo::Read),
            8 => Some(Pseudo::ReadByte),
            9 => Some(Pseudo::Random),
            _ => None,
        }
    }

    fn words(self, s: &[u8]) -> usize
        ensures { result ≡ pseudo_words self s.now }
    {
        match self {
            Pseudo::Li => li_word_count(s),
            Pseudo::La => 2,
            Pseudo::Push => 2,
            Pseudo::Pop => 2,
            Pseudo::Print => 3,
            Pseudo::PrintStr => 11,
            Pseudo::Read => 6,
            Pseudo::ReadByte => 4,
            Pseudo::Random => 8,
        }
    }
}

// An item's kind, as its record has it.
pub fn item_kind(pseudo: Option<Pseudo>) -> u32
    ensures { result ≡ item_kind «pseudo» }
{
    pseudo.map_or(0, |p| p as u32)
}

// The words that a line reserves.
pub fn reserved_words(pseudo: Option<Pseudo>, s: &[u8]) -> usize
    ensures { result ≡ reserved_words «pseudo» s.now }
{
    pseudo.map_or(1, |p| p.words(s))
}

// Does s begin as a pseudo's name may? Most instructions do not, and are told by this alone.
fn begins_as_pseudo(s: &[u8]) -> bool
    ensures { result ≡ begins_as_pseudo s.now }
{
    first_is(s, b'l') | (first_is(s, b'p') | first_is(s, b'r'))
}

// What a line is by its first word: a name is followed by a space or, if it may, ends the line.
fn listed_kind(names: &Names, s: &[u8]) -> Result<Option<Pseudo>, Refusal>
    ensures { numbered result ≡ text_line_code (item_of s.now) }
{
    let word = text_before(s, b' ');
    let Some(at) = word_in(&names.rows, word) else {
        return Ok(None);
    };
    if (s.len() <= word.len()) & (names.rows[at + BARE] == 0) {
        return Ok(None);
    }
    let pseudo = Pseudo::numbered(names.rows[at + KIND] as u32).ok_or(Refusal::Unsupported)?;
    Ok(Some(pseudo))
}

// What a line of the text section is: none of the pseudos, one of them, or one of the four others.
pub fn kind_of(names: &Names, s: &[u8]) -> Result<Option<Pseudo>, Refusal>
    ensures { numbered result ≡ text_line_code (item_of s.now) }
{
    if !begins_as_pseudo(s) {
        return Ok(None);
    }
    listed_kind(names, s)
}

// Is an li a single addi, by what its second operand reads as? Its size and its words both go by this.
pub fn is_single(number: Option<i32>) -> bool
    ensures { result ≡ is_single number }
{
    number.is_some_and(in_signed12)
}

// The words of an li: one if it has fewer than two operands or is a single addi.
pub fn li_word_count(s: &[u8]) -> usize
    ensures { result ≡ li_words (pseudo_operands s.now) }
{
    let first = word_len(s);
    let rest = &s[first..];
    let Some((_, next)) = item_operand_at(rest, 0) else {
        return 1;
    };
    let Some((second, _)) = item_operand_at(rest, next) else {
        return 1;
    };
    if is_single(parse_imm_one_spaced(span_bytes(rest, second))) {
        return 1;
    }
    2
}
