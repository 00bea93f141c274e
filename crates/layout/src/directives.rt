// Directives: the table of their spellings, and zeros and alignments.
ghost use Rattle.layout.specs.Code.Numbers.{numbered};
ghost use Rattle.std.specs.Prelude.{◌≡◌, ◌≤◌, length};
ghost use Rattle.numbers.specs.Numbers.{imm_of};
ghost use Rattle.layout.specs.Directives.{directives, row_in, aligned, place_after, reservation};
ghost use Rattle.layout.specs.Code.Rows.{DirectiveNames, directive_number, row_code, SpelledWithin, Small, ReservedSmall};

use crate::refusal::Refusal;
use numbers::imm::parse_imm;
use numbers::table::{ROW, SLOTS, prefix_in};
use numbers::text::first_is;

// What a number takes in the data: 1, 2, 4 or 8 bytes.
#[derive(Clone, Copy)]
pub enum Width {
    Byte,
    Half,
    Word,
    Dword,
}

// Zeros, of a size or up to an alignment.
#[derive(Clone, Copy)]
pub enum Reserve {
    Space,
    Align,
}

// What data alone have: numbers, a string and so many bytes 0 after it, or floats.
#[derive(Clone, Copy)]
pub enum Store {
    Numbers(Width),
    Text(usize),
    Float,
}

// What a line of the data section writes: what is stored; a string to its closing quote and so many bytes 0 after it; or zeros.
#[derive(Clone, Copy)]
pub enum Source {
    Stores(Store),
    String(usize),
    Reserves(Reserve),
}

#[derive(Clone, Copy)]
pub enum Directive {
    Symbol,
    Ignored,
    Equate,
    Reserves(Reserve),
    Stores(Store),
}

// A row of the table: what it is, how long its name is, and whether the data section has it.
#[derive(Clone, Copy)]
pub struct Spelling {
    pub directive: Directive,
    pub len: usize,
    pub in_data: bool,
}

const COUNT: usize = 23;

// The columns: how long a row's name is, what it is (`Directive::numbered`), and whether the data section has it.
const LENGTH: usize = 13;

const KIND: usize = 14;

const IN_DATA: usize = 15;

// First, at which row each slot's rows begin and where the last one's end; then the rows, slot by slot (`tools/table`
// prints it).
const ROWS: [u8; SLOTS + 1 + COUNT * ROW] = *b"\
    \x00\x00\x00\x00\x01\x02\x02\x02\x02\x02\x03\x03\x04\x04\x05\x05\
    \x06\x06\x06\x06\x06\x06\x08\x08\x08\x08\x08\x08\x08\x08\x08\x08\
    \x09\x09\x0a\x0b\x0b\x0b\x0c\x0c\x0c\x0c\x0d\x0e\x10\x10\x10\x11\
    \x11\x11\x11\x11\x11\x12\x12\x12\x12\x13\x13\x15\x15\x15\x16\x16\
    \x17\
    .space       \x06\x04\x01\
    .word        \x05\x07\x01\
    .dword       \x06\x08\x01\
    .half        \x05\x06\x01\
    .byte        \x05\x05\x01\
    .string      \x07\x0a\x01\
    .ident       \x06\x01\x01\
    .cfi_        \x05\x01\x01\
    .type        \x05\x01\x01\
    .file        \x05\x01\x01\
    .set         \x04\x02\x01\
    .align       \x06\x03\x01\
    .zero        \x05\x04\x01\
    .float       \x06\x09\x01\
    .globl       \x06\x00\x01\
    .global      \x07\x00\x01\
    .size        \x05\x01\x01\
    .skip        \x05\x04\x00\
    .equ         \x04\x02\x01\
    .asciz       \x06\x0a\x01\
    .ascii       \x06\x0b\x01\
    .attribute   \x0a\x01\x01\
    .option      \x07\x01\x01";

// The table of all directives.
#[derive(Drop)]
pub struct Names {
    rows: [u8; SLOTS + 1 + COUNT * ROW],
    ghost named: { DirectiveNames rows },
}

impl Names {
    // A constant is built anew where it is used: the table is made once a call, and lent down.
    pub fn new() -> Self {
        Names { rows: ROWS }
    }
}

impl Directive {
    // What a number in a row says.
    fn numbered(kind: u8) -> Directive
        requires { kind ≤ 11 }
        ensures { directive_number result ≡ kind }
    {
        match kind {
            0 => Directive::Symbol,
            1 => Directive::Ignored,
            2 => Directive::Equate,
            3 => Directive::Reserves(Reserve::Align),
            4 => Directive::Reserves(Reserve::Space),
            5 => Directive::Stores(Store::Numbers(Width::Byte)),
            6 => Directive::Stores(Store::Numbers(Width::Half)),
            7 => Directive::Stores(Store::Numbers(Width::Word)),
            8 => Directive::Stores(Store::Numbers(Width::Dword)),
            9 => Directive::Stores(Store::Float),
            10 => Directive::Stores(Store::Text(1)),
            _ => Directive::Stores(Store::Text(0)),
        }
    }
}

// The directive that a statement begins with.
pub fn directive_of(names: &Names, s: &[u8]) -> Option<Spelling>
    ensures { (result ≡ row_code (row_in directives s.now)) × SpelledWithin result (length s.now) }
{
    if !first_is(s, b'.') {
        return None;
    }
    let at = prefix_in(&names.rows, s)?;
    Some(Spelling {
        directive: Directive::numbered(names.rows[at + KIND]),
        len: names.rows[at + LENGTH] as usize,
        in_data: names.rows[at + IN_DATA] != 0,
    })
}

// So many zeros, or zeros up to an alignment.
#[derive(Clone, Copy)]
pub enum Reservation {
    Zeros(usize),
    Aligns(usize),
}

// A directive's size or alignment.
pub fn reservation_of(what: Reserve, s: &[u8]) -> Result<Reservation, Refusal>
    ensures { (numbered result ≡ reservation what (imm_of s.now)) × ReservedSmall result }
{
    let v = parse_imm(s).ok_or(Refusal::InvalidNumber)?;
    match what {
        Reserve::Space => {
            if v < 0 {
                return Err(Refusal::NumberOutOfRange);
            }
            Ok(Reservation::Zeros(v as usize))
        }
        Reserve::Align => {
            if v < 1 {
                return Err(Refusal::NumberOutOfRange);
            }
            Ok(Reservation::Aligns(v as usize))
        }
    }
}

// Place p by .align's rule: the next multiple of n where n is a power of two; for another n what the rule gives, which
// may be no multiple.
fn align_up(n: usize, p: usize) -> usize
    requires { (1 ≤ n) × (n ≤ 4294967296) × (p ≤ 4294967296) }
    ensures { result ≡ aligned n p }
{
    let low = n - 1;
    if p & low == 0 {
        return p;
    }
    let q = p + low;
    q - (q & low)
}

// The place after a reservation.
pub fn place_after(p: usize, reservation: Reservation) -> usize
    requires { (p ≤ 4294967296) × Small reservation }
    ensures { result ≡ place_after p reservation }
{
    match reservation {
        Reservation::Zeros(n) => p + n,
        Reservation::Aligns(n) => align_up(n, p),
    }
}
