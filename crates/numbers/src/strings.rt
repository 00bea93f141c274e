// Strings with escapes: what stands behind a string directive is read to the line's end.
ghost use Rattle.std.specs.Prelude.{◌≡◌, false, ◌+◌, ◌*◌, ◌/◌, ◌≤◌, length, drop, get_or};
ghost use Rattle.numbers.specs.Strings.{octal_is, octal_of, simple_escape, escape_of, char_of, decoded};
ghost use Rattle.numbers.specs.Strings.{to_quote, nothing_beside, quoted_of};
ghost use Rattle.numbers.specs.Code.Strings.{char_value, size_of, plain_len, quoted_from, quoted_at};

use crate::text::{Span, in_sixteen, is_digit, leading_from, leading_spaces};

// Where the text between a string's quotes stands, and how many bytes it stands for; where these are as many as it has, they are its own.
#[derive(Clone, Copy)]
pub struct Quoted {
    pub part: Span,
    pub size: usize,
}

// A character of a string: the byte that it stands for, and how many bytes it takes behind its first. An enum of its own: where an
// Option of a pair is handed over, its bytes are moved as one, and a string with escapes takes half as long again.
#[derive(Clone, Copy)]
pub enum Char {
    Is(u8, usize),
    Invalid,
}

// The byte at a place; past the end it is 0, which is no escape's byte.
fn byte_at(s: &[u8], i: usize) -> u8
    ensures { result ≡ get_or s.now i 0 }
{
    if s.len() <= i {
        return 0;
    }
    s[i]
}

fn octal(v: usize, digits: usize) -> Char
    ensures { char_value result ≡ octal_is v digits }
{
    if 255 < v {
        return Char::Invalid;
    }
    Char::Is(v as u8, digits)
}

// One to three digits.
fn octal_of(s: &[u8]) -> Char
    ensures { char_value result ≡ octal_of s.now }
{
    let mut v: usize = 0;
    for n in 0..3 {
        let b = byte_at(s, n);
        if !is_digit(b) {
            return octal(v, n);
        }
        v = v * 8 + (b - b'0') as usize;
    }
    octal(v, 3)
}

fn simple_escape(e: u8) -> Char
    ensures { char_value result ≡ simple_escape e }
{
    match e {
        b'b' => Char::Is(8, 1),
        b'f' => Char::Is(12, 1),
        b'n' => Char::Is(10, 1),
        b'r' => Char::Is(13, 1),
        b't' => Char::Is(9, 1),
        b'\\' => Char::Is(b'\\', 1),
        b'"' => Char::Is(b'"', 1),
        _ => Char::Invalid,
    }
}

// An escape, by what stands behind its backslash.
fn escape_of(s: &[u8]) -> Char
    ensures { char_value result ≡ escape_of s.now }
{
    let b = byte_at(s, 0);
    if is_digit(b) {
        return octal_of(s);
    }
    simple_escape(b)
}

// The character at a place; there is none at the end or past it.
pub fn char_at(s: &[u8], at: usize) -> Char
    ensures { char_value result ≡ char_of (drop at s.now) }
{
    if s.len() <= at {
        return Char::Invalid;
    }
    let b = s[at];
    if b == b'\\' {
        return escape_of(&s[at + 1..]);
    }
    Char::Is(b, 0)
}

// How many bytes the text between two quotes stands for.
fn decoded_len(s: &[u8]) -> Option<usize>
    ensures { result ≡ size_of (decoded s.now) }
{
    let mut i = 0;
    let mut n = 0;
    while i < s.len() {
        match char_at(s, i) {
            Char::Is(_, more) => {
                i += more + 1;
                n += 1;
            }
            Char::Invalid => {
                return None;
            }
        }
    }
    Some(n)
}

// The place up to which whole blocks of sixteen bytes, from a place on, have neither a quote nor a backslash.
fn mark_blocks(s: &[u8], at: usize) -> usize
    requires { at ≤ length s.now }
    ensures { result ≡ at + plain_len (drop at s.now) / 16 * 16 }
{
    let mut i = at;
    while 16 <= s.len() - i {
        if in_sixteen(s, i, b'"') | in_sixteen(s, i, b'\\') {
            return i;
        }
        i += 16;
    }
    i
}

// The first quote or backslash from a place on, or the end.
fn mark_from(s: &[u8], at: usize) -> usize
    requires { at ≤ length s.now }
    ensures { result ≡ at + plain_len (drop at s.now) }
{
    leading_from(s, mark_blocks(s, at), |b| (b != b'"') & (b != b'\\'))
}

// The next unescaped quote from a place on where a quote, a backslash or the end is, or the end: a backslash escapes the byte behind it.
fn quote_from(s: &[u8], at: usize) -> usize
    requires { (at ≤ length s.now) × (plain_len (drop at s.now) ≡ 0) }
    ensures { result ≡ at + to_quote false (drop at s.now) }
{
    let mut i = at;
    while i < s.len() {
        if s[i] == b'"' {
            return i;
        }
        if s.len() - i < 2 {
            return s.len();
        }
        i = mark_from(s, i + 2);
    }
    i
}

// Is there nothing but white space, then the end or a comment mark?
fn nothing_beside(s: &[u8]) -> bool
    ensures { result ≡ nothing_beside s.now }
{
    let n = leading_spaces(s);
    if s.len() <= n {
        return true;
    }
    (s[n] == b';') | (s[n] == b'#')
}

// A string, from behind its first quote to the line's end. The bytes before its first escape stand for themselves.
fn quoted_from(s: &[u8], at: usize) -> Option<Quoted>
    requires { at ≤ length s.now }
    ensures { result ≡ quoted_from s.now at (quoted_of (drop at s.now)) }
{
    let mark = mark_from(s, at);
    let end = quote_from(s, mark);
    if s.len() <= end {
        return None;
    }
    if !nothing_beside(&s[end + 1..]) {
        return None;
    }
    let size = decoded_len(&s[mark..end])?;
    Some(Quoted {
        part: Span {
            start: at,
            len: end - at,
        },
        size: mark - at + size,
    })
}

// The string from behind a string directive to the line's end: where the text between its quotes stands in s, and how many bytes it stands
// for. Invalid where a quote is missing, where an escape is another one or above 377, or where text stands beside the string but for a
// comment after it.
pub fn parse_string(s: &[u8]) -> Option<Quoted>
    ensures { result ≡ quoted_at s.now }
{
    let start = leading_spaces(s);
    if byte_at(s, start) != b'"' {
        return None;
    }
    quoted_from(s, start + 1)
}
