// The tokens of an expression, read one after the other where they stand: nothing is copied.
ghost use Rattle.std.specs.Prelude.{◌≡◌, ◌+◌, ◌<◌, length, drop, get_or};
ghost use Rattle.numbers.specs.Text.{leading};
ghost use Rattle.numbers.specs.Numbers.{number_of};
ghost use Rattle.layout.specs.Expressions.{is_blank, is_name_byte, is_number_byte};
ghost use Rattle.layout.specs.Code.Tokens.{numeral, sign_of, blank_in, TokenHere, TokenFrom};

use numbers::imm::parse_signed_prefixed_i64;
use numbers::text::{Span, is_digit, is_space, leading_from};

#[derive(Clone, Copy)]
pub enum Token {
    Plus,
    Minus,
    Dot,
    Number(i64),
    Name(Span),
    Unreadable,
}

fn is_blank(b: u8) -> bool
    ensures { result ≡ is_blank b }
{
    (b == b'\t') | (b == b'\n') | (b == b'\r') | (b == b' ') | (b == b',')
}

fn is_name_byte(b: u8) -> bool
    ensures { result ≡ is_name_byte b }
{
    b.is_ascii_alphanumeric() | (b == b'_') | (b == b'.') | (b == b'$')
}

fn is_number_byte(b: u8) -> bool
    ensures { result ≡ is_number_byte b }
{
    b.is_ascii_hexdigit() | (b == b'x') | (b == b'X')
}

// What `is_blank` answers, where each run of white space may be read as one space: then bytes 11 and 12 are blanks too.
fn is_blank_in(b: u8, one_space: bool) -> bool
    ensures { result ≡ blank_in one_space b }
{
    if one_space {
        return is_space(b) | (b == b',');
    }
    is_blank(b)
}

// The place of the first byte from a place on that is no blank.
pub fn skip_blanks(s: &[u8], at: usize, one_space: bool) -> usize
    ensures { result ≡ at + leading (blank_in one_space) (drop at s.now) }
{
    leading_from(s, at, |b| is_blank_in(b, one_space))
}

// The token of a number's bytes.
fn number_token(run: &[u8]) -> Token
    ensures { result ≡ numeral (number_of run.now) }
{
    match parse_signed_prefixed_i64(run) {
        Some(v) => Token::Number(v),
        None => Token::Unreadable,
    }
}

// The one place where `+` and `-` are told: signs before a term, and operators between terms.
pub fn sign_of(b: u8) -> Option<bool>
    ensures { result ≡ sign_of b }
{
    match b {
        b'+' => Some(false),
        b'-' => Some(true),
        _ => None,
    }
}

// The token at a place where neither a blank nor a sign stands.
fn operand_here(s: &[u8], at: usize) -> Option<(Token, usize)>
    requires { (at < length s.now) × (sign_of (get_or s.now at 0) ≡ None) }
    ensures { TokenHere s.now at result }
{
    let b = s[at];
    if is_digit(b) {
        let end = leading_from(s, at, is_number_byte);
        return Some((number_token(&s[at..end]), end));
    }
    if !is_name_byte(b) {
        return Some((Token::Unreadable, at + 1));
    }
    let end = leading_from(s, at, is_name_byte);
    let len = end - at;
    if (b == b'.') & (len == 1) {
        return Some((Token::Dot, end));
    }
    Some((Token::Name(Span { start: at, len }), end))
}

// The token at a place where no blank stands.
fn token_here(s: &[u8], at: usize) -> Option<(Token, usize)>
    ensures { TokenHere s.now at result }
{
    if s.len() <= at {
        return None;
    }
    match sign_of(s[at]) {
        Some(true) => Some((Token::Minus, at + 1)),
        Some(false) => Some((Token::Plus, at + 1)),
        None => operand_here(s, at),
    }
}

// The next token from a place on. The expression of an `.equ` that a blank parts from its name is read with one space for each run of
// white space: its tokens are those of the text itself where all white space is blank.
pub fn token_at(s: &[u8], at: usize, one_space: bool) -> Option<(Token, usize)>
    ensures { TokenFrom one_space s.now at result }
{
    token_here(s, skip_blanks(s, at, one_space))
}
