// A line's fields, one TAB between them. In a field a byte stands as itself or as `%` and two hexadecimal digits.
ghost use Rattle.std.specs.Prelude.{◌≡◌, ◌≤◌, length, take};
ghost use Rattle.numbers.specs.Text.{index_of, before};
ghost use Rattle.replay.specs.Fields.{tab, after, written_first, decoded};

use numbers::digits::digit;
use numbers::text::{find, text_before};

// A byte of a field, and how many bytes it is written with.
#[derive(Clone, Copy)]
struct Written {
    byte: u8,
    width: usize,
}

// The place of the first b, or the length: an end that a part of s can have.
#[tactic(auto, using(numbers::proofs::Places::index_within))]
pub fn end_at(s: &[u8], b: u8) -> usize
    ensures { (result ≡ index_of b s.now) × (result ≤ length s.now) }
{
    find(s, b)
}

// What follows the first b, or nothing.
#[tactic(auto, using(numbers::proofs::Places::index_within, crate::proofs::Decoded::after_none, crate::proofs::Decoded::after_some))]
pub fn text_after(s: &[u8], b: u8) -> &[u8]
    ensures { result.now ≡ after b s.now }
{
    match s.get(find(s, b) + 1..) {
        Some(rest) => rest,
        None => &[],
    }
}

// The first field.
pub fn field(s: &[u8]) -> &[u8]
    ensures { result.now ≡ before tab s.now }
{
    text_before(s, b'\t')
}

// The fields behind the first.
pub fn after_field(s: &[u8]) -> &[u8]
    ensures { result.now ≡ after tab s.now }
{
    text_after(s, b'\t')
}

#[tactic(auto, using(crate::proofs::Decoded::first_empty, crate::proofs::Decoded::first_plain, crate::proofs::Decoded::first_short, crate::proofs::Decoded::first_escaped))]
fn written_first(s: &[u8]) -> Written
    ensures { result ≡ written_first s.now }
{
    // most bytes are no `%`, and are told by one test
    match s {
        [b, ..] if *b != b'%' => Written { byte: *b, width: 1 },
        [_, high, low, ..] => Written {
            byte: (digit(*high) % 16 * 16 + digit(*low) % 16) as u8,
            width: 3,
        },
        [b, ..] => Written { byte: *b, width: 1 },
        [] => Written { byte: 0, width: 1 },
    }
}

// The field's bytes at the start of out, as far as it has room; how many there are.
pub fn decode(field: &[u8], out: &mut [u8]) -> usize
    ensures upper_bound { result ≤ length out.new }
    ensures out_after { take result out.new ≡ take (length out.old) (decoded field.now) }
{
    let mut i = 0;
    let mut n = 0;
    while i < field.len() {
        if out.len() <= n {
            return n;
        }
        let first = written_first(&field[i..]);
        out[n] = first.byte;
        n += 1;
        i += first.width;
    }
    n
}
