// Parts of the text, by where they stand in it.
ghost use Rattle.std.specs.Prelude.{◌≡◌, ◌+◌, ◌≤◌, length, take};
ghost use Rattle.numbers.specs.Text.{is_space};
ghost use Rattle.numbers.specs.Code.Spans.{spanned};
ghost use Rattle.layout.specs.Pieces.{piece, trim_piece, from_byte};
ghost use Rattle.layout.specs.Bytes.{count_before};
ghost use Rattle.layout.specs.Code.Spans.{span_of, piece_at, SpanWithin};

use numbers::text::{Span, is_space, leading, span_bytes, trim_span};

// A part without the white space at its ends.
fn trim_part(text: &[u8], part: Span) -> Span
    ensures { result ≡ span_of (trim_piece (piece_at text.now part)) }
{
    let inner = trim_span(span_bytes(text, part));
    Span {
        start: part.start + inner.start,
        len: inner.len,
    }
}

// A part of a part, by its own place in the text. The contract alone names the text.
pub fn part_in(text: &[u8], part: Span, inner: Span) -> Span
    requires { SpanWithin text.now part × SpanWithin (spanned text.now part) inner }
    ensures { result ≡ record { start = part.start + inner.start; len = inner.len } }
{
    Span {
        start: part.start + inner.start,
        len: inner.len,
    }
}

// The first n bytes of a part. The contract alone names the text.
pub fn part_to(text: &[u8], part: Span, n: usize) -> Span
    requires { n ≤ length (spanned text.now part) }
    ensures { result ≡ span_of (piece part.start (take n (spanned text.now part))) }
{
    Span {
        start: part.start,
        len: n,
    }
}

// A part from its nth byte on.
pub fn part_from(text: &[u8], part: Span, n: usize) -> Span
    requires { n ≤ length (spanned text.now part) }
    ensures { result ≡ span_of (from_byte n (piece_at text.now part)) }
{
    let bytes = span_bytes(text, part);
    Span {
        start: part.start + n,
        len: bytes.len() - n,
    }
}

// The first n bytes of a part, without the white space at their ends.
pub fn trim_to(text: &[u8], part: Span, n: usize) -> Span
    requires { n ≤ length (spanned text.now part) }
    ensures { result ≡ span_of (trim_piece (piece part.start (take n (spanned text.now part)))) }
{
    trim_part(text, part_to(text, part, n))
}

// A part from its nth byte on, without the white space at its ends.
pub fn trim_from(text: &[u8], part: Span, n: usize) -> Span
    requires { n ≤ length (spanned text.now part) }
    ensures { result ≡ span_of (trim_piece (from_byte n (piece_at text.now part))) }
{
    trim_part(text, part_from(text, part, n))
}

// How many bytes stand before the first white space.
#[tactic(auto, using(crate::proofs::SpanLaws::count_leading))]
pub fn word_len(s: &[u8]) -> usize
    ensures { result ≡ count_before is_space s.now }
{
    leading(s, |b| !is_space(b))
}
