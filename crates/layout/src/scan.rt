// One scan of a line: where it ends, where its statement stands, and how far the first `:` or `=` in that is.
ghost use Rattle.std.specs.Prelude.{◌≡◌, ◌+◌, ◌*◌, ◌/◌, ◌≤◌, ltb, length, drop};
ghost use Rattle.numbers.specs.Text.{index_of};
ghost use Rattle.layout.specs.Bytes.{count_before};
ghost use Rattle.layout.specs.Code.Cuts.{is_stop, is_cut, LineCut};

use numbers::text::{Span, find_far, in_sixteen, leading_from, trim_span_far};

// A line from its place, which contracts alone name, to its end; the statement's part of the text, and how many bytes of
// that stand before its first `:` or `=`: all where it has neither.
#[derive(Clone, Copy)]
pub struct Cut {
    pub at: usize,
    pub end: usize,
    pub part: Span,
    pub mark: usize,
}

// Does a byte end a statement?
fn is_stop(b: u8) -> bool
    ensures { result ≡ is_stop b }
{
    matches!(b, b'\n' | b';' | b'#')
}

// Does it end a statement, or part it? A `match` with an arm for each becomes one test of a bit; `matches!` took 3 in 100 more
// instructions on all sources.
fn is_cut(b: u8) -> bool
    ensures { result ≡ is_cut b }
{
    match b {
        b'\n' => true,
        b';' => true,
        b'#' => true,
        b':' => true,
        b'=' => true,
        _ => false,
    }
}

// Is one of the sixteen bytes from a place on such a byte?
fn cut_in_sixteen(text: &[u8], at: usize) -> bool
    requires { at + 16 ≤ length text.now }
    ensures { result ≡ ltb (count_before is_cut (drop at text.now)) 16 }
{
    ((in_sixteen(text, at, b'\n') | in_sixteen(text, at, b';')) | in_sixteen(text, at, b'#'))
        | (in_sixteen(text, at, b':') | in_sixteen(text, at, b'='))
}

// The place up to which whole blocks of sixteen bytes, from a place on, have none.
fn blocks_from(text: &[u8], at: usize) -> usize
    requires { at ≤ length text.now }
    ensures { result ≡ at + count_before is_cut (drop at text.now) / 16 * 16 }
{
    let mut i = at;
    while 16 <= text.len() - i {
        if cut_in_sixteen(text, i) {
            return i;
        }
        i += 16;
    }
    i
}

// The first byte from a place on that ends a statement or parts it.
#[tactic(auto, using(crate::proofs::SpanLaws::count_leading))]
fn cut_from(text: &[u8], at: usize) -> usize
    requires { at ≤ length text.now }
    ensures { result ≡ at + count_before is_cut (drop at text.now) }
{
    leading_from(text, blocks_from(text, at), |b| !is_cut(b))
}

// The first byte from a place on that ends a statement.
#[tactic(auto, using(crate::proofs::SpanLaws::count_leading))]
fn stop_from(text: &[u8], at: usize) -> usize
    requires { at ≤ length text.now }
    ensures { result ≡ at + count_before is_stop (drop at text.now) }
{
    leading_from(text, at, |b| !is_stop(b))
}

// Where the line of a statement that stops at a place ends: there, or behind a comment at its LF.
fn end_from(text: &[u8], stop: usize) -> usize
    requires { stop ≤ length text.now }
    ensures { result ≡ stop + index_of 10 (drop stop text.now) }
{
    if text.len() <= stop {
        return stop;
    }
    if text[stop] == b'\n' {
        return stop;
    }
    stop + find_far(&text[stop..], b'\n')
}

// The line that starts at a place. What ends a statement is looked for from the first mark on: none stands before.
pub fn cut_line(text: &[u8], at: usize) -> Cut
    requires { at ≤ length text.now }
    ensures { (result.at ≡ at) × LineCut text.now result }
{
    let mark = cut_from(text, at);
    let stop = stop_from(text, mark);
    let end = end_from(text, stop);
    let inner = trim_span_far(&text[at..stop]);
    let start = at + inner.start;
    let len = inner.len;
    Cut {
        at,
        end,
        part: Span { start, len },
        mark: (mark - start).min(len),
    }
}
