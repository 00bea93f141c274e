// A list's lines, read through one block that the caller lends.
ghost use Rattle.std.specs.Prelude.{◌≡◌, ◌≤◌, length, take, IfOk, OnOk, OnErr};
ghost use Rattle.std.specs.Str.{IsUtf8};
ghost use Rattle.numbers.specs.Code.Spans.{spanned};
ghost use Rattle.replay.specs.Lines.{line_in, Kept, Refilled, NextLine, Stopped};

use numbers::text::{Span, find, span_bytes};
use std::io::{Error, ErrorKind, Read};
use std::rt::Files;
use std::{fs, io};

// The part of the block that was read from the list and not yet given as lines.
#[derive(Clone, Copy)]
pub struct Cursor {
    pub unread: Span,
}

impl Cursor {
    // Nothing is read yet.
    pub const START: Cursor = Cursor {
        unread: Span { start: 0, len: 0 },
    };
}

// No `Option`, since the end carries a number; no `Result`, since it is no error.
#[derive(Clone, Copy)]
pub enum Step {
    // A line without its LF, as a part of the block, and the cursor behind it.
    Line(Span, Cursor),
    // No further line: how many bytes stand after the last LF.
    End(usize),
}

// Opens a list for reading. A path is text: one that is not UTF-8 opens nothing.
pub fn open<R: Files>(rt: &R, path: &[u8]) -> io::Result<R::File>
    ensures { OnOk result (IsUtf8 path.now) }
{
    match str::from_utf8(path) {
        Ok(name) => fs::open(rt, name),
        Err(_) => Err(Error::from(ErrorKind::InvalidInput)),
    }
}

// The first line of the unread bytes, if they have a whole one.
#[tactic(auto, using(crate::proofs::FirstLine::line_none, crate::proofs::FirstLine::line_some, crate::proofs::FirstLine::line_short, crate::proofs::FirstLine::line_within))]
fn line_in(block: &[u8], cursor: Cursor) -> Step
    ensures { result ≡ line_in block.now cursor }
{
    let start = cursor.unread.start;
    let unread = span_bytes(block, cursor.unread);
    let len = find(unread, b'\n');
    if len == unread.len() {
        return Step::End(len);
    }
    let behind = Span {
        start: start + len + 1,
        len: unread.len() - len - 1,
    };
    Step::Line(Span { start, len }, Cursor { unread: behind })
}

// Moves a part of the block to its start; how many bytes that has.
fn keep(block: &mut [u8], part: Span) -> usize
    ensures upper_bound { result ≤ length block.new }
    ensures value { result ≡ length (spanned block.old part) }
    ensures block_after { take result block.new ≡ spanned block.old part }
{
    let len = span_bytes(block, part).len();
    // A part without bytes may stand beyond the block.
    if 0 < len {
        block.copy_within(part.start..part.start + len, 0);
    }
    len
}

// Reads until buf is full or the list ends; how many bytes that is.
fn read_full<R: Read>(reader: &mut R, buf: &mut [u8]) -> io::Result<usize>
    ensures { IfOk result (λ n. n ≤ length buf.new) }
{
    let mut n = 0;
    while n < buf.len() {
        let more = reader.read(&mut buf[n..])?;
        if more == 0 {
            return Ok(n);
        }
        n += more;
    }
    Ok(n)
}

// The part at the start of the block, and behind it what could be read; how many bytes that is. Where a read fails, the part is there all the same.
fn refill<R: Read>(reader: &mut R, block: &mut [u8], part: Span) -> io::Result<usize>
    ensures ok { IfOk result (λ n. Refilled block.old block.new part n) }
    ensures err { OnErr result (Kept block.old block.new part) }
{
    let kept = keep(block, part);
    let got = read_full(reader, &mut block[kept..])?;
    Ok(kept + got)
}

// The next line of a list. It has to fit the block; where it does not, the list ends there.
pub fn next_line<R: Read>(reader: &mut R, block: &mut [u8], cursor: Cursor) -> io::Result<Step>
    ensures ok { IfOk result (λ r. NextLine block.old block.new cursor r) }
    ensures err { OnErr result (Stopped block.old block.new cursor) }
{
    match line_in(block, cursor) {
        Step::Line(line, next) => Ok(Step::Line(line, next)),
        Step::End(_) => {
            let len = refill(reader, block, cursor.unread)?;
            let unread = Span { start: 0, len };
            Ok(line_in(block, Cursor { unread }))
        }
    }
}
