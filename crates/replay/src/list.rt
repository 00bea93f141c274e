// A whole list against a test of its lines.
ghost use Rattle.std.specs.Prelude.{IfOk};
ghost use Rattle.std.specs.Fn.{FnReturnsAt};
ghost use Rattle.replay.specs.Replays.{Replayed};

use crate::lines::{Cursor, Step, next_line};
use crate::tally::Tally;
use numbers::text::span_bytes;
use std::io;
use std::io::Read;

// A line has to fit so many bytes.
const BLOCK: usize = 65536;

// A proved loop has to end: with so many lines or more the list differs.
const MOST_LINES: usize = 1000000;

// What a replay found, and how many bytes stand after the last line.
#[derive(Clone, Copy)]
pub struct Outcome {
    pub tally: Tally,
    pub rest: usize,
}

// Counts the lines with which the test agrees, up to the list's end.
pub fn replay_all<R: Read, F: Fn(&[u8]) -> bool>(list: &mut R, agrees: F) -> io::Result<Outcome>
    requires { F.IsAlwaysCallable agrees }
    ensures { IfOk result (λ o. Replayed (FnReturnsAt F.Fn agrees) o) }
{
    let mut block = [0u8; BLOCK];
    let mut tally = Tally::NONE;
    let mut cursor = Cursor::START;
    for _ in 0..MOST_LINES {
        match next_line(list, &mut block, cursor)? {
            Step::Line(line, next) => {
                tally = tally.with(agrees(span_bytes(&block, line)));
                cursor = next;
            }
            Step::End(rest) => return Ok(Outcome { tally, rest }),
        }
    }
    Ok(Outcome {
        tally: tally.with(false),
        rest: 0,
    })
}
