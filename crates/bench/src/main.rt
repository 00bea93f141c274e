// Reads a source on standard input, lays it out at base 0, and writes one line.
#![tactic(auto)]

mod answer;
mod input;
mod line;
mod output;

use crate::answer::bench_line;
use crate::input::read_input;
use crate::line::LINE_ROOM;
use crate::output::write_line;
use layout::limits::TEXT_LIMIT;
use std::io;

// One byte more than a text may have: what is behind it makes no difference (`enough_read`).
const TEXT_ROOM: usize = TEXT_LIMIT + 1;

fn main(rt: HostRuntime) -> io::Result<()> {
    let mut space = [0u8; TEXT_ROOM];
    let n = read_input(&mut rt.stdin(), &mut space)?;
    let text = &space[..n];
    let mut line = [0u8; LINE_ROOM];
    let k = bench_line(text, &mut line);
    write_line(&mut rt.stdout(), text, &line[..k])
}
