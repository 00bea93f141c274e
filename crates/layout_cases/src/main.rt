// Replays the list of whole answers in data/cases through the call `assemble`: how many lines agreed, and the first that did not. The
// list's form is described in differential/README.md.
#![tactic(auto)]

mod buffers;
mod compare;
mod listed;

use crate::compare::agrees;
use replay::lines::open;
use replay::list::replay_all;
use replay::tally::report;
use std::io;

fn main(rt: HostRuntime) -> io::Result<()> {
    let mut list = open(&rt, b"cases")?;
    let outcome = replay_all(&mut list, agrees)?;
    report(&mut rt.stdout(), outcome.tally, outcome.rest)
}
