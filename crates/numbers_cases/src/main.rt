// Replays the list of outside answers in data/cases against the crate numbers: how many agreed, and the first line that did not.
// The list's form is described in differential/README.md.
#![tactic(auto)]

mod compare;
mod constants;

use crate::compare::agrees;
use crate::constants::constants;
use replay::lines::open;
use replay::list::replay_all;
use replay::tally::report;
use std::io;

fn main(rt: HostRuntime) -> io::Result<()> {
    constants();
    let mut list = open(&rt, b"cases")?;
    let outcome = replay_all(&mut list, agrees)?;
    report(&mut rt.stdout(), outcome.tally, outcome.rest)
}
