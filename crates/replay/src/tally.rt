// The count of a replay, and its report.
ghost use Rattle.std.specs.Prelude.{◌≡◌, OnOk};
ghost use Rattle.std.specs.Io.KnownBytes.{Appends};
ghost use Rattle.replay.specs.Tallies.{tallied, report_line, reported};

use std::io;
use std::io::Write;

// What the replay found so far. Lines are counted from 1; `first` is the first that did not agree, or 0.
#[derive(Clone, Copy)]
pub struct Tally {
    pub agreed: u64,
    pub differed: u64,
    pub first: u64,
}

impl Tally {
    // Before the first line.
    pub const NONE: Tally = Tally {
        agreed: 0,
        differed: 0,
        first: 0,
    };

    // One line more.
    pub fn with(self, agrees: bool) -> Tally
        ensures { result ≡ tallied self agrees }
    {
        if agrees {
            return Tally {
                agreed: self.agreed.wrapping_add(1),
                ..self
            };
        }
        let differed = self.differed.wrapping_add(1);
        let first = if self.first == 0 {
            self.agreed.wrapping_add(differed)
        } else {
            self.first
        };
        Tally {
            differed,
            first,
            ..self
        }
    }
}

// A line of the report: a name and a number.
fn print<W: Write>(out: &mut W, name: &str, n: u64) -> io::Result<()>
    ensures { OnOk result (Appends (W.contents out.old) (W.contents out.new) (report_line name.now n)) }
{
    writeln!(out, "{name}{n}")
}

// Writes the count, and how many bytes of the list stand after its last line.
pub fn report<W: Write>(out: &mut W, tally: Tally, rest: usize) -> io::Result<()>
    ensures { OnOk result (Appends (W.contents out.old) (W.contents out.new) (reported tally rest)) }
{
    print(out, "agreed ", tally.agreed)?;
    print(out, "differed ", tally.differed)?;
    print(out, "first difference at line ", tally.first)?;
    print(out, "bytes after the last line ", rest as u64)
}
