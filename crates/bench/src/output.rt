// The program's output.
ghost use Rattle.std.specs.Prelude.{◌≡◌, OnOk};
ghost use Rattle.std.specs.Io.KnownBytes.{Appends};
ghost use Rattle.bench.specs.Lines.{bench_line};

use std::io;
use std::io::Write;

// Hands a line to the output: whoever calls this shows that it is the line that the text gets. The text is lent for that alone.
pub fn write_line<W: Write>(output: &mut W, text: &[u8], line: &[u8]) -> io::Result<()>
    requires { line.now ≡ bench_line text.now }
    ensures { OnOk result (Appends (W.contents output.old) (W.contents output.new) line.now) }
{
    output.write_all(line)
}
