// The program's input.
ghost use Rattle.bench.specs.Code.Inputs.{Reads};

use std::io;
use std::io::Read;

// Reads until the buffer is full or the input ends: so many bytes stand at the buffer's start, all that there are, or as many as it holds.
// A read that fails ends it with that error.
pub fn read_input<R: Read>(input: &mut R, buf: &mut [u8]) -> io::Result<usize>
    ensures { Reads result buf.new }
{
    let mut n = 0;
    while n < buf.len() {
        let more = input.read(&mut buf[n..])?;
        if more == 0 {
            return Ok(n);
        }
        n += more;
    }
    Ok(n)
}
