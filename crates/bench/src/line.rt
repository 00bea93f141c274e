// The program's line, written into what is lent.
ghost use Rattle.std.specs.Prelude.{◌≡◌, ◌∷◌, ◌+◌, ◌*◌, ◌≤◌, length, take};
ghost use Rattle.bench.specs.Code.Counts.{IsPrefixLen};
ghost use Rattle.numbers.specs.Text.{byte};
ghost use Rattle.bench.specs.Lines.{decimal, fields, output_line, accepted_line, refused_line};
ghost use Rattle.bench.specs.Code.Writes.{Begins};

// Room for every line: a word of two bytes, at most four numbers, each after a space, and LF.
pub const LINE_ROOM: usize = 87;

// A number's digits at the start of what is lent: how many there are. A number of 64 bits has at most 20.
fn put_decimal(dst: &mut [u8], n: u64) -> usize
    requires { 20 ≤ length dst.old }
    ensures { Begins (decimal n) dst.old dst.new result }
{
    if n < 10 {
        dst[0] = b'0' + n as u8;
        return 1;
    }
    let k = put_decimal(dst, n / 10);
    dst[k] = b'0' + (n % 10) as u8;
    k + 1
}

// A space and a number's digits.
fn put_field(dst: &mut [u8], n: u64) -> usize
    requires { 21 ≤ length dst.old }
    ensures { Begins (byte " " ∷ decimal n) dst.old dst.new result }
{
    dst[0] = b' ';
    1 + put_decimal(&mut dst[1..], n)
}

// Each number after a space, and LF.
fn put_fields(dst: &mut [u8], numbers: &[u64]) -> usize
    requires { 21 * length numbers.now + 1 ≤ length dst.old }
    ensures { Begins (fields numbers.now) dst.old dst.new result }
{
    let mut at = 0;
    for &n in numbers {
        at += put_field(&mut dst[at..], n);
    }
    dst[at] = b'\n';
    at + 1
}

// A line: a word and numbers.
fn put_line(out: &mut [u8], word: &[u8], numbers: &[u64]) -> usize
    requires { length word.now + 21 * length numbers.now + 1 ≤ length out.old }
    ensures { Begins (output_line word.now numbers.now) out.old out.new result }
{
    let at = word.len();
    out[..at].copy_from_slice(word);
    at + put_fields(&mut out[at..], numbers)
}

// The line of an accepted layout: how many bytes it has.
pub fn accepted_line(
    words: usize,
    data_bytes: usize,
    bss_size: usize,
    evaluations: usize,
    out: &mut [u8; LINE_ROOM],
) -> usize
    ensures prefix_len { IsPrefixLen result out.new }
    ensures out_after { take result out.new ≡ accepted_line words data_bytes bss_size evaluations }
{
    let numbers = [
        words as u64,
        data_bytes as u64,
        bss_size as u64,
        evaluations as u64,
    ];
    put_line(out, b"ok", &numbers)
}

// The line of a refusal, whose line is counted from 0: how many bytes it has.
pub fn refused_line(number: u8, line: u32, out: &mut [u8; LINE_ROOM]) -> usize
    ensures prefix_len { IsPrefixLen result out.new }
    ensures out_after { take result out.new ≡ refused_line number line }
{
    let numbers = [number as u64, line as u64 + 1];
    put_line(out, b"no", &numbers)
}
