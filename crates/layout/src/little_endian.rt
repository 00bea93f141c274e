// Numbers in lent bytes, the low byte first: the write and the read of each.
ghost use Rattle.std.specs.Prelude.{◌≡◌, ◌++◌, ◌+◌, ◌≤◌, length, take, drop};
ghost use Rattle.layout.specs.Bytes.{little_endian, put};
ghost use Rattle.layout.specs.Records.{little_endian_value};

// The four bytes of v at a place, the lowest first.
pub fn put_u32(buf: &mut [u8], at: usize, v: u32)
    requires { at + 4 ≤ length buf.old }
    ensures { buf.new ≡ put at (little_endian 4 v) buf.old }
{
    let end = at + 4;
    buf[at..end].copy_from_slice(&v.to_le_bytes());
}

pub fn get_u32(buf: &[u8], at: usize) -> u32
    requires { at + 4 ≤ length buf.now }
    ensures { result ≡ little_endian_value (take 4 (drop at buf.now)) }
{
    u32::from_le_bytes([buf[at], buf[at + 1], buf[at + 2], buf[at + 3]])
}

// The width low bytes of v, the lowest first. Most numbers are bytes and words: these are stored without a loop.
pub fn put_number(dst: &mut [u8], width: usize, v: u64)
    requires { width ≤ length dst.old }
    ensures { dst.new ≡ little_endian width v ++ drop width dst.old }
{
    if width == 1 {
        dst[0] = (v % 256) as u8;
        return;
    }
    if width == 4 {
        put_u32(dst, 0, (v % 4294967296) as u32);
        return;
    }
    let mut left = v;
    for i in 0..width {
        dst[i] = (left % 256) as u8;
        left /= 256;
    }
}
