// Bytes, strings and zeros into lent bytes. What a directive writes becomes the prefix of the part of the data that it is lent, the remainder
// unchanged.
ghost use Rattle.std.specs.Prelude.{◌≡◌, ◌++◌, ◌≤◌, length, drop, replicate};
ghost use Rattle.std.specs.Prelude.{Some};
ghost use Rattle.numbers.specs.Strings.{decoded};
ghost use Rattle.numbers.specs.Code.Strings.{decoded_bytes};
ghost use Rattle.layout.specs.Code.Texts.{text_bytes, StoredIn};

use numbers::strings::{Char, char_at};

pub fn put_bytes(dst: &mut [u8], src: &[u8])
    requires { length src.now ≤ length dst.old }
    ensures { dst.new ≡ src.now ++ drop (length src.now) dst.old }
{
    dst[..src.len()].copy_from_slice(src);
}

// The bytes that the text between two quotes stands for. It was read before: none of its characters is invalid.
fn put_decoded(dst: &mut [u8], s: &[u8])
    requires { (decoded s.now ≡ Some (decoded_bytes s.now)) × (length (decoded_bytes s.now) ≤ length dst.old) }
    ensures { dst.new ≡ decoded_bytes s.now ++ drop (length (decoded_bytes s.now)) dst.old }
{
    let mut i = 0;
    let mut n = 0;
    while let Char::Is(b, more) = char_at(s, i) {
        dst[n] = b;
        i += more + 1;
        n += 1;
    }
}

// A string's text in so many bytes: decoded where these are fewer than it has, else as it is.
pub fn put_string(dst: &mut [u8], s: &[u8], size: usize)
    requires { StoredIn size s.now × (size ≤ length dst.old) }
    ensures { dst.new ≡ text_bytes size s.now ++ drop size dst.old }
{
    if size < s.len() {
        put_decoded(dst, s);
        return;
    }
    // By place: `put_bytes` would be a call of `memmove` here, which the archive for C is not to need from outside.
    for i in 0..s.len() {
        dst[i] = s[i];
    }
}

pub fn put_zeros(dst: &mut [u8], n: usize)
    requires { n ≤ length dst.old }
    ensures { dst.new ≡ replicate n 0 ++ drop n dst.old }
{
    dst[..n].fill(0);
}
