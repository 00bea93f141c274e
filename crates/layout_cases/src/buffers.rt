// What a buffer holds after the call.
use replay::field::decode;

// Every byte of the buffers before the call, and of what is not lent after it.
pub const UNTOUCHED: u8 = 0xA5;

pub const UNTOUCHED_WORD: u32 = 0xA5A5A5A5;

// Room for the bytes of a listed field.
pub const LISTED: usize = 65536;

// Behind what is used, what was lent is zeros, and what was not lent is as before.
fn is_left<T: PartialEq>(buffer: &[T], used: usize, lent: usize, zero: &T, untouched: &T) -> bool {
    used <= lent
        && lent <= buffer.len()
        && buffer[used..lent].iter().all(|x| x == zero)
        && buffer[lent..].iter().all(|x| x == untouched)
}

// The buffer has the listed bytes, a count of records.
pub fn is_filled(buffer: &[u8], lent: usize, count: usize, size: usize, listed: &[u8]) -> bool {
    let mut space = [0u8; LISTED];
    let n = decode(listed, &mut space);
    count.checked_mul(size) == Some(n)
        && buffer.starts_with(&space[..n])
        && is_left(buffer, n, lent, &0, &UNTOUCHED)
}

// The same of words, each listed with its lowest byte first.
pub fn is_filled_words(words: &[u32], lent: usize, count: usize, listed: &[u8]) -> bool {
    let mut space = [0u8; LISTED];
    let n = decode(listed, &mut space);
    count.checked_mul(4) == Some(n)
        && count <= words.len()
        && words
            .iter()
            .zip(space[..n].chunks_exact(4))
            .all(|(word, bytes)| bytes == word.to_le_bytes().as_slice())
        && is_left(words, count, lent, &0, &UNTOUCHED_WORD)
}
