// The layout for callers in C and Rust: the one call, and its answer as numbers.
#![tactic(auto)]

ghost use Rattle.std.specs.Prelude.{◌≡◌, length};
ghost use Rattle.layout.specs.Code.Calls.{buffers_now, lengths};
ghost use Rattle.jig.specs.Called.{Called, numbers_of, numbers_lent};

use layout::assembler::{Counts, assemble};
use layout::refusal::RefusedAt;

// An answer's nine numbers: a refusal's line, or what is counted of an accepted layout.
fn numbers_of(laid: Result<Counts, RefusedAt>) -> [u64; 9]
    ensures { result ≡ numbers_of laid }
{
    match laid {
        Ok(c) => [
            0,
            c.words as u64,
            c.data_bytes as u64,
            c.data_base as u64,
            c.bss_size as u64,
            c.labels as u64,
            c.equates as u64,
            c.items as u64,
            c.evaluations as u64,
        ],
        Err(refused) => [refused.line as u64, 0, 0, 0, 0, 0, 0, 0, 0],
    }
}

// As many of the nine numbers as there is room for, and zeros in the room after them.
fn put_numbers(counts: &mut [u64], numbers: &[u64; 9])
    ensures { counts.new ≡ numbers_lent (length counts.old) numbers.now }
{
    counts.fill(0);
    let n = counts.len().min(numbers.len());
    counts[..n].copy_from_slice(&numbers[..n]);
}

// A source at a base, laid out into the buffers that are lent, whatever they held and however long they are. The result is 0: accepted; else the
// refusal's number. Into counts go the line, then how many words, data bytes, the data base, the bss size, how many labels, equates, items and
// evaluations.
pub fn kodhlace_assemble(
    text: &[u8],
    base: u32,
    words: &mut [u32],
    data_bytes: &mut [u8],
    labels: &mut [u8],
    equates: &mut [u8],
    items: &mut [u8],
    counts: &mut [u64],
) -> u32
    ensures { Called text.now base
        (lengths (buffers_now words.old data_bytes.old labels.old equates.old items.old))
        (length counts.old) result counts.new
        (buffers_now words.new data_bytes.new labels.new equates.new items.new) }
{
    let laid = assemble(text, base, words, data_bytes, labels, equates, items);
    put_numbers(counts, &numbers_of(laid));
    match laid {
        Ok(_) => 0,
        Err(refused) => refused.refusal.number() as u32,
    }
}
