// From a text to its line.
ghost use Rattle.std.specs.Prelude.{◌≡◌, take};
ghost use Rattle.bench.specs.Code.Counts.{IsPrefixLen};
ghost use Rattle.bench.specs.Lines.{bench_line};

use crate::line::{LINE_ROOM, accepted_line, refused_line};
use layout::assembler::assemble;
use layout::limits::{
    DATA_LIMIT, EQUATE_LIMIT, EQUATE_SIZE, ITEM_LIMIT, ITEM_SIZE, LABEL_LIMIT, LABEL_SIZE,
    WORD_LIMIT,
};

// The text's line at the start of out: how many bytes it has. The layout is lent buffers of every limit's full size.
pub fn bench_line(text: &[u8], out: &mut [u8; LINE_ROOM]) -> usize
    ensures prefix_len { IsPrefixLen result out.new }
    ensures out_after { take result out.new ≡ bench_line text.now }
{
    let mut words = [0u32; WORD_LIMIT];
    let mut data_bytes = [0u8; DATA_LIMIT];
    let mut labels = [0u8; LABEL_LIMIT * LABEL_SIZE];
    let mut equates = [0u8; EQUATE_LIMIT * EQUATE_SIZE];
    let mut items = [0u8; ITEM_LIMIT * ITEM_SIZE];
    let laid = assemble(
        text,
        0,
        &mut words,
        &mut data_bytes,
        &mut labels,
        &mut equates,
        &mut items,
    );
    match laid {
        Ok(counts) => accepted_line(
            counts.words,
            counts.data_bytes,
            counts.bss_size,
            counts.evaluations,
            out,
        ),
        Err(refused) => refused_line(refused.refusal.number(), refused.line, out),
    }
}
