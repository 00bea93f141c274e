// Label words: each gets the address of the label that it names.
ghost use Rattle.layout.specs.Code.Placed.{FillReady, Fills};

use crate::labels::Labels;
use crate::little_endian::put_u32;
use crate::records::{LabelWordRecord, Record};
use crate::refusal::{Refusal, RefusedAt};
use numbers::text::{Span, span_bytes};

// So many label words, in text order; the total is how many are filled.
pub fn fill_label_words(
    labels: Labels<'_>,
    label_words: &[u8],
    words: usize,
    data_bytes: &mut [u8],
) -> Result<usize, RefusedAt>
    requires { FillReady labels label_words.now words data_bytes.old }
    ensures { Fills labels.entry label_words.now words data_bytes result }
{
    for k in 0..words {
        let word = LabelWordRecord::get(label_words, k);
        let name = Span {
            start: word.start as usize,
            len: word.len as usize,
        };
        let address = labels
            .address(span_bytes(labels.text, name))
            .ok_or(Refusal::UndefinedLabelWord.at(word.line))?;
        put_u32(data_bytes, word.at as usize, address);
    }
    Ok(words)
}
