// Symbols, once the lines are read: the labels' addresses, the label words, and the equates' values.
ghost use Rattle.layout.specs.Code.Symbols.{SymbolsReady, SymbolsResolve};

use crate::addresses::{Starts, place_labels};
use crate::equates::index_equates;
use crate::fixups::fill_label_words;
use crate::labels::Labels;
use crate::refusal::RefusedAt;
use crate::rounds::resolve;
use crate::state::Counters;

// Every label gets its address and every label word its label's; then the rounds find the equates' values. The total is of the evaluations.
pub fn resolve_symbols(
    text: &[u8],
    base: u32,
    st: Counters,
    labels: &mut [u8],
    label_index: &[u16],
    equates: &mut [u8],
    equate_index: &mut [u16],
    exprs: &[u8],
    partials: &mut [u64],
    data_bytes: &mut [u8],
    label_words: &[u8],
) -> Result<usize, RefusedAt>
    requires { SymbolsReady text.now base st labels.old label_index.now equates.old equate_index.old exprs.now partials.old data_bytes.old label_words.now }
    ensures { SymbolsResolve text.now base st labels label_index.now equates equate_index exprs.now partials data_bytes label_words.now result }
{
    let rest = st.rest;
    let own = rest.own;
    let stored = own.stored;
    let label_count = st.labels;
    let count = rest.equates;
    let starts = Starts::of(base, stored.bytes);
    place_labels(labels, label_count, starts);
    let placed = Labels {
        text,
        records: labels,
        index: label_index,
        count: label_count,
    };
    fill_label_words(placed, label_words, stored.label_words, data_bytes)?;
    index_equates(text, equates, count, equate_index);
    resolve(
        placed,
        starts,
        equates,
        equate_index,
        count,
        exprs,
        partials,
    )
}
