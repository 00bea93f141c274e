// The whole call: document 01's stages in their order, into the buffers that the caller lends.
ghost use Rattle.layout.specs.Code.Numbers.{numbered_at};
ghost use Rattle.std.specs.Prelude.{◌≡◌, ◌≤◌, length};
ghost use Rattle.layout.specs.Limits.{base_limit, text_limit};
ghost use Rattle.layout.specs.Layouts.{check_bytes, layout_of};
ghost use Rattle.layout.specs.Calls.{Assembled};
ghost use Rattle.layout.specs.Code.Steps.{Agrees};
ghost use Rattle.layout.specs.Code.Checks.{any_high};
ghost use Rattle.layout.specs.Code.Calls.{LinesReady, LinesGive, ResolvedReady, ResolvedGive, LaidLeft, Clear, Clears, lines_of, buffers_now, lengths, answer_in};

use crate::addresses::Starts;
use crate::emit::emit_items;
use crate::equates::Equates;
use crate::labels::Labels;
use crate::limits::{
    BASE_LIMIT, EQUATE_LIMIT, EXPR_SIZE, LABEL_WORD_LIMIT, LABEL_WORD_SIZE, Room, TEXT_LIMIT,
};
use crate::names::Names;
use crate::order::order_labels;
use crate::refusal::{Refusal, RefusedAt};
use crate::stage::line_stage;
use crate::state::Counters;
use crate::symbols::resolve_symbols;

// What is counted of a layout.
#[derive(Clone, Copy)]
pub struct Counts {
    pub words: usize,
    pub data_bytes: usize,
    pub data_base: u32,
    pub bss_size: usize,
    pub labels: usize,
    pub equates: usize,
    pub items: usize,
    pub evaluations: usize,
}

// Is one byte above 127? Every byte is looked at, so that the compiler takes many at a time.
fn any_high(text: &[u8]) -> bool
    ensures { result ≡ any_high text.now }
{
    let mut high = false;
    for &b in text {
        high = high | (127 < b);
    }
    high
}

// The line of the first byte above 127.
fn high_line(text: &[u8]) -> Result<(), RefusedAt>
    requires { length text.now ≤ text_limit }
    ensures { numbered_at result ≡ check_bytes 0 text.now }
{
    let mut line: u32 = 0;
    for &b in text {
        if 127 < b {
            return Err(Refusal::HighByte.at(line));
        }
        if b == b'\n' {
            line += 1;
        }
    }
    Ok(())
}

// 1, at the line of the first byte above 127.
fn check_bytes(text: &[u8]) -> Result<(), RefusedAt>
    requires { length text.now ≤ text_limit }
    ensures { numbered_at result ≡ check_bytes 0 text.now }
{
    if any_high(text) {
        return high_line(text);
    }
    Ok(())
}

// After the symbols: the items' words, then the labels in order. Names are looked up before the labels are put in order.
fn emit_and_order(
    text: &[u8],
    base: u32,
    st: Counters,
    evaluations: usize,
    labels: &mut [u8],
    label_index: &[u16],
    equates: &[u8],
    equate_index: &[u16],
    items: &mut [u8],
    label_words: &mut [u8],
    words: &mut [u32],
) -> Result<Counts, RefusedAt>
    requires { ResolvedReady text.now base st evaluations labels.old label_index.now equates.now equate_index.now items.old label_words.old words.old }
    ensures { ResolvedGive text.now base st evaluations labels label_index.now equates.now equate_index.now items label_words words result }
{
    let rest = st.rest;
    let own = rest.own;
    let stored = own.stored;
    let counted = own.items;
    let starts = Starts::of(base, stored.bytes);
    let placed = Labels {
        text,
        records: labels,
        index: label_index,
        count: st.labels,
    };
    let found = Equates {
        text,
        records: equates,
        index: equate_index,
        count: rest.equates,
    };
    let names = Names {
        labels: &placed,
        equates: &found,
    };
    let count = emit_items(names, starts, items, counted.items, words)?;
    // the label words are filled: their table has room for every label's record
    order_labels(text, labels, label_words, st.labels);
    Ok(Counts {
        words: count,
        data_bytes: stored.bytes,
        data_base: starts.data,
        bss_size: own.bss,
        labels: st.labels,
        equates: rest.equates,
        items: counted.items,
        evaluations,
    })
}

// After the lines: symbols, the items' words, and the labels in order.
fn after_lines(
    text: &[u8],
    base: u32,
    st: Counters,
    labels: &mut [u8],
    label_index: &[u16],
    equates: &mut [u8],
    exprs: &[u8],
    items: &mut [u8],
    data_bytes: &mut [u8],
    label_words: &mut [u8],
    words: &mut [u32],
) -> Result<Counts, RefusedAt>
    requires { LinesReady text.now base st labels.old label_index.now equates.old exprs.now items.old data_bytes.old label_words.old words.old }
    ensures { LinesGive text.now base st labels label_index.now equates exprs.now items data_bytes label_words words result }
{
    // the index over equates, 1,024 buckets and an entry each, and how far each one's sum has come, two numbers each
    let mut equate_index = [0u16; 1280];
    let mut partials = [0u64; 512];
    let evaluations = resolve_symbols(
        text,
        base,
        st,
        labels,
        label_index,
        equates,
        &mut equate_index,
        exprs,
        &mut partials,
        data_bytes,
        label_words,
    )?;
    emit_and_order(
        text,
        base,
        st,
        evaluations,
        labels,
        label_index,
        equates,
        &equate_index,
        items,
        label_words,
        words,
    )
}

// The lines, and what follows them, into buffers of zeros.
fn lay_lines(
    text: &[u8],
    base: u32,
    words: &mut [u32],
    data_bytes: &mut [u8],
    labels: &mut [u8],
    equates: &mut [u8],
    items: &mut [u8],
) -> Result<Counts, RefusedAt>
    requires { (base ≤ base_limit) × (length text.now ≤ text_limit)
        × Clear words.old × Clear data_bytes.old × Clear labels.old × Clear equates.old × Clear items.old }
    ensures { Agrees (LaidLeft (buffers_now words.new data_bytes.new labels.new equates.new items.new)) (numbered_at result)
        (lines_of text.now base (lengths (buffers_now words.old data_bytes.old labels.old equates.old items.old))) }
{
    // the stage's own tables, as large as their limits ask: the index over labels, expressions, label words
    let mut label_index = [0u16; 2048];
    let mut exprs = [0u8; EQUATE_LIMIT * EXPR_SIZE];
    let mut label_words = [0u8; LABEL_WORD_LIMIT * LABEL_WORD_SIZE];
    let room = Room::of(
        words.len(),
        data_bytes.len(),
        labels.len(),
        equates.len(),
        items.len(),
    );
    let st = line_stage(
        text,
        labels,
        &mut label_index,
        equates,
        &mut exprs,
        items,
        data_bytes,
        &mut label_words,
        room,
    )?;
    after_lines(
        text,
        base,
        st,
        labels,
        &label_index,
        equates,
        &exprs,
        items,
        data_bytes,
        &mut label_words,
        words,
    )
}

// 40, 41, 1, then the lines, into buffers of zeros.
fn lay_out(
    text: &[u8],
    base: u32,
    words: &mut [u32],
    data_bytes: &mut [u8],
    labels: &mut [u8],
    equates: &mut [u8],
    items: &mut [u8],
) -> Result<Counts, RefusedAt>
    requires { Clear words.old × Clear data_bytes.old × Clear labels.old × Clear equates.old × Clear items.old }
    ensures { Agrees (LaidLeft (buffers_now words.new data_bytes.new labels.new equates.new items.new)) (numbered_at result)
        (layout_of text.now base (lengths (buffers_now words.old data_bytes.old labels.old equates.old items.old))) }
{
    if BASE_LIMIT < base {
        return Err(Refusal::BaseTooHigh.at(0));
    }
    if TEXT_LIMIT < text.len() {
        return Err(Refusal::TextTooLong.at(0));
    }
    check_bytes(text)?;
    lay_lines(text, base, words, data_bytes, labels, equates, items)
}

// Every lent output becomes all zeros.
fn clear(
    words: &mut [u32],
    data_bytes: &mut [u8],
    labels: &mut [u8],
    equates: &mut [u8],
    items: &mut [u8],
)
    ensures { Clears words × Clears data_bytes × Clears labels × Clears equates × Clears items }
{
    words.fill(0);
    data_bytes.fill(0);
    labels.fill(0);
    equates.fill(0);
    items.fill(0);
}

// A source at a base, laid out into the buffers that are lent: whatever they held, and however long they are.
pub fn assemble(
    text: &[u8],
    base: u32,
    words: &mut [u32],
    data_bytes: &mut [u8],
    labels: &mut [u8],
    equates: &mut [u8],
    items: &mut [u8],
) -> Result<Counts, RefusedAt>
    ensures { Assembled text.now base
        (lengths (buffers_now words.old data_bytes.old labels.old equates.old items.old))
        (answer_in result (buffers_now words.new data_bytes.new labels.new equates.new items.new)) }
{
    clear(words, data_bytes, labels, equates, items);
    match lay_out(text, base, words, data_bytes, labels, equates, items) {
        Ok(counts) => Ok(counts),
        Err(refused) => {
            clear(words, data_bytes, labels, equates, items); // whatever the stages wrote
            Err(refused)
        }
    }
}
