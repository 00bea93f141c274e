// One line of the list against what the call answers and leaves in the buffers.
use crate::buffers::{LISTED, UNTOUCHED, UNTOUCHED_WORD, is_filled, is_filled_words};
use crate::listed::{ANSWER, BASE, Fields, LENT, SOURCE, USED, are_numbers, fields_of, number};
use layout::assembler::{Counts, assemble};
use layout::limits::{
    DATA_LIMIT, EQUATE_LIMIT, EQUATE_SIZE, ITEM_LIMIT, ITEM_SIZE, LABEL_LIMIT, LABEL_SIZE,
    WORD_LIMIT,
};
use layout::refusal::RefusedAt;
use replay::field::decode;

// What a refusal leaves to count.
const NO_COUNTS: Counts = Counts {
    words: 0,
    data_bytes: 0,
    data_base: 0,
    bss_size: 0,
    labels: 0,
    equates: 0,
    items: 0,
    evaluations: 0,
};

// The call's answer as the list has it: number, line and counts.
#[derive(Clone, Copy)]
struct Answer {
    number: u8,
    line: u32,
    counts: Counts,
}

fn answer_of(laid: Result<Counts, RefusedAt>) -> Answer {
    match laid {
        Ok(counts) => Answer {
            number: 0,
            line: 0,
            counts,
        },
        Err(refused) => Answer {
            number: refused.refusal.number(),
            line: refused.line,
            counts: NO_COUNTS,
        },
    }
}

// Number, line and every count.
fn answer_agrees(answer: Answer, fields: &Fields<'_>) -> bool {
    let counts = answer.counts;
    let numbers = [
        answer.number as u64,
        answer.line as u64,
        counts.words as u64,
        counts.data_bytes as u64,
        counts.data_base as u64,
        counts.bss_size as u64,
        counts.labels as u64,
        counts.equates as u64,
        counts.items as u64,
        counts.evaluations as u64,
    ];
    are_numbers(&numbers, &fields.at[ANSWER..USED])
}

// How many elements of each buffer are lent.
#[derive(Clone, Copy)]
struct Lent {
    words: usize,
    data_bytes: usize,
    labels: usize,
    equates: usize,
    items: usize,
}

fn lent_in(fields: &Fields<'_>) -> Lent {
    Lent {
        words: number(fields.at[LENT]) as usize,
        data_bytes: number(fields.at[LENT + 1]) as usize,
        labels: number(fields.at[LENT + 2]) as usize,
        equates: number(fields.at[LENT + 3]) as usize,
        items: number(fields.at[LENT + 4]) as usize,
    }
}

// The call is lent the first elements of each buffer. A buffer that has fewer than are listed is lent whole, and will not agree.
fn call(
    text: &[u8],
    base: u32,
    lent: Lent,
    words: &mut [u32],
    data_bytes: &mut [u8],
    labels: &mut [u8],
    equates: &mut [u8],
    items: &mut [u8],
) -> Answer {
    let w = lent.words.min(words.len());
    let d = lent.data_bytes.min(data_bytes.len());
    let l = lent.labels.min(labels.len());
    let e = lent.equates.min(equates.len());
    let i = lent.items.min(items.len());
    answer_of(assemble(
        text,
        base,
        &mut words[..w],
        &mut data_bytes[..d],
        &mut labels[..l],
        &mut equates[..e],
        &mut items[..i],
    ))
}

// What the call left in each buffer.
fn buffers_agree(
    counts: Counts,
    lent: Lent,
    words: &[u32],
    data_bytes: &[u8],
    labels: &[u8],
    equates: &[u8],
    items: &[u8],
    fields: &Fields<'_>,
) -> bool {
    is_filled_words(words, lent.words, counts.words, fields.at[USED])
        && is_filled(
            data_bytes,
            lent.data_bytes,
            counts.data_bytes,
            1,
            fields.at[USED + 1],
        )
        && is_filled(
            labels,
            lent.labels,
            counts.labels,
            LABEL_SIZE,
            fields.at[USED + 2],
        )
        && is_filled(
            equates,
            lent.equates,
            counts.equates,
            EQUATE_SIZE,
            fields.at[USED + 3],
        )
        && is_filled(
            items,
            lent.items,
            counts.items,
            ITEM_SIZE,
            fields.at[USED + 4],
        )
}

// The buffers have every limit's full size, and hold something else than zeros before the call.
fn call_agrees(text: &[u8], base: u32, fields: &Fields<'_>) -> bool {
    let lent = lent_in(fields);
    let mut words = [UNTOUCHED_WORD; WORD_LIMIT];
    let mut data_bytes = [UNTOUCHED; DATA_LIMIT];
    let mut labels = [UNTOUCHED; LABEL_LIMIT * LABEL_SIZE];
    let mut equates = [UNTOUCHED; EQUATE_LIMIT * EQUATE_SIZE];
    let mut items = [UNTOUCHED; ITEM_LIMIT * ITEM_SIZE];
    let answer = call(
        text,
        base,
        lent,
        &mut words,
        &mut data_bytes,
        &mut labels,
        &mut equates,
        &mut items,
    );
    answer_agrees(answer, fields)
        && buffers_agree(
            answer.counts,
            lent,
            &words,
            &data_bytes,
            &labels,
            &equates,
            &items,
            fields,
        )
}

pub fn agrees(line: &[u8]) -> bool {
    let Some(fields) = fields_of(line) else {
        return false;
    };
    let Ok(base) = u32::try_from(number(fields.at[BASE])) else {
        return false;
    };
    let mut space = [0u8; LISTED];
    let n = decode(fields.at[SOURCE], &mut space);
    call_agrees(&space[..n], base, &fields)
}
