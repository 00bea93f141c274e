// One line of the list against what the crate numbers answers.
use itoa::Buffer;
use numbers::imm::{parse_imm, parse_imm64};
use numbers::ints::{in_byte, in_half, in_signed12, widened};
use numbers::literals::{parse_char_lit, parse_str_lit};
use numbers::operands::{item_operand_at, operand_at};
use numbers::registers::parse_reg;
use numbers::text::{Span, same_one_spaced, span_bytes, statement_span, trim};
use replay::field::{decode, end_at};

fn is_no(expected: &[u8]) -> bool {
    matches!(expected, b"no")
}

fn test_agrees(answer: bool, expected: &[u8]) -> bool {
    if answer {
        matches!(expected, b"yes")
    } else {
        is_no(expected)
    }
}

fn number_agrees(answer: Option<i64>, expected: &[u8]) -> bool {
    match answer {
        Some(v) => expected == Buffer::new().format(v).as_bytes(),
        None => is_no(expected),
    }
}

fn string_agrees(input: &[u8], expected: &[u8]) -> bool {
    match parse_str_lit(input) {
        Some(span) => expected
            .strip_prefix(b"=")
            .is_some_and(|text| text == span_bytes(input, span)),
        None => is_no(expected),
    }
}

// The operand at a place, by the one rule or the other.
fn operand(input: &[u8], at: usize, keep_empty: bool) -> Option<(Span, usize)> {
    if keep_empty {
        operand_at(input, at)
    } else {
        item_operand_at(input, at)
    }
}

// The operands of input, joined by commas, are expected. Where empties are dropped, an empty operand is a difference, and there may be none
// at all. A text of n bytes has at most n + 1 operands, so one turn more, for the end, is enough.
fn operands_agree(input: &[u8], expected: &[u8], keep_empty: bool) -> bool {
    let mut parts = expected.split(|&b| b == b',');
    let mut at = 0;
    for turn in 0..input.len() + 2 {
        let Some((span, next)) = operand(input, at, keep_empty) else {
            if turn == 0 {
                return !keep_empty && expected.is_empty();
            }
            return parts.next().is_none();
        };
        if !keep_empty && span.len == 0 {
            return false;
        }
        if parts.next() != Some(span_bytes(input, span)) {
            return false;
        }
        at = next;
    }
    false
}

fn statement_agrees(input: &[u8], expected: &[u8]) -> bool {
    span_bytes(input, statement_span(input)) == expected
}

fn range_agrees(kind: u8, input: &[u8], expected: &[u8]) -> bool {
    let Some(v) = parse_imm(input) else {
        return false;
    };
    let answer = match kind {
        b'b' => in_byte(i64::from(v)),
        b'h' => in_half(i64::from(v)),
        _ => in_signed12(v),
    };
    test_agrees(answer, expected)
}

fn answer_agrees(kind: u8, input: &[u8], expected: &[u8]) -> bool {
    match kind {
        b'i' => number_agrees(widened(parse_imm(input)), expected),
        b'l' => number_agrees(parse_imm64(input), expected),
        b'c' => number_agrees(widened(parse_char_lit(input)), expected),
        b'r' => number_agrees(parse_reg(input).map(|r| i64::from(r.0)), expected),
        b'b' | b'h' | b'k' => range_agrees(kind, input, expected),
        b's' => string_agrees(input, expected),
        b'o' => operands_agree(input, expected, false),
        b'd' => operands_agree(input, expected, true),
        b't' => statement_agrees(input, expected),
        _ => false,
    }
}

// The first field and those behind it.
fn split_field(fields: &[u8]) -> Option<(&[u8], &[u8])> {
    let end = end_at(fields, b'\t');
    if end == fields.len() {
        return None;
    }
    Some((&fields[..end], &fields[end + 1..]))
}

// An operand and a name, as written and as the list says whether they are the same.
fn name_agrees(operand: &[u8], rest: &[u8]) -> bool {
    let Some((written, expected)) = split_field(rest) else {
        return false;
    };
    let mut name = [0u8; 256];
    let n = decode(written, &mut name);
    test_agrees(same_one_spaced(trim(operand), &name[..n]), expected)
}

// The fields after the kind: an input, and what the reference answered.
fn fields_agree(kind: u8, fields: &[u8]) -> bool {
    let Some((written, rest)) = split_field(fields) else {
        return false;
    };
    let mut text = [0u8; 256];
    let n = decode(written, &mut text);
    let input = &text[..n];
    if kind == b'n' {
        return name_agrees(input, rest);
    }
    let mut answer = [0u8; 256];
    let m = decode(rest, &mut answer);
    answer_agrees(kind, input, &answer[..m])
}

// A line: a kind, a tab, and the fields.
pub fn agrees(line: &[u8]) -> bool {
    match line {
        [kind, b'\t', fields @ ..] => fields_agree(*kind, fields),
        _ => false,
    }
}
