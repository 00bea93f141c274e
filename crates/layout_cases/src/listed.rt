// What a line of the list says, field by field.
use numbers::digits::{Radix, parse_digits};

pub const FIELDS: usize = 22;

pub const SOURCE: usize = 0;

pub const BASE: usize = 1;

// How much is lent, five fields: of the words, the data, the labels, the equates and the items.
pub const LENT: usize = 2;

// Number, line and the eight counts.
pub const ANSWER: usize = 7;

// What is used of the five buffers, in the same order.
pub const USED: usize = 17;

// A line's fields, one TAB between them.
#[derive(Clone, Copy)]
pub struct Fields<'a> {
    pub at: [&'a [u8]; FIELDS],
}

// Nothing where the line has fewer fields or more.
pub fn fields_of(line: &[u8]) -> Option<Fields<'_>> {
    let mut parts = line.split(|&b| b == b'\t');
    let mut at: [&[u8]; FIELDS] = [&[]; FIELDS];
    for k in 0..FIELDS {
        at[k] = parts.next()?;
    }
    if parts.next().is_some() {
        return None;
    }
    Some(Fields { at })
}

// A number of 32 bits, decimal. What is none counts as more than any.
pub fn number(listed: &[u8]) -> u64 {
    parse_digits(listed, Radix::Decimal, 4294967295).unwrap_or(4294967296)
}

// Are the numbers those of the fields?
pub fn are_numbers(numbers: &[u64], fields: &[&[u8]]) -> bool {
    numbers
        .iter()
        .zip(fields)
        .all(|(&n, field)| number(field) == n)
}
