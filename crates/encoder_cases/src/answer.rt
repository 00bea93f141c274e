// What the encoder answers, against the list's answer.
use encoder::encode;
use encoder::error::EncodeError;
use encoder::instruction::Instruction;
use numbers::digits::{Radix, parse_digits};

// A word is eight hexadecimal digits.
fn is_word(word: u32, expected: &[u8]) -> bool {
    expected.len() == 8 && parse_digits(expected, Radix::Hex, 4294967295) == Some(u64::from(word))
}

pub fn answers(i: Instruction, expected: &[u8]) -> bool {
    match encode(i) {
        Ok(word) => is_word(word, expected),
        Err(EncodeError::BadRegister) => matches!(expected, b"22"),
        Err(EncodeError::BadField) => matches!(expected, b"23"),
    }
}
