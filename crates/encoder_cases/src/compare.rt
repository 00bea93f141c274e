// One line of the list against what the crate encoder answers.
use crate::answer::answers;
use crate::names::{branch, immediate, register, shift, store, system, upper};
use encoder::instruction::Instruction;
use numbers::digits::{Radix, parse_digits};
use numbers::imm::parse_imm;
use replay::field::{after_field, field};

// A register's number, or a shift.
fn byte(field: &[u8]) -> Option<u8> {
    u8::try_from(parse_digits(field, Radix::Decimal, 255)?).ok()
}

fn is_zero(field: &[u8]) -> bool {
    matches!(field, b"0")
}

// Three registers, or two and a shift.
fn of_bytes(name: &[u8], first: &[u8], second: &[u8], third: &[u8]) -> Option<Instruction> {
    let a = byte(first)?;
    let b = byte(second)?;
    let c = byte(third)?;
    register(name, a, b, c).or(shift(name, a, b, c))
}

// Two registers and a number.
fn of_number(name: &[u8], first: &[u8], second: &[u8], third: &[u8]) -> Option<Instruction> {
    let a = byte(first)?;
    let b = byte(second)?;
    let imm = parse_imm(third)?;
    immediate(name, a, b, imm)
        .or(store(name, a, b, imm))
        .or(branch(name, a, b, imm))
}

// A register and a number; the third field is 0.
fn of_upper(name: &[u8], first: &[u8], second: &[u8], third: &[u8]) -> Option<Instruction> {
    if !is_zero(third) {
        return None;
    }
    let a = byte(first)?;
    let imm = parse_imm(second)?;
    upper(name, a, imm)
}

// No fields: all three are 0.
fn of_system(name: &[u8], first: &[u8], second: &[u8], third: &[u8]) -> Option<Instruction> {
    if is_zero(first) && is_zero(second) && is_zero(third) {
        system(name)
    } else {
        None
    }
}

// The instruction of a name and three fields. A name is in one group only.
fn instruction(name: &[u8], first: &[u8], second: &[u8], third: &[u8]) -> Option<Instruction> {
    of_bytes(name, first, second, third)
        .or(of_number(name, first, second, third))
        .or(of_upper(name, first, second, third))
        .or(of_system(name, first, second, third))
}

// A line: a name, three fields and an answer.
pub fn agrees(line: &[u8]) -> bool {
    let from_first = after_field(line);
    let from_second = after_field(from_first);
    let from_third = after_field(from_second);
    let expected = after_field(from_third);
    instruction(
        field(line),
        field(from_first),
        field(from_second),
        field(from_third),
    )
    .is_some_and(|i| answers(i, expected))
}
