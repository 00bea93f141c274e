// The encoder of the RV32IM instructions: an instruction to its 32-bit word, or the refusal.
#![tactic(auto)]

pub mod error;
mod formats;
pub mod instruction;
pub mod sequences;
pub mod split;

ghost use Rattle.std.specs.Prelude.{◌≡◌, ℕ};
ghost use Rattle.encoder.specs.declared.instruction.Form.TheVariants.{R, I, Shift, S, B, U, J};
ghost use Rattle.numbers.specs.Results.{mapped};
ghost use Rattle.encoder.specs.Encoding.{checked, is_register, is_branch, is_jump, is_upper, word_of, encoding};
ghost use Rattle.encoder.specs.Code.Meanings.{numbered};

use crate::error::EncodeError;
use crate::formats::{b_word, i_word, j_word, r_word, s_word, u_word};
use crate::instruction::{Form, Instruction, form_of};
use numbers::ints::in_signed12;

fn is_register(r: u8) -> bool
    ensures { result ≡ is_register r }
{
    r <= 31
}

fn is_branch(imm: i32) -> bool
    ensures { result ≡ is_branch imm }
{
    (-4096..=4094).contains(&imm) && imm.cast_unsigned() % 2 == 0
}

fn is_jump(imm: i32) -> bool
    ensures { result ≡ is_jump imm }
{
    (-1048576..=1048574).contains(&imm) && imm.cast_unsigned() % 2 == 0
}

fn is_upper(imm: i32) -> bool
    ensures { result ≡ is_upper imm }
{
    imm.cast_unsigned() % 4096 == 0
}

// The refusal of the first test that fails, if one does.
fn check(registers: bool, field: bool) -> Result<(), EncodeError>
    ensures { (w : ℕ) → numbered (mapped (λ _. w) result) ≡ checked registers field w }
{
    if !registers {
        return Err(EncodeError::BadRegister);
    }
    if !field {
        return Err(EncodeError::BadField);
    }
    Ok(())
}

// One function for each format: which registers are checked, the field's range and where its bits go are each its own, which one function
// over all of them would have to be told case by case.
fn pack_r(opcode: u8, funct3: u8, funct7: u8, rd: u8, rs1: u8, rs2: u8) -> Result<u32, EncodeError>
    ensures { numbered result ≡ word_of (R opcode funct3 funct7 rd rs1 rs2) }
{
    check(
        is_register(rd) && is_register(rs1) && is_register(rs2),
        true,
    )?;
    Ok(r_word(opcode, funct3, funct7, rd, rs1, rs2))
}

fn pack_i(opcode: u8, funct3: u8, rd: u8, rs1: u8, imm: i32) -> Result<u32, EncodeError>
    ensures { numbered result ≡ word_of (I opcode funct3 rd rs1 imm) }
{
    check(is_register(rd) && is_register(rs1), in_signed12(imm))?;
    Ok(i_word(opcode, funct3, rd, rs1, imm.cast_unsigned()))
}

fn pack_shift(
    opcode: u8,
    funct3: u8,
    funct7: u8,
    rd: u8,
    rs1: u8,
    shamt: u8,
) -> Result<u32, EncodeError>
    ensures { numbered result ≡ word_of (Shift opcode funct3 funct7 rd rs1 shamt) }
{
    check(is_register(rd) && is_register(rs1), shamt <= 31)?;
    Ok(r_word(opcode, funct3, funct7, rd, rs1, shamt))
}

fn pack_s(opcode: u8, funct3: u8, rs1: u8, rs2: u8, imm: i32) -> Result<u32, EncodeError>
    ensures { numbered result ≡ word_of (S opcode funct3 rs1 rs2 imm) }
{
    check(is_register(rs1) && is_register(rs2), in_signed12(imm))?;
    Ok(s_word(opcode, funct3, rs1, rs2, imm.cast_unsigned()))
}

fn pack_b(opcode: u8, funct3: u8, rs1: u8, rs2: u8, imm: i32) -> Result<u32, EncodeError>
    ensures { numbered result ≡ word_of (B opcode funct3 rs1 rs2 imm) }
{
    check(is_register(rs1) && is_register(rs2), is_branch(imm))?;
    Ok(b_word(opcode, funct3, rs1, rs2, imm.cast_unsigned()))
}

fn pack_u(opcode: u8, rd: u8, imm: i32) -> Result<u32, EncodeError>
    ensures { numbered result ≡ word_of (U opcode rd imm) }
{
    check(is_register(rd), is_upper(imm))?;
    Ok(u_word(opcode, rd, imm.cast_unsigned()))
}

fn pack_j(opcode: u8, rd: u8, imm: i32) -> Result<u32, EncodeError>
    ensures { numbered result ≡ word_of (J opcode rd imm) }
{
    check(is_register(rd), is_jump(imm))?;
    Ok(j_word(opcode, rd, imm.cast_unsigned()))
}

// The word of a format's fields, or the refusal.
pub fn pack(form: Form) -> Result<u32, EncodeError>
    ensures { numbered result ≡ word_of form }
{
    match form {
        Form::R(opcode, funct3, funct7, rd, rs1, rs2) => {
            pack_r(opcode, funct3, funct7, rd, rs1, rs2)
        }
        Form::I(opcode, funct3, rd, rs1, imm) => pack_i(opcode, funct3, rd, rs1, imm),
        Form::Shift(opcode, funct3, funct7, rd, rs1, shamt) => {
            pack_shift(opcode, funct3, funct7, rd, rs1, shamt)
        }
        Form::S(opcode, funct3, rs1, rs2, imm) => pack_s(opcode, funct3, rs1, rs2, imm),
        Form::B(opcode, funct3, rs1, rs2, imm) => pack_b(opcode, funct3, rs1, rs2, imm),
        Form::U(opcode, rd, imm) => pack_u(opcode, rd, imm),
        Form::J(opcode, rd, imm) => pack_j(opcode, rd, imm),
    }
}

// The word of an instruction, or the refusal.
pub fn encode(i: Instruction) -> Result<u32, EncodeError>
    ensures { numbered result ≡ encoding i }
{
    pack(form_of(i))
}
