// Instruction sequences, built of registers and a number or an address, and their words.
ghost use Rattle.std.specs.Prelude.{◌≡◌, ◌≤◌, length, map};
ghost use Rattle.encoder.specs.declared.instruction.Instruction.TheVariants.{Addi, Lui, Lbu, Lw, Sw, Beq, Jal, Sub};
ghost use Rattle.encoder.specs.declared.sequences.TheConstants.{LONGEST};
ghost use Rattle.encoder.specs.Encoding.{encoded};
ghost use Rattle.encoder.specs.Split.{load_pair};
ghost use Rattle.encoder.specs.Sequences.{load_single, pushes, pops, prints, randoms, prints_str, reads, reads_byte};
ghost use Rattle.encoder.specs.Code.Meanings.{numbered};
ghost use Rattle.encoder.specs.Code.Slots.{longest, instructions_in};
ghost use Rattle.encoder.specs.Code.Words.{Puts};

use crate::encode;
use crate::error::EncodeError;
use crate::instruction::Instruction;
use crate::split::{lower_part, upper_part};
use numbers::registers::Register;

// The longest sequence, print_str's.
pub const LONGEST: usize = 11;

// One instruction. A struct is copied whole; the bytes of an enum in an array would be copied one by one, which is slower.
#[derive(Clone, Copy)]
pub struct Slot {
    pub inst: Instruction,
}

const ECALL: Slot = Slot {
    inst: Instruction::Ecall,
};

// The instructions in the first slots, as many as are counted.
#[derive(Clone, Copy)]
pub struct Expansion {
    pub slots: [Slot; LONGEST],
    pub count: usize,
}

impl Expansion {
    fn of<const N: usize>(instructions: [Slot; N]) -> Self
        requires { N ≤ LONGEST }
        ensures { instructions_in result ≡ map (λ s. s.inst) instructions.entry }
    {
        let mut slots = [ECALL; LONGEST];
        slots[..N].copy_from_slice(&instructions);
        Expansion { slots, count: N }
    }
}

// The instructions that sequences are made of. Each is another variant, for which no type parameter stands.
fn addi(rd: Register, rs1: Register, imm: i32) -> Slot
    ensures { result.inst ≡ Addi rd.0 rs1.0 imm }
{
    Slot {
        inst: Instruction::Addi {
            rd: rd.0,
            rs1: rs1.0,
            imm,
        },
    }
}

fn sub(rd: Register, rs1: Register, rs2: Register) -> Slot
    ensures { result.inst ≡ Sub rd.0 rs1.0 rs2.0 }
{
    Slot {
        inst: Instruction::Sub {
            rd: rd.0,
            rs1: rs1.0,
            rs2: rs2.0,
        },
    }
}

fn lbu(rd: Register, rs1: Register, imm: i32) -> Slot
    ensures { result.inst ≡ Lbu rd.0 rs1.0 imm }
{
    Slot {
        inst: Instruction::Lbu {
            rd: rd.0,
            rs1: rs1.0,
            imm,
        },
    }
}

fn lw(rd: Register, rs1: Register, imm: i32) -> Slot
    ensures { result.inst ≡ Lw rd.0 rs1.0 imm }
{
    Slot {
        inst: Instruction::Lw {
            rd: rd.0,
            rs1: rs1.0,
            imm,
        },
    }
}

fn sw(rs2: Register, rs1: Register, imm: i32) -> Slot
    ensures { result.inst ≡ Sw rs2.0 rs1.0 imm }
{
    Slot {
        inst: Instruction::Sw {
            rs2: rs2.0,
            rs1: rs1.0,
            imm,
        },
    }
}

fn beq(rs1: Register, rs2: Register, imm: i32) -> Slot
    ensures { result.inst ≡ Beq rs1.0 rs2.0 imm }
{
    Slot {
        inst: Instruction::Beq {
            rs1: rs1.0,
            rs2: rs2.0,
            imm,
        },
    }
}

fn lui(rd: Register, imm: i32) -> Slot
    ensures { result.inst ≡ Lui rd.0 imm }
{
    Slot {
        inst: Instruction::Lui { rd: rd.0, imm },
    }
}

fn jal(rd: Register, imm: i32) -> Slot
    ensures { result.inst ≡ Jal rd.0 imm }
{
    Slot {
        inst: Instruction::Jal { rd: rd.0, imm },
    }
}

// The lui of b's upper part and the addi of its lower part.
fn load_pair(rd: Register, b: u32) -> [Slot; 2]
    ensures { map (λ s. s.inst) result ≡ load_pair rd.0 b }
{
    [
        lui(rd, upper_part(b).cast_signed()),
        addi(rd, rd, lower_part(b).cast_signed()),
    ]
}

// A number by a single addi from x0. One that 12 signed bits do not hold has no word.
pub fn load_single(rd: Register, v: i32) -> Expansion
    ensures { instructions_in result ≡ load_single rd.0 v }
{
    Expansion::of([addi(rd, Register::ZERO, v)])
}

// The pair alone: what leaves b in rd.
pub fn load_word(rd: Register, b: u32) -> Expansion
    ensures { instructions_in result ≡ load_pair rd.0 b }
{
    Expansion::of(load_pair(rd, b))
}

// A register onto the stack.
pub fn push(rs: Register) -> Expansion
    ensures { instructions_in result ≡ pushes rs.0 }
{
    let sp = Register::SP;
    Expansion::of([addi(sp, sp, -4), sw(rs, sp, 0)])
}

// A register from the stack.
pub fn pop(rd: Register) -> Expansion
    ensures { instructions_in result ≡ pops rd.0 }
{
    let sp = Register::SP;
    Expansion::of([lw(rd, sp, 0), addi(sp, sp, 4)])
}

// a7 = 1000, a0 = rd, ecall.
pub fn print(rd: Register) -> Expansion
    ensures { instructions_in result ≡ prints rd.0 }
{
    Expansion::of([
        addi(Register::A7, Register::ZERO, 1000),
        addi(Register::A0, rd, 0),
        ECALL,
    ])
}

// The string at address a, printed: its length is counted up to the byte 0, then it is written to standard output.
pub fn print_str(a: u32) -> Expansion
    ensures { instructions_in result ≡ prints_str a }
{
    let zero = Register::ZERO;
    let t0 = Register::T0;
    let a1 = Register::A1;
    let a2 = Register::A2;
    let [upper, lower] = load_pair(a1, a);
    Expansion::of([
        upper,
        lower,
        addi(a2, a1, 0),
        lbu(t0, a2, 0),
        beq(t0, zero, 12),
        addi(a2, a2, 1),
        jal(zero, -12),
        sub(a2, a2, a1),
        addi(Register::A0, zero, 1),
        addi(Register::A7, zero, 64),
        ECALL,
    ])
}

// Up to 256 bytes of standard input, to address a.
pub fn read(a: u32) -> Expansion
    ensures { instructions_in result ≡ reads a }
{
    let zero = Register::ZERO;
    let [upper, lower] = load_pair(Register::A1, a);
    Expansion::of([
        addi(Register::A0, zero, 0),
        upper,
        lower,
        addi(Register::A2, zero, 256),
        addi(Register::A7, zero, 63),
        ECALL,
    ])
}

// a7 = 1010, a0 = a, ecall.
pub fn read_byte(a: u32) -> Expansion
    ensures { instructions_in result ≡ reads_byte a }
{
    let [upper, lower] = load_pair(Register::A0, a);
    Expansion::of([
        addi(Register::A7, Register::ZERO, 1010),
        upper,
        lower,
        ECALL,
    ])
}

// Four random bytes into a place on the stack, which is then loaded.
pub fn random(rd: Register) -> Expansion
    ensures { instructions_in result ≡ randoms rd.0 }
{
    let sp = Register::SP;
    let zero = Register::ZERO;
    Expansion::of([
        addi(sp, sp, -4),
        addi(Register::A7, zero, 278),
        addi(Register::A0, sp, 0),
        addi(Register::A1, zero, 4),
        addi(Register::A2, zero, 0),
        ECALL,
        lw(rd, sp, 0),
        addi(sp, sp, 4),
    ])
}

// The words of the instructions, in order, into the start of what is lent: how many they are. They stop at the first that is refused.
pub fn put_words(dst: &mut [u32], e: Expansion) -> Result<usize, EncodeError>
    requires { (e.count ≤ longest) × (e.count ≤ length dst.old) }
    ensures { Puts dst (numbered result) (encoded (instructions_in e)) }
{
    for k in 0..e.count {
        dst[k] = encode(e.slots[k].inst)?;
    }
    Ok(e.count)
}
