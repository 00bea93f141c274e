// The RV32IM instructions, and the format that each is laid out in.
ghost use Rattle.std.specs.Prelude.{◌≡◌};
ghost use Rattle.encoder.specs.Table.{form_of};

// A register is its number, as in the Rust: one above 31 can be passed, and `encode` refuses it (22).
#[derive(Clone, Copy)]
pub enum Instruction {
    Add { rd: u8, rs1: u8, rs2: u8 },
    Sub { rd: u8, rs1: u8, rs2: u8 },
    And { rd: u8, rs1: u8, rs2: u8 },
    Or { rd: u8, rs1: u8, rs2: u8 },
    Xor { rd: u8, rs1: u8, rs2: u8 },
    Sll { rd: u8, rs1: u8, rs2: u8 },
    Srl { rd: u8, rs1: u8, rs2: u8 },
    Sra { rd: u8, rs1: u8, rs2: u8 },
    Slt { rd: u8, rs1: u8, rs2: u8 },
    Sltu { rd: u8, rs1: u8, rs2: u8 },
    Mul { rd: u8, rs1: u8, rs2: u8 },
    Mulh { rd: u8, rs1: u8, rs2: u8 },
    Mulhsu { rd: u8, rs1: u8, rs2: u8 },
    Mulhu { rd: u8, rs1: u8, rs2: u8 },
    Div { rd: u8, rs1: u8, rs2: u8 },
    Divu { rd: u8, rs1: u8, rs2: u8 },
    Rem { rd: u8, rs1: u8, rs2: u8 },
    Remu { rd: u8, rs1: u8, rs2: u8 },
    Addi { rd: u8, rs1: u8, imm: i32 },
    Andi { rd: u8, rs1: u8, imm: i32 },
    Ori { rd: u8, rs1: u8, imm: i32 },
    Xori { rd: u8, rs1: u8, imm: i32 },
    Slti { rd: u8, rs1: u8, imm: i32 },
    Sltiu { rd: u8, rs1: u8, imm: i32 },
    Slli { rd: u8, rs1: u8, shamt: u8 },
    Srli { rd: u8, rs1: u8, shamt: u8 },
    Srai { rd: u8, rs1: u8, shamt: u8 },
    Lb { rd: u8, rs1: u8, imm: i32 },
    Lh { rd: u8, rs1: u8, imm: i32 },
    Lw { rd: u8, rs1: u8, imm: i32 },
    Lbu { rd: u8, rs1: u8, imm: i32 },
    Lhu { rd: u8, rs1: u8, imm: i32 },
    Jalr { rd: u8, rs1: u8, imm: i32 },
    Sb { rs2: u8, rs1: u8, imm: i32 },
    Sh { rs2: u8, rs1: u8, imm: i32 },
    Sw { rs2: u8, rs1: u8, imm: i32 },
    Beq { rs1: u8, rs2: u8, imm: i32 },
    Bne { rs1: u8, rs2: u8, imm: i32 },
    Blt { rs1: u8, rs2: u8, imm: i32 },
    Bge { rs1: u8, rs2: u8, imm: i32 },
    Bltu { rs1: u8, rs2: u8, imm: i32 },
    Bgeu { rs1: u8, rs2: u8, imm: i32 },
    Lui { rd: u8, imm: i32 },
    Auipc { rd: u8, imm: i32 },
    Jal { rd: u8, imm: i32 },
    Ecall,
    Ebreak,
}

// A format's fields: the opcode, then funct3 and funct7 where it has them, the registers, the immediate.
// A shift is format I with funct7 and the shift in its number's place; they stand where R has funct7 and rs2.
#[derive(Clone, Copy)]
pub enum Form {
    // opcode, funct3, funct7, rd, rs1, rs2
    R(u8, u8, u8, u8, u8, u8),
    // opcode, funct3, rd, rs1, imm
    I(u8, u8, u8, u8, i32),
    // opcode, funct3, funct7, rd, rs1, shamt
    Shift(u8, u8, u8, u8, u8, u8),
    // opcode, funct3, rs1, rs2, imm
    S(u8, u8, u8, u8, i32),
    // opcode, funct3, rs1, rs2, imm
    B(u8, u8, u8, u8, i32),
    // opcode, rd, imm
    U(u8, u8, i32),
    // opcode, rd, imm
    J(u8, u8, i32),
}

// The major opcodes, as the manual names them.
const OP: u8 = 0b0110011;

const OP_IMM: u8 = 0b0010011;

const LOAD: u8 = 0b0000011;

const JALR: u8 = 0b1100111;

const STORE: u8 = 0b0100011;

const BRANCH: u8 = 0b1100011;

const LUI: u8 = 0b0110111;

const AUIPC: u8 = 0b0010111;

const JAL: u8 = 0b1101111;

const SYSTEM: u8 = 0b1110011;

// The table.
pub fn form_of(i: Instruction) -> Form
    ensures { result ≡ form_of i }
{
    match i {
        Instruction::Add { rd, rs1, rs2 } => Form::R(OP, 0b000, 0b0000000, rd, rs1, rs2),
        Instruction::Sub { rd, rs1, rs2 } => Form::R(OP, 0b000, 0b0100000, rd, rs1, rs2),
        Instruction::And { rd, rs1, rs2 } => Form::R(OP, 0b111, 0b0000000, rd, rs1, rs2),
        Instruction::Or { rd, rs1, rs2 } => Form::R(OP, 0b110, 0b0000000, rd, rs1, rs2),
        Instruction::Xor { rd, rs1, rs2 } => Form::R(OP, 0b100, 0b0000000, rd, rs1, rs2),
        Instruction::Sll { rd, rs1, rs2 } => Form::R(OP, 0b001, 0b0000000, rd, rs1, rs2),
        Instruction::Srl { rd, rs1, rs2 } => Form::R(OP, 0b101, 0b0000000, rd, rs1, rs2),
        Instruction::Sra { rd, rs1, rs2 } => Form::R(OP, 0b101, 0b0100000, rd, rs1, rs2),
        Instruction::Slt { rd, rs1, rs2 } => Form::R(OP, 0b010, 0b0000000, rd, rs1, rs2),
        Instruction::Sltu { rd, rs1, rs2 } => Form::R(OP, 0b011, 0b0000000, rd, rs1, rs2),
        Instruction::Mul { rd, rs1, rs2 } => Form::R(OP, 0b000, 0b0000001, rd, rs1, rs2),
        Instruction::Mulh { rd, rs1, rs2 } => Form::R(OP, 0b001, 0b0000001, rd, rs1, rs2),
        Instruction::Mulhsu { rd, rs1, rs2 } => Form::R(OP, 0b010, 0b0000001, rd, rs1, rs2),
        Instruction::Mulhu { rd, rs1, rs2 } => Form::R(OP, 0b011, 0b0000001, rd, rs1, rs2),
        Instruction::Div { rd, rs1, rs2 } => Form::R(OP, 0b100, 0b0000001, rd, rs1, rs2),
        Instruction::Divu { rd, rs1, rs2 } => Form::R(OP, 0b101, 0b0000001, rd, rs1, rs2),
        Instruction::Rem { rd, rs1, rs2 } => Form::R(OP, 0b110, 0b0000001, rd, rs1, rs2),
        Instruction::Remu { rd, rs1, rs2 } => Form::R(OP, 0b111, 0b0000001, rd, rs1, rs2),
        Instruction::Addi { rd, rs1, imm } => Form::I(OP_IMM, 0b000, rd, rs1, imm),
        Instruction::Andi { rd, rs1, imm } => Form::I(OP_IMM, 0b111, rd, rs1, imm),
        Instruction::Ori { rd, rs1, imm } => Form::I(OP_IMM, 0b110, rd, rs1, imm),
        Instruction::Xori { rd, rs1, imm } => Form::I(OP_IMM, 0b100, rd, rs1, imm),
        Instruction::Slti { rd, rs1, imm } => Form::I(OP_IMM, 0b010, rd, rs1, imm),
        Instruction::Sltiu { rd, rs1, imm } => Form::I(OP_IMM, 0b011, rd, rs1, imm),
        Instruction::Slli { rd, rs1, shamt } => Form::Shift(
            OP_IMM, 0b001, 0b0000000, rd, rs1, shamt,
        ),
        Instruction::Srli { rd, rs1, shamt } => Form::Shift(
            OP_IMM, 0b101, 0b0000000, rd, rs1, shamt,
        ),
        Instruction::Srai { rd, rs1, shamt } => Form::Shift(
            OP_IMM, 0b101, 0b0100000, rd, rs1, shamt,
        ),
        Instruction::Lb { rd, rs1, imm } => Form::I(LOAD, 0b000, rd, rs1, imm),
        Instruction::Lh { rd, rs1, imm } => Form::I(LOAD, 0b001, rd, rs1, imm),
        Instruction::Lw { rd, rs1, imm } => Form::I(LOAD, 0b010, rd, rs1, imm),
        Instruction::Lbu { rd, rs1, imm } => Form::I(LOAD, 0b100, rd, rs1, imm),
        Instruction::Lhu { rd, rs1, imm } => Form::I(LOAD, 0b101, rd, rs1, imm),
        Instruction::Jalr { rd, rs1, imm } => Form::I(JALR, 0b000, rd, rs1, imm),
        Instruction::Sb { rs2, rs1, imm } => Form::S(STORE, 0b000, rs1, rs2, imm),
        Instruction::Sh { rs2, rs1, imm } => Form::S(STORE, 0b001, rs1, rs2, imm),
        Instruction::Sw { rs2, rs1, imm } => Form::S(STORE, 0b010, rs1, rs2, imm),
        Instruction::Beq { rs1, rs2, imm } => Form::B(BRANCH, 0b000, rs1, rs2, imm),
        Instruction::Bne { rs1, rs2, imm } => Form::B(BRANCH, 0b001, rs1, rs2, imm),
        Instruction::Blt { rs1, rs2, imm } => Form::B(BRANCH, 0b100, rs1, rs2, imm),
        Instruction::Bge { rs1, rs2, imm } => Form::B(BRANCH, 0b101, rs1, rs2, imm),
        Instruction::Bltu { rs1, rs2, imm } => Form::B(BRANCH, 0b110, rs1, rs2, imm),
        Instruction::Bgeu { rs1, rs2, imm } => Form::B(BRANCH, 0b111, rs1, rs2, imm),
        Instruction::Lui { rd, imm } => Form::U(LUI, rd, imm),
        Instruction::Auipc { rd, imm } => Form::U(AUIPC, rd, imm),
        Instruction::Jal { rd, imm } => Form::J(JAL, rd, imm),
        Instruction::Ecall => Form::I(SYSTEM, 0b000, 0, 0, 0),
        Instruction::Ebreak => Form::I(SYSTEM, 0b000, 0, 0, 1),
    }
}
