// The instructions by their names in the list. Each function holds a group whose fields are alike.
use encoder::instruction::Instruction;

// Format R.
pub fn register(name: &[u8], rd: u8, rs1: u8, rs2: u8) -> Option<Instruction> {
    match name {
        b"add" => Some(Instruction::Add { rd, rs1, rs2 }),
        b"sub" => Some(Instruction::Sub { rd, rs1, rs2 }),
        b"slt" => Some(Instruction::Slt { rd, rs1, rs2 }),
        b"sltu" => Some(Instruction::Sltu { rd, rs1, rs2 }),
        b"and" => Some(Instruction::And { rd, rs1, rs2 }),
        b"or" => Some(Instruction::Or { rd, rs1, rs2 }),
        b"xor" => Some(Instruction::Xor { rd, rs1, rs2 }),
        b"sll" => Some(Instruction::Sll { rd, rs1, rs2 }),
        b"srl" => Some(Instruction::Srl { rd, rs1, rs2 }),
        b"sra" => Some(Instruction::Sra { rd, rs1, rs2 }),
        b"mul" => Some(Instruction::Mul { rd, rs1, rs2 }),
        b"mulh" => Some(Instruction::Mulh { rd, rs1, rs2 }),
        b"mulhsu" => Some(Instruction::Mulhsu { rd, rs1, rs2 }),
        b"mulhu" => Some(Instruction::Mulhu { rd, rs1, rs2 }),
        b"div" => Some(Instruction::Div { rd, rs1, rs2 }),
        b"divu" => Some(Instruction::Divu { rd, rs1, rs2 }),
        b"rem" => Some(Instruction::Rem { rd, rs1, rs2 }),
        b"remu" => Some(Instruction::Remu { rd, rs1, rs2 }),
        _ => None,
    }
}

// Format I with a shift.
pub fn shift(name: &[u8], rd: u8, rs1: u8, shamt: u8) -> Option<Instruction> {
    match name {
        b"slli" => Some(Instruction::Slli { rd, rs1, shamt }),
        b"srli" => Some(Instruction::Srli { rd, rs1, shamt }),
        b"srai" => Some(Instruction::Srai { rd, rs1, shamt }),
        _ => None,
    }
}

// Format I with a number as operand or with an address.
pub fn immediate(name: &[u8], rd: u8, rs1: u8, imm: i32) -> Option<Instruction> {
    match name {
        b"addi" => Some(Instruction::Addi { rd, rs1, imm }),
        b"andi" => Some(Instruction::Andi { rd, rs1, imm }),
        b"ori" => Some(Instruction::Ori { rd, rs1, imm }),
        b"xori" => Some(Instruction::Xori { rd, rs1, imm }),
        b"slti" => Some(Instruction::Slti { rd, rs1, imm }),
        b"sltiu" => Some(Instruction::Sltiu { rd, rs1, imm }),
        b"lb" => Some(Instruction::Lb { rd, rs1, imm }),
        b"lh" => Some(Instruction::Lh { rd, rs1, imm }),
        b"lw" => Some(Instruction::Lw { rd, rs1, imm }),
        b"lbu" => Some(Instruction::Lbu { rd, rs1, imm }),
        b"lhu" => Some(Instruction::Lhu { rd, rs1, imm }),
        b"jalr" => Some(Instruction::Jalr { rd, rs1, imm }),
        _ => None,
    }
}

// Format S.
pub fn store(name: &[u8], rs2: u8, rs1: u8, imm: i32) -> Option<Instruction> {
    match name {
        b"sb" => Some(Instruction::Sb { rs2, rs1, imm }),
        b"sh" => Some(Instruction::Sh { rs2, rs1, imm }),
        b"sw" => Some(Instruction::Sw { rs2, rs1, imm }),
        _ => None,
    }
}

// Format B.
pub fn branch(name: &[u8], rs1: u8, rs2: u8, imm: i32) -> Option<Instruction> {
    match name {
        b"beq" => Some(Instruction::Beq { rs1, rs2, imm }),
        b"bne" => Some(Instruction::Bne { rs1, rs2, imm }),
        b"blt" => Some(Instruction::Blt { rs1, rs2, imm }),
        b"bge" => Some(Instruction::Bge { rs1, rs2, imm }),
        b"bltu" => Some(Instruction::Bltu { rs1, rs2, imm }),
        b"bgeu" => Some(Instruction::Bgeu { rs1, rs2, imm }),
        _ => None,
    }
}

// Formats U and J.
pub fn upper(name: &[u8], rd: u8, imm: i32) -> Option<Instruction> {
    match name {
        b"lui" => Some(Instruction::Lui { rd, imm }),
        b"auipc" => Some(Instruction::Auipc { rd, imm }),
        b"jal" => Some(Instruction::Jal { rd, imm }),
        _ => None,
    }
}

// Without fields.
pub fn system(name: &[u8]) -> Option<Instruction> {
    match name {
        b"ecall" => Some(Instruction::Ecall),
        b"ebreak" => Some(Instruction::Ebreak),
        _ => None,
    }
}
