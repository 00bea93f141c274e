// A pseudo-instruction's operands: what it wants, before a name is looked up.
ghost use Rattle.std.specs.Prelude.{◌≡◌};
ghost use Rattle.numbers.specs.Code.Cursors.{spaced_operands_from};
ghost use Rattle.layout.specs.Pseudos.{pseudo_operands};
ghost use Rattle.layout.specs.Expansions.{one_register, one_label, register_and_label, register_and_number, wanted};
ghost use Rattle.layout.specs.Code.Expands.{wanted_as};

use crate::pieces::word_len;
use crate::pseudo::Pseudo;
use crate::refusal::Refusal;
use numbers::imm::parse_imm_one_spaced;
use numbers::operands::{only_operand, register_and_operand};
use numbers::registers::{Register, parse_reg};
use numbers::text::{Span, span_bytes};

// What the operands are; a name is a span of the source. Equate is a second operand that reads as no number.
#[derive(Clone, Copy)]
pub enum Wanted {
    Register(Register),
    Number(Register, i32),
    Equate(Register, Span),
    Label(Span),
    RegisterLabel(Register, Span),
}

// rd
fn one_register(s: &[u8], at: usize) -> Result<Wanted, Refusal>
    ensures { wanted_as s.now result ≡ one_register (spaced_operands_from s.now at) }
{
    let one = only_operand(s, at).ok_or(Refusal::WrongOperands)?;
    let rd = parse_reg(span_bytes(s, one)).ok_or(Refusal::WrongOperands)?;
    Ok(Wanted::Register(rd))
}

// label
fn one_label(s: &[u8], at: usize) -> Result<Wanted, Refusal>
    ensures { wanted_as s.now result ≡ one_label (spaced_operands_from s.now at) }
{
    let one = only_operand(s, at).ok_or(Refusal::WrongOperands)?;
    match parse_reg(span_bytes(s, one)) {
        Some(_) => Err(Refusal::WrongOperands),
        None => Ok(Wanted::Label(one)),
    }
}

// A span as its two numbers again. Where one goes from an enum into another as it stands, the compiled code moves both enums'
// bytes whole, across the fields that were just written, and waits for them: 15 ns for each la.
fn anew(span: Span) -> Span
    ensures { result ≡ span }
{
    let start = span.start;
    let len = span.len;
    Span { start, len }
}

// rd, label
fn register_and_label(s: &[u8], at: usize) -> Result<Wanted, Refusal>
    ensures { wanted_as s.now result ≡ register_and_label (spaced_operands_from s.now at) }
{
    let (rd, last) = register_and_operand(s, at).ok_or(Refusal::WrongOperands)?;
    Ok(Wanted::RegisterLabel(rd, anew(last)))
}

// rd, number or equate
fn register_and_number(s: &[u8], at: usize) -> Result<Wanted, Refusal>
    ensures { wanted_as s.now result ≡ register_and_number (spaced_operands_from s.now at) }
{
    let (rd, last) = register_and_operand(s, at).ok_or(Refusal::WrongOperands)?;
    match parse_imm_one_spaced(span_bytes(s, last)) {
        Some(v) => Ok(Wanted::Number(rd, v)),
        None => Ok(Wanted::Equate(rd, anew(last))),
    }
}

// The operands of a pseudo, which follow its source's first word.
pub fn wanted_by(pseudo: Pseudo, s: &[u8]) -> Result<Wanted, Refusal>
    ensures { wanted_as s.now result ≡ wanted «pseudo» (pseudo_operands s.now) }
{
    let at = word_len(s);
    match pseudo {
        Pseudo::Li => register_and_number(s, at),
        Pseudo::La => register_and_label(s, at),
        Pseudo::Push => one_register(s, at),
        Pseudo::Pop => one_register(s, at),
        Pseudo::Print => one_register(s, at),
        Pseudo::PrintStr => one_label(s, at),
        Pseudo::Read => one_label(s, at),
        Pseudo::ReadByte => one_label(s, at),
        Pseudo::Random => one_register(s, at),
    }
}
