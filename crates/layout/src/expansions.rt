// A pseudo-instruction's names looked up, and its instructions built.
ghost use Rattle.encoder.specs.Code.Slots.{instructions_in};
ghost use Rattle.layout.specs.Code.Numbers.{numbered};
ghost use Rattle.std.specs.Prelude.{◌≡◌};
ghost use Rattle.std.specs.Prelude.{None, Some};
ghost use Rattle.std.specs.Prelude.{Ok};
ghost use Rattle.numbers.specs.Results.{and_then, mapped, or_refuse};
ghost use Rattle.numbers.specs.Text.{one_spaced};
ghost use Rattle.layout.specs.Pseudos.{is_single};
ghost use Rattle.layout.specs.Addresses.{label_address};
ghost use Rattle.layout.specs.Rounds.{constant};
ghost use Rattle.layout.specs.Expansions.{word, li_load, li_constant, built, instructions};
ghost use Rattle.layout.specs.Code.Tables.{LabelsSearchable};
ghost use Rattle.layout.specs.Code.Placed.{WherePlaced};
ghost use Rattle.layout.specs.Code.Names.{EquatesSearchable, WhereKnown, NamesReady, NamesKnown};
ghost use Rattle.layout.specs.Code.Expands.{wanted_of, arguments_of, looked_up_as, looked_up_in};

use crate::equates::Equates;
use crate::labels::Labels;
use crate::names::Names;
use crate::pieces::word_len;
use crate::pseudo::{Pseudo, is_single};
use crate::refusal::Refusal;
use crate::wanted::Wanted;
use encoder::sequences::{
    Expansion, load_single, load_word, pop, print, print_str, push, random, read, read_byte,
};
use numbers::ints::{bits_of_i32, in_signed32};
use numbers::registers::Register;
use numbers::text::{first_is, span_bytes};

// A label's address by an operand, whose white-space runs are one space. Most have no white space.
fn operand_address(labels: Labels<'_>, operand: &[u8]) -> Option<u32>
    requires { LabelsSearchable labels }
    ensures { WherePlaced labels.entry
        (λ base σ. result ≡ label_address base σ (one_spaced operand.now)) }
{
    if word_len(operand) == operand.len() {
        return labels.address(operand);
    }
    labels.spaced_address(operand)
}

// An equate's value by an operand, likewise.
fn operand_constant(equates: Equates<'_>, operand: &[u8]) -> Option<i64>
    requires { EquatesSearchable equates }
    ensures { WhereKnown equates.entry (λ ks. result ≡ constant ks (one_spaced operand.now)) }
{
    if word_len(operand) == operand.len() {
        return equates.constant(operand);
    }
    equates.spaced_constant(operand)
}

// The same where 32 signed bits hold it, or 19. What begins with a quote is no name.
fn li_constant(equates: Equates<'_>, operand: &[u8]) -> Result<i32, Refusal>
    requires { EquatesSearchable equates }
    ensures { WhereKnown equates.entry (λ ks. numbered result ≡ li_constant (constant ks) (one_spaced operand.now)) }
{
    if first_is(operand, b'\'') {
        return Err(Refusal::UnknownConstant);
    }
    let v = operand_constant(equates, operand).ok_or(Refusal::UnknownConstant)?;
    if in_signed32(v) {
        return Ok(v as i32);
    }
    Err(Refusal::UnknownConstant)
}

// What the instructions are made of: a register, x0 where the operands name none, and 32 bits, those of an address or of a
// number, 0 where there is neither; or a register and a number that a single addi loads.
#[derive(Clone, Copy)]
pub enum Arguments {
    Word(Register, u32),
    Single(Register, i32),
}

// A number: by a single addi where that holds it, else by its 32 bits.
fn number_arguments(rd: Register, v: i32) -> Arguments
    ensures { arguments_of result ≡ li_load (is_single (Some v)) rd.0 v }
{
    if is_single(Some(v)) {
        return Arguments::Single(rd, v);
    }
    Arguments::Word(rd, bits_of_i32(v))
}

// An equate's value, or 19.
fn equate_arguments(
    equates: Equates<'_>,
    rd: Register,
    operand: &[u8],
) -> Result<Arguments, Refusal>
    requires { EquatesSearchable equates }
    ensures { WhereKnown equates.entry
        (λ ks. looked_up_as result ≡ mapped (li_load (is_single None) rd.0) (li_constant (constant ks) (one_spaced operand.now))) }
{
    let v = li_constant(equates, operand)?;
    Ok(Arguments::Word(rd, bits_of_i32(v)))
}

// A label's address, or 20.
fn label_arguments(labels: Labels<'_>, rd: Register, operand: &[u8]) -> Result<Arguments, Refusal>
    requires { LabelsSearchable labels }
    ensures { WherePlaced labels.entry
        (λ base σ. looked_up_as result ≡ or_refuse 20 (label_address base σ (one_spaced operand.now)) (λ n. Ok (word rd.0 n))) }
{
    let a = operand_address(labels, operand).ok_or(Refusal::UnknownLabel)?;
    Ok(Arguments::Word(rd, a))
}

impl Names<'_> {
    // What a pseudo wants, its name looked up.
    pub fn look_up(self, s: &[u8], wanted: Wanted) -> Result<Arguments, Refusal>
        requires { NamesReady self }
        ensures { NamesKnown self.entry (λ scope. looked_up_as result ≡ looked_up_in scope (wanted_of s.now wanted)) }
    {
        match wanted {
            Wanted::Register(rd) => Ok(Arguments::Word(rd, 0)),
            Wanted::Number(rd, v) => Ok(number_arguments(rd, v)),
            Wanted::Equate(rd, name) => equate_arguments(*self.equates, rd, span_bytes(s, name)),
            Wanted::Label(name) => label_arguments(
                *self.labels,
                Register::ZERO,
                span_bytes(s, name),
            ),
            Wanted::RegisterLabel(rd, name) => label_arguments(
                *self.labels,
                rd,
                span_bytes(s, name),
            ),
        }
    }
}

// The instructions of a pseudo, of a register and 32 bits.
fn build_word(pseudo: Pseudo, rd: Register, b: u32) -> Expansion
    ensures { instructions_in result ≡ built «pseudo» rd.0 b }
{
    match pseudo {
        Pseudo::Li => load_word(rd, b),
        Pseudo::La => load_word(rd, b),
        Pseudo::Push => push(rd),
        Pseudo::Pop => pop(rd),
        Pseudo::Print => print(rd),
        Pseudo::PrintStr => print_str(b),
        Pseudo::Read => read(b),
        Pseudo::ReadByte => read_byte(b),
        Pseudo::Random => random(rd),
    }
}

// The instructions of a pseudo. Only li has a number that a single addi loads.
pub fn build(pseudo: Pseudo, arguments: Arguments) -> Expansion
    ensures { instructions_in result ≡ instructions «pseudo» (arguments_of arguments) }
{
    match arguments {
        Arguments::Word(rd, b) => build_word(pseudo, rd, b),
        Arguments::Single(rd, v) => load_single(rd, v),
    }
}
