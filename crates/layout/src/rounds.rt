// The equates' rounds: each takes the pending ones in text order, until none is pending or a round finds none.
ghost use Rattle.layout.specs.Code.Numbers.{numbered};
ghost use Rattle.std.specs.Prelude.{◌≡◌, ◌≢◌, ℕ, ◌+◌, ◌-◌, ◌*◌, ◌^◌, ◌≤◌, ◌<◌, length, eqb, List};
ghost use Rattle.layout.specs.Bytes.{put};
ghost use Rattle.layout.specs.Limits.{equate_size};
ghost use Rattle.layout.specs.Records.{field_bytes, equate_fields, equate_record_at};
ghost use Rattle.layout.specs.Rounds.{first_pending, Known};
ghost use Rattle.layout.specs.Code.Names.{EquateTable};
ghost use Rattle.layout.specs.Code.Resolves.{equate_in, TurnReady, TurnKnown, AgainReady, AgainKnown, ExpressionOf, TurnGives, EvaluationGives, partial_at, put_partial, ResolveReady, Resolves};

use crate::addresses::Starts;
use crate::equates::Equates;
use crate::expr::{Evaluated, Expression, Partial};
use crate::labels::Labels;
use crate::names::Names;
use crate::records::{EquateRecord, ExprRecord, Record};
use crate::refusal::{Refusal, RefusedAt};
use numbers::ints::{bits_of_i64, i64_of_bits};
use numbers::text::{Span, span_bytes};

// An equate's turn: what it comes to, and the evaluations so far.
#[derive(Clone, Copy)]
pub struct Evaluation {
    pub answer: Result<Evaluated, Refusal>,
    pub evaluations: usize,
}

// What the equates' turns in a round read.
#[derive(Clone, Copy)]
struct Round<'a> {
    number: u32,
    names: Names<'a>,
    starts: Starts,
    exprs: &'a [u8],
}

impl<'a> Round<'a> {
    // The kth equate's expression.
    fn expression(self, k: usize) -> Expression<'a>
        requires { TurnReady self × (k < self.names.equates.now.count) }
        ensures { TurnKnown self.entry (λ scope. ExpressionOf scope (equate_in scope k) result) }
    {
        let expr = ExprRecord::get(self.exprs, k);
        let source = Span {
            start: expr.start as usize,
            len: expr.len as usize,
        };
        Expression {
            source: span_bytes(self.names.equates.text, source),
            one_space: expr.one_space,
            here: self.starts.address(expr.place),
        }
    }

    // The kth equate against what is known: 14, 15, then its expression.
    fn turn(self, k: usize) -> Result<Evaluated, Refusal>
        requires { TurnReady self × (k < self.names.equates.now.count) }
        ensures { TurnKnown self.entry (λ scope. TurnGives scope (equate_in scope k) (numbered result)) }
    {
        let names = self.names;
        let name = names.equates.name(k);
        if names.labels.contains(name) {
            return Err(Refusal::EquateIsLabel);
        }
        if names.equates.is_constant(name) {
            return Err(Refusal::DuplicateEquate);
        }
        self.expression(k).evaluate(names)
    }

    // The same for an equate that has waited: its sum goes on from where it had come to.
    fn turn_again(self, k: usize, from: Partial) -> Result<Evaluated, Refusal>
        requires { AgainReady self k from × (k < self.names.equates.now.count) × (self.number ≢ 1) }
        ensures { AgainKnown self.entry k from (λ scope. TurnGives scope (equate_in scope k) (numbered result)) }
    {
        let names = self.names;
        if names.equates.is_constant(names.equates.name(k)) {
            return Err(Refusal::DuplicateEquate);
        }
        self.expression(k).sum_terms(names, from)
    }

    // The kth equate's turn: from the second round on a pending equate has waited.
    fn turn_in(self, k: usize, from: Partial) -> Result<Evaluated, Refusal>
        requires { AgainReady self k from × (k < self.names.equates.now.count) }
        ensures { AgainKnown self.entry k from (λ scope. TurnGives scope (equate_in scope k) (numbered result)) }
    {
        if self.number == 1 {
            return self.turn(k);
        }
        self.turn_again(k, from)
    }

    // The one function that evaluates: the count of evaluations comes out one higher.
    fn evaluate(self, k: usize, from: Partial, evaluations: usize) -> Evaluation
        requires { AgainReady self k from × (k < self.names.equates.now.count) × (evaluations < 2 ^ 64 - 1) }
        ensures { AgainKnown self.entry k from (λ scope. EvaluationGives scope (equate_in scope k) evaluations result) }
    {
        Evaluation {
            answer: self.turn_in(k, from),
            evaluations: evaluations + 1,
        }
    }
}

fn is_pending(equates: &[u8], k: usize) -> bool
    requires { k * equate_size + equate_size ≤ length equates.now }
    ensures { result ≡ eqb (equate_record_at equates.now k).round 0 }
{
    EquateRecord::get(equates, k).round == 0
}

// The kth equate has its value, found in this round.
fn put_found(equates: &mut [u8], k: usize, value: i64, round: u32)
    requires { k * equate_size + equate_size ≤ length equates.old }
    ensures { equates.new ≡ put (k * equate_size) (field_bytes (equate_fields (record {
      start = (equate_record_at equates.old k).start;
      len = (equate_record_at equates.old k).len;
      line = (equate_record_at equates.old k).line;
      value = value;
      round = round;
    }))) equates.old }
{
    let equate = EquateRecord::get(equates, k);
    let found = EquateRecord {
        start: equate.start,
        len: equate.len,
        line: equate.line,
        value,
        round,
    };
    found.put(equates, k);
}

// How far the kth equate's sum has come, by its row of two numbers: the sum's bits, and the place.
fn partial_at(partials: &[u64], k: usize) -> Partial
    requires { k * 2 + 2 ≤ length partials.now }
    ensures { result ≡ partial_at partials.now k }
{
    let row = k * 2;
    Partial {
        sum: i64_of_bits(partials[row]),
        at: partials[row + 1] as usize,
    }
}

fn put_partial(partials: &mut [u64], k: usize, from: Partial)
    requires { k * 2 + 2 ≤ length partials.old }
    ensures { partials.new ≡ put_partial partials.old k from }
{
    let row = k * 2;
    partials[row] = bits_of_i64(from.sum);
    partials[row + 1] = from.at as u64;
}

// The line of the first of so many equates that is pending.
fn first_pending(equates: &[u8], count: usize) -> u32
    requires { count * equate_size ≤ length equates.now }
    ensures { (t ix : List ℕ) (ks : List Known) → EquateTable t equates.now ix count ks → result ≡ first_pending ks }
{
    for i in 0..count {
        let equate = EquateRecord::get(equates, i);
        if equate.round == 0 {
            return equate.line;
        }
    }
    0
}

// Every round; the total is of the evaluations. How many rounds there are is known only when nothing is pending.
pub fn resolve<'a>(
    labels: Labels<'a>,
    starts: Starts,
    equates: &mut [u8],
    equate_index: &'a [u16],
    count: usize,
    exprs: &'a [u8],
    partials: &mut [u64],
) -> Result<usize, RefusedAt>
    requires { ResolveReady labels starts equates.old equate_index.now count exprs.now partials.old }
    ensures { Resolves labels.entry starts equates equate_index.now count exprs.now partials result }
{
    let mut evaluations = 0;
    let mut pending = count;
    let mut round: u32 = 0;
    while 0 < pending {
        round += 1;
        let before = pending;
        for k in 0..count {
            if is_pending(equates, k) {
                let known = Equates {
                    text: labels.text,
                    records: equates,
                    index: equate_index,
                    count,
                };
                let turns = Round {
                    number: round,
                    names: Names {
                        labels: &labels,
                        equates: &known,
                    },
                    starts,
                    exprs,
                };
                let turn = turns.evaluate(k, partial_at(partials, k), evaluations);
                evaluations = turn.evaluations;
                match turn.answer {
                    Ok(Evaluated::Value(v)) => {
                        put_found(equates, k, v, round);
                        pending -= 1;
                    }
                    Ok(Evaluated::Waits(from)) => {
                        put_partial(partials, k, from);
                    }
                    Err(refusal) => {
                        return Err(refusal.at(EquateRecord::get(equates, k).line));
                    }
                }
            }
        }
        if pending == before {
            return Err(Refusal::UnresolvedEquate.at(first_pending(equates, count)));
        }
    }
    Ok(evaluations)
}
