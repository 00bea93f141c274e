// The evaluation of an expression: terms with their signs, added left to right.
ghost use Rattle.layout.specs.Code.Numbers.{numbered};
ghost use Rattle.std.specs.Prelude.{◌≡◌, List, ℕ, pos};
ghost use Rattle.layout.specs.Expressions.{tokens, is_unreadable, any_unreadable};
ghost use Rattle.layout.specs.Code.Tokens.{token_of, spaced_in};
ghost use Rattle.layout.specs.Code.Names.{look_in, NamesReady, NamesKnown};
ghost use Rattle.layout.specs.Code.Terms.{TermFrom, term_value, AddsTerm, JointFrom, JointAt, EvaluatesAs, sum_after, evaluation};

use crate::names::Names;
use crate::reader::token_of;
use crate::refusal::Refusal;
use crate::tokens::{Token, sign_of, skip_blanks};
use numbers::ints::{checked_add, checked_sign};
use numbers::text::span_bytes;

// An expression: its text, whether each run of white space in it is one space, and the address that `.` stands for.
#[derive(Clone, Copy)]
pub struct Expression<'a> {
    pub source: &'a [u8],
    pub one_space: bool,
    pub here: u32,
}

// How far a sum has come: the terms before a place are added. At place 0 a term is to come, behind a term an operator or the end.
#[derive(Clone, Copy)]
pub struct Partial {
    pub sum: i64,
    pub at: usize,
}

// What an evaluation comes to: a value, or while a name has none the sum before that name's term.
#[derive(Clone, Copy)]
pub enum Evaluated {
    Value(i64),
    Waits(Partial),
}

fn is_unreadable(token: Token) -> bool
    ensures { (s : List ℕ) → result ≡ is_unreadable (token_of s token) }
{
    matches!(token, Token::Unreadable)
}

// The sum with one term more: 24's three conditions in their order.
fn add_term(sum: i64, joining: bool, own: bool, v: i64) -> Option<i64>
    ensures { AddsTerm sum joining own v result }
{
    let p = checked_sign(own, v)?;
    let q = checked_sign(joining, p)?;
    checked_add(sum, q)
}

impl Expression<'_> {
    // Is one of its tokens unreadable?
    fn any_unreadable(self) -> bool
        ensures { result ≡ any_unreadable (tokens (spaced_in self.entry.one_space self.entry.source.now)) }
    {
        let mut at = 0;
        while let Some((token, after)) = token_of(self.source, at, self.one_space) {
            if is_unreadable(token) {
                return true;
            }
            at = after;
        }
        false
    }

    // The signs from a place on, and the term behind them.
    fn signed_term(self, from: usize) -> Option<(bool, Token, usize)>
        ensures { TermFrom self.entry.one_space self.entry.source.now from result }
    {
        let mut at = from;
        let mut own = false;
        loop {
            let (token, after) = token_of(self.source, at, self.one_space)?;
            match token {
                Token::Plus => {}
                Token::Minus => {
                    own = !own;
                }
                Token::Unreadable => {
                    return None;
                }
                _ => {
                    return Some((own, token, after));
                }
            }
            at = after;
        }
    }

    // A term's value.
    fn term_value(self, names: Names<'_>, token: Token) -> Option<i64>
        requires { NamesReady names }
        ensures { NamesKnown names.entry
            (λ scope. result ≡ term_value (look_in scope) (pos self.entry.here) (token_of self.entry.source.now token)) }
    {
        match token {
            Token::Dot => Some(self.here as i64),
            Token::Number(v) => Some(v),
            Token::Name(name) => names.value(span_bytes(self.source, name)),
            Token::Plus => None,
            Token::Minus => None,
            Token::Unreadable => None,
        }
    }

    // What stands behind a term: an operator, whether it is a minus, and the place after it, or the end.
    fn operator_at(self, at: usize) -> Result<Option<(bool, usize)>, Refusal>
        ensures { JointFrom self.entry.one_space self.entry.source.now at (numbered result) }
    {
        let s = self.source;
        let i = skip_blanks(s, at, self.one_space);
        if s.len() <= i {
            return Ok(None);
        }
        let minus = sign_of(s[i]).ok_or(Refusal::MalformedExpression)?;
        Ok(Some((minus, i + 1)))
    }

    // The same where a sum goes on: the first term is joined as if by a `+` before it.
    fn joint_at(self, at: usize) -> Result<Option<(bool, usize)>, Refusal>
        ensures { JointAt self.entry.one_space self.entry.source.now at (numbered result) }
    {
        if at == 0 {
            return Ok(Some((false, 0)));
        }
        self.operator_at(at)
    }

    // The sum of its terms, gone on with from where it has come to, as far as it goes.
    pub fn sum_terms(self, names: Names<'_>, from: Partial) -> Result<Evaluated, Refusal>
        requires { NamesReady names }
        ensures { NamesKnown names.entry
            (λ scope. EvaluatesAs (look_in scope) self.entry (sum_after self.entry from) (numbered result)) }
    {
        let mut sum = from.sum;
        let mut at = from.at;
        while let Some((joining, k)) = self.joint_at(at)? {
            let (own, token, after) = self.signed_term(k).ok_or(Refusal::MalformedExpression)?;
            let Some(v) = self.term_value(names, token) else {
                return Ok(Evaluated::Waits(Partial { sum, at }));
            };
            sum = add_term(sum, joining, own, v).ok_or(Refusal::ExpressionOverflow)?;
            at = after;
        }
        Ok(Evaluated::Value(sum))
    }

    // What it comes to against the labels and the equates that are found. Unreadable tokens come first; where the sum has a value, it has read every
    // token, and there is none to look for.
    pub fn evaluate(self, names: Names<'_>) -> Result<Evaluated, Refusal>
        requires { NamesReady names }
        ensures { NamesKnown names.entry
            (λ scope. EvaluatesAs (look_in scope) self.entry (evaluation self.entry) (numbered result)) }
    {
        let answer = self.sum_terms(names, Partial { sum: 0, at: 0 });
        if let Ok(Evaluated::Value(_)) = answer {
            return answer;
        }
        if self.any_unreadable() {
            return Err(Refusal::MalformedExpression);
        }
        answer
    }
}
