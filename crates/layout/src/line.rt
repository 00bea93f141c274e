// What a line says, read in a section: its label; a section, a symbol, an ignored directive, an equate, or what the
// section's own rule takes.
ghost use Rattle.layout.specs.Code.Numbers.{numbered};
ghost use Rattle.std.specs.Prelude.{◌≡◌, ◌≤◌, ◌<◌, length};
ghost use Rattle.std.specs.Prelude.{Ok};
ghost use Rattle.numbers.specs.Text.{byte, index_of};
ghost use Rattle.numbers.specs.Code.Spans.{spanned};
ghost use Rattle.layout.specs.declared.line.Statement.TheVariants as kind;
ghost use Rattle.layout.specs.Bytes.{count_before};
ghost use Rattle.layout.specs.Pieces.{Piece, from_byte};
ghost use Rattle.layout.specs.Directives.{directives, row_in};
ghost use Rattle.layout.specs.Statements.{stores, own, ends_section_name, section_named, section_of, is_section_line, section_line, symbol_after};
ghost use Rattle.layout.specs.Statements.{equate_of, equ_of, other_in, assignment_of, reserves_in, stores_in, directive_in};
ghost use Rattle.layout.specs.Statements.{unlabelled_of, line_of};
ghost use Rattle.layout.specs.Code.Spans.{span_of, piece_at, statement_code, LineStands};
ghost use Rattle.layout.specs.Code.Cuts.{is_mark, cut_line, LineCut, NoSignBefore, is_string_row, is_bare, Parted, Follows, says_in};

use crate::directives::{Directive, Names, Reserve, Source, Spelling, Store, directive_of};
use crate::pieces::{part_from, part_to, trim_from, trim_to, word_len};
use crate::refusal::Refusal;
use crate::scan::Cut;
use crate::state::Section;
use numbers::text::{
    Span, find, find_from, first_is, is_space, leading, same_bytes, span_bytes, starts_with, trim,
};

// An equate's name and expression; the expression of an `.equ` or `.set` parted at a blank is read with each run of
// white space as one space.
#[derive(Clone, Copy)]
pub struct EquateParts {
    pub name: Span,
    pub expr: Span,
    pub one_space: bool,
}

// What the section's own rule takes: a line of the text section; what is written in data; in bss zeros.
#[derive(Clone, Copy)]
pub enum OwnStatement {
    Item(Span),
    InData(Source, Span),
    ReservesBss(Reserve, Span),
}

// What a statement says: nothing, another section, an equate, or what the section's own rule takes.
#[derive(Clone, Copy)]
pub enum Statement {
    Nothing,
    Enters(Section),
    Equate(EquateParts),
    Own(OwnStatement),
}

#[derive(Clone, Copy)]
pub struct Line {
    pub label: Option<Span>,
    pub says: Result<Statement, Refusal>,
}

// A section by its name without the dot.
fn section_named(name: &[u8]) -> Result<Statement, Refusal>
    ensures { numbered result ≡ statement_code (section_named name.now) }
{
    if same_bytes(b"text", name) {
        return Ok(Statement::Enters(Section::Text));
    }
    if same_bytes(b"data", name)
        | (same_bytes(b"rodata", name)
            | (same_bytes(b"sdata", name) | same_bytes(b"srodata", name)))
    {
        return Ok(Statement::Enters(Section::Data));
    }
    if same_bytes(b"bss", name) | same_bytes(b"sbss", name) {
        return Ok(Statement::Enters(Section::Bss));
    }
    Err(Refusal::UnknownSection)
}

fn section_of(name: &[u8]) -> Result<Statement, Refusal>
    ensures { numbered result ≡ statement_code (section_of name.now) }
{
    if name.len() == 0 {
        return Err(Refusal::MissingSectionName);
    }
    if same_bytes(name, b".note.GNU-stack") {
        return Ok(Statement::Nothing);
    }
    if first_is(name, b'.') {
        return section_named(&name[1..]);
    }
    section_named(name)
}

// How many bytes stand before the first white space or comma.
#[tactic(auto, using(crate::proofs::SpanLaws::count_leading))]
fn section_name_len(s: &[u8]) -> usize
    ensures { result ≡ count_before ends_section_name s.now }
{
    leading(s, |b| !(is_space(b) | (b == b',')))
}

fn is_section_line(s: &[u8]) -> bool
    ensures { result ≡ is_section_line s.now }
{
    if !first_is(s, b'.') {
        return false;
    }
    (same_bytes(b".text", s) | (same_bytes(b".data", s) | same_bytes(b".bss", s)))
        | starts_with(s, b".section")
}

fn section_line(s: &[u8]) -> Result<Statement, Refusal>
    ensures { numbered result ≡ statement_code (section_line s.now) }
{
    if starts_with(s, b".section") {
        let rest = trim(&s[8..]);
        let len = section_name_len(rest);
        return section_of(&rest[..len]);
    }
    section_of(s)
}

// A symbol is needed after `.globl`; it means nothing here.
fn symbol(rest: &[u8]) -> Result<Statement, Refusal>
    ensures { numbered result ≡ statement_code (symbol_after rest.now) }
{
    if trim(rest).len() == 0 {
        return Err(Refusal::MissingSymbol);
    }
    Ok(Statement::Nothing)
}

fn equate_of(name: Span, expr: Span, one_space: bool) -> Result<Statement, Refusal>
    ensures { (n p : Piece) → name ≡ span_of n → expr ≡ span_of p →
        numbered result ≡ statement_code (equate_of n (record { source = p; one_space = one_space })) }
{
    if (name.len == 0) | (expr.len == 0) {
        return Err(Refusal::MalformedEquate);
    }
    Ok(Statement::Equate(EquateParts {
        name,
        expr,
        one_space,
    }))
}

// What stands after `.equ` or `.set`.
fn equ_of(text: &[u8], part: Span) -> Result<Statement, Refusal>
    ensures { numbered result ≡ statement_code (equ_of (piece_at text.now part)) }
{
    let bytes = span_bytes(text, part);
    let comma = find(bytes, b',');
    if comma < bytes.len() {
        let name = trim_to(text, part, comma);
        let expr = trim_from(text, part, comma + 1);
        return equate_of(name, expr, false);
    }
    let blank = word_len(bytes);
    let expr = trim_from(text, part, blank);
    equate_of(part_to(text, part, blank), expr, true)
}

// What is neither a directive nor an equate.
fn other_in(section: Section, part: Span) -> Result<Statement, Refusal>
    ensures { (p : Piece) → part ≡ span_of p → numbered result ≡ statement_code (other_in section p) }
{
    match section {
        Section::Text => Ok(Statement::Own(OwnStatement::Item(part))),
        Section::Data => Err(Refusal::UnknownDataDirective),
        Section::Bss => Err(Refusal::UnknownBssDirective),
    }
}

// `name = expr`, whose `=` is looked for from a byte on, or what the section's own rule takes.
fn assignment(text: &[u8], section: Section, part: Span, from: usize) -> Result<Statement, Refusal>
    requires { NoSignBefore from (spanned text.now part) }
    ensures { numbered result ≡ statement_code (assignment_of section (piece_at text.now part)) }
{
    let bytes = span_bytes(text, part);
    let whole = part_to(text, part, bytes.len());
    if first_is(bytes, b'.') {
        return other_in(section, whole);
    }
    // not by `find_from`: its loop here would push other locals out of their registers
    let sign = from + find(&bytes[from..], b'=');
    if bytes.len() <= sign {
        return other_in(section, whole);
    }
    let name = trim_to(text, part, sign);
    let expr = trim_from(text, part, sign + 1);
    if (name.len == 0) | (expr.len == 0) {
        return other_in(section, whole);
    }
    equate_of(name, expr, false)
}

fn reserves_in(
    section: Section,
    in_data: bool,
    what: Reserve,
    part: Span,
    rest: Span,
) -> Result<Statement, Refusal>
    ensures { (p q : Piece) → part ≡ span_of p → rest ≡ span_of q →
        numbered result ≡ statement_code (reserves_in section in_data what p q) }
{
    match section {
        Section::Text => Ok(Statement::Own(OwnStatement::Item(part))),
        Section::Data => {
            if !in_data {
                return Err(Refusal::UnknownDataDirective);
            }
            Ok(Statement::Own(OwnStatement::InData(Source::Reserves(what), rest)))
        }
        Section::Bss => Ok(Statement::Own(OwnStatement::ReservesBss(what, rest))),
    }
}

// What is stored in data: a string's operand runs to the line's end, but behind a label with a quote it ends with the statement.
fn stored(text: &[u8], cut: Cut, what: Store, part: Span, rest: Span) -> OwnStatement
    requires { LineCut text.now cut × (cut.part.start ≤ part.start) × (part.start ≤ rest.start) × (rest.start ≤ cut.end) }
    ensures { (q : Piece) → rest ≡ span_of q →
        Ok (kind.Own result) ≡ statement_code (says_in text.now cut part (Ok (own (stores what q)))) }
{
    let Store::Text(zeros) = what else {
        return OwnStatement::InData(Source::Stores(what), rest);
    };
    let from = cut.part.start;
    let to = part.start;
    let before = &text[from..to];
    if find(before, b'"') < before.len() {
        return OwnStatement::InData(Source::Stores(what), rest);
    }
    let start = rest.start;
    let operand = Span {
        start,
        len: cut.end - start,
    };
    OwnStatement::InData(Source::String(zeros), operand)
}

fn stores_in(
    text: &[u8],
    section: Section,
    cut: Cut,
    what: Store,
    part: Span,
    rest: Span,
) -> Result<Statement, Refusal>
    requires { LineCut text.now cut × (cut.part.start ≤ part.start) × (part.start ≤ rest.start) × (rest.start ≤ cut.end) }
    ensures { (p q : Piece) → part ≡ span_of p → rest ≡ span_of q →
        numbered result ≡ statement_code (says_in text.now cut part (stores_in section what p q)) }
{
    match section {
        Section::Text => Ok(Statement::Own(OwnStatement::Item(part))),
        Section::Data => Ok(Statement::Own(stored(text, cut, what, part, rest))),
        Section::Bss => Err(Refusal::StoresInBss),
    }
}

// A directive of the table, whose name has so many bytes.
fn directive_in(
    text: &[u8],
    section: Section,
    cut: Cut,
    part: Span,
    spelling: Spelling,
) -> Result<Statement, Refusal>
    requires { LineCut text.now cut × Follows text.now cut part × (spelling.len ≤ length (spanned text.now part)) }
    ensures { numbered result ≡ statement_code (says_in text.now cut part (directive_in section spelling.directive spelling.in_data
        (piece_at text.now part) (from_byte spelling.len (piece_at text.now part)))) }
{
    let bytes = span_bytes(text, part);
    let n = spelling.len;
    let whole = part_to(text, part, bytes.len());
    let rest = part_from(text, part, n);
    let directive = spelling.directive;
    match directive {
        Directive::Symbol => symbol(&bytes[n..]),
        Directive::Ignored => Ok(Statement::Nothing),
        Directive::Equate => equ_of(text, trim_from(text, part, n)),
        Directive::Reserves(what) => reserves_in(section, spelling.in_data, what, whole, rest),
        Directive::Stores(what) => stores_in(text, section, cut, what, whole, rest),
    }
}

// A cut line's statement after its label, whose `=` is looked for from a byte on.
fn unlabelled(
    names: &Names,
    text: &[u8],
    section: Section,
    cut: Cut,
    part: Span,
    from: usize,
) -> Result<Statement, Refusal>
    requires { LineCut text.now cut × Follows text.now cut part
        × NoSignBefore from (spanned text.now part) }
    ensures { numbered result ≡ statement_code (says_in text.now cut part (unlabelled_of section (piece_at text.now part))) }
{
    let bytes = span_bytes(text, part);
    if bytes.len() == 0 {
        return Ok(Statement::Nothing);
    }
    match directive_of(names, bytes) {
        Some(spelling) => directive_in(text, section, cut, part, spelling),
        None => assignment(text, section, part, from),
    }
}

// A statement's label, what follows it, and from which byte of that on a `=` is looked for.
#[derive(Clone, Copy)]
struct Labelled {
    label: Option<Span>,
    rest: Span,
    from: usize,
}

// Does a statement begin with a string directive? Few lines ask: the table's look-up stays in one place, where it is inlined.
fn begins_string(bytes: &[u8]) -> bool
    ensures { result ≡ is_string_row (row_in directives bytes.now) }
{
    starts_with(bytes, b".ascii") | (starts_with(bytes, b".asciz") | starts_with(bytes, b".string"))
}

// In data: is what stands before a statement's first colon no label, but a string directive and a quote?
fn is_bare(section: Section, bytes: &[u8], colon: usize) -> bool
    requires { (colon ≡ index_of (byte ":") bytes.now) × (colon < length bytes.now) }
    ensures { result ≡ is_bare section bytes.now }
{
    let Section::Data = section else {
        return false;
    };
    if !begins_string(bytes) {
        return false;
    }
    find(&bytes[..colon], b'"') < colon
}

// A statement parted at its first colon, if that ends a label; before the mark stands neither a colon nor a `=`.
fn part_label(text: &[u8], section: Section, part: Span, mark: usize) -> Labelled
    requires { mark ≡ count_before is_mark (spanned text.now part) }
    ensures { Parted text.now section (piece_at text.now part) result }
{
    let bytes = span_bytes(text, part);
    let colon = find_from(bytes, mark, b':');
    if bytes.len() <= colon {
        return Labelled {
            label: None,
            rest: part,
            from: mark,
        };
    }
    if is_bare(section, bytes, colon) {
        return Labelled {
            label: None,
            rest: part,
            from: mark,
        };
    }
    let name = trim_to(text, part, colon);
    let rest = trim_from(text, part, colon + 1);
    Labelled {
        label: Some(name),
        rest,
        from: 0,
    }
}

// A line as it was cut, in a section: its label and what it says.
pub fn line_of(names: &Names, text: &[u8], section: Section, cut: Cut) -> Line
    requires { LineCut text.now cut }
    ensures { LineStands result (line_of section (cut_line text.now cut)) }
{
    let part = cut.part;
    let bytes = span_bytes(text, part);
    if is_section_line(bytes) {
        return Line {
            label: None,
            says: section_line(bytes),
        };
    }
    let parted = part_label(text, section, part, cut.mark);
    let label = parted.label;
    let says = unlabelled(names, text, section, cut, parted.rest, parted.from);
    Line { label, says }
}
