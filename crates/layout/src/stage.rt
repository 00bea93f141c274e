// The line stage: labels, equates, items, data and bss, line by line.
ghost use Rattle.std.specs.Prelude.{◌≤◌, length};
ghost use Rattle.numbers.specs.Results.{and_then};
ghost use Rattle.layout.specs.Limits.{text_limit};
ghost use Rattle.layout.specs.Pieces.{lines, line_pieces};
ghost use Rattle.layout.specs.State.{start};
ghost use Rattle.layout.specs.Stage.{own_line, statement_step, step_line, line_stage};
ghost use Rattle.layout.specs.Code.Cuts.{cut_line, LineCut};
ghost use Rattle.layout.specs.Code.Spans.{own_at, statement_at, OwnWithin, StatementWithin, LineIn};
ghost use Rattle.layout.specs.Code.Lent.{OwnReady, OwnSteps, RestReady, RestSteps, StageReady, StageSteps, StageStarts, StageGives};

use crate::bss::bss_line;
use crate::data::data_line;
use crate::equates::add_equate;
use crate::items::text_line;
use crate::labels::label_step;
use crate::limits::Room;
use crate::line::{OwnStatement, Statement, line_of};
use crate::refusal::{Refusal, RefusedAt};
use crate::scan::{Cut, cut_line};
use crate::state::{Counters, OwnCounters, RestCounters};
use crate::{directives, pseudo};
use numbers::text::span_bytes;

// The section's own rule.
fn own_line(
    pseudos: &pseudo::Names,
    text: &[u8],
    items: &mut [u8],
    data_bytes: &mut [u8],
    label_words: &mut [u8],
    room: Room,
    st: OwnCounters,
    line: u32,
    statement: OwnStatement,
) -> Result<OwnCounters, Refusal>
    requires { OwnReady text.now items.old data_bytes.old label_words.old room st × LineIn text.now line
        × OwnWithin text.now statement }
    ensures { OwnSteps text.now items data_bytes label_words room st result
        (own_line room line (own_at text.now statement)) }
{
    match statement {
        OwnStatement::Item(source) => {
            let items = text_line(pseudos, text, items, room, st.items, line, source)?;
            Ok(OwnCounters { items, ..st })
        }
        OwnStatement::InData(source, rest) => {
            let stored = data_line(
                text,
                data_bytes,
                label_words,
                room,
                st.stored,
                line,
                source,
                rest,
            )?;
            Ok(OwnCounters { stored, ..st })
        }
        OwnStatement::ReservesBss(what, rest) => {
            let bss = bss_line(st.bss, what, span_bytes(text, rest))?;
            Ok(OwnCounters { bss, ..st })
        }
    }
}

// What a statement does.
fn statement_step(
    pseudos: &pseudo::Names,
    text: &[u8],
    equates: &mut [u8],
    exprs: &mut [u8],
    items: &mut [u8],
    data_bytes: &mut [u8],
    label_words: &mut [u8],
    room: Room,
    st: RestCounters,
    line: u32,
    statement: Statement,
) -> Result<RestCounters, Refusal>
    requires { RestReady text.now equates.old exprs.old items.old data_bytes.old label_words.old room st
        × LineIn text.now line × StatementWithin text.now statement }
    ensures { RestSteps text.now equates exprs items data_bytes label_words room st result
        (statement_step room line (statement_at text.now statement)) }
{
    match statement {
        Statement::Nothing => Ok(st),
        Statement::Enters(section) => Ok(RestCounters {
            own: st.own.entered(section),
            ..st
        }),
        Statement::Equate(parts) => {
            let equates = add_equate(
                text,
                equates,
                exprs,
                room,
                st.equates,
                st.own.place(),
                line,
                parts,
            )?;
            Ok(RestCounters { equates, ..st })
        }
        Statement::Own(statement) => {
            let own = own_line(
                pseudos,
                text,
                items,
                data_bytes,
                label_words,
                room,
                st.own,
                line,
                statement,
            )?;
            Ok(RestCounters { own, ..st })
        }
    }
}

// A line as it was cut: its label first. Directives and pseudos are the rows of their names.
fn step_line(
    directives: &directives::Names,
    pseudos: &pseudo::Names,
    text: &[u8],
    cut: Cut,
    labels: &mut [u8],
    index: &mut [u16],
    equates: &mut [u8],
    exprs: &mut [u8],
    items: &mut [u8],
    data_bytes: &mut [u8],
    label_words: &mut [u8],
    room: Room,
    st: Counters,
    line: u32,
) -> Result<Counters, Refusal>
    requires { StageReady text.now labels.old index.old equates.old exprs.old items.old data_bytes.old label_words.old room st
        × LineIn text.now line × LineCut text.now cut }
    ensures { StageSteps text.now labels index equates exprs items data_bytes label_words room st result
        (step_line room line (cut_line text.now cut)) }
{
    let own = st.rest.own;
    let parsed = line_of(directives, text, own.section, cut);
    let labels = label_step(
        text,
        labels,
        index,
        room,
        st.labels,
        own.place(),
        line,
        parsed.label,
    )?;
    let statement = parsed.says?;
    let rest = statement_step(
        pseudos,
        text,
        equates,
        exprs,
        items,
        data_bytes,
        label_words,
        room,
        st.rest,
        line,
        statement,
    )?;
    Ok(Counters { labels, rest })
}

// Every line of the text, into buffers of zeros. A line without a statement changes nothing. Not by the library's `lines`: a line
// is cut where it ends, in the one pass that finds its parts.
pub fn line_stage(
    text: &[u8],
    labels: &mut [u8],
    index: &mut [u16],
    equates: &mut [u8],
    exprs: &mut [u8],
    items: &mut [u8],
    data_bytes: &mut [u8],
    label_words: &mut [u8],
    room: Room,
) -> Result<Counters, RefusedAt>
    requires { (length text.now ≤ text_limit) × StageStarts text.now labels.old index.old equates.old exprs.old items.old data_bytes.old label_words.old room }
    ensures { StageGives text.now labels index equates exprs items data_bytes label_words room result
        (line_stage room 0 (line_pieces 0 (lines text.now)) start) }
{
    let directives = directives::Names::new();
    let pseudos = pseudo::Names::new();
    let mut st = Counters::START;
    let mut at = 0;
    let mut line: u32 = 0;
    while at < text.len() {
        let cut = cut_line(text, at);
        let end = cut.end;
        if 0 < cut.part.len {
            st = step_line(
                &directives,
                &pseudos,
                text,
                cut,
                labels,
                index,
                equates,
                exprs,
                items,
                data_bytes,
                label_words,
                room,
                st,
                line,
            )
            .map_err(|refusal| refusal.at(line))?;
        }
        at = end + 1;
        line += 1;
    }
    Ok(st)
}
