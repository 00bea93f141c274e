// Items to words: what an item emits, into the part of the words that it is lent.
ghost use Rattle.layout.specs.Code.Numbers.{numbered};
ghost use Rattle.std.specs.Prelude.{◌≡◌, [], ◌∷◌, ◌≤◌, length};
ghost use Rattle.std.specs.Prelude.{Option, Some};
ghost use Rattle.std.specs.Prelude.{Ok};
ghost use Rattle.numbers.specs.Code.Spans.{spanned};
ghost use Rattle.encoder.specs.Encoding.{encoded};
ghost use Rattle.encoder.specs.Code.Slots.{longest, instructions_in};
ghost use Rattle.encoder.specs.Code.Words.{Puts};
ghost use Rattle.layout.specs.declared.pseudo.Pseudo as code;
ghost use Rattle.layout.specs.Pseudos.{item_kind, pseudo_words, reserved_words};
ghost use Rattle.layout.specs.Code.Steps.{Exists};
ghost use Rattle.layout.specs.Code.Names.{NamesReady, NamesKnown};
ghost use Rattle.layout.specs.Code.Expands.{emission_in, source_span, ItemRecordFits};
ghost use Rattle.layout.specs.Code.Emits.{EmitReady, Emits};

use crate::addresses::Starts;
use crate::expansions::build;
use crate::names::Names;
use crate::pseudo::Pseudo;
use crate::records::{ItemRecord, Record};
use crate::refusal::{Refusal, RefusedAt};
use crate::wanted::wanted_by;
use encoder::sequences::{Expansion, put_words};
use numbers::text::{Span, span_bytes};

// The words of an expansion. Of a pseudo's the encoder refuses none (`emission-refused`).
fn put_expansion(dst: &mut [u32], e: Expansion) -> Result<usize, Refusal>
    requires { (e.count ≤ longest) × (e.count ≤ length dst.old) }
    ensures { Puts dst (numbered result) (encoded (instructions_in e)) }
{
    Ok(put_words(dst, e)?)
}

// The one word of an ordinary line.
fn put_ordinary(dst: &mut [u32]) -> Result<usize, Refusal>
    requires { 1 ≤ length dst.old }
    ensures { Puts dst (numbered result) (Ok (0 ∷ [])) }
{
    dst[0] = 0;
    Ok(1)
}

// The words of a pseudo by its source.
fn emit_pseudo(
    names: Names<'_>,
    pseudo: Pseudo,
    s: &[u8],
    dst: &mut [u32],
) -> Result<usize, Refusal>
    requires { NamesReady names
        × (pseudo_words «pseudo» s.now ≤ length dst.old) }
    ensures { NamesKnown names.entry
        (λ scope. Puts dst (numbered result) (emission_in scope (Some «pseudo») s.now)) }
{
    let wanted = wanted_by(pseudo, s)?;
    let arguments = names.look_up(s, wanted)?;
    put_expansion(dst, build(pseudo, arguments))
}

// The words of a line by its kind: how many they are, or a refusal.
fn emit_line(
    names: Names<'_>,
    pseudo: Option<Pseudo>,
    source: Span,
    dst: &mut [u32],
) -> Result<usize, Refusal>
    requires { NamesReady names
        × (reserved_words «pseudo» (spanned names.labels.now.text.now source) ≤ length dst.old) }
    ensures { NamesKnown names.entry
        (λ scope. Puts dst (numbered result) (emission_in scope «pseudo» (spanned names.entry.labels.now.text.now source))) }
{
    match pseudo {
        None => put_ordinary(dst),
        Some(p) => emit_pseudo(names, p, span_bytes(names.labels.text, source), dst),
    }
}

// The words of an item by its record.
fn emit_item(names: Names<'_>, item: ItemRecord, dst: &mut [u32]) -> Result<usize, Refusal>
    requires { NamesReady names
        × Exists (ItemRecordFits names.labels.now.text.now (length dst.old) item) }
    ensures { NamesKnown names.entry
        (λ scope. (x : Option code.Pseudo) → item.kind ≡ item_kind x
        → Puts dst (numbered result) (emission_in scope x (spanned names.entry.labels.now.text.now (source_span item)))) }
{
    let source = Span {
        start: item.start as usize,
        len: item.len as usize,
    };
    emit_line(names, Pseudo::numbered(item.kind), source, dst)
}

// So many items in text order: each one's words behind those before it, and into its record its address and its first word's index.
// The total is of the words.
pub fn emit_items(
    names: Names<'_>,
    starts: Starts,
    items: &mut [u8],
    count: usize,
    words: &mut [u32],
) -> Result<usize, RefusedAt>
    requires { EmitReady names starts items.old count words.old }
    ensures { Emits names.entry starts items count words result }
{
    let mut at = 0;
    for k in 0..count {
        let item = ItemRecord::get(items, k);
        let n = emit_item(names, item, &mut words[at..]).map_err(|refusal| refusal.at(item.line))?;
        let emitted = ItemRecord {
            address: starts.address(item.address),
            line: item.line,
            kind: item.kind,
            first: at as u32,
            start: item.start,
            len: item.len,
        };
        emitted.put(items, k);
        at += n;
    }
    Ok(at)
}
