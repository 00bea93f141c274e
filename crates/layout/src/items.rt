// Items: the record of a line of the text section, and the words that it reserves.
ghost use Rattle.numbers.specs.Code.Spans.{spanned};
ghost use Rattle.layout.specs.Pseudos.{item_of};
ghost use Rattle.layout.specs.Stage.{add_item, text_line};
ghost use Rattle.layout.specs.Code.Spans.{SpanWithin, LineIn, piece_at};
ghost use Rattle.layout.specs.Code.Lent.{ItemsReady, ItemsSteps};

use crate::limits::Room;
use crate::pseudo::{Names, Pseudo, item_kind, kind_of, reserved_words};
use crate::records::{ItemRecord, Record};
use crate::refusal::Refusal;
use crate::state::ItemCount;
use numbers::text::{Span, span_bytes};

// An item's record is written, and its words are reserved.
fn add_item(
    text: &[u8],
    items: &mut [u8],
    room: Room,
    st: ItemCount,
    line: u32,
    pseudo: Option<Pseudo>,
    source: Span,
) -> Result<ItemCount, Refusal>
    requires { ItemsReady text.now items.old room st × LineIn text.now line × SpanWithin text.now source }
    ensures { ItemsSteps text.now items room st result
        (add_item room line «pseudo» (piece_at text.now source)) }
{
    let count = st.items;
    if room.items <= count {
        return Err(Refusal::ItemsFull);
    }
    let words = st.words + reserved_words(pseudo, span_bytes(text, source));
    if room.words < words {
        return Err(Refusal::WordsFull);
    }
    let item = ItemRecord {
        address: (4 * st.words) as u32,
        line,
        kind: item_kind(pseudo),
        first: 0,
        start: source.start as u32,
        len: source.len as u32,
    };
    item.put(items, count);
    Ok(ItemCount {
        items: count + 1,
        words,
    })
}

// A line of the text section.
pub fn text_line(
    names: &Names,
    text: &[u8],
    items: &mut [u8],
    room: Room,
    st: ItemCount,
    line: u32,
    source: Span,
) -> Result<ItemCount, Refusal>
    requires { ItemsReady text.now items.old room st × LineIn text.now line × SpanWithin text.now source }
    ensures { ItemsSteps text.now items room st result
        (text_line room line (piece_at text.now source) (item_of (spanned text.now source))) }
{
    let pseudo = kind_of(names, span_bytes(text, source))?;
    add_item(text, items, room, st, line, pseudo, source)
}
