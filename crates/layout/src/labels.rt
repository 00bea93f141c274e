// Labels, by name: the last definition of a name wins.
ghost use Rattle.std.specs.Prelude.{◌≡◌, ◌+◌, ◌*◌, ◌≤◌, length};
ghost use Rattle.numbers.specs.Text.{same, one_spaced};
ghost use Rattle.layout.specs.Limits.{label_size};
ghost use Rattle.layout.specs.Stage.{add_label, label_step};
ghost use Rattle.layout.specs.Code.Spans.{SpanWithin, LabelWithin, LineIn, piece_at, label_part_at};
ghost use Rattle.layout.specs.Code.Places.{PlaceFits};
ghost use Rattle.layout.specs.Code.Index.{bucket_of};
ghost use Rattle.layout.specs.Code.Tables.{label_name_at, LabelsSearchable, LooksUp};
ghost use Rattle.layout.specs.Code.Lent.{LabelsReady, LabelsSteps};

use crate::index::{BUCKETS, bucket_of, insert};
use crate::limits::Room;
use crate::records::{LabelRecord, Record};
use crate::refusal::Refusal;
use crate::state::Place;
use numbers::text::{Span, same_bytes, same_one_spaced, span_bytes};

// Labels' records with the text that their names are in, and the index of the names.
#[derive(Clone, Copy)]
pub struct Labels<'a> {
    pub text: &'a [u8],
    pub records: &'a [u8],
    pub index: &'a [u16],
    pub count: usize,
}

impl<'a> Labels<'a> {
    // The kth label's name.
    fn name(self, k: usize) -> &'a [u8]
        requires { k * label_size + label_size ≤ length self.records.now }
        ensures { result.now ≡ label_name_at self.entry.text.now self.entry.records.now k }
    {
        let label = LabelRecord::get(self.records, k);
        let name = Span {
            start: label.start as usize,
            len: label.len as usize,
        };
        span_bytes(self.text, name)
    }

    // Has the kth record this name?
    fn is_named(self, k: usize, name: &[u8]) -> bool
        requires { k * label_size + label_size ≤ length self.records.now }
        ensures { result ≡ same (label_name_at self.entry.text.now self.entry.records.now k) name.now }
    {
        same_bytes(self.name(k), name)
    }

    // The one of the records that has this name, by the chain of the name's bucket. The contract alone names the count.
    fn find_in(self, name: &[u8], bucket: usize) -> Option<usize>
        requires { LabelsSearchable self × (bucket ≡ bucket_of name.now) }
        ensures { LooksUp self.entry name.now result }
    {
        let mut entry = self.index[bucket] as usize;
        while 0 < entry {
            let k = entry - 1;
            if self.is_named(k, name) {
                return Some(k);
            }
            entry = self.index[BUCKETS + k] as usize;
        }
        None
    }

    // The one of the records that has this name.
    pub fn find(self, name: &[u8]) -> Option<usize>
        requires { LabelsSearchable self }
        ensures { LooksUp self.entry name.now result }
    {
        self.find_in(name, bucket_of(name))
    }

    // The one of the records whose name an operand is, its white-space runs made one space. Few operands have white space: the records are searched in
    // order, and nothing is copied.
    pub fn find_spaced(self, operand: &[u8]) -> Option<usize>
        requires { self.count * label_size ≤ length self.records.now }
        ensures { LooksUp self.entry (one_spaced operand.now) result }
    {
        for k in 0..self.count {
            if same_one_spaced(operand, self.name(k)) {
                return Some(k);
            }
        }
        None
    }
}

// A label, with its place for its address.
fn add_label(
    text: &[u8],
    labels: &mut [u8],
    index: &mut [u16],
    room: Room,
    count: usize,
    place: Place,
    line: u32,
    name: Span,
) -> Result<usize, Refusal>
    requires { LabelsReady text.now labels.old index.old room count × PlaceFits place × LineIn text.now line
        × SpanWithin text.now name }
    ensures { LabelsSteps text.now labels index room count result
        (add_label room (record { name = piece_at text.now name; place = place; line = line })) }
{
    let label = LabelRecord {
        start: name.start as u32,
        len: name.len as u32,
        address: place.code(),
        line,
    };
    let bytes = span_bytes(text, name);
    let bucket = bucket_of(bytes);
    let known = Labels {
        text,
        records: labels,
        index,
        count,
    };
    match known.find_in(bytes, bucket) {
        Some(k) => {
            label.put(labels, k);
            Ok(count)
        }
        None => {
            if room.labels <= count {
                return Err(Refusal::LabelsFull);
            }
            label.put(labels, count);
            insert(index, count, bucket);
            Ok(count + 1)
        }
    }
}

// A line's label, if it has one.
pub fn label_step(
    text: &[u8],
    labels: &mut [u8],
    index: &mut [u16],
    room: Room,
    count: usize,
    place: Place,
    line: u32,
    label: Option<Span>,
) -> Result<usize, Refusal>
    requires { LabelsReady text.now labels.old index.old room count × PlaceFits place × LineIn text.now line
        × LabelWithin text.now label }
    ensures { LabelsSteps text.now labels index room count result
        (label_step room place line (label_part_at text.now label)) }
{
    match label {
        Some(name) => add_label(text, labels, index, room, count, place, line, name),
        None => Ok(count),
    }
}
