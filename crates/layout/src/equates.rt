// Equates: the record, pending until a round finds its value, and its expression.
ghost use Rattle.std.specs.Prelude.{◌≡◌, ◌&&◌, not, [], ◌+◌, ◌*◌, ◌≤◌, ◌<◌, length, eqb};
ghost use Rattle.numbers.specs.Text.{same, one_spaced};
ghost use Rattle.layout.specs.Limits.{equate_size, equate_limit};
ghost use Rattle.layout.specs.Rounds.{constant, is_some};
ghost use Rattle.layout.specs.Code.Index.{buckets, Indexed};
ghost use Rattle.layout.specs.Records.{equate_record_at};
ghost use Rattle.layout.specs.Code.Tables.{equate_name_at, equate_names};
ghost use Rattle.layout.specs.Code.Names.{EquatesSearchable, WhereKnown};
ghost use Rattle.layout.specs.Stage.{add_equate};
ghost use Rattle.layout.specs.Code.Spans.{SpanWithin, LineIn, equate_at};
ghost use Rattle.layout.specs.Code.Places.{PlaceFits};
ghost use Rattle.layout.specs.Code.Lent.{EquatesReady, EquatesSteps};

use crate::index::{BUCKETS, bucket_of, insert};
use crate::limits::Room;
use crate::line::EquateParts;
use crate::records::{EquateRecord, ExprRecord, Record};
use crate::refusal::Refusal;
use crate::state::Place;
use numbers::text::{Span, same_bytes, same_one_spaced, span_bytes};

// An equate's record and its expression's. The contract alone names the text, which the parts are of.
pub fn add_equate(
    text: &[u8],
    equates: &mut [u8],
    exprs: &mut [u8],
    room: Room,
    count: usize,
    place: Place,
    line: u32,
    parts: EquateParts,
) -> Result<usize, Refusal>
    requires { EquatesReady text.now equates.old exprs.old room count × PlaceFits place
        × LineIn text.now line × SpanWithin text.now parts.name × SpanWithin text.now parts.expr }
    ensures { EquatesSteps text.now equates exprs room count result
        (add_equate room (equate_at text.now place line parts)) }
{
    if room.equates <= count {
        return Err(Refusal::EquatesFull);
    }
    let name = parts.name;
    let expr = parts.expr;
    let equate = EquateRecord {
        start: name.start as u32,
        len: name.len as u32,
        line,
        value: 0,
        round: 0,
    };
    equate.put(equates, count);
    let source = ExprRecord {
        start: expr.start as u32,
        len: expr.len as u32,
        one_space: parts.one_space,
        place: place.code(),
    };
    source.put(exprs, count);
    Ok(count + 1)
}

// The kth equate's name.
fn equate_name<'a>(text: &'a [u8], equates: &[u8], k: usize) -> &'a [u8]
    requires { k * equate_size + equate_size ≤ length equates.now }
    ensures { result.now ≡ equate_name_at text.now equates.now k }
{
    let equate = EquateRecord::get(equates, k);
    let name = Span {
        start: equate.start as usize,
        len: equate.len as usize,
    };
    span_bytes(text, name)
}

// The index of so many equates' names; several may share one.
pub fn index_equates(text: &[u8], equates: &[u8], count: usize, index: &mut [u16])
    requires { (count * equate_size ≤ length equates.now) × (count ≤ equate_limit) × (buckets + count ≤ length index.old)
        × Indexed [] index.old }
    ensures { Indexed (equate_names text.now equates.now 0 count) index.new }
{
    for k in 0..count {
        insert(index, k, bucket_of(equate_name(text, equates, k)));
    }
}

// Equates' records with the text that their names are in, and the index of the names.
#[derive(Clone, Copy)]
pub struct Equates<'a> {
    pub text: &'a [u8],
    pub records: &'a [u8],
    pub index: &'a [u16],
    pub count: usize,
}

impl<'a> Equates<'a> {
    // The kth equate's name.
    pub fn name(self, k: usize) -> &'a [u8]
        requires { k * equate_size + equate_size ≤ length self.records.now }
        ensures { result.now ≡ equate_name_at self.entry.text.now self.entry.records.now k }
    {
        equate_name(self.text, self.records, k)
    }

    // Has the kth equate this name, and a value?
    fn is_found(self, k: usize, name: &[u8]) -> bool
        requires { k * equate_size + equate_size ≤ length self.records.now }
        ensures { result ≡ not (eqb (equate_record_at self.entry.records.now k).round 0)
            && same (equate_name_at self.entry.text.now self.entry.records.now k) name.now }
    {
        if EquateRecord::get(self.records, k).round == 0 {
            return false;
        }
        same_bytes(self.name(k), name)
    }

    // The value of a name's first equate that has one: the last that the chain of the name's bucket comes to.
    pub fn constant(self, name: &[u8]) -> Option<i64>
        requires { EquatesSearchable self }
        ensures { WhereKnown self.entry (λ ks. result ≡ constant ks name.now) }
    {
        let mut found = 0;
        let mut entry = self.index[bucket_of(name)] as usize;
        while 0 < entry {
            let k = entry - 1;
            if self.is_found(k, name) {
                found = entry;
            }
            entry = self.index[BUCKETS + k] as usize;
        }
        if found == 0 {
            return None;
        }
        Some(EquateRecord::get(self.records, found - 1).value)
    }

    // Has an equate of the name a value?
    pub fn is_constant(self, name: &[u8]) -> bool
        requires { EquatesSearchable self }
        ensures { WhereKnown self.entry (λ ks. result ≡ is_some (constant ks name.now)) }
    {
        self.constant(name).is_some()
    }

    // Has the kth equate an operand's name, its white-space runs made one space, and a value?
    fn is_spaced_found(self, k: usize, operand: &[u8]) -> bool
        requires { k * equate_size + equate_size ≤ length self.records.now }
        ensures { result ≡ not (eqb (equate_record_at self.entry.records.now k).round 0)
            && same (equate_name_at self.entry.text.now self.entry.records.now k) (one_spaced operand.now) }
    {
        if EquateRecord::get(self.records, k).round == 0 {
            return false;
        }
        same_one_spaced(operand, self.name(k))
    }

    // What `constant` answers of an operand's name, its white-space runs made one space. The equates are searched in order, as labels are
    // (`Labels::find_spaced`). The contract alone names the index.
    pub fn spaced_constant(self, operand: &[u8]) -> Option<i64>
        requires { EquatesSearchable self }
        ensures { WhereKnown self.entry (λ ks. result ≡ constant ks (one_spaced operand.now)) }
    {
        for k in 0..self.count {
            if self.is_spaced_found(k, operand) {
                return Some(EquateRecord::get(self.records, k).value);
            }
        }
        None
    }
}
