// Addresses, once the lines are read: where the sections start, and the labels' records with their addresses.
ghost use Rattle.std.specs.Prelude.{◌≡◌, ◌≤◌, length};
ghost use Rattle.numbers.specs.Text.{one_spaced};
ghost use Rattle.layout.specs.Limits.{base_limit, data_limit};
ghost use Rattle.layout.specs.State.{State};
ghost use Rattle.layout.specs.Stage.{is_label};
ghost use Rattle.layout.specs.Addresses.{address_at, label_address};
ghost use Rattle.layout.specs.Code.Tables.{LabelsSearchable};
ghost use Rattle.layout.specs.Code.Placed.{StartsAt, PlaceCoded, Unplaced, Places, WherePlaced};

use crate::labels::Labels;
use crate::records::{LabelRecord, Record};

// Where the sections start.
#[derive(Clone, Copy)]
pub struct Starts {
    pub text: u32,
    pub data: u32,
    pub bss: u32,
}

impl Starts {
    // The data start 0x1000 above the base, and behind so many bytes of them the bss.
    pub fn of(base: u32, size: usize) -> Starts
        requires { (base ≤ base_limit) × (size ≤ data_limit) }
        ensures { (σ : State) → length σ.rest.own.stored.bytes ≡ size → StartsAt result base σ }
    {
        Starts {
            text: base,
            data: base + 0x1000,
            bss: base + 0x1000 + size as u32,
        }
    }

    // The address of a place, by its code.
    pub fn address(self, code: u32) -> u32
        requires { PlaceCoded self code }
        ensures { (p : PlaceCoded self code) → result ≡ address_at p.base p.state p.place }
    {
        let offset = code % 0x1000000;
        match code / 0x1000000 {
            0 => self.text + offset,
            1 => self.data + offset,
            _ => self.bss + offset,
        }
    }
}

// So many labels' records: in each the address takes the place of the place's code.
pub fn place_labels(labels: &mut [u8], count: usize, starts: Starts)
    requires { Unplaced labels.old count starts }
    ensures { Places labels count starts }
{
    for k in 0..count {
        let label = LabelRecord::get(labels, k);
        let placed = LabelRecord {
            start: label.start,
            len: label.len,
            address: starts.address(label.address),
            line: label.line,
        };
        placed.put(labels, k);
    }
}

impl Labels<'_> {
    // The address of the label that has the name.
    pub fn address(self, name: &[u8]) -> Option<u32>
        requires { LabelsSearchable self }
        ensures { WherePlaced self.entry (λ base σ. result ≡ label_address base σ name.now) }
    {
        let k = self.find(name)?;
        Some(LabelRecord::get(self.records, k).address)
    }

    // Has a label the name?
    pub fn contains(self, name: &[u8]) -> bool
        requires { LabelsSearchable self }
        ensures { WherePlaced self.entry (λ base σ. result ≡ is_label name.now σ.labels) }
    {
        self.find(name).is_some()
    }

    // What `address` answers of an operand's name, its white-space runs made one space. The contract alone names the index.
    pub fn spaced_address(self, operand: &[u8]) -> Option<u32>
        requires { LabelsSearchable self }
        ensures { WherePlaced self.entry (λ base σ. result ≡ label_address base σ (one_spaced operand.now)) }
    {
        let k = self.find_spaced(operand)?;
        Some(LabelRecord::get(self.records, k).address)
    }
}
