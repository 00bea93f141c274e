// Records in lent bytes: one struct a kind, by value, each so many words of four bytes.
ghost use Rattle.std.specs.Prelude.{◌≡◌, ℕ, ◌+◌, ◌*◌, ◌≤◌, List, map, length};
ghost use Rattle.layout.specs.Bytes.{put};
ghost use Rattle.layout.specs.Records.{RecordField, four, field_bytes, label_fields, equate_fields, item_fields, label_record_at, equate_record_at, item_record_at};
ghost use Rattle.layout.specs.Code.Tables.{expr_fields, label_word_fields, words_at};
ghost use Rattle.layout.specs.Code.Tables.{expr_record_at, label_word_record_at};

use crate::little_endian::{get_u32, put_u32};
use numbers::ints::{bits_of_i64, i64_of_bits};

// A label: its name's start and length, its address and line. Before the sections' starts are known the address is the
// code of its place.
#[derive(Clone, Copy)]
pub struct LabelRecord {
    pub start: u32,
    pub len: u32,
    pub address: u32,
    pub line: u32,
}

// An equate: its name's start and length, its line, and its value and round, 0 while it is pending.
#[derive(Clone, Copy)]
pub struct EquateRecord {
    pub start: u32,
    pub len: u32,
    pub line: u32,
    pub value: i64,
    pub round: u32,
}

// An item: its address (before the base is added, its offset), its line and kind, its first word's index, and its
// source's start and length.
#[derive(Clone, Copy)]
pub struct ItemRecord {
    pub address: u32,
    pub line: u32,
    pub kind: u32,
    pub first: u32,
    pub start: u32,
    pub len: u32,
}

// An equate's expression: its start and length, whether white space is read in runs, and the code of the equate's place.
#[derive(Clone, Copy)]
pub struct ExprRecord {
    pub start: u32,
    pub len: u32,
    pub one_space: bool,
    pub place: u32,
}

// A label word: where it stands in the data, its label's name, and its line.
#[derive(Clone, Copy)]
pub struct LabelWordRecord {
    pub at: u32,
    pub start: u32,
    pub len: u32,
    pub line: u32,
}

// A record in lent bytes: so many words of four bytes, one after the other, the low byte of each first.
pub trait Record<const N: usize>: Copy {
    ghost fields: { Self → List RecordField };

    ghost record_at: { List ℕ → ℕ → Self };

    fn to_words(self) -> [u32; N]
        ensures { field_bytes (map four result) ≡ field_bytes (fields self) };

    fn from_words(words: &[u32; N]) -> Self
        ensures { (b : List ℕ) (k : ℕ) → k * (4 * N) + 4 * N ≤ length b → words.now ≡ words_at N b (k * (4 * N)) → result ≡ record_at b k };

    // Writes the kth record of a table.
    fn put(self, table: &mut [u8], k: usize)
        requires { k * (4 * N) + 4 * N ≤ length table.old }
        ensures { table.new ≡ put (k * (4 * N)) (field_bytes (fields self)) table.old }
    {
        let words = self.to_words();
        let at = k * (4 * N);
        for (i, &word) in words.iter().enumerate() {
            put_u32(table, at + 4 * i, word);
        }
    }

    // Reads the kth record of a table.
    fn get(table: &[u8], k: usize) -> Self
        requires { k * (4 * N) + 4 * N ≤ length table.now }
        ensures { result ≡ record_at table.now k }
    {
        let at = k * (4 * N);
        let mut words = [0u32; N];
        for (i, word) in words.iter_mut().enumerate() {
            *word = get_u32(table, at + 4 * i);
        }
        Self::from_words(&words)
    }
}

impl Record<4> for LabelRecord {
    ghost fields = { label_fields };

    ghost record_at = { label_record_at };

    fn to_words(self) -> [u32; 4] {
        [self.start, self.len, self.address, self.line]
    }

    fn from_words(words: &[u32; 4]) -> LabelRecord {
        let [start, len, address, line] = *words;
        LabelRecord {
            start,
            len,
            address,
            line,
        }
    }
}

impl Record<6> for EquateRecord {
    ghost fields = { equate_fields };

    ghost record_at = { equate_record_at };

    fn to_words(self) -> [u32; 6] {
        let value = bits_of_i64(self.value);
        let low = (value % 4294967296) as u32;
        let high = (value / 4294967296) as u32;
        [self.start, self.len, self.line, low, high, self.round]
    }

    fn from_words(words: &[u32; 6]) -> EquateRecord {
        let [start, len, line, low, high, round] = *words;
        EquateRecord {
            start,
            len,
            line,
            value: i64_of_bits(low as u64 + 4294967296 * high as u64),
            round,
        }
    }
}

impl Record<6> for ItemRecord {
    ghost fields = { item_fields };

    ghost record_at = { item_record_at };

    fn to_words(self) -> [u32; 6] {
        [
            self.address,
            self.line,
            self.kind,
            self.first,
            self.start,
            self.len,
        ]
    }

    fn from_words(words: &[u32; 6]) -> ItemRecord {
        let [address, line, kind, first, start, len] = *words;
        ItemRecord {
            address,
            line,
            kind,
            first,
            start,
            len,
        }
    }
}

impl Record<4> for ExprRecord {
    ghost fields = { expr_fields };

    ghost record_at = { expr_record_at };

    fn to_words(self) -> [u32; 4] {
        [self.start, self.len, u32::from(self.one_space), self.place]
    }

    fn from_words(words: &[u32; 4]) -> ExprRecord {
        let [start, len, one_space, place] = *words;
        ExprRecord {
            start,
            len,
            one_space: one_space == 1,
            place,
        }
    }
}

impl Record<4> for LabelWordRecord {
    ghost fields = { label_word_fields };

    ghost record_at = { label_word_record_at };

    fn to_words(self) -> [u32; 4] {
        [self.at, self.start, self.len, self.line]
    }

    fn from_words(words: &[u32; 4]) -> LabelWordRecord {
        let [at, start, len, line] = *words;
        LabelWordRecord {
            at,
            start,
            len,
            line,
        }
    }
}
