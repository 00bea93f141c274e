// The limits of a layout, the bytes of a record, and how much may be laid out.
ghost use Rattle.std.specs.Prelude.{◌≡◌};
ghost use Rattle.layout.specs.Limits.{room_of};

pub const BASE_LIMIT: u32 = 0xFF000000;

pub const TEXT_LIMIT: usize = 65536;

pub const WORD_LIMIT: usize = 16384;

pub const DATA_LIMIT: usize = 65536;

pub const BSS_LIMIT: usize = 1048576;

pub const LABEL_LIMIT: usize = 1024;

pub const EQUATE_LIMIT: usize = 256;

pub const LABEL_WORD_LIMIT: usize = 1024;

pub const ITEM_LIMIT: usize = 2048;

pub const LABEL_SIZE: usize = 16;

pub const EQUATE_SIZE: usize = 24;

pub const ITEM_SIZE: usize = 24;

// The layout's own records: an equate's expression, a label word.
pub const EXPR_SIZE: usize = 16;

pub const LABEL_WORD_SIZE: usize = 16;

// How much may be laid out: each limit met with what is lent.
#[derive(Clone, Copy)]
pub struct Room {
    pub words: usize,
    pub bytes: usize,
    pub labels: usize,
    pub equates: usize,
    pub items: usize,
}

impl Room {
    // So many words are lent, and so many bytes for the data and each kind of record.
    pub fn of(words: usize, bytes: usize, labels: usize, equates: usize, items: usize) -> Room
        ensures { result ≡ room_of (record {
          words = words;
          data_bytes = bytes;
          label_bytes = labels;
          equate_bytes = equates;
          item_bytes = items;
        }) }
    {
        Room {
            words: WORD_LIMIT.min(words),
            bytes: DATA_LIMIT.min(bytes),
            labels: LABEL_LIMIT.min(labels / LABEL_SIZE),
            equates: EQUATE_LIMIT.min(equates / EQUATE_SIZE),
            items: ITEM_LIMIT.min(items / ITEM_SIZE),
        }
    }
}
