// An index over names: chains of the names whose hashes fall into one bucket. The first entries are the buckets', those behind them the
// names', each the one before it in its bucket; an entry is a name's number plus 1, and 0 ends a chain.
ghost use Rattle.std.specs.Prelude.{◌≡◌, ◌+◌, ◌≤◌, ◌<◌, length, drop};
ghost use Rattle.layout.specs.Code.Index.{buckets, mixed, bucket_of, inserted};

pub const BUCKETS: usize = 1024;

// An odd number near 2^32 divided by the golden ratio: bytes that are near to each other go far apart.
const MIX: usize = 2654435761;

const WORD: usize = 4294967296;

// A name's bucket, by its bytes two at a time: each multiplication waits for the one before it.
pub fn bucket_of(name: &[u8]) -> usize
    ensures { result ≡ bucket_of name.now }
{
    let (pairs, last) = name.as_chunks::<2>();
    let mut h: usize = 0;
    for &pair in pairs {
        h = (h * MIX + u16::from_le_bytes(pair) as usize) % WORD;
    }
    if let Some(&b) = last.first() {
        h = (h * MIX + b as usize) % WORD;
    }
    h * MIX % WORD / 4194304
}

// The name of the next number goes to the front of its bucket's chain.
pub fn insert(index: &mut [u16], count: usize, bucket: usize)
    requires { (bucket < buckets) × (buckets + count < length index.old) × (count < 65535) }
    ensures { index.new ≡ inserted count bucket index.old }
{
    index[BUCKETS + count] = index[bucket];
    index[bucket] = (count + 1) as u16;
}
