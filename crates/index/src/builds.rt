// Building the index: the keys first, row by row, and then the chains.
ghost use Rattle.std.specs.Prelude.{◌≤◌, ◌<◌, ◌≡◌, length, get_or, set};
ghost use Rattle.rows.specs.Table.{row_count, most_rows};
ghost use Rattle.index.specs.Buckets.{bucket};
ghost use Rattle.index.specs.Index.{index_length, key_place, Keeps, Keys, Keyed, Takes, ArcsAt, Indexed};

use super::keys::bucket_of;
use chains::link;
use rows::{MOST_ROWS, mark, row_count};

// The buckets, and that of the free rows.
pub const BUCKETS: usize = 1025;

// Where the keys begin.
const KEYS: usize = BUCKETS + MOST_ROWS;

// Where the numbers of arcs begin.
pub const ARCS: usize = KEYS + MOST_ROWS;

// The numbers of an index.
pub const INDEX: usize = ARCS + MOST_ROWS;

// The key of a row.
pub fn key_at(index: &[u16], r: usize) -> u16
    requires { (r < most_rows) × (length index.now ≡ index_length) }
    ensures { result ≡ get_or index.now (key_place r) 0 }
{
    index[KEYS + r]
}

// Keeps the key of a row.
pub fn keep_key(index: &mut [u16], r: usize, key: u16)
    requires { (r < most_rows) × (length index.old ≡ index_length) }
    ensures { index.new ≡ set index.old (key_place r) key }
{
    index[KEYS + r] = key;
}

// Keeps how many arcs lead to each row before n.
pub fn keep_arcs(arcs: &[u16], n: usize, index: &mut [u16])
    requires { (n ≤ length arcs.now) × (n ≤ most_rows) × (length index.old ≡ index_length) }
    ensures { Keeps arcs.now n index.old index.new }
{
    index[ARCS..ARCS + n].copy_from_slice(&arcs[..n]);
}

// Takes them out.
pub fn take_arcs(index: &[u16], n: usize, arcs: &mut [u16])
    requires { (n ≤ length arcs.old) × (n ≤ most_rows) × (length index.now ≡ index_length) }
    ensures { Takes index.now n arcs.new }
{
    arcs[..n].copy_from_slice(&index[ARCS..ARCS + n]);
}

// The bucket of a row, by its key in the index.
fn bucket_at(t: &[u16], index: &[u16], r: usize) -> usize
    requires { (0 < r) × (r < row_count t.now) × (row_count t.now ≤ most_rows) × Keys t.now (row_count t.now) index.now }
    ensures { result ≡ bucket t.now r }
{
    if mark(t, r) == 0 {
        return 0;
    }
    bucket_of(key_at(index, r))
}

// Chains all rows. The keys are there, and the numbers of arcs.
pub fn index_rows(t: &[u16], index: &mut [u16])
    requires { (0 < row_count t.now) × (row_count t.now ≤ most_rows) × Keyed t.now (row_count t.now) index.old × ArcsAt t.now index.old }
    ensures { Indexed t.now index.new }
{
    for r in 1..row_count(t) {
        let b = bucket_at(t, index, r);
        link(index, BUCKETS, b, r);
    }
}
