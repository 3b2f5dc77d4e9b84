// A free row comes into use.
ghost use Rattle.std.specs.Prelude.{◌<◌, ◌≡◌, length, get_or};
ghost use Rattle.letters.specs.Letters.{letters};
ghost use Rattle.index.specs.Buckets.{buckets};
ghost use Rattle.index.specs.Index.{index_length, Indexed, SomeChains, Gaps, Entering};

use super::builds::{ARCS, BUCKETS, keep_key};
use super::keys::{bucket_of, key_of};
use chains::last_of;
use rows::{arcs_of, mark, targets};

// The last free row, or 0: the array's own number for no row, and so no Option.
pub fn free_row(index: &[u16]) -> usize
    requires { length index.now ≡ index_length }
    ensures { result ≡ get_or index.now 0 0 }
{
    last_of(index, 0)
}

// The place in the array where row r comes into the chain of a bucket: the numbers in a chain fall.
fn gap(index: &[u16], b: usize, r: usize) -> usize
    requires { (b < buckets) × SomeChains index.now }
    ensures { Gaps index.now b r result }
{
    // A while: it goes from row to row of a chain, and nothing is counted.
    let mut place = b;
    while r < last_of(index, place) {
        place = BUCKETS + last_of(index, place);
    }
    place
}

// Counts the arcs of row r.
fn enter_arcs(t: &[u16], index: &mut [u16], r: usize)
    requires { Entering t.now r 0 index.old }
    ensures { Entering t.now r letters index.new }
{
    for (_, n) in arcs_of(t, r) {
        index[ARCS + n] += 1;
    }
}

// Row r was the last free one, and is written now: its arcs are counted, and it comes into the chain of its bucket.
pub fn enter(t: &[u16], index: &mut [u16], r: usize)
    requires { Entering t.now r 0 index.old }
    ensures { Indexed t.now index.new }
{
    enter_arcs(t, index, r);
    let key = key_of(mark(t, r), targets(t, r));
    let place = gap(index, bucket_of(key), r);
    index[0] = index[BUCKETS + r];
    index[BUCKETS + r] = index[place];
    index[place] = r as u16;
    keep_key(index, r, key);
}
