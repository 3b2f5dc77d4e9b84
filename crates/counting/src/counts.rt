// The number of words from each row that is reached.
ghost use Rattle.std.specs.Prelude.{◌≤◌, ◌<◌, ◌≡◌, length, replicate};
ghost use Rattle.letters.specs.Letters.{letters};
ghost use Rattle.letters.specs.LetterSet.{flag};
ghost use Rattle.sets.specs.Cut.{cut};
ghost use Rattle.model.specs.Lists.{missions};
ghost use Rattle.rows.specs.Table.{row_count, most_rows, start, target, ends};
ghost use Rattle.rows.specs.Words.{words, names};
ghost use Rattle.rows.specs.Tidy.{Used, Named, Tidy};
ghost use Rattle.counting.specs.Ahead.{ahead_by};
ghost use Rattle.counting.specs.Counts.{count_at, Counts, Counted, CountsMore};

use rows::{arcs_of, start, target};
use walking::ends;

// "the list has over 60,000 names": a greater number of words is kept as one more than this.
pub const MOST_NAMES: u16 = 60000;

// The array's number for a row.
pub fn count_at(counts: &[u16], n: usize) -> u16
    requires { n < length counts.now }
    ensures { result ≡ count_at counts.now n }
{
    counts[n]
}

// The array's number for a row's target.
pub fn target_count(t: &[u16], r: usize, x: usize, counts: &[u16]) -> u32
    requires { Tidy t.now × Used t.now r × (x < letters) × (row_count t.now ≤ length counts.now) }
    ensures { result ≡ count_at counts.now (target t.now r x) }
{
    let n = target(t, r, x) as usize;
    count_at(counts, n) as u32
}

// 1 if a name may end at the row, else 0.
fn ends_count(t: &[u16], r: usize) -> u32
    ensures { result ≡ flag (ends t.now r) }
{
    u32::from(ends(t, r))
}

// How many words of the row stand before those that begin with letter x, by the array. A letter without
// a target adds the array's number for 0, which is 0, and so is skipped.
pub fn words_ahead(t: &[u16], r: usize, x: usize, counts: &[u16]) -> u32
    requires { Tidy t.now × Used t.now r × (x ≤ letters) × (row_count t.now ≤ length counts.now) × (count_at counts.now 0 ≡ 0) }
    ensures { result ≡ ahead_by (λ s. count_at counts.now s) t.now r x }
{
    let mut n = ends_count(t, r);
    for (y, s) in arcs_of(t, r) {
        if x <= y {
            break;
        }
        n += count_at(counts, s) as u32;
    }
    n
}

// A number of words, cut.
fn cut(n: u32) -> u16
    ensures { result ≡ cut n }
{
    n.min(MOST_NAMES as u32 + 1) as u16
}

// How many words there are from n, cut; counts n, and so every row that is reached from it. Each row
// is counted once: a row in use has a word, so 0, of which the array is made, says that it is not counted yet. Not one
// function with `size_from` of listing: what a row has of its own, the widths and the cut would be three closures.
fn count_from(t: &[u16], n: usize, counts: &mut [u16]) -> u16
    requires { Counts t.now counts.old × Named t.now n }
    ensures counted { CountsMore t.now n counts.old counts.new }
    ensures number { result ≡ cut (length (words t.now n)) }
{
    if n == 0 {
        return 0;
    }
    let known = counts[n];
    if known != 0 {
        return known;
    }
    let mut sum = ends_count(t, n);
    for (_, s) in arcs_of(t, n) {
        sum += count_from(t, s, counts) as u32;
    }
    let all = cut(sum);
    counts[n] = all;
    all
}

// Counts the rows that are reached from the mission's start, in an array of zeros, and says how many
// names the mission's list has, cut.
pub fn count_names(t: &[u16], m: usize, counts: &mut [u16]) -> u16
    requires { Tidy t.now × (m < missions) × (counts.old ≡ replicate most_rows 0) }
    ensures counted { Counts t.now counts.new × Counted t.now counts.new (start t.now m) }
    ensures number { result ≡ cut (length (names t.now m)) }
{
    let r = start(t, m) as usize;
    count_from(t, r, counts)
}
