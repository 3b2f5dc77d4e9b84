// The row in use with a mark and targets.
ghost use Rattle.std.specs.Prelude.{◌<◌, ◌≡◌, true, length, get_or};
ghost use Rattle.letters.specs.Letters.{letters};
ghost use Rattle.rows.specs.Table.{row_count, in_use};
ghost use Rattle.rows.specs.Rules.{has_twin};
ghost use Rattle.index.specs.Buckets.{key_of, bucket_of, bucket};
ghost use Rattle.index.specs.Index.{Indexed, has, Finds};

use super::builds::{BUCKETS, key_at};
use super::keys::{bucket_of, key_of};
use chains::{behind, last_of};
use letters::LETTERS;
use rows::{mark, target, targets};

// The mark and the targets of a row in use that is looked for, with their key. What is done for each row of a chain is
// inlined: a call would have to lay this out in memory first.
#[derive(Clone, Copy)]
pub struct Wanted<'a> {
    pub mark: u16,
    pub targets: &'a [u16],
    pub key: u16,
    ghost some: { 0 < mark },
    ghost long: { length targets.now ≡ letters },
    ghost keyed: { key ≡ key_of mark (λ x. get_or targets.now x 0) },
}

impl<'a> Wanted<'a> {
    pub fn new(mark: u16, targets: &'a [u16]) -> Wanted<'a>
        requires { (0 < mark) × (length targets.now ≡ letters) }
        ensures mark { result.mark ≡ mark }
        ensures targets { result.targets.now ≡ targets.now }
    {
        Wanted {
            mark,
            targets,
            key: key_of(mark, targets),
        }
    }

    // Has the row this mark and these targets? All of them are compared, without a test for each: so many at once. With
    // `==` on the slices, the worst combine takes more than twice as long.
    #[inline(always)]
    fn same_as(self, t: &[u16], r: usize) -> bool
        requires { r < row_count t.now }
        ensures { result ≡ has t.now r self.entry.mark self.entry.targets.now }
    {
        let mut same = mark(t, r) == self.mark;
        for x in 0..LETTERS {
            same &= target(t, r, x) == self.targets[x];
        }
        same
    }

    // Is it so of a row in use? Most rows that differ have another key.
    #[inline(always)]
    fn is_at(self, t: &[u16], index: &[u16], r: usize) -> bool
        requires { Indexed t.now index.now × (in_use t.now r ≡ true) }
        ensures { result ≡ has t.now r self.entry.mark self.entry.targets.now }
    {
        if key_at(index, r) != self.key {
            return false;
        }
        self.same_as(t, r)
    }
}

// Of row n and those before it in its chain, one that agrees; or 0, as `find` has it.
#[inline(always)]
fn find_from(t: &[u16], index: &[u16], n: usize, wanted: Wanted<'_>) -> usize
    requires { Indexed t.now index.now × (n < row_count t.now) × (0 < n → bucket t.now n ≡ bucket_of wanted.key) }
    ensures { Finds t.now n wanted.entry.mark wanted.entry.targets.now result }
{
    // A while: it goes from row to row of a chain, and nothing is counted.
    let mut r = n;
    while r != 0 {
        if wanted.is_at(t, index, r) {
            return r;
        }
        r = behind(index, BUCKETS, r);
    }
    0
}

// The row in use that is wanted; or 0, the table's own number for no row, and so no Option.
pub fn find(t: &[u16], index: &[u16], wanted: Wanted<'_>) -> usize
    requires { Indexed t.now index.now }
    ensures { Finds t.now (row_count t.now) wanted.entry.mark wanted.entry.targets.now result }
{
    let n = last_of(index, bucket_of(wanted.key));
    find_from(t, index, n, wanted)
}

// Does a row in use below s, which is in use, agree with it?
pub fn has_twin(t: &[u16], index: &[u16], s: usize) -> bool
    requires { Indexed t.now index.now × (in_use t.now s ≡ true) }
    ensures { result ≡ has_twin t.now s }
{
    let n = behind(index, BUCKETS, s);
    let wanted = Wanted {
        mark: mark(t, s),
        targets: targets(t, s),
        key: key_at(index, s),
    };
    find_from(t, index, n, wanted) != 0
}
