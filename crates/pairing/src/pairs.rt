// The row for two rows' words combined.
ghost use Rattle.std.specs.Prelude.{◌<◌, ◌≡◌, length};
ghost use Rattle.model.specs.Rules.{combined};
ghost use Rattle.rows.specs.Table.{most_rows, row_count};
ghost use Rattle.rows.specs.Words.{words};
ghost use Rattle.rows.specs.Tidy.{Used};
ghost use Rattle.index.specs.Index.{Indexed};
ghost use Rattle.growing.specs.Growing.{Makes};
ghost use Rattle.pairing.specs.Pairs.{pair_mark, Pair, Both, Wide, known, Results, Ready, Combines};

use super::choices::{at_once, chosen};
use super::settled::{entry, keep};
use growing::{Full, end_mark, make};
use letters::LETTERS;
use rows::{MOST_ROWS, mark, row_count, target};

// The mark of the row for the pair: a name may end there if the operation chooses the empty word.
fn pair_mark(t: &[u16], op: u32, p: usize, q: usize) -> u16
    requires { Used t.now p × Used t.now q }
    ensures { result ≡ pair_mark t.now op p q }
{
    end_mark(chosen(op, mark(t, p) == 2, mark(t, q) == 2))
}

// Makes the row of the pair, whose targets are there, and keeps it.
fn settle_pair(
    t: &mut [u16],
    index: &mut [u16],
    seen: &mut [[u16; MOST_ROWS]],
    op: u32,
    p: u16,
    q: u16,
    targets: [u16; LETTERS],
) -> Result<u16, Full>
    requires { Ready t.old seen.old op p q targets × Indexed t.old index.old }
    ensures combines { Combines 1 t.old t.new seen.new op p q result }
    ensures indexed { Indexed t.new index.new }
{
    let mark = pair_mark(t, op, p as usize, q as usize);
    let r = make(t, index, mark, targets)?;
    keep(seen, p, q, r);
    Ok(r)
}

// The row of the pair, if it is settled.
fn known(seen: &[[u16; MOST_ROWS]], op: u32, p: u16, q: u16) -> Option<u16>
    requires { Wide seen.now × (p < length seen.now) × (p < most_rows) × (q < most_rows) }
    ensures { result ≡ known seen.now op p q }
{
    if p == q || p == 0 || q == 0 {
        return Some(at_once(op, p, q));
    }
    entry(seen, p, q).checked_sub(1)
}

// The row of a pair of rows in use that is not settled yet: the pairs of the targets first, letter by letter. The greater
// height of the two falls, as every target is lower than its row.
fn new_pair(
    t: &mut [u16],
    index: &mut [u16],
    seen: &mut [[u16; MOST_ROWS]],
    op: u32,
    p: u16,
    q: u16,
) -> Result<u16, Full>
    requires { Both t.old p q × Results op t.old seen.old × Indexed t.old index.old }
    ensures combines { Combines (row_count t.old) t.old t.new seen.new op p q result }
    ensures indexed { Indexed t.new index.new }
{
    let mut targets = [0u16; LETTERS];
    for x in 0..LETTERS {
        let n = target(t, p as usize, x);
        let k = target(t, q as usize, x);
        targets[x] = match known(seen, op, n, k) {
            Some(r) => r,
            None => new_pair(t, index, seen, op, n, k)?,
        };
    }
    settle_pair(t, index, seen, op, p, q, targets)
}

// The row of a pair. new_pair asks `known` itself: most pairs of targets are settled, and cost no call. Not inlined: so the
// two tables of pairs of combine_rows share their place on the stack.
#[inline(never)]
fn pair(
    t: &mut [u16],
    index: &mut [u16],
    seen: &mut [[u16; MOST_ROWS]],
    op: u32,
    p: u16,
    q: u16,
) -> Result<u16, Full>
    requires { Pair t.old p q × Results op t.old seen.old × Indexed t.old index.old }
    ensures combines { Combines (row_count t.old) t.old t.new seen.new op p q result }
    ensures indexed { Indexed t.new index.new }
{
    match known(seen, op, p, q) {
        Some(r) => Ok(r),
        None => new_pair(t, index, seen, op, p, q),
    }
}

// A book of so few rows has a table of pairs of its own, since all of the table is cleared first.
const FEW_ROWS: usize = 128;

// No pair is settled at first.
pub fn combine_rows(t: &mut [u16], index: &mut [u16], op: u32, p: u16, q: u16) -> Result<u16, Full>
    requires { Pair t.old p q × Indexed t.old index.old }
    ensures makes { Makes (row_count t.old) t.old t.new (combined op (words t.old p) (words t.old q)) result }
    ensures indexed { Indexed t.new index.new }
{
    if row_count(t) <= FEW_ROWS {
        let mut seen = [[0u16; MOST_ROWS]; FEW_ROWS];
        return pair(t, index, &mut seen, op, p, q);
    }
    let mut seen = [[0u16; MOST_ROWS]; MOST_ROWS];
    pair(t, index, &mut seen, op, p, q)
}
