// Rule 3: "In a row in use every target is 0 or a row in use; the height is 0 if there is no target,
// else one more than the greatest height among its targets, and at most 24; number 39 is 0." Where
// it holds, an array says how many arcs lead to each row, and the index has the key of each row in use.
ghost use Rattle.std.specs.Prelude.{suc, ◌*◌, ◌≤◌, ◌<◌, ◌≡◌, ◌&&◌, eqb, length, get_or};
ghost use Rattle.letters.specs.Letters.{letters};
ghost use Rattle.letters.specs.LetterSet.{flag};
ghost use Rattle.rows.specs.Table.{row_count, most_rows, in_use};
ghost use Rattle.rows.specs.Rules.{if_used, arcs_ok, rule3};
ghost use Rattle.rules.specs.Demands.{demands};
ghost use Rattle.index.specs.Arcs.{arcs_from, arcs_of, arcs_to, Adds, Few};
ghost use Rattle.index.specs.Index.{Keyed};
ghost use Rattle.rules.specs.Counted.{KeyedIf, Tested};

use index::{keep_key, key_from, mixed, mixed_mark};
use letters::LONGEST;
use rows::{arcs_of, height, in_use, mark, number39, row_count};

// What the target demands of the height of its row, or None if it is neither 0 nor a row in use; an
// arc to a row in use is counted.
fn follow(t: &[u16], n: usize, arcs: &mut [u16]) -> Option<usize>
    requires { (row_count t.now ≤ length arcs.old) × (0 < n → get_or arcs.old n 0 < most_rows * letters) }
    ensures asked { result ≡ demands t.now n }
    ensures counted { Adds (λ s. flag (in_use t.now n && eqb n s)) arcs.old arcs.new }
{
    if n == 0 {
        return Some(0);
    }
    if !in_use(t, n) {
        return None;
    }
    arcs[n] += 1;
    Some(height(t, n) as usize + 1)
}

// One row in use.
fn arcs_ok(t: &[u16], r: usize, arcs: &mut [u16], index: &mut [u16]) -> bool
    requires { (r < row_count t.now) × (row_count t.now ≤ length arcs.old) × (row_count t.now ≤ most_rows) × Keyed t.now r index.old × Few (r * letters) arcs.old }
    ensures tested { Tested (arcs_ok t.now r) (λ s. arcs_from t.now r letters s) arcs.old arcs.new result }
    ensures keyed { KeyedIf result t.now (suc r) index.new }
{
    let mut top = 0;
    let mut m = mixed_mark(mark(t, r));
    for (x, n) in arcs_of(t, r) {
        let Some(h) = follow(t, n, arcs) else {
            return false;
        };
        top = top.max(h);
        m = mixed(m, x, n as u16);
    }
    if height(t, r) as usize != top {
        return false;
    }
    if LONGEST < top {
        return false;
    }
    keep_key(index, r, key_from(m));
    number39(t, r) == 0
}

// One row: a free one passes.
fn row_ok(t: &[u16], r: usize, arcs: &mut [u16], index: &mut [u16]) -> bool
    requires { (row_count t.now ≤ length arcs.old) × (row_count t.now ≤ most_rows) × Keyed t.now r index.old × Few (r * letters) arcs.old }
    ensures tested { Tested (if_used t.now r (arcs_ok t.now r)) (λ s. arcs_of t.now r s) arcs.old arcs.new result }
    ensures keyed { KeyedIf result t.now (suc r) index.new }
{
    if !in_use(t, r) {
        return true;
    }
    arcs_ok(t, r, arcs, index)
}

pub fn rule3(t: &[u16], arcs: &mut [u16], index: &mut [u16]) -> bool
    requires { (row_count t.now ≤ length arcs.old) × (row_count t.now ≤ most_rows) × Keyed t.now 0 index.old × Few 0 arcs.old }
    ensures tested { Tested (rule3 t.now) (λ s. arcs_to t.now s) arcs.old arcs.new result }
    ensures keyed { KeyedIf result t.now (row_count t.now) index.new }
{
    for r in 1..row_count(t) {
        if !row_ok(t, r, arcs, index) {
            return false;
        }
    }
    true
}
