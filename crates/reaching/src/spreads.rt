// The rows reached from marked ones.
ghost use Rattle.std.specs.Prelude.{suc, ◌≤◌, false};
ghost use Rattle.letters.specs.Names.{longest};
ghost use Rattle.rows.specs.Table.{most_rows, height};
ghost use Rattle.rows.specs.Tidy.{Used, Tidy};
ghost use Rattle.rows.specs.Reach.{reached_from, reached};
ghost use Rattle.chains.specs.Orders.{Ordered};
ghost use Rattle.reaching.specs.Marks.{Marks, Roots, Spreads, turn, roots_of};

use super::marks::{mark_starts, mark_targets};
use chains::{ORDER, last_at, order_rows, row_before};
use letters::LONGEST;

// Marks the targets of the row if it is marked.
fn spread_row(t: &[u16], r: usize, keep: &mut [u16])
    requires { Tidy t.now × Roots t.now keep.old × Used t.now r }
    ensures { Spreads t.now (turn (height t.now r) (suc r)) (turn (height t.now r) r) keep.old keep.new }
{
    if keep[r] == 0 {
        return;
    }
    mark_targets(t, r, keep);
}

// Marks the targets of the marked rows of one height. A while: each row is found from the one after it, not counted.
fn spread_height(t: &[u16], h: usize, order: &[u16], keep: &mut [u16])
    requires { Tidy t.now × Roots t.now keep.old × (h ≤ longest) × Ordered t.now order.now }
    ensures { Spreads t.now (turn h most_rows) (turn h 0) keep.old keep.new }
{
    let mut r = last_at(order, h);
    while r != 0 {
        spread_row(t, r, keep);
        r = row_before(order, r);
    }
}

// Closes a set of marked rows under targets, height by height.
fn spread_heights(t: &[u16], order: &[u16], keep: &mut [u16])
    requires { Tidy t.now × Roots t.now keep.old × Ordered t.now order.now }
    ensures { Marks t.now (λ s. reached_from t.now (roots_of t.now keep.old) s) keep.new }
{
    for h in (1..=LONGEST).rev() {
        spread_height(t, h, order, keep);
    }
}

// Closes a set of marked rows under targets.
fn spread(t: &[u16], keep: &mut [u16])
    requires { Tidy t.now × Roots t.now keep.old }
    ensures { Marks t.now (λ s. reached_from t.now (roots_of t.now keep.old) s) keep.new }
{
    let mut order = [0u16; ORDER];
    order_rows(t, &mut order);
    spread_heights(t, &order, keep);
}

// Marks the rows that are reached from the starts.
pub fn mark_reached(t: &[u16], keep: &mut [u16])
    requires { Tidy t.now × Marks t.now (λ r. false) keep.old }
    ensures { Marks t.now (λ s. reached t.now s) keep.new }
{
    mark_starts(t, keep);
    spread(t, keep);
}
