// Freeing the rows that no start reaches. "Free rows count again".
ghost use Rattle.std.specs.Prelude.{◌*◌, ◌≤◌, ◌≡◌, true, not, ◌||◌, eqb, length};
ghost use Rattle.rows.specs.Table.{width, row_count, is_row};
ghost use Rattle.rows.specs.Tidy.{Named, Tidy};
ghost use Rattle.rows.specs.Reach.{only_rows, swept};
ghost use Rattle.index.specs.Index.{index_length, ArcsAt};
ghost use Rattle.reaching.specs.Marks.{marked};
ghost use Rattle.reaching.specs.Leads.{ReachedWith};
ghost use Rattle.settling.specs.Settled.{SweptIf};

use index::take_arcs;
use reaching::{count_marked, mark_reached, mark_without};
use rows::{MOST_ROWS, WIDTH, room, row_count};

// "a free row is forty zeros".
fn free_row(t: &mut [u16], r: usize)
    requires { is_row t.old r ≡ true }
    ensures { t.new ≡ only_rows t.old (λ s. not (eqb s r)) }
{
    let first = r * WIDTH;
    t[first..first + WIDTH].fill(0);
}

// Frees the row if it is not marked.
fn sweep_row(t: &mut [u16], r: usize, keep: &[u16])
    requires { (is_row t.old r ≡ true) × (row_count t.old ≤ length keep.now) }
    ensures { t.new ≡ only_rows t.old (λ s. not (eqb s r) || marked keep.now s) }
{
    if keep[r] != 0 {
        return;
    }
    free_row(t, r);
}

// Frees the state rows that are not marked.
fn sweep_rows(t: &mut [u16], keep: &[u16])
    requires { (length t.old ≡ row_count t.old * width) × (row_count t.old ≤ length keep.now) }
    ensures { t.new ≡ only_rows t.old (λ r. marked keep.now r) }
{
    for r in 1..row_count(t) {
        sweep_row(t, r, keep);
    }
}

pub fn sweep(t: &mut [u16])
    requires { Tidy t.old }
    ensures { t.new ≡ swept t.old }
{
    let mut keep = [0u16; MOST_ROWS];
    mark_reached(t, &mut keep);
    sweep_rows(t, &keep);
}

// Frees the rows that are not reached, if those that are fit into the room; says whether they do. Every row in use
// is reached from the starts or from one row more, and the index knows the arcs that lead to each row.
pub fn sweep_if_fits(t: &mut [u16], index: &[u16], more: u16) -> bool
    requires { Tidy t.old × Named t.old more × ReachedWith t.old more × (length index.now ≡ index_length) × ArcsAt t.old index.now }
    ensures { SweptIf t.old t.new result }
{
    let mut keep = [0u16; MOST_ROWS];
    take_arcs(index, row_count(t), &mut keep);
    mark_without(t, more, &mut keep);
    if room(t) < count_marked(t, &keep) {
        return false;
    }
    sweep_rows(t, &keep);
    true
}
