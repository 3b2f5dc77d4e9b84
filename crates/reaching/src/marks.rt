// An array that marks rows.
ghost use Rattle.std.specs.Prelude.{◌≤◌, ◌≡◌, ◌&&◌, length};
ghost use Rattle.letters.specs.LetterSet.{count_of};
ghost use Rattle.rows.specs.Table.{row_count, is_row};
ghost use Rattle.rows.specs.Rules.{is_start, points_at};
ghost use Rattle.rows.specs.Tidy.{Used, Tidy};
ghost use Rattle.reaching.specs.Marks.{MarksMore, marked};

use rows::{MISSIONS, arcs_of, row_count, start};

// Marks the targets of a row.
pub fn mark_targets(t: &[u16], r: usize, keep: &mut [u16])
    requires { Tidy t.now × Used t.now r × (row_count t.now ≤ length keep.old) }
    ensures { MarksMore (λ s. points_at t.now r s) keep.old keep.new }
{
    for (_, n) in arcs_of(t, r) {
        keep[n] = 1;
    }
}

// Marks the starts.
pub fn mark_starts(t: &[u16], keep: &mut [u16])
    requires { Tidy t.now × (row_count t.now ≤ length keep.old) }
    ensures { MarksMore (λ s. is_start t.now s) keep.old keep.new }
{
    for m in 0..MISSIONS {
        keep[start(t, m) as usize] = 1;
    }
}

// How many rows are marked.
pub fn count_marked(t: &[u16], keep: &[u16]) -> usize
    requires { row_count t.now ≤ length keep.now }
    ensures { result ≡ count_of (row_count t.now) (λ r. is_row t.now r && marked keep.now r) }
{
    (1..row_count(t)).filter(|r| keep[*r] != 0).count()
}
