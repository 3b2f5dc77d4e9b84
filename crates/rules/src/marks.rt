// Rule 2: "Each mark is 0, 1 or 2, and a free row is forty zeros."
ghost use Rattle.std.specs.Prelude.{◌<◌, ◌≡◌};
ghost use Rattle.rows.specs.Table.{row_count};
ghost use Rattle.rows.specs.Rules.{is_zeros, mark_ok, rule2};

use rows::{WIDTH, mark, past_zeros, row_count};

fn is_zeros(t: &[u16], r: usize) -> bool
    requires { r < row_count t.now }
    ensures { result ≡ is_zeros t.now r }
{
    let end = r * WIDTH + WIDTH;
    past_zeros(t, r * WIDTH, end) == end
}

fn mark_ok(t: &[u16], r: usize) -> bool
    requires { r < row_count t.now }
    ensures { result ≡ mark_ok t.now r }
{
    let m = mark(t, r);
    if 2 < m {
        return false;
    }
    if m != 0 {
        return true;
    }
    is_zeros(t, r)
}

pub fn rule2(t: &[u16]) -> bool
    ensures { result ≡ rule2 t.now }
{
    (1..row_count(t)).all(|r| mark_ok(t, r))
}
