// Rule 5: "Each row in use is a start or the target of a row in use." The array says how
// many arcs lead to each row.
ghost use Rattle.std.specs.Prelude.{◌≤◌, ◌≡◌, length};
ghost use Rattle.rows.specs.Table.{width};
ghost use Rattle.rows.specs.Rules.{if_used, is_start, is_pointed, rule5};
ghost use Rattle.rules.specs.Counted.{ArcsCounted};

use rows::{MISSIONS, in_use, row_count, start};

fn is_start(t: &[u16], r: usize) -> bool
    requires { width ≤ length t.now }
    ensures { result ≡ is_start t.now r }
{
    (0..MISSIONS).any(|m| start(t, m) as usize == r)
}

// One row: a free one passes.
fn is_pointed(t: &[u16], r: usize, arcs: &[u16]) -> bool
    requires { ArcsCounted t.now arcs.now }
    ensures { result ≡ if_used t.now r (is_pointed t.now r) }
{
    if !in_use(t, r) {
        return true;
    }
    if arcs[r] != 0 {
        return true;
    }
    is_start(t, r)
}

pub fn rule5(t: &[u16], arcs: &[u16]) -> bool
    requires { ArcsCounted t.now arcs.now }
    ensures { result ≡ rule5 t.now }
{
    (1..row_count(t)).all(|r| is_pointed(t, r, arcs))
}
