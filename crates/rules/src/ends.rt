// Rule 4: "A row with mark 1 has a target." Where rule 3 holds, it has one exactly if its height is
// not 0, so no cell is read again.
ghost use Rattle.std.specs.Prelude.{◌≡◌, true};
ghost use Rattle.rows.specs.Rules.{if_used, end_ok, rule3, rule4};

use rows::{height, in_use, mark, row_count};

// One row: a free one passes.
fn end_ok(t: &[u16], r: usize) -> bool
    requires { rule3 t.now ≡ true }
    ensures { result ≡ if_used t.now r (end_ok t.now r) }
{
    if !in_use(t, r) {
        return true;
    }
    if mark(t, r) != 1 {
        return true;
    }
    0 < height(t, r)
}

pub fn rule4(t: &[u16]) -> bool
    requires { rule3 t.now ≡ true }
    ensures { result ≡ rule4 t.now }
{
    (1..row_count(t)).all(|r| end_ok(t, r))
}
