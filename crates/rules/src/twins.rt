// Rule 6: "No two rows in use agree in mark and all 37 targets." The index says where to look.
ghost use Rattle.std.specs.Prelude.{◌≡◌, not};
ghost use Rattle.rows.specs.Rules.{if_used, has_twin, rule6};
ghost use Rattle.index.specs.Index.{Indexed};

use index::has_twin;
use rows::{in_use, row_count};

// One row: a free one passes.
fn no_twin(t: &[u16], s: usize, index: &[u16]) -> bool
    requires { Indexed t.now index.now }
    ensures { result ≡ if_used t.now s (not (has_twin t.now s)) }
{
    if !in_use(t, s) {
        return true;
    }
    !has_twin(t, index, s)
}

pub fn rule6(t: &[u16], index: &[u16]) -> bool
    requires { Indexed t.now index.now }
    ensures { result ≡ rule6 t.now }
{
    (1..row_count(t)).all(|s| no_twin(t, s, index))
}
