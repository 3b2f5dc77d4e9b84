// The height over some targets.
ghost use Rattle.std.specs.Prelude.{ℕ, ◌<◌, ◌≡◌, length, get_or};
ghost use Rattle.letters.specs.Letters.{letters};
ghost use Rattle.rows.specs.Table.{row_count};
ghost use Rattle.rows.specs.Rules.{above};
ghost use Rattle.growing.specs.Rows.{height_over};

use rows::height;

// What a target asks of the height of its row: one more than its own, or 0 for none.
fn above(t: &[u16], n: u16) -> usize
    requires { n < row_count t.now }
    ensures { result ≡ above t.now n }
{
    if n == 0 {
        return 0;
    }
    height(t, n as usize) as usize + 1
}

// "0 if there is no target, else one more than the greatest height among its targets".
pub fn height_over(t: &[u16], targets: &[u16]) -> usize
    requires { (length targets.now ≡ letters) × ((x : ℕ) → x < letters → get_or targets.now x 0 < row_count t.now) }
    ensures { result ≡ height_over t.now targets.now }
{
    let mut top = 0usize;
    for n in targets {
        top = top.max(above(t, *n));
    }
    top
}
