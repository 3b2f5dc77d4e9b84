// Rule 1: "Each start is 0 or a row with mark 1; the rest of the head is 0."
ghost use Rattle.std.specs.Prelude.{◌≤◌, ◌≡◌, length};
ghost use Rattle.rows.specs.Table.{width};
ghost use Rattle.rows.specs.Rules.{start_ok, starts_ok, rest_ok, rule1};

use rows::{MISSIONS, WIDTH, is_row, mark, past_zeros, start};

// Is the number 0 or that of a row with mark 1?
fn start_ok(t: &[u16], n: usize) -> bool
    ensures { result ≡ start_ok t.now n }
{
    if n == 0 {
        return true;
    }
    if !is_row(t, n) {
        return false;
    }
    mark(t, n) == 1
}

fn starts_ok(t: &[u16]) -> bool
    requires { width ≤ length t.now }
    ensures { result ≡ starts_ok t.now }
{
    (0..MISSIONS).all(|m| start_ok(t, start(t, m) as usize))
}

// Are the numbers of the head behind the starts 0?
fn rest_ok(t: &[u16]) -> bool
    requires { width ≤ length t.now }
    ensures { result ≡ rest_ok t.now }
{
    past_zeros(t, MISSIONS, WIDTH) == WIDTH
}

#[tactic(auto, unfolding(rows::specs::Rules::rule1))]
pub fn rule1(t: &[u16]) -> bool
    requires { width ≤ length t.now }
    ensures { result ≡ rule1 t.now }
{
    if !starts_ok(t) {
        return false;
    }
    rest_ok(t)
}
