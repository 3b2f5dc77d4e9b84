// The rows in order of their heights.
ghost use Rattle.std.specs.Prelude.{suc, ◌+◌, ◌≤◌, ◌<◌, ◌≡◌, length, get_or, replicate};
ghost use Rattle.letters.specs.Names.{longest};
ghost use Rattle.rows.specs.Table.{most_rows};
ghost use Rattle.rows.specs.Tidy.{Tidy};
ghost use Rattle.chains.specs.Orders.{level, levels, Ordered};

use super::links::{behind, last_of, link};
use rows::{MOST_ROWS, height, in_use, row_count};

// Heights from 0 to the length of the longest name, and before them a kind for the free rows.
const LEVELS: usize = 26;

// The numbers of an array that orders rows.
pub const ORDER: usize = LEVELS + MOST_ROWS;

// The kind of a row: 0 if it is free, else one above its height.
fn level(t: &[u16], r: usize) -> usize
    ensures { result ≡ level t.now r }
{
    if !in_use(t, r) {
        return 0;
    }
    height(t, r) as usize + 1
}

// Orders the rows in an array of zeros.
pub fn order_rows(t: &[u16], order: &mut [u16])
    requires { Tidy t.now × (order.old ≡ replicate (levels + most_rows) 0) }
    ensures { Ordered t.now order.new }
{
    for r in 1..row_count(t) {
        link(order, LEVELS, level(t, r), r);
    }
}

// The last row of a height, or 0: the array's own number, and so no Option.
pub fn last_at(order: &[u16], h: usize) -> usize
    requires { (h ≤ longest) × (levels + most_rows ≤ length order.now) }
    ensures { result ≡ get_or order.now (suc h) 0 }
{
    last_of(order, h + 1)
}

// The row before r of r's height, or 0, likewise.
pub fn row_before(order: &[u16], r: usize) -> usize
    requires { (r < most_rows) × (levels + most_rows ≤ length order.now) }
    ensures { result ≡ get_or order.now (levels + r) 0 }
{
    behind(order, LEVELS, r)
}
