// The table of settled pairs. A number of it is one more than the row of the pair, or 0, of which the table is made,
// where the pair is not settled yet: "settled, no words" is 1.
ghost use Rattle.std.specs.Prelude.{◌<◌, ◌≡◌, length};
ghost use Rattle.rows.specs.Table.{most_rows};
ghost use Rattle.pairing.specs.Pairs.{Wide, entry, kept};

use rows::MOST_ROWS;

pub fn entry(seen: &[[u16; MOST_ROWS]], p: u16, q: u16) -> u16
    requires { Wide seen.now × (p < length seen.now) × (q < most_rows) }
    ensures { result ≡ entry seen.now p q }
{
    seen[p as usize][q as usize]
}

pub fn keep(seen: &mut [[u16; MOST_ROWS]], p: u16, q: u16, r: u16)
    requires { Wide seen.old × (p < length seen.old) × (q < most_rows) × (r < most_rows) }
    ensures { seen.new ≡ kept seen.old p q r }
{
    seen[p as usize][q as usize] = r + 1;
}
