// The table's length and room, a row's numbers by name, and the rows in use.
ghost use Rattle.std.specs.Prelude.{◌<◌, ◌≡◌, length};
ghost use Rattle.letters.specs.Letters.{letters};
ghost use Rattle.rows.specs.Table.{row_count, length_ok, room, is_row, start, mark, height, target, row_targets, number39, in_use, used_rows};

use letters::LETTERS;

// The numbers of a row.
pub const WIDTH: usize = 40;

// A table has 27 to 1,026 rows.
const LEAST_ROWS: usize = 27;

// Arrays by row have this length, and no Vec: a call works in fixed memory.
pub const MOST_ROWS: usize = 1026;

// The rows that are not room: the head, and the 25 for work during a call.
const NOT_ROOM: usize = 26;

// The missions, whose starts stand in the head.
pub const MISSIONS: usize = 16;

// How many rows the slice has: 01's k.
pub fn row_count(t: &[u16]) -> usize
    ensures { result ≡ row_count t.now }
{
    t.len() / WIDTH
}

// Is the length that of 27 to 1,026 whole rows?
pub fn length_ok(t: &[u16]) -> bool
    ensures { result ≡ length_ok t.now }
{
    if t.len() % WIDTH != 0 {
        return false;
    }
    let k = row_count(t);
    if k < LEAST_ROWS {
        return false;
    }
    k <= MOST_ROWS
}

// How many rows may be in use after a call.
pub fn room(t: &[u16]) -> usize
    ensures { result ≡ room t.now }
{
    let k = row_count(t);
    if k < NOT_ROOM {
        return 0;
    }
    k - NOT_ROOM
}

// Is the number that of a state row?
pub fn is_row(t: &[u16], n: usize) -> bool
    ensures { result ≡ is_row t.now n }
{
    if n == 0 {
        return false;
    }
    n < row_count(t)
}

// "number m, for m from 0 to 15, is the start row of mission m, or 0 if its list is empty".
// A mission is a number and no type: it would be taken apart here at once, and all clauses speak of the number.
pub fn start(t: &[u16], m: usize) -> u16
    requires { m < length t.now }
    ensures { result ≡ start t.now m }
{
    t[m]
}

// "number 0 is the mark (0 free, 1 in use, 2 in use and a name may end here)".
pub fn mark(t: &[u16], r: usize) -> u16
    requires { r < row_count t.now }
    ensures { result ≡ mark t.now r }
{
    t[r * WIDTH]
}

// "Number 1 is the height: the length of the longest word accepted from here."
pub fn height(t: &[u16], r: usize) -> u16
    requires { r < row_count t.now }
    ensures { result ≡ height t.now r }
{
    t[r * WIDTH + 1]
}

// "Number 2+x is the target row for letter x, or 0 for none."
pub fn target(t: &[u16], r: usize, x: usize) -> u16
    requires { (r < row_count t.now) × (x < letters) }
    ensures { result ≡ target t.now r x }
{
    t[r * WIDTH + 2 + x]
}

// The 37 targets of a row, as they stand in the table.
pub fn targets(t: &[u16], r: usize) -> &[u16]
    requires { r < row_count t.now }
    ensures { result.now ≡ row_targets t.now r }
{
    let first = r * WIDTH + 2;
    &t[first..first + LETTERS]
}

// "Number 39 is 0."
pub fn number39(t: &[u16], r: usize) -> u16
    requires { r < row_count t.now }
    ensures { result ≡ number39 t.now r }
{
    t[r * WIDTH + 39]
}

// Is the number that of a row in use?
pub fn in_use(t: &[u16], n: usize) -> bool
    ensures { result ≡ in_use t.now n }
{
    if !is_row(t, n) {
        return false;
    }
    0 < mark(t, n)
}

// How many rows are in use.
pub fn used_rows(t: &[u16]) -> usize
    ensures { result ≡ used_rows t.now }
{
    let mut n = 0;
    for r in 0..row_count(t) {
        if in_use(t, r) {
            n += 1;
        }
    }
    n
}
