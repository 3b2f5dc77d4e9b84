// The walk of a word, and the arcs of a row.
ghost use Rattle.std.specs.Prelude.{◌+◌, ◌*◌, ◌^◌, ◌<◌, ◌≡◌, true, length};
ghost use Rattle.letters.specs.Letters.{letters};
ghost use Rattle.letters.specs.Words.{word_of};
ghost use Rattle.letters.specs.Names.{spelled};
ghost use Rattle.letters.specs.LetterSet.{flag, sum_of};
ghost use Rattle.rows.specs.Table.{is_row, start, ends};
ghost use Rattle.rows.specs.Walk.{accepts, has_arc};
ghost use Rattle.walking.specs.Ways.{leads_to, way, way_from, walked};

use letters::{LETTERS, is_spelled, letter_of, with_letter};
use rows::{is_row, mark, start, target};

// How far the walk of some bytes gets: the row where it ends, or 0 where it stops, as the table itself says "no row";
// and how many bytes are left there.
#[derive(Clone, Copy)]
struct Way {
    row: usize,
    left: usize,
}

// Where a byte leads from a row: its letter's target, and 0, the table's own number for none, for a byte that is no letter.
fn leads_to(t: &[u16], row: usize, b: u8) -> usize
    requires { is_row t.now row ≡ true }
    ensures { result ≡ leads_to t.now row b }
{
    let x = letter_of(b);
    if x == LETTERS {
        return 0;
    }
    target(t, row, x) as usize
}

// The walk from a row. "Each step goes on with what is left of the word after the letters walked": the tail is handed on
// as a part of the slice, and the loop counts nothing. A loop and no recursion, so that the compiler keeps all of it in
// registers; `split_first` proves as well, and takes three instructions more for each byte.
fn walk_from(t: &[u16], first: usize, word: &[u8]) -> Way
    requires { is_row t.now first ≡ true }
    ensures { result ≡ way t.now word.now first }
{
    let mut row = first;
    let mut left = word;
    while left.len() != 0 {
        let next = leads_to(t, row, left[0]);
        if !is_row(t, next) {
            return Way {
                row: 0,
                left: left.len(),
            };
        }
        row = next;
        left = &left[1..];
    }
    Way { row, left: 0 }
}

// The walk from a mission's start.
fn walk_list(t: &[u16], m: usize, word: &[u8]) -> Way
    requires { m < length t.now }
    ensures { result ≡ way_from t.now word.now (start t.now m) }
{
    let first = start(t, m) as usize;
    if !is_row(t, first) {
        return Way {
            row: 0,
            left: word.len(),
        };
    }
    walk_from(t, first, word)
}

// Where the walk of a word ends, a row or, as in the table, 0 for none, and "the arcs it followed".
#[derive(Clone, Copy)]
pub struct Walked {
    pub row: usize,
    pub followed: usize,
}

// The walk of a word from a mission's start, or None where the bytes are no word: they are not as long as they may be,
// or one of them is no letter. A byte that is no letter stops the walk, so that it is among those that are left; these
// are looked through behind the walk. Whether they are as long as they may be, names and prefixes know apart.
pub fn walk_word(t: &[u16], m: usize, word: &[u8], long: bool) -> Option<Walked>
    requires { m < length t.now }
    ensures { result ≡ walked t.now m word.now long }
{
    if !long {
        return None;
    }
    let way = walk_list(t, m, word);
    let followed = word.len() - way.left;
    if !is_spelled(&word[followed..]) {
        return None;
    }
    Some(Walked {
        row: way.row,
        followed,
    })
}

// May a name end at n?
pub fn ends(t: &[u16], n: usize) -> bool
    ensures { result ≡ ends t.now n }
{
    if !is_row(t, n) {
        return false;
    }
    mark(t, n) == 2
}

// Is the name on the mission's list?
pub fn has_name(t: &[u16], m: usize, name: &[u8]) -> bool
    requires { (m < length t.now) × (spelled name.now ≡ true) }
    ensures { result ≡ accepts t.now (word_of name.now) (start t.now m) }
{
    let way = walk_list(t, m, name);
    ends(t, way.row)
}

// The set of lower letters, with letter x where its target is a row.
fn with_arc(t: &[u16], n: usize, x: usize, set: u64) -> u64
    requires { (is_row t.now n ≡ true) × (x < letters) × (set < 2 ^ x) }
    ensures { result ≡ flag (has_arc t.now n x) * 2 ^ x + set }
{
    if is_row(t, target(t, n, x) as usize) {
        with_letter(set, x)
    } else {
        set
    }
}

// The letters for which n has an arc, as a set.
pub fn letter_set(t: &[u16], n: usize) -> u64
    ensures { result ≡ sum_of letters (λ x. has_arc t.now n x) }
{
    if !is_row(t, n) {
        return 0;
    }
    let mut set = 0u64;
    for x in 0..LETTERS {
        set = with_arc(t, n, x, set);
    }
    set
}
