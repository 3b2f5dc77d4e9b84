// The word with n words before it, written to the front of a buffer.
ghost use Rattle.std.specs.Prelude.{◌-◌, ◌≤◌, ◌<◌, ◌≡◌, ◌&&◌, eqb, length};
ghost use Rattle.letters.specs.Words.{bytes_of};
ghost use Rattle.letters.specs.Names.{longest};
ghost use Rattle.letters.specs.LetterSet.{flag};
ghost use Rattle.model.specs.Lists.{nth_of};
ghost use Rattle.model.specs.Call.{overlaid};
ghost use Rattle.rows.specs.Table.{ends};
ghost use Rattle.rows.specs.Words.{words};
ghost use Rattle.listing.specs.Steps.{Listable, Leads};

use counting::target_count;
use letters::{byte_of, first_letter, without_letter};
use rows::target;
use walking::{ends, letter_set};

// A letter, and how many words from its target stand before the word.
#[derive(Clone, Copy)]
pub struct Step {
    pub letter: usize,
    pub left: u32,
}

// Does the word with n words before it end at the row?
fn is_here(t: &[u16], r: usize, n: u32) -> bool
    ensures { result ≡ (ends t.now r && eqb n 0) }
{
    ends(t, r) && n == 0
}

// The words behind the empty one, of those that stand before the word.
fn longer(t: &[u16], r: usize, n: u32) -> u32
    requires { flag (ends t.now r) ≤ n }
    ensures { result ≡ n - flag (ends t.now r) }
{
    if ends(t, r) { n - 1 } else { n }
}

// The way on to the word with n words before it: through the arcs by the letter set, past those whose
// words all stand before it.
fn step_to(t: &[u16], r: usize, n: u32, counts: &[u16]) -> Step
    requires { Listable t.now counts.now r × (flag (ends t.now r) ≤ n) × (n < length (words t.now r)) }
    ensures { Leads t.now r n result }
{
    let mut left = longer(t, r, n);
    // A while: the next letter is the first of those left in the set, found by its bit, and not counted.
    let mut set = letter_set(t, r);
    let mut x = first_letter(set) as usize;
    let mut here = target_count(t, r, x, counts);
    while here <= left {
        left -= here;
        set = without_letter(set, x);
        x = first_letter(set) as usize;
        here = target_count(t, r, x, counts);
    }
    Step { letter: x, left }
}

// Writes the word of the row with n words before it to the front of the buffer, and says how long it
// is.
pub fn write_word(t: &[u16], r: usize, n: u32, counts: &[u16], out: &mut [u8]) -> usize
    requires { Listable t.now counts.now r × (n < length (words t.now r)) × (longest ≤ length out.old) }
    ensures long { result ≡ length (nth_of n (words t.now r)) }
    ensures buffer { out.new ≡ overlaid (bytes_of (nth_of n (words t.now r))) out.old }
{
    let mut row = r;
    let mut left = n;
    // A while: a loop over the bytes of the buffer would have two ends, since a word may fill the buffer.
    let mut i = 0;
    while !is_here(t, row, left) {
        let s = step_to(t, row, left, counts);
        out[i] = byte_of(s.letter);
        row = target(t, row, s.letter) as usize;
        left = s.left;
        i += 1;
    }
    i
}
