// A row's mark and targets, for a new row that is much like it. "a missing row stands for no words".
ghost use Rattle.std.specs.Prelude.{◌≡◌};
ghost use Rattle.growing.specs.Copies.{mark_of, targets_of};

use letters::LETTERS;
use rows::{is_row, mark, targets};

pub fn mark_of(t: &[u16], n: u16) -> u16
    ensures { result ≡ mark_of t.now n }
{
    if !is_row(t, n as usize) {
        return 1;
    }
    mark(t, n as usize)
}

pub fn targets_of(t: &[u16], n: u16) -> [u16; LETTERS]
    ensures { result ≡ targets_of t.now n }
{
    let mut copy = [0u16; LETTERS];
    // A return of its own: so a caller's frame holds these 37 numbers once. `path` has 25 such frames.
    if !is_row(t, n as usize) {
        return copy;
    }
    copy.copy_from_slice(targets(t, n as usize));
    copy
}
