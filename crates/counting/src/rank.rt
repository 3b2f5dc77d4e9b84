// "rank: how many names of the list stand before a given name, which need not be on it".
ghost use Rattle.std.specs.Prelude.{◌≤◌, ◌≡◌, length};
ghost use Rattle.letters.specs.Words.{Spelled, word_of};
ghost use Rattle.sets.specs.Cut.{most_names};
ghost use Rattle.model.specs.Lists.{rank_of};
ghost use Rattle.rows.specs.Words.{words};
ghost use Rattle.counting.specs.Counts.{Counts, Counted};

use super::counts::words_ahead;
use letters::letter_of;
use rows::target;

// How many words from n stand before the word: those ahead of its first letter, and at that letter's
// target those that stand before what is left of it.
pub fn rank_from(t: &[u16], n: usize, name: &[u8], counts: &[u16]) -> u32
    requires { Counts t.now counts.now × Counted t.now counts.now n × (length (words t.now n) ≤ most_names) × Spelled (word_of name.now) }
    ensures { result ≡ rank_of (word_of name.now) (words t.now n) }
{
    if n == 0 {
        return 0;
    }
    if name.len() == 0 {
        return 0;
    }
    let x = letter_of(name[0]);
    let before = words_ahead(t, n, x, counts);
    let next = target(t, n, x) as usize;
    before + rank_from(t, next, &name[1..], counts)
}
