// How many bytes a mission's list has as bytes for load.
ghost use Rattle.std.specs.Prelude.{suc, ◌<◌, min, ◌≡◌, length};
ghost use Rattle.letters.specs.Lists.{longest_list, lines};
ghost use Rattle.model.specs.Lists.{missions};
ghost use Rattle.rows.specs.Words.{names};
ghost use Rattle.rows.specs.Tidy.{Tidy};
ghost use Rattle.counting.specs.Counts.{Counts, Counted};
ghost use Rattle.listing.specs.Sizes.{cut_size, byte_count, Sizes, SizesMore};

use counting::{count_at, count_names};
use letters::LONGEST_LIST;
use rows::{MOST_ROWS, arcs_of, start};

// A number of bytes, cut.
fn cut_size(n: u32) -> u32
    ensures { result ≡ cut_size n }
{
    n.min(LONGEST_LIST as u32 + 1)
}

// How many bytes the words from n have, each followed by 0x0A, cut; counts n, and so every row that is
// reached from it. A word has one byte more than what is left of it behind its first letter, and the empty word
// has its line end: so the bytes of a row are as many as its words, and the bytes of its targets. Each row is
// counted once: a row in use has a word, so 0, of which the array is made, says that it is not counted yet.
fn size_from(t: &[u16], n: usize, counts: &[u16], sizes: &mut [u32]) -> u32
    requires { Counts t.now counts.now × Counted t.now counts.now n × Sizes t.now sizes.old }
    ensures counted { SizesMore t.now n sizes.old sizes.new }
    ensures number { result ≡ byte_count t.now n }
{
    if n == 0 {
        return 0;
    }
    let known = sizes[n];
    if known != 0 {
        return known;
    }
    let mut sum = count_at(counts, n) as u32;
    for (_, s) in arcs_of(t, n) {
        sum += size_from(t, s, counts, sizes);
    }
    let all = cut_size(sum);
    sizes[n] = all;
    all
}

// How many bytes the list of a mission has as bytes for load, cut above 65,535.
pub fn list_size(t: &[u16], m: usize) -> u32
    requires { Tidy t.now × (m < missions) }
    ensures { result ≡ min (length (lines (names t.now m))) (suc longest_list) }
{
    let mut counts = [0u16; MOST_ROWS];
    count_names(t, m, &mut counts);
    let mut sizes = [0u32; MOST_ROWS];
    let r = start(t, m) as usize;
    size_from(t, r, &counts, &mut sizes)
}
