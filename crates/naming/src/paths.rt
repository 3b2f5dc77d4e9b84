// The row for a row's words with one word on or off.
ghost use Rattle.std.specs.Prelude.{suc, ◌≤◌, length};
ghost use Rattle.letters.specs.Words.{Spelled, word_of};
ghost use Rattle.letters.specs.Names.{longest};
ghost use Rattle.model.specs.Rules.{with_name};
ghost use Rattle.rows.specs.Words.{words};
ghost use Rattle.rows.specs.Tidy.{Named, Tidy};
ghost use Rattle.index.specs.Index.{Indexed};
ghost use Rattle.growing.specs.Growing.{Makes};

use growing::{Full, end_mark, make, mark_of, targets_of};
use letters::letter_of;

// The row's own targets stay, but for the one that the word goes on with. No row in use is touched: at
// most one row more for each letter, and one for the end.
pub fn path(t: &mut [u16], index: &mut [u16], r: u16, name: &[u8], on: bool) -> Result<u16, Full>
    requires { Tidy t.old × Indexed t.old index.old × Named t.old r × Spelled (word_of name.now) × (length name.now ≤ longest) }
    ensures makes { Makes (suc (length name.now)) t.old t.new (with_name on (word_of name.now) (words t.old r)) result }
    ensures indexed { Indexed t.new index.new }
{
    let mark = mark_of(t, r);
    let mut targets = targets_of(t, r);
    if name.len() == 0 {
        return make(t, index, end_mark(on), targets);
    }
    let x = letter_of(name[0]);
    targets[x] = path(t, index, targets[x], &name[1..], on)?;
    make(t, index, mark, targets)
}
