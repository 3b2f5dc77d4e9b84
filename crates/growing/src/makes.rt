// The row for a mark and 37 targets.
ghost use Rattle.std.specs.Prelude.{◌≡◌};
ghost use Rattle.rows.specs.Tidy.{Tidy};
ghost use Rattle.index.specs.Index.{Indexed};
ghost use Rattle.growing.specs.Rows.{end_mark, words_over};
ghost use Rattle.growing.specs.Growing.{Fitting, Makes};

use super::heights::height_over;
use super::writes::write_row;
use index::{Wanted, enter, find, free_row};
use letters::LETTERS;
use rows::past_zeros;

// No row is free.
#[derive(Clone, Copy, Debug, PartialEq, Eq)]
pub struct Full;

// The mark of a row where a name may end, or none may.
pub fn end_mark(ends: bool) -> u16
    ensures { result ≡ end_mark ends }
{
    if ends { 2 } else { 1 }
}

// The row that was asked for, or 0, the table's number for none, where it would have no words. A new row is made only
// where none in use agrees. The index of the table is kept up; the two are no struct, since with two `&mut` each function
// would have to say of both that they are still those that were lent.
pub fn make(
    t: &mut [u16],
    index: &mut [u16],
    mark: u16,
    targets: [u16; LETTERS],
) -> Result<u16, Full>
    requires { Tidy t.old × Indexed t.old index.old × Fitting t.old mark targets }
    ensures makes { Makes 1 t.old t.new (words_over t.old mark targets) result }
    ensures indexed { Indexed t.new index.new }
{
    if mark == 1 && past_zeros(&targets, 0, LETTERS) == LETTERS {
        return Ok(0);
    }
    let same = find(t, index, Wanted::new(mark, &targets));
    if same != 0 {
        return Ok(same as u16);
    }
    let free = free_row(index);
    if free == 0 {
        return Err(Full);
    }
    let height = height_over(t, &targets);
    write_row(t, free, mark, height as u16, &targets);
    enter(t, index, free);
    Ok(free as u16)
}
