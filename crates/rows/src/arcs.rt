// The arcs of a row, letter by letter.
ghost use Rattle.std.specs.Prelude.{◌≤◌, ◌<◌, ◌≡◌};
ghost use Rattle.letters.specs.Letters.{letters};
ghost use Rattle.rows.specs.Table.{row_count, row_targets};

use super::table::targets;

// Each letter from `from` on that the row has a target for, and that target. They are read from the row's targets;
// table and row are there for the promises.
#[derive(Clone, Copy)]
pub struct Arcs<'a> {
    pub t: &'a [u16],
    pub row: usize,
    pub targets: &'a [u16],
    pub from: usize,
    ghost inside: { row < row_count t.now },
    ghost of_row: { targets.now ≡ row_targets t.now row },
    ghost to: { from ≤ letters },
}

pub fn arcs_of(t: &[u16], r: usize) -> Arcs<'_>
    requires { r < row_count t.now }
    ensures table { result.t.now ≡ t.now }
    ensures row { result.row ≡ r }
    ensures from { result.from ≡ 0 }
{
    Arcs {
        t,
        row: r,
        targets: targets(t, r),
        from: 0,
    }
}
