// Writing a row.
ghost use Rattle.std.specs.Prelude.{◌<◌, ◌≡◌, length};
ghost use Rattle.letters.specs.Letters.{letters};
ghost use Rattle.rows.specs.Table.{row_count};
ghost use Rattle.growing.specs.Rows.{NewRow};

use letters::LETTERS;
use rows::WIDTH;

// Writes mark, height and targets of row r; number 39 stays.
pub fn write_row(t: &mut [u16], r: usize, mark: u16, height: u16, targets: &[u16])
    requires { (r < row_count t.old) × (length targets.now ≡ letters) }
    ensures { NewRow t.old t.new r mark height targets.now }
{
    let first = r * WIDTH;
    t[first] = mark;
    t[first + 1] = height;
    t[first + 2..first + 2 + LETTERS].copy_from_slice(targets);
}
