// A mission's list, written as bytes that load takes back.
ghost use Rattle.std.specs.Prelude.{◌+◌, ◌≤◌, ◌<◌, ◌≡◌, length};
ghost use Rattle.letters.specs.Names.{longest};
ghost use Rattle.letters.specs.Lists.{lines};
ghost use Rattle.model.specs.Lists.{missions};
ghost use Rattle.model.specs.Call.{overlaid};
ghost use Rattle.rows.specs.Table.{height, ends};
ghost use Rattle.rows.specs.Words.{words, names};
ghost use Rattle.rows.specs.Tidy.{Used, Tidy};
ghost use Rattle.listing.specs.Lists.{lines_behind, line_here};

use super::prefix::Prefix;
use letters::LINE_END;
use printing::copy_front;
use rows::{arcs_of, start};
use walking::ends;

// Writes the letters walked, and a line end, where a name may end at the row.
fn write_line_here(t: &[u16], r: usize, word: &Prefix, out: &mut [u8]) -> usize
    requires { length (line_here (ends t.now r) word.now) ≤ length out.old }
    ensures long { result ≡ length (line_here (ends t.now r) word.now) }
    ensures buffer { out.new ≡ overlaid (line_here (ends t.now r) word.now) out.old }
{
    if !ends(t, r) {
        return 0;
    }
    // An array of its own, which is seen not to overlap the buffer: so the library for C asks for no memmove.
    let letters = word.letters();
    let depth = word.bytes().len();
    copy_front(&letters, depth, out);
    out[depth] = LINE_END;
    depth + 1
}

// Writes the words from a row, each behind the letters walked and followed by 0x0A, and says how many
// bytes they are. The words of each arc's target are written to the rest of the buffer, which is lent on. The arc's
// letter is put behind the letters walked and taken off again, so that they are not copied for each arc.
fn write_from(t: &[u16], r: usize, word: &mut Prefix, out: &mut [u8]) -> usize
    requires { Tidy t.now × Used t.now r × (length word.old + height t.now r ≤ longest) × (length (lines_behind word.old (words t.now r)) ≤ length out.old) }
    ensures word { word.new ≡ word.old }
    ensures long { result ≡ length (lines_behind word.old (words t.now r)) }
    ensures buffer { out.new ≡ overlaid (lines_behind word.old (words t.now r)) out.old }
{
    let mut bytes = write_line_here(t, r, word, out);
    for (x, s) in arcs_of(t, r) {
        word.push(x);
        bytes += write_from(t, s, word, &mut out[bytes..]);
        word.pop();
    }
    bytes
}

// Writes the list of a mission to the front of the buffer, as bytes that load takes back.
pub fn write_list(t: &[u16], m: usize, out: &mut [u8]) -> usize
    requires { Tidy t.now × (m < missions) × (length (lines (names t.now m)) ≤ length out.old) }
    ensures long { result ≡ length (lines (names t.now m)) }
    ensures buffer { out.new ≡ overlaid (lines (names t.now m)) out.old }
{
    let r = start(t, m) as usize;
    if r == 0 {
        return 0;
    }
    let mut word = Prefix::none();
    write_from(t, r, &mut word, out)
}
