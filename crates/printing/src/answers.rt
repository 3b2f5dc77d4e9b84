// What is printed for a line.
ghost use Rattle.std.specs.Prelude.{◌+◌, ◌≤◌, ◌≡◌, length};
ghost use Rattle.model.specs.Call.{overlaid};
ghost use Rattle.printing.specs.Printed.{spare, field, answer_line, other_line};

use super::copies::copy_front;
use super::numbers::put_number;
use letters::LINE_END;

pub const SPACE: u8 = b' ';

// Writes a space and the number to the front of the buffer, and says how many bytes they are.
fn put_field(n: u64, out: &mut [u8]) -> usize
    requires { length (field n) ≤ length out.old }
    ensures long { result ≡ length (field n) }
    ensures buffer { out.new ≡ overlaid (field n) out.old }
{
    out[0] = SPACE;
    put_number(n, &mut out[1..]) + 1
}

// Writes a line, its number and its value.
pub fn put_answer(line: &[u8], number: u32, value: u64, out: &mut [u8]) -> usize
    requires { length line.now + spare ≤ length out.old }
    ensures long { result ≡ length (answer_line line.now number value) }
    ensures buffer { out.new ≡ overlaid (answer_line line.now number value) out.old }
{
    let mut at = line.len();
    copy_front(line, at, out);
    at += put_field(number as u64, &mut out[at..]);
    at += put_field(value, &mut out[at..]);
    out[at] = LINE_END;
    at + 1
}

// Writes that a line is none of the desk's, by its number.
pub fn put_other(n: u32, out: &mut [u8]) -> usize
    requires { spare ≤ length out.old }
    ensures long { result ≡ length (other_line n) }
    ensures buffer { out.new ≡ overlaid (other_line n) out.old }
{
    out[0] = b'!';
    let at = put_field(n as u64, &mut out[1..]) + 1;
    out[at] = LINE_END;
    at + 1
}
