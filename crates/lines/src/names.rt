// The names that follow a line's answer.
ghost use Rattle.std.specs.Prelude.{◌≡◌, length};
ghost use Rattle.model.specs.Call.{overlaid};
ghost use Rattle.promises.specs.Books.{book_of};
ghost use Rattle.lines.specs.Requests.{request_of};
ghost use Rattle.lines.specs.Promises.{written_behind};

use super::requests::{Kind, request_of};
use ranking::write;

// "the names follow in order, one per line": as the call write puts them into what is left of the buffer.
fn list_names(t: &[u16], m: u32, out: &mut [u8]) -> usize
    ensures long { result ≡ length (written_behind (book_of t.now) (Some (Kind.Count, m)) (length out.old)) }
    ensures buffer { out.new ≡ overlaid (written_behind (book_of t.now) (Some (Kind.Count, m)) (length out.old)) out.old }
{
    match write(t, m, out) {
        Ok(bytes) => bytes as usize,
        Err(_) => 0,
    }
}

// "After `L` with number 0 the names follow".
fn follow_call(t: &[u16], kind: Kind, m: u32, out: &mut [u8]) -> usize
    ensures long { result ≡ length (written_behind (book_of t.now) (Some (kind, m)) (length out.old)) }
    ensures buffer { out.new ≡ overlaid (written_behind (book_of t.now) (Some (kind, m)) (length out.old)) out.old }
{
    match kind {
        Kind::Count => list_names(t, m, out),
        Kind::Add | Kind::Remove | Kind::Ask => 0,
    }
}

// Writes the names that follow a line's answer to the front of the buffer, each followed by a line end, and says how
// many bytes they are.
pub fn follow(t: &[u16], line: &[u8], out: &mut [u8]) -> usize
    ensures long { result ≡ length (written_behind (book_of t.now) (request_of line.now) (length out.old)) }
    ensures buffer { out.new ≡ overlaid (written_behind (book_of t.now) (request_of line.now) (length out.old)) out.old }
{
    match request_of(line) {
        Some((kind, mission)) => follow_call(t, kind, mission, out),
        None => 0,
    }
}
