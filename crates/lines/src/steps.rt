// The desk program as steps: each prints what fits into the buffer, and says where the program then stands.
ghost use Rattle.std.specs.Prelude.{◌+◌, ◌≤◌, ◌<◌, ◌≡◌, length, replicate};
ghost use Rattle.model.specs.Call.{overlaid};
ghost use Rattle.printing.specs.Printed.{spare};
ghost use Rattle.lines.specs.Promises.{Answered};
ghost use Rattle.lines.specs.Steps.{desk_numbers, most_input, too_long, beginning, first_line, over_after, is_place, ready, stage_of, Does, Steps};

use super::names::follow;
use super::replies::call;
use super::requests::{name_of, request_of};
use calls::empty;
use letters::{name_at, name_end};
use printing::{copy_front, put_answer, put_other};
use rows::WIDTH;

// "at most 8,192 bytes".
const MOST_INPUT: usize = 8192;

// So many bytes are read: one more than there may be tells that there are more.
pub const INPUT: usize = MOST_INPUT + 1;

// "a book of room 486", and the 26 rows beside the room.
const ROWS: usize = 512;

pub const NUMBERS: usize = ROWS * WIDTH;

// So many bytes suffice for the answer to a line, beside the line's own.
const SPARE: usize = 43;

// The longest line and its answer.
pub const OUT: usize = MOST_INPUT + SPARE;

// Where the program stands.
#[derive(Clone, Copy)]
pub struct Place {
    // Where in the input the line begins that is to be answered.
    pub at: usize,
    // Its number from 1; 0 before the first step, which empties the table.
    pub line: u32,
    // So many bytes of the buffer's front are to be written now.
    pub bytes: usize,
    // A flag and no Option of the place: where it is over, bytes may still have to be written.
    pub over: bool,
}

// What there is to do: nothing, to say that the input is too long, to empty the table, to answer a line. It is matched
// once, and each does something else with other arguments: no closures.
#[derive(Clone, Copy)]
enum Stage {
    Over,
    Long,
    First,
    Line,
}

pub fn beginning() -> Place
    ensures { result ≡ beginning }
{
    Place {
        at: 0,
        line: 0,
        bytes: 0,
        over: false,
    }
}

fn over_after(bytes: usize) -> Place
    ensures { result ≡ over_after bytes }
{
    Place {
        at: 0,
        line: 0,
        bytes,
        over: true,
    }
}

// No step from the beginning leads to a place with more lines than there can be.
fn is_place(place: Place) -> bool
    ensures { result ≡ is_place place }
{
    place.line <= MOST_INPUT as u32 + 1
}

fn is_ready(t: &[u16], place: Place, size: usize) -> bool
    ensures { result ≡ ready t.now place size }
{
    ((t.len() == NUMBERS) & (OUT <= size)) & (is_place(place) & !place.over)
}

fn stage_of(t: &[u16], input: &[u8], place: Place, size: usize) -> Stage
    ensures { result ≡ stage_of t.now input.now place size }
{
    if !is_ready(t, place, size) {
        return Stage::Over;
    }
    if INPUT <= input.len() {
        return Stage::Long;
    }
    if place.line == 0 {
        return Stage::First;
    }
    if input.len() <= place.at {
        return Stage::Over;
    }
    Stage::Line
}

// "(more: it prints only `! long`)".
fn say_long(out: &mut [u8]) -> usize
    requires { length too_long ≤ length out.old }
    ensures { (result ≡ length too_long) × (out.new ≡ overlaid too_long out.old) }
{
    let text = b"! long\n";
    copy_front(text, text.len(), out);
    text.len()
}

// Empties the table, and goes to the first line.
fn begin(t: &mut [u16]) -> Place
    requires { length t.old ≡ desk_numbers }
    ensures { (result ≡ first_line) × (t.new ≡ replicate (length t.old) 0) }
{
    // The length is that of a book, so it is not refused.
    let _ = empty(t);
    Place {
        at: 0,
        line: 1,
        bytes: 0,
        over: false,
    }
}

// Does what a line asks for, and writes the answer to the front of the buffer: the line, the number and
// the value; or that the line, the n-th, is none of the desk's. Says how many bytes the answer has.
fn answer(t: &mut [u16], line: &[u8], n: u32, out: &mut [u8]) -> usize
    requires { length line.now + spare ≤ length out.old }
    ensures { Answered t.old t.new line.now n out.old out.new result }
{
    match request_of(line) {
        Some((kind, mission)) => {
            let reply = call(t, kind, mission, name_of(line));
            put_answer(line, reply.number, reply.value, out)
        }
        None => put_other(n, out),
    }
}

// Answers the line, prints the names that follow, and goes to the next line.
fn answer_line(t: &mut [u16], input: &[u8], place: Place, out: &mut [u8]) -> Place
    requires { (place.at < length input.now) × (place.line ≤ most_input + 1) × (length input.now + spare ≤ length out.old) }
    ensures { Does Stage.Line t.old t.new input.now place out.old out.new result }
{
    let at = place.at;
    let n = place.line;
    let line = name_at(input, at);
    let said = answer(t, line, n, out);
    let names = follow(t, line, &mut out[said..]);
    Place {
        at: name_end(input, at) + 1,
        line: n + 1,
        bytes: said + names,
        over: false,
    }
}

// One step of the program. On a table that is not the desk's, with a buffer that may be too short, from a place
// that no step leads to, and where it is over, it does nothing, and is over.
pub fn step(t: &mut [u16], input: &[u8], place: Place, out: &mut [u8]) -> Place
    ensures { Steps t.old t.new input.now place out.old out.new result }
{
    match stage_of(t, input, place, out.len()) {
        Stage::Over => over_after(0),
        Stage::Long => over_after(say_long(out)),
        Stage::First => begin(t),
        Stage::Line => answer_line(t, input, place, out),
    }
}
