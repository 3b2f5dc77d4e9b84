// The desk program: reads standard input, takes step after step on a book of room 486, and writes what each step
// prints. What a step does is in the crate `lines`; here is proved that all steps together write what 01 says.
#![tactic(auto)]

ghost use Rattle.std.specs.Prelude.{◌≤◌, ◌<◌, length, take, IfOk, OnOk, IfSome};
ghost use Rattle.std.specs.Io.KnownBytes.{Appends, Consumes, IsAtEnd};
ghost use Rattle.lines.specs.Sessions.{prints};

use lines::{INPUT, NUMBERS, OUT, beginning, step};
use std::io;
use std::io::{Read, Write};

// Reads until the buffer is full or the input ends, and says how many bytes of the buffer's front were read.
fn read_full<R: Read>(from: &mut R, buffer: &mut [u8]) -> io::Result<usize>
    ensures inside { IfOk result (λ n. n ≤ length buffer.new) }
    ensures front { IfOk result (λ n. Consumes (R.remaining from.old) (R.remaining from.new) (take n buffer.new)) }
    ensures end { IfOk result (λ n. n < length buffer.new → IsAtEnd (R.remaining from.new)) }
{
    let mut long = 0;
    // A while: it goes on by as many bytes as each read brings.
    while long < buffer.len() {
        let more = from.read(&mut buffer[long..])?;
        if more == 0 {
            break;
        }
        long += more;
    }
    Ok(long)
}

// Writes what the desk program prints of all that can be read.
fn run<R: Read, W: Write>(from: &mut R, to: &mut W) -> io::Result<()>
    ensures { OnOk result (IfSome (R.remaining from.old) (λ input. Appends (W.contents to.old) (W.contents to.new) (prints input))) }
{
    let mut input = [0u8; INPUT];
    let long = read_full(from, &mut input)?;
    let mut t = [0u16; NUMBERS];
    let mut out = [0u8; OUT];
    let mut place = beginning();
    // A while: each step says where the program then stands.
    while !place.over {
        place = step(&mut t, &input[..long], place, &mut out);
        let bytes = place.bytes;
        to.write_all(&out[..bytes])?;
    }
    Ok(())
}

fn main(rt: HostRuntime) -> io::Result<()> {
    run(&mut rt.stdin(), &mut rt.stdout())
}
