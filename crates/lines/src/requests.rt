// What a line asks for.
ghost use Rattle.std.specs.Prelude.{◌≡◌, true};
ghost use Rattle.lines.specs.Requests.{is_digit, is_headed, mission_of, name_of, has_name, request_if, request_of};

use printing::SPACE;

// The bytes of a line before its name: the kind, a space and two digits, and one space more before a name.
const HEAD: usize = 4;

const NAME: usize = 5;

// "They mean add, remove, ask and count."
#[derive(Clone, Copy)]
pub enum Kind {
    Add,
    Remove,
    Ask,
    Count,
}

fn is_digit(b: u8) -> bool
    ensures { result ≡ is_digit b }
{
    b.is_ascii_digit()
}

// Behind its first byte: "a space, two decimal digits for the mission".
fn is_headed(line: &[u8]) -> bool
    ensures { result ≡ is_headed line.now }
{
    if line.len() < HEAD {
        return false;
    }
    (line[1] == SPACE) & is_digit(line[2]) & is_digit(line[3])
}

fn mission_of(line: &[u8]) -> u32
    requires { is_headed line.now ≡ true }
    ensures { result ≡ mission_of line.now }
{
    (line[2] - b'0') as u32 * 10 + (line[3] - b'0') as u32
}

// The rest of a line behind its mission and a space, or nothing.
pub fn name_of(line: &[u8]) -> &[u8]
    ensures { result.now ≡ name_of line.now }
{
    if line.len() < NAME {
        return &line[0..0];
    }
    &line[NAME..]
}

// "a space and then the name, which is the rest of the line, has no space in it and may be of no
// bytes".
fn has_name(line: &[u8]) -> bool
    ensures { result ≡ has_name line.now }
{
    if line.len() < NAME {
        return false;
    }
    (line[HEAD] == SPACE) & !name_of(line).contains(&SPACE)
}

fn request_if(fine: bool, kind: Kind, line: &[u8]) -> Option<(Kind, u32)>
    requires { is_headed line.now ≡ true }
    ensures { result ≡ request_if fine kind line.now }
{
    if fine {
        Some((kind, mission_of(line)))
    } else {
        None
    }
}

// The call that the line asks for, and its mission; none if the line is not the desk's.
pub fn request_of(line: &[u8]) -> Option<(Kind, u32)>
    ensures { result ≡ request_of line.now }
{
    if !is_headed(line) {
        return None;
    }
    match line[0] {
        b'+' => request_if(has_name(line), Kind::Add, line),
        b'-' => request_if(has_name(line), Kind::Remove, line),
        b'?' => request_if(has_name(line), Kind::Ask, line),
        b'L' => request_if(line.len() == HEAD, Kind::Count, line),
        _ => None,
    }
}
