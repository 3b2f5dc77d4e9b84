// A byte's letter number, and a letter number's byte.
ghost use Rattle.std.specs.Prelude.{◌≡◌};
ghost use Rattle.letters.specs.Letters.{letter, byte_of};

// How many letters there are; as a letter number it stands for "no letter".
pub const LETTERS: usize = 37;

// The letter number of b, or LETTERS where b is no letter.
pub fn letter_of(b: u8) -> usize
    ensures { result ≡ letter b }
{
    // No Option: the clause says a number of every byte, by the customer's definition `letter`.
    match b {
        0x5F => 0,
        0x30..=0x39 => (b - 0x30 + 1) as usize,
        0x41..=0x5A => (b - 0x41 + 11) as usize,
        _ => LETTERS,
    }
}

// The byte of letter number x; of any other number the underscore's.
pub fn byte_of(x: usize) -> u8
    ensures { result ≡ byte_of x }
{
    match x {
        1..=10 => 0x30 + (x - 1) as u8,
        11..=36 => 0x41 + (x - 11) as u8,
        _ => 0x5F,
    }
}
