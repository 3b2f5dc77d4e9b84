// The letters walked from a start, as the bytes that they are written by.
ghost use Rattle.std.specs.Prelude.{◌-◌, ◌<◌, ◌≡◌, [], ◌∷◌, ◌++◌, length, take};
ghost use Rattle.letters.specs.Letters.{byte_of};
ghost use Rattle.letters.specs.Names.{longest};

use letters::{LONGEST, byte_of};
use std::marker::Model;

// At most as many letters as the longest name has. A clause sees their bytes.
#[derive(Drop)]
pub struct Prefix {
    letters: [u8; LONGEST],
    depth: usize,
}

impl Model for Prefix {
    ghost use Rattle.std.specs.Prelude.{◌≤◌, ℕ, List, take};
    ghost use Rattle.letters.specs.Names.{longest};

    ghost Value = { List ℕ };

    ghost view = { λ p. take p.depth p.letters };

    ghost invariant = { λ p. p.depth ≤ longest };
}

impl Prefix {
    pub fn none() -> Prefix
        ensures { result ≡ [] }
    {
        Prefix {
            letters: [0; LONGEST],
            depth: 0,
        }
    }

    // One letter more.
    pub fn push(&mut self, x: usize)
        requires { length self.old < longest }
        ensures { self.new ≡ self.old ++ byte_of x ∷ [] }
    {
        self.letters[self.depth] = byte_of(x);
        self.depth += 1;
    }

    // One letter less.
    pub fn pop(&mut self)
        requires { 0 < length self.old }
        ensures { self.new ≡ take (length self.old - 1) self.old }
    {
        self.depth -= 1;
    }

    pub fn bytes(&self) -> &[u8]
        ensures { result.now ≡ self.now }
    {
        &self.letters[..self.depth]
    }

    // The bytes and whatever stands behind them, in an array of the caller's own.
    pub fn letters(&self) -> [u8; LONGEST]
        ensures { take (length self.now) result ≡ self.now }
    {
        self.letters
    }
}
