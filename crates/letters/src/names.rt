// What is a name and a prefix, and how two names are ordered.
ghost use Rattle.std.specs.Prelude.{◌≡◌};
ghost use Rattle.letters.specs.Words.{word_of, order, before};
ghost use Rattle.letters.specs.Names.{spelled, long_as_prefix, long_as_name, is_name};
ghost use Rattle.letters.specs.Orders.{order_is};

use super::bytes::{LETTERS, letter_of};
use std::cmp::Ordering;

// The letters of the longest name.
pub const LONGEST: usize = 24;

// Is every byte a letter?
pub fn is_spelled(s: &[u8]) -> bool
    ensures { result ≡ spelled s.now }
{
    // A for: with `all` it takes half as long again.
    for b in s {
        if letter_of(*b) == LETTERS {
            return false;
        }
    }
    true
}

// Is it as long as a prefix: at most 24 bytes?
pub fn long_as_prefix(s: &[u8]) -> bool
    ensures { result ≡ long_as_prefix s.now }
{
    s.len() <= LONGEST
}

// Is it as long as a name: 1 to 24 bytes?
pub fn long_as_name(s: &[u8]) -> bool
    ensures { result ≡ long_as_name s.now }
{
    if s.len() == 0 {
        return false;
    }
    long_as_prefix(s)
}

// Is it a name: 1 to 24 letters?
pub fn is_name(s: &[u8]) -> bool
    ensures { result ≡ is_name s.now }
{
    if !long_as_name(s) {
        return false;
    }
    is_spelled(s)
}

// How the word of a stands to the word of b. Most letters that are the same, are the same byte.
pub fn order_of(a: &[u8], b: &[u8]) -> Ordering
    ensures { result ≡ order_is (order (word_of a.now) (word_of b.now)) }
{
    for (p, q) in a.iter().zip(b) {
        if *p != *q {
            let x = letter_of(*p);
            let y = letter_of(*q);
            if x != y {
                return x.cmp(&y);
            }
        }
    }
    a.len().cmp(&b.len())
}

// Does the word of a stand before the word of b?
pub fn is_before(a: &[u8], b: &[u8]) -> bool
    ensures { result ≡ before (word_of a.now) (word_of b.now) }
{
    order_of(a, b).is_lt()
}
