// Letters and names, the lowest of 01's three layers: a byte's letter and a letter's byte, what is a
// name, a prefix, a list for load, the order of two names, the names of a list one by one, and sets
// of letters as 64-bit numbers. Each promise is an equation with a definition of specs/; whoever is
// above goes by those definitions and the laws of proofs/, and never by a letter's number.
#![tactic(auto)]

mod bytes;
mod lists;
mod names;
mod sets;

pub use bytes::{LETTERS, byte_of, letter_of};
pub use lists::{LINE_END, LONGEST_LIST, is_list, name_at, name_end};
pub use names::{LONGEST, is_before, is_name, is_spelled, long_as_name, long_as_prefix, order_of};
pub use sets::{first_letter, letter_count, with_letter, without_letter};
