// The seven rules of 01 as tests of a table with any numbers in it. One pass over the cells serves
// rules 2 to 6: the cells of a free row are read once for rule 2, those of a row in use once for
// rule 3, eight at once where they are 0; on the way rule 3 counts the arcs that lead to each row, for
// rule 5, and keeps the key of the row in the index, for rule 6 and for whatever makes rows later in the
// call.
#![tactic(auto)]

mod arcs;
mod book;
mod ends;
mod head;
mod marks;
mod pointed;
mod twins;

pub use book::{sound, sound_indexed};
