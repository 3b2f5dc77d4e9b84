// The calls begin with the same tests: of the table, the mission, what is asked of the other arguments, and then
// the book. They are said here once, with what it means for a call that they pass or refuse. There are three
// entries: for a call on the whole book, for one that works on any numbers, and for one on a mission's list.
#![tactic(auto)]

mod admits;

pub use admits::{admit, admit_book, admit_indexed, admit_walk, if_fine};
