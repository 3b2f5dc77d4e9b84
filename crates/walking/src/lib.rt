// Walking: how far a word leads and how much of it is left there, whether a name may end there, and which letters go
// on from there. All of it on any numbers, as 01 asks of ask and next.
#![tactic(auto)]

mod walk;

pub use walk::{Walked, ends, has_name, letter_set, walk_word};
