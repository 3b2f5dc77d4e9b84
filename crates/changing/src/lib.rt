// The calls that change one name of a list, or clear a list. A change grows the table by the rows that
// the new list needs and are not there yet, and then it is settled.
#![tactic(auto)]

mod clears;
mod names;

pub use clears::clear;
pub use names::{add, remove};
