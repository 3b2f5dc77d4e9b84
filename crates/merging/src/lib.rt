// Two lists for load taken as one: whose name is the next of the two, that name as a part of the list
// that it stands in, and the places behind it. Whoever takes name after name gets the names of both
// lists, each once, in order.
#![tactic(auto)]

mod lists;
mod names;
mod places;

pub use lists::TwoLists;
pub use places::{Places, Turn};
