// Building the rows of two lists for load, taken as one: names that begin alike stand together, since the
// names rise. So a group of them is a row, and the groups of one letter more are its targets, made before
// it. Each name is looked at a few times, not once for each of its letters: a group hands back how many of
// its letters the next name behind it shares, and that tells every group around it whether to go on.
#![tactic(auto)]

mod depths;
mod groups;

pub use groups::build_lists;
