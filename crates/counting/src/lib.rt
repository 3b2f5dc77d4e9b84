// Counting: the number of words from each row that a mission's list reaches, cut above 60,000, in a
// local array that one recursion fills, each row once; and the rank of a name, by that array. The time
// is polynomial in the rows, whatever the number of names.
#![tactic(auto)]

mod counts;
mod rank;

pub use counts::{MOST_NAMES, count_at, count_names, target_count};
pub use rank::rank_from;
