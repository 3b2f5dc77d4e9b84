// Listing: the name with n names before it, found by the counts of the rows; and a mission's list as bytes that
// load takes back: how many they are, counted by rows, and the bytes.
#![tactic(auto)]

mod lists;
mod prefix;
mod sizes;
mod word;

pub use lists::write_list;
pub use sizes::list_size;
pub use word::write_word;
