// Growing: the row for a mark and 37 targets is the one in use that agrees with them, or a new one.
// No row in use is ever written, so whatever else leads there keeps its words.
#![tactic(auto)]

mod copies;
mod heights;
mod makes;
mod writes;

pub use copies::{mark_of, targets_of};
pub use makes::{Full, end_mark, make};
