// The calls that count names: count, rank, nth and write. After the first tests each counts the words from the
// rows that the mission's list reaches; by these numbers a name's rank, the n-th name, and the bytes of the whole
// list are found.
#![tactic(auto)]

mod counts;
mod nths;
mod ranks;
mod writes;

pub use counts::count;
pub use nths::nth;
pub use ranks::rank;
pub use writes::write;
