// Rows in chains, one for each kind of row: an array says which row is the last of each kind, and of each
// row which one before it is of its kind. So the rows of a kind are found without the others. The order
// of the rows by height is such an array; the index of rows by mark and targets is another.
#![tactic(auto)]

mod links;
mod orders;

pub use links::{behind, last_of, link};
pub use orders::{ORDER, last_at, order_rows, row_before};
