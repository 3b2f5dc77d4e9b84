// The index of a table: it finds the row in use with a given mark and targets, and a free row, without
// going through the others, and knows how many arcs lead to each row. It is built where a book is checked (rule 5
// asks for those arcs, rule 6 for rows that agree) and lent to whatever makes and frees rows in that call. Where
// all rows fall into one bucket, a search goes through all of them.
#![tactic(auto)]

mod builds;
mod enters;
mod finds;
mod keys;

pub use builds::{INDEX, index_rows, keep_arcs, keep_key, take_arcs};
pub use enters::{enter, free_row};
pub use finds::{Wanted, find, has_twin};
pub use keys::{key_from, key_of, mixed, mixed_mark};
