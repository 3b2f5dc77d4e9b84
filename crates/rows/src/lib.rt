// The rows, reading half: the table's length and room, and a row's numbers by name. Each promise is an equation
// with a definition of specs/. The other crates of the rows layer (README, "How the crates lie") go by those
// names and by the laws of proofs/; where in the slice a row stands only `growing` and `settling`, which write
// rows, and `rules`, which asks whether a row is zeros, know besides. The calls look into no row.
// No type says that a table is tidy: a ghost field holds a fact with one proof at most, and `Tidy` hands out a letter
// with a target of each row with mark 1.
#![tactic(auto)]

mod arcs;
mod fill;
mod skips;
mod steps;
mod table;

pub use arcs::{Arcs, arcs_of};
pub use fill::fill_with_zeros;
pub use skips::past_zeros;
pub use table::{
    MISSIONS, MOST_ROWS, WIDTH, height, in_use, is_row, length_ok, mark, number39, room, row_count,
    start, target, targets, used_rows,
};
