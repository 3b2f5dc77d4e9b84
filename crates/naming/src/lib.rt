// Naming: the rows of a list with one name more or less. The name's path is made anew from its end, row by
// row, and every other arc leads where it led.
#![tactic(auto)]

mod paths;

pub use paths::path;
