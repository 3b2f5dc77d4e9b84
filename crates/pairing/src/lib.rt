// Combining two rows: the result of a pair of rows is settled by the results of the pairs below it.
// Every pair is settled once, so the time is that of the pairs, whatever the number of words.
#![tactic(auto)]

mod choices;
mod pairs;
mod settled;

pub use pairs::combine_rows;
