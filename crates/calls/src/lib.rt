// The calls that read a table, and empty: the first tests, then the layers below. No call asks anything of its
// arguments.
#![tactic(auto)]

mod asks;
mod checks;
mod empties;
mod follows;
mod uses;

pub use asks::ask;
pub use checks::check;
pub use empties::empty;
pub use follows::next;
pub use uses::used;
