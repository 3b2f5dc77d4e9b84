// The desk program as steps: what a line asks for, the answer to it, the names that follow, and how the program
// goes from one to the next. What is offered here asks nothing of its arguments.
#![tactic(auto)]

mod names;
mod replies;
mod requests;
mod steps;

pub use steps::{INPUT, NUMBERS, OUT, Place, beginning, step};
