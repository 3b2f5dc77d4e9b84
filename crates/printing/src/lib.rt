// Printing: what is written to the front of a lent buffer, as bytes. Who has more to write lends the
// rest of the buffer on.
#![tactic(auto)]

mod answers;
mod copies;
mod numbers;

pub use answers::{SPACE, put_answer, put_other};
pub use copies::copy_front;
