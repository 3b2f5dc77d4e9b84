// The answers of the calls: a Result for each kind, with why it was refused as the error; and for every case 01's
// number and values.
#![tactic(auto)]

mod cases;
mod replies;

pub use cases::{Answer, Asked, Following, Refusal};
pub use replies::{Reply, refusal_number};
