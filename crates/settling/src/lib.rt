// Settling a change: the mission's start is set; if the rows reached from the starts are more than
// the room, it is set back; then every row that is not reached is freed. So a refusal leaves the very
// table that was grown from, and free rows count again.
#![tactic(auto)]

mod settles;
mod sweeps;

pub use settles::settle;
pub use sweeps::sweep;
