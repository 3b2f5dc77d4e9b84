// The calls that fill an empty list: load, load of two, and combine. The rows of the new list are made first, each of
// them one that the lists after the change need; so when no row is free, there is no room.
#![tactic(auto)]

mod combines;
mod loads;
mod rooms;

pub use combines::combine;
pub use loads::{load, load_two};
