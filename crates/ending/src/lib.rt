// How a change ends: it was settled, and is done or refused for room; and what that is worth to the calls that
// change a list.
#![tactic(auto)]

ghost use Rattle.std.specs.Prelude.{◌≡◌};
ghost use Rattle.ending.specs.Ending.{settled_answer};

use answers::{Answer, Refusal};

// The answer to a change that was settled.
pub fn settled(done: bool, value: u32) -> Answer
    ensures { result ≡ settled_answer done value }
{
    if done {
        Ok(value)
    } else {
        Err(Refusal::NoRoom)
    }
}
