// "empty: make an empty book of the slice."
ghost use Rattle.std.specs.Prelude.{[]};
ghost use Rattle.model.specs.Call.Call.{empty};
ghost use Rattle.answers.specs.Replies.{answer_reply};
ghost use Rattle.promises.specs.Promises.{Promised};

use answers::{Answer, Refusal};
use rows::{fill_with_zeros, length_ok};

#[tactic(auto, unfolding(model::specs::Run::run))]
pub fn empty(t: &mut [u16]) -> Answer
    ensures { Promised t.old t.new [] [] empty (answer_reply result) }
{
    if !length_ok(t) {
        return Err(Refusal::Length);
    }
    fill_with_zeros(t);
    Ok(0)
}
