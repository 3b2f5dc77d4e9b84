// "check: is it sound?"
ghost use Rattle.std.specs.Prelude.{[]};
ghost use Rattle.model.specs.Call.Call.{check};
ghost use Rattle.answers.specs.Replies.{answer_reply};
ghost use Rattle.promises.specs.Promises.{Promised};

use admitting::admit_book;
use answers::Answer;

#[tactic(auto, unfolding(model::specs::Run::run))]
pub fn check(t: &[u16]) -> Answer
    ensures { Promised t.now t.now [] [] check (answer_reply result) }
{
    admit_book(t)?;
    Ok(0)
}
