// "used: rows in use."
ghost use Rattle.std.specs.Prelude.{[]};
ghost use Rattle.model.specs.Call.Call.{used};
ghost use Rattle.answers.specs.Replies.{answer_reply};
ghost use Rattle.promises.specs.Promises.{Promised};

use admitting::admit_book;
use answers::Answer;
use rows::used_rows;

#[tactic(auto, unfolding(model::specs::Run::run))]
pub fn used(t: &[u16]) -> Answer
    ensures { Promised t.now t.now [] [] used (answer_reply result) }
{
    admit_book(t)?;
    Ok(used_rows(t) as u32)
}
