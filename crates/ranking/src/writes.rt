// write: "writes a mission's list to the front of a lent buffer as bytes that load takes back".
ghost use Rattle.std.specs.Prelude.{◌<◌, ◌≡◌, true, length};
ghost use Rattle.model.specs.Lists.{missions};
ghost use Rattle.model.specs.Call.Call.{write};
ghost use Rattle.rows.specs.Rules.{sound};
ghost use Rattle.answers.specs.Replies.{answer_reply};
ghost use Rattle.promises.specs.Promises.{Promised};

use admitting::admit;
use answers::{Answer, Refusal};
use letters::LONGEST_LIST;
use listing::{list_size, write_list};

// On a sound book: refusals 5 and 6, and the answer.
fn write_if_fits(t: &[u16], m: usize, out: &mut [u8]) -> Answer
    requires { (sound t.now ≡ true) × (m < missions) }
    ensures { Promised t.now t.now out.old out.new (write m (length out.old)) (answer_reply result) }
{
    let size = list_size(t, m) as usize;
    if LONGEST_LIST < size {
        return Err(Refusal::List);
    }
    if out.len() < size {
        return Err(Refusal::Buffer);
    }
    Ok(write_list(t, m, out) as u32)
}

#[tactic(auto, unfolding(model::specs::Run::run))]
pub fn write(t: &[u16], m: u32, out: &mut [u8]) -> Answer
    ensures { Promised t.now t.now out.old out.new (write m (length out.old)) (answer_reply result) }
{
    admit(t, m, Ok(()))?;
    write_if_fits(t, m as usize, out)
}
