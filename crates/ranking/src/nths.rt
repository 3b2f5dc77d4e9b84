// "nth: the name with n names before it".
ghost use Rattle.std.specs.Prelude.{◌≤◌, ◌<◌, ◌≡◌, true, length};
ghost use Rattle.letters.specs.Names.{longest};
ghost use Rattle.model.specs.Lists.{missions};
ghost use Rattle.rows.specs.Rules.{sound};
ghost use Rattle.model.specs.Call.Call.{nth};
ghost use Rattle.answers.specs.Replies.{answer_reply};
ghost use Rattle.promises.specs.Promises.{Promised};

use super::counts::counted;
use admitting::{admit, if_fine};
use answers::{Answer, Refusal};
use letters::LONGEST;
use listing::write_word;
use rows::{MOST_ROWS, start};

// On a sound book and for a buffer that is long enough: refusals 9 and 10, and the answer.
fn nth_in_list(t: &[u16], m: usize, n: u32, out: &mut [u8]) -> Answer
    requires { (sound t.now ≡ true) × (m < missions) × (longest ≤ length out.old) }
    ensures { Promised t.now t.now out.old out.new (nth m n (length out.old)) (answer_reply result) }
{
    let mut counts = [0u16; MOST_ROWS];
    let names = counted(t, m, &mut counts)?;
    if names as u32 <= n {
        return Err(Refusal::NotUnder);
    }
    let r = start(t, m) as usize;
    Ok(write_word(t, r, n, &counts, out) as u32)
}

#[tactic(auto, unfolding(model::specs::Run::run))]
pub fn nth(t: &[u16], m: u32, n: u32, out: &mut [u8]) -> Answer
    ensures { Promised t.now t.now out.old out.new (nth m n (length out.old)) (answer_reply result) }
{
    admit(t, m, if_fine(LONGEST <= out.len(), Refusal::Buffer))?;
    nth_in_list(t, m as usize, n, out)
}
