// "rank: how many names of the list stand before a given name, which need not be on it".
ghost use Rattle.std.specs.Prelude.{◌<◌, ◌≡◌, true, []};
ghost use Rattle.letters.specs.Names.{is_name};
ghost use Rattle.model.specs.Lists.{missions};
ghost use Rattle.model.specs.Call.Call.{rank};
ghost use Rattle.rows.specs.Rules.{sound};
ghost use Rattle.answers.specs.Replies.{answer_reply};
ghost use Rattle.promises.specs.Promises.{reply_to, Promised};

use super::counts::counted;
use admitting::{admit, if_fine};
use answers::{Answer, Refusal};
use counting::rank_from;
use letters::is_name;
use rows::{MOST_ROWS, start};

// On a sound book and for a name: refusal 9, and the answer.
fn rank_in_list(t: &[u16], m: usize, name: &[u8]) -> Answer
    requires { (sound t.now ≡ true) × (m < missions) × (is_name name.now ≡ true) }
    ensures { answer_reply result ≡ reply_to t.now (rank m name.now) }
{
    let mut counts = [0u16; MOST_ROWS];
    counted(t, m, &mut counts)?;
    let r = start(t, m) as usize;
    Ok(rank_from(t, r, name, &counts))
}

pub fn rank(t: &[u16], m: u32, name: &[u8]) -> Answer
    ensures { Promised t.now t.now [] [] (rank m name.now) (answer_reply result) }
{
    admit(t, m, if_fine(is_name(name), Refusal::Name))?;
    rank_in_list(t, m as usize, name)
}
