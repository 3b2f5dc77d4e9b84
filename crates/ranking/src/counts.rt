// "count the names".
ghost use Rattle.std.specs.Prelude.{◌≤◌, ◌<◌, ◌≡◌, true, [], length, replicate, OnOk, IfOk, IfErr};
ghost use Rattle.sets.specs.Cut.{most_names};
ghost use Rattle.model.specs.Lists.{missions, list_of};
ghost use Rattle.model.specs.Call.Call.{count};
ghost use Rattle.rows.specs.Table.{most_rows, start};
ghost use Rattle.rows.specs.Words.{lists};
ghost use Rattle.rows.specs.Rules.{sound};
ghost use Rattle.answers.specs.declared.cases.Refusal.TheVariants.{TooMany};
ghost use Rattle.answers.specs.Replies.{answer_reply};
ghost use Rattle.counting.specs.Counts.{Counts, Counted};
ghost use Rattle.promises.specs.Promises.{reply_to, Promised};

use admitting::admit;
use answers::{Answer, Refusal};
use counting::{MOST_NAMES, count_names};
use rows::MOST_ROWS;

// Counts the words from the rows of a mission's list, and says how many names it has. 9: "the list has over 60,000 names".
pub fn counted(t: &[u16], m: usize, counts: &mut [u16]) -> Result<u16, Refusal>
    requires { (sound t.now ≡ true) × (m < missions) × (counts.old ≡ replicate most_rows 0) }
    ensures counted { OnOk result (Counts t.now counts.new × Counted t.now counts.new (start t.now m)) }
    ensures number { IfOk result (λ k. k ≡ length (list_of (lists t.now) m)) }
    ensures few { OnOk result (length (list_of (lists t.now) m) ≤ most_names) }
    ensures over { IfErr result (λ r. (r ≡ TooMany) × (most_names < length (list_of (lists t.now) m))) }
{
    let names = count_names(t, m, counts);
    if MOST_NAMES < names {
        return Err(Refusal::TooMany);
    }
    Ok(names)
}

// On a sound book: refusal 9, and the answer.
fn count_list(t: &[u16], m: usize) -> Answer
    requires { (sound t.now ≡ true) × (m < missions) }
    ensures { answer_reply result ≡ reply_to t.now (count m) }
{
    let mut counts = [0u16; MOST_ROWS];
    let names = counted(t, m, &mut counts)?;
    Ok(names as u32)
}

#[tactic(auto, unfolding(model::specs::Run::run))]
pub fn count(t: &[u16], m: u32) -> Answer
    ensures { Promised t.now t.now [] [] (count m) (answer_reply result) }
{
    admit(t, m, Ok(()))?;
    count_list(t, m as usize)
}
