// "next: which letters may follow a prefix on a mission's list?"
ghost use Rattle.std.specs.Prelude.{◌<◌, ◌≡◌, true, []};
ghost use Rattle.letters.specs.Letters.{letters};
ghost use Rattle.letters.specs.Names.{is_prefix};
ghost use Rattle.letters.specs.LetterSet.{sum_of, count_of};
ghost use Rattle.model.specs.Lists.{missions};
ghost use Rattle.model.specs.Call.Call.{next};
ghost use Rattle.rows.specs.Table.{length_ok};
ghost use Rattle.rows.specs.Walk.{has_arc};
ghost use Rattle.answers.specs.Replies.{done_both, next_reply};
ghost use Rattle.promises.specs.Walks.{next_walk};
ghost use Rattle.promises.specs.Promises.{Promised};
ghost use Rattle.calls.specs.Words.{word_reply};

use admitting::admit_walk;
use answers::{Following, Refusal};
use letters::{letter_count, long_as_prefix};
use walking::{letter_set, walk_word};

// "next reports each letter whose target is a row."
fn following(t: &[u16], row: usize) -> Following
    ensures { next_reply (Ok result) ≡ done_both (sum_of letters (λ x. has_arc t.now row x)) (count_of letters (λ x. has_arc t.now row x)) }
{
    let set = letter_set(t, row);
    Following {
        set,
        count: letter_count(set),
    }
}

// 4, and what the walk finds.
fn next_walk(t: &[u16], m: usize, prefix: &[u8]) -> Result<Following, Refusal>
    requires { (length_ok t.now ≡ true) × (m < missions) }
    ensures { next_reply result ≡ word_reply (is_prefix prefix.now) (next_walk t.now m prefix.now) }
{
    let end = walk_word(t, m, prefix, long_as_prefix(prefix)).ok_or(Refusal::Name)?;
    Ok(following(t, end.row))
}

pub fn next(t: &[u16], m: u32, prefix: &[u8]) -> Result<Following, Refusal>
    ensures { Promised t.now t.now [] [] (next m prefix.now) (next_reply result) }
{
    admit_walk(t, m)?;
    next_walk(t, m as usize, prefix)
}
