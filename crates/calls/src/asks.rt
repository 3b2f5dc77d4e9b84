// "ask: is a name on a mission's list?"
ghost use Rattle.std.specs.Prelude.{◌<◌, ◌≡◌, true, []};
ghost use Rattle.letters.specs.LetterSet.{flag};
ghost use Rattle.letters.specs.Names.{is_name};
ghost use Rattle.model.specs.Lists.{missions};
ghost use Rattle.model.specs.Call.Call.{ask};
ghost use Rattle.rows.specs.Table.{length_ok, ends};
ghost use Rattle.answers.specs.Replies.{done_both, ask_reply};
ghost use Rattle.promises.specs.Walks.{ask_walk};
ghost use Rattle.promises.specs.Promises.{Promised};
ghost use Rattle.calls.specs.Words.{word_reply};

use admitting::admit_walk;
use answers::{Asked, Refusal};
use letters::long_as_name;
use walking::{ends, walk_word};

// "ask says 1 exactly when the walk ends on a row with mark 2."
fn asked(t: &[u16], row: usize, followed: u32) -> Asked
    ensures { ask_reply (Ok result) ≡ done_both (flag (ends t.now row)) followed }
{
    if ends(t, row) {
        Asked::OnList(followed)
    } else {
        Asked::NotOnList(followed)
    }
}

// 4, and what the walk finds.
fn ask_walk(t: &[u16], m: usize, name: &[u8]) -> Result<Asked, Refusal>
    requires { (length_ok t.now ≡ true) × (m < missions) }
    ensures { ask_reply result ≡ word_reply (is_name name.now) (ask_walk t.now m name.now) }
{
    let end = walk_word(t, m, name, long_as_name(name)).ok_or(Refusal::Name)?;
    Ok(asked(t, end.row, end.followed as u32))
}

pub fn ask(t: &[u16], m: u32, name: &[u8]) -> Result<Asked, Refusal>
    ensures { Promised t.now t.now [] [] (ask m name.now) (ask_reply result) }
{
    admit_walk(t, m)?;
    ask_walk(t, m as usize, name)
}
