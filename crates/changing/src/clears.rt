// "clear one list".
ghost use Rattle.std.specs.Prelude.{◌<◌, ◌≡◌, true, []};
ghost use Rattle.model.specs.Lists.{missions};
ghost use Rattle.model.specs.Call.Call.{clear};
ghost use Rattle.rows.specs.Rules.{sound};
ghost use Rattle.index.specs.Index.{Indexed};
ghost use Rattle.answers.specs.Replies.{answer_reply};
ghost use Rattle.promises.specs.Promises.{Changes, Promised};

use admitting::admit_indexed;
use answers::Answer;
use index::INDEX;
use rows::start;
use settling::settle;

// On a sound book. With no row for the list there is always room.
fn clear_list(t: &mut [u16], index: &[u16], m: usize) -> Answer
    requires { (sound t.old ≡ true) × Indexed t.old index.now × (m < missions) }
    ensures { Changes t.old t.new (clear m) (answer_reply result) }
{
    if start(t, m) == 0 {
        return Ok(0);
    }
    settle(t, index, m, 0);
    Ok(1)
}

pub fn clear(t: &mut [u16], m: u32) -> Answer
    ensures { Promised t.old t.new [] [] (clear m) (answer_reply result) }
{
    let mut index = [0u16; INDEX];
    admit_indexed(t, m, Ok(()), &mut index)?;
    clear_list(t, &index, m as usize)
}
