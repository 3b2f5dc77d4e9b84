// "add and remove one name".
ghost use Rattle.std.specs.Prelude.{◌≡◌, not, []};
ghost use Rattle.letters.specs.Words.{word_of};
ghost use Rattle.sets.specs.Sets.{member};
ghost use Rattle.model.specs.Lists.{list_of};
ghost use Rattle.model.specs.Call.Call.{add, remove};
ghost use Rattle.rows.specs.Words.{lists};
ghost use Rattle.index.specs.Index.{Indexed};
ghost use Rattle.answers.specs.Replies.{answer_reply};
ghost use Rattle.promises.specs.Promises.{Changes, Promised};
ghost use Rattle.changing.specs.Changing.{set_call, Settable};

use admitting::{admit_indexed, if_fine};
use answers::{Answer, Refusal};
use ending::settled;
use growing::Full;
use index::INDEX;
use letters::is_name;
use naming::path;
use rows::start;
use settling::settle;
use walking::has_name;

// On a sound book, a name that is not yet as wanted. The path is never full: it makes at most 25
// rows, and as many are free above the room.
fn change_name(t: &mut [u16], index: &mut [u16], m: usize, name: &[u8], on: bool) -> Answer
    requires { Settable t.old m name.now × Indexed t.old index.old × (member (word_of name.now) (list_of (lists t.old) m) ≡ not on) }
    ensures { Changes t.old t.new (set_call on m name.now) (answer_reply result) }
{
    let r = start(t, m);
    match path(t, index, r, name, on) {
        Ok(n) => settled(settle(t, index, m, n), 1),
        Err(Full) => Err(Refusal::NoRoom),
    }
}

// On a sound book.
fn set_name(t: &mut [u16], index: &mut [u16], m: usize, name: &[u8], on: bool) -> Answer
    requires { Settable t.old m name.now × Indexed t.old index.old }
    ensures { Changes t.old t.new (set_call on m name.now) (answer_reply result) }
{
    if has_name(t, m, name) == on {
        return Ok(0);
    }
    change_name(t, index, m, name, on)
}

// add and remove are one call with a wanted state.
fn set(t: &mut [u16], m: u32, name: &[u8], on: bool) -> Answer
    ensures { Changes t.old t.new (set_call on m name.now) (answer_reply result) }
{
    let mut index = [0u16; INDEX];
    admit_indexed(t, m, if_fine(is_name(name), Refusal::Name), &mut index)?;
    set_name(t, &mut index, m as usize, name, on)
}

pub fn add(t: &mut [u16], m: u32, name: &[u8]) -> Answer
    ensures { Promised t.old t.new [] [] (add m name.now) (answer_reply result) }
{
    set(t, m, name, true)
}

pub fn remove(t: &mut [u16], m: u32, name: &[u8]) -> Answer
    ensures { Promised t.old t.new [] [] (remove m name.now) (answer_reply result) }
{
    set(t, m, name, false)
}
