// "load a rising list of names into an empty list", and 02's wish 2: the lists of two desks as one. A load of one list
// is the load of two of which the second is empty.
ghost use Rattle.std.specs.Prelude.{◌≡◌, ◌&&◌, []};
ghost use Rattle.letters.specs.Lists.{is_list};
ghost use Rattle.model.specs.Call.Call.{load, load_two};
ghost use Rattle.rows.specs.Table.{start};
ghost use Rattle.index.specs.Index.{Indexed};
ghost use Rattle.answers.specs.Replies.{answer_reply};
ghost use Rattle.promises.specs.Promises.{Changes, Promised};
ghost use Rattle.filling.specs.Filling.{Loadable};

use super::rooms::no_room;
use admitting::{admit_indexed, if_fine};
use answers::{Answer, Refusal};
use building::build_lists;
use ending::settled;
use growing::Full;
use index::INDEX;
use letters::is_list;
use merging::TwoLists;
use rows::start;
use settling::settle;

// On a sound book, two lists for a mission that has none.
fn fill_lists(t: &mut [u16], index: &mut [u16], m: usize, lists: &TwoLists<'_>) -> Answer
    requires { Loadable t.old m lists.now.first.now lists.now.second.now × Indexed t.old index.old × (start t.old m ≡ 0) }
    ensures { Changes t.old t.new (load_two m lists.now.first.now lists.now.second.now) (answer_reply result) }
{
    let names = lists.name_count() as u32;
    match build_lists(t, index, lists) {
        Ok(r) => settled(settle(t, index, m, r), names),
        Err(Full) => no_room(t),
    }
}

// On a sound book: refusal 8, and the rest. Not one function with `combine_lists`: what makes the row would be a closure,
// and its promise, on a table and an index that it changes, would stand in each clause.
fn load_lists(t: &mut [u16], index: &mut [u16], m: usize, lists: &TwoLists<'_>) -> Answer
    requires { Loadable t.old m lists.now.first.now lists.now.second.now × Indexed t.old index.old }
    ensures { Changes t.old t.new (load_two m lists.now.first.now lists.now.second.now) (answer_reply result) }
{
    if start(t, m) != 0 {
        return Err(Refusal::NotEmpty);
    }
    fill_lists(t, index, m, lists)
}

// "5 if either is no list".
fn are_lists(lists: &TwoLists<'_>) -> bool
    ensures { result ≡ (is_list lists.now.first.now && is_list lists.now.second.now) }
{
    is_list(lists.first) && is_list(lists.second)
}

pub fn load_two<'a>(t: &mut [u16], m: u32, first: &'a [u8], second: &'a [u8]) -> Answer
    ensures { Promised t.old t.new [] [] (load_two m first.now second.now) (answer_reply result) }
{
    let mut index = [0u16; INDEX];
    let lists = TwoLists { first, second };
    let listed = if_fine(are_lists(&lists), Refusal::List);
    admit_indexed(t, m, listed, &mut index)?;
    load_lists(t, &mut index, m as usize, &lists)
}

pub fn load(t: &mut [u16], m: u32, list: &[u8]) -> Answer
    ensures { Promised t.old t.new [] [] (load m list.now) (answer_reply result) }
{
    load_two(t, m, list, &list[0..0])
}
