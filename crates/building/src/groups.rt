// The row for a group of names.
ghost use Rattle.std.specs.Prelude.{◌≡◌, true};
ghost use Rattle.letters.specs.Lists.{is_list, names_of};
ghost use Rattle.sets.specs.Sets.{both};
ghost use Rattle.rows.specs.Table.{row_count};
ghost use Rattle.rows.specs.Tidy.{Tidy};
ghost use Rattle.index.specs.Index.{Indexed};
ghost use Rattle.growing.specs.Growing.{Makes};
ghost use Rattle.building.specs.Groups.{Begins};
ghost use Rattle.building.specs.Building.{Builds};

use super::depths::{Ahead, first_ahead, next_at};
use growing::{Full, end_mark, make};
use letters::{LETTERS, letter_of};
use merging::{Places, TwoLists};

// The row of a group, and what is ahead of its letters behind its names.
#[derive(Clone, Copy)]
pub struct Group {
    pub row: u16,
    pub ahead: Ahead,
}

// The names from some places on that begin with so many letters of the next name there: what is left of
// them after these.
fn build<'a>(
    t: &mut [u16],
    index: &mut [u16],
    lists: &TwoLists<'a>,
    at: Places,
    name: &'a [u8],
    depth: usize,
) -> Result<Group, Full>
    requires { Tidy t.old × Indexed t.old index.old × Begins lists.now.first.now lists.now.second.now at name.now depth }
    ensures builds { Builds t.old t.new lists.now.first.now lists.now.second.now at name.now depth result }
    ensures indexed { Indexed t.new index.new }
{
    let mut ahead = first_ahead(lists, at, name, depth);
    let mut targets = [0u16; LETTERS];
    // A while: it goes on as long as what the group before hands back is deep enough; nothing is counted.
    while depth < ahead.deep {
        let places = ahead.places;
        let next = next_at(lists, at, name, places);
        let x = letter_of(next[depth]);
        let group = build(t, index, lists, places, next, depth + 1)?;
        targets[x] = group.row;
        ahead = group.ahead;
    }
    let row = make(t, index, end_mark(name.len() == depth), targets)?;
    Ok(Group { row, ahead })
}

// The row for the names of two lists, each once. "No bytes is the empty list."
pub fn build_lists(t: &mut [u16], index: &mut [u16], lists: &TwoLists<'_>) -> Result<u16, Full>
    requires { Tidy t.old × Indexed t.old index.old × (is_list lists.now.first.now ≡ true) × (is_list lists.now.second.now ≡ true) }
    ensures makes { Makes (row_count t.old) t.old t.new (both (names_of lists.now.first.now) (names_of lists.now.second.now)) result }
    ensures indexed { Indexed t.new index.new }
{
    let at = Places {
        first: 0,
        second: 0,
    };
    let name = lists.next_part(at);
    if name.len() == 0 {
        return Ok(0);
    }
    let group = build(t, index, lists, at, name, 0)?;
    Ok(group.row)
}
