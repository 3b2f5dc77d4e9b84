// What is ahead of a group's letters: the places of the next name, and how deep it is in the group.
ghost use Rattle.std.specs.Prelude.{◌≡◌, eqb};
ghost use Rattle.letters.specs.Letters.{letter};
ghost use Rattle.letters.specs.Words.{word_of};
ghost use Rattle.model.specs.Prefixes.{shared};
ghost use Rattle.merging.specs.Merging.{next_bytes};
ghost use Rattle.building.specs.Groups.{Begins, first_places, opening, Deep, depth_of};

use letters::letter_of;
use merging::{Places, TwoLists};

// The places of the next name, and its depth in the group: one more than the letters that it shares with
// the group's; 0 where there is no next name, and no Option, since it is compared with depths.
#[derive(Clone, Copy)]
pub struct Ahead {
    pub places: Places,
    pub deep: usize,
}

// Are two bytes the same letter? Most that are, are the same byte.
fn same_letter(a: u8, b: u8) -> bool
    ensures { result ≡ eqb (letter a) (letter b) }
{
    if a == b {
        return true;
    }
    letter_of(a) == letter_of(b)
}

// How many letters do two names begin with alike?
fn shared_letters(a: &[u8], b: &[u8]) -> usize
    ensures { result ≡ shared (word_of a.now) (word_of b.now) }
{
    a.iter()
        .zip(b)
        .take_while(|(x, y)| same_letter(**x, **y))
        .count()
}

// How deep the next name is in the group of a name's letters.
fn depth_of(name: &[u8], next: &[u8]) -> usize
    ensures { result ≡ depth_of (word_of name.now) next.now }
{
    if next.len() == 0 {
        return 0;
    }
    shared_letters(name, next) + 1
}

// Where a group goes on: the first name may be the group's letters alone, and is then passed.
pub fn first_ahead(lists: &TwoLists<'_>, at: Places, name: &[u8], depth: usize) -> Ahead
    requires { Begins lists.now.first.now lists.now.second.now at name.now depth }
    ensures places { result.places ≡ first_places lists.now.first.now lists.now.second.now at name.now depth }
    ensures deep { Deep lists.now.first.now lists.now.second.now (opening name.now depth) result }
{
    if depth < name.len() {
        return Ahead {
            places: at,
            deep: depth + 1,
        };
    }
    let places = lists.places_after(at);
    let deep = depth_of(name, lists.next_part(places));
    Ahead { places, deep }
}

// The next name at some places. The one at `at` is held already: it is not looked for again at each of its
// letters.
pub fn next_at<'a>(lists: &TwoLists<'a>, at: Places, name: &'a [u8], places: Places) -> &'a [u8]
    requires { name.now ≡ next_bytes lists.now.first.now lists.now.second.now at }
    ensures { result.now ≡ next_bytes lists.now.first.now lists.now.second.now places }
{
    if places == at {
        return name;
    }
    lists.next_part(places)
}
