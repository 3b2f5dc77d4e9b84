// The next name of two lists, as a part of one of them, and how many names the two have.
ghost use Rattle.std.specs.Prelude.{◌≡◌, true, length};
ghost use Rattle.letters.specs.Lists.{is_list, names_of};
ghost use Rattle.sets.specs.Sets.{both};
ghost use Rattle.merging.specs.Merging.{NextPart, NextName};

use super::lists::TwoLists;
use super::places::{Places, Turn};
use letters::{is_list, name_at};

impl<'a> TwoLists<'a> {
    // The next name of two lists, as the part of whichever list it stands in; an empty part at the end
    // of both.
    pub fn next_part(&self, at: Places) -> &'a [u8]
        ensures { NextPart self.now.first self.now.second at result }
    {
        let i = at.first;
        let j = at.second;
        // A tie has an arm of its own: so a program that takes the second list there is refused for what it hands over.
        match self.whose_turn(at) {
            Turn::First => name_at(self.first, i),
            Turn::Both => name_at(self.first, i),
            Turn::Second => name_at(self.second, j),
            Turn::Neither => &self.first[0..0],
        }
    }

    // The same of any bytes: an empty part also if either is no list. It tests both lists each time, so
    // whoever takes name after name tests them once, and then takes next_part.
    pub fn next_name(&self, at: Places) -> &'a [u8]
        ensures { NextName self.now.first self.now.second at result }
    {
        if !is_list(self.first) {
            return &self.first[0..0];
        }
        if !is_list(self.second) {
            return &self.second[0..0];
        }
        self.next_part(at)
    }

    // "the number of different names".
    pub fn name_count(&self) -> usize
        requires { (is_list self.now.first.now ≡ true) × (is_list self.now.second.now ≡ true) }
        ensures { result ≡ length (both (names_of self.now.first.now) (names_of self.now.second.now)) }
    {
        let mut at = Places {
            first: 0,
            second: 0,
        };
        let mut n = 0;
        // A while: it goes on by the places behind each name, in two lists at once.
        while at.first + at.second < self.first.len() + self.second.len() {
            at = self.places_after(at);
            n += 1;
        }
        n
    }
}
