// Two lists for load: whose name is the next at some places, and the places behind it.
ghost use Rattle.std.specs.Prelude.{◌≡◌};
ghost use Rattle.merging.specs.Merging.{turn_of, places_after};

use super::places::{Places, Turn};
use letters::{name_at, name_end, order_of};
use std::cmp::Ordering;

// Two lists for load, taken together name by name.
#[derive(Clone, Copy)]
pub struct TwoLists<'a> {
    pub first: &'a [u8],
    pub second: &'a [u8],
}

impl<'a> TwoLists<'a> {
    // "The next name of the two is the smaller".
    pub fn whose_turn(&self, at: Places) -> Turn
        ensures { result ≡ turn_of self.now.first.now self.now.second.now at }
    {
        let i = at.first;
        let j = at.second;
        if self.first.len() <= i {
            if self.second.len() <= j {
                return Turn::Neither;
            }
            return Turn::Second;
        }
        if self.second.len() <= j {
            return Turn::First;
        }
        match order_of(name_at(self.first, i), name_at(self.second, j)) {
            Ordering::Less => Turn::First,
            Ordering::Equal => Turn::Both,
            Ordering::Greater => Turn::Second,
        }
    }

    // The places behind the next name: "on a tie it is the first list's and both move on".
    pub fn places_after(&self, at: Places) -> Places
        ensures { result ≡ places_after self.now.first.now self.now.second.now at }
    {
        let i = at.first;
        let j = at.second;
        match self.whose_turn(at) {
            Turn::First => Places {
                first: name_end(self.first, i) + 1,
                second: j,
            },
            Turn::Both => Places {
                first: name_end(self.first, i) + 1,
                second: name_end(self.second, j) + 1,
            },
            Turn::Second => Places {
                first: i,
                second: name_end(self.second, j) + 1,
            },
            Turn::Neither => at,
        }
    }
}
