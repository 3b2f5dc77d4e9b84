// From one arc of a row to the next.
ghost use Rattle.std.specs.Prelude.{◌-◌};
ghost use Rattle.std.specs.Iterator.{at_most};
ghost use Rattle.letters.specs.Letters.{letters};
ghost use Rattle.rows.specs.Arcs.{YieldsArc};

use super::arcs::Arcs;
use super::skips::past_zeros;
use letters::LETTERS;

impl<'a> Iterator for Arcs<'a> {
    type Item = (usize, usize);

    ghost next_gives = { YieldsArc };

    ghost remaining = { λ s. at_most (letters - s.from) };

    fn next(&mut self) -> Option<(usize, usize)> {
        let x = past_zeros(self.targets, self.from, LETTERS);
        if x == LETTERS {
            return None;
        }
        self.from = x + 1;
        Some((x, self.targets[x] as usize))
    }
}
