// "combine the lists of missions a and b into the empty list of mission c".
ghost use Rattle.std.specs.Prelude.{◌≡◌, [], ltb};
ghost use Rattle.letters.specs.LetterSet.{flag};
ghost use Rattle.model.specs.Call.Call.{combine};
ghost use Rattle.model.specs.Refusals.{is_operation};
ghost use Rattle.rows.specs.Table.{start};
ghost use Rattle.index.specs.Index.{Indexed};
ghost use Rattle.answers.specs.Replies.{answer_reply};
ghost use Rattle.promises.specs.Promises.{Changes, Promised};
ghost use Rattle.filling.specs.Filling.{highest, Combinable};

use super::rooms::no_room;
use admitting::{admit_indexed, if_fine};
use answers::{Answer, Refusal};
use ending::settled;
use growing::Full;
use index::INDEX;
use pairing::combine_rows;
use rows::start;
use settling::settle;

// "combine 1 if the result has a name, else 0".
fn has_names(r: u16) -> u32
    ensures { result ≡ flag (ltb 0 r) }
{
    u32::from(0 < r)
}

// On a sound book, two lists into that of a mission that has none.
fn fill_combined(t: &mut [u16], index: &mut [u16], op: u32, a: usize, b: usize, c: usize) -> Answer
    requires { Combinable t.old op a b c × Indexed t.old index.old × (start t.old c ≡ 0) }
    ensures { Changes t.old t.new (combine op a b c) (answer_reply result) }
{
    let p = start(t, a);
    let q = start(t, b);
    match combine_rows(t, index, op, p, q) {
        Ok(r) => settled(settle(t, index, c, r), has_names(r)),
        Err(Full) => no_room(t),
    }
}

// On a sound book: refusal 8, and the rest.
fn combine_lists(t: &mut [u16], index: &mut [u16], op: u32, a: usize, b: usize, c: usize) -> Answer
    requires { Combinable t.old op a b c × Indexed t.old index.old }
    ensures { Changes t.old t.new (combine op a b c) (answer_reply result) }
{
    if start(t, c) != 0 {
        return Err(Refusal::NotEmpty);
    }
    fill_combined(t, index, op, a, b, c)
}

// "operation not 1, 2 or 3" is refused.
fn is_operation(op: u32) -> bool
    ensures { result ≡ is_operation op }
{
    (1..=3).contains(&op)
}

// The greatest of three mission numbers: if it is a mission's, all are.
fn highest(a: u32, b: u32, c: u32) -> u32
    ensures { result ≡ highest a b c }
{
    a.max(b).max(c)
}

pub fn combine(t: &mut [u16], op: u32, a: u32, b: u32, c: u32) -> Answer
    ensures { Promised t.old t.new [] [] (combine op a b c) (answer_reply result) }
{
    let mut index = [0u16; INDEX];
    let operation = if_fine(is_operation(op), Refusal::Operation);
    admit_indexed(t, highest(a, b, c), operation, &mut index)?;
    combine_lists(t, &mut index, op, a as usize, b as usize, c as usize)
}
