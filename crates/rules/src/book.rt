// Is the table a sound book?
ghost use Rattle.std.specs.Prelude.{◌≡◌, true, replicate};
ghost use Rattle.rows.specs.Rules.{rule7, sound};
ghost use Rattle.index.specs.Index.{index_length, Indexed};

use super::arcs::rule3;
use super::ends::rule4;
use super::head::rule1;
use super::marks::rule2;
use super::pointed::rule5;
use super::twins::rule6;
use index::{INDEX, index_rows, keep_arcs};
use rows::{MOST_ROWS, length_ok, room, row_count, used_rows};

// Rule 7: "At most room rows are in use."
#[tactic(auto, unfolding(rows::specs::Rules::rule7))]
fn rule7(t: &[u16]) -> bool
    ensures { result ≡ rule7 t.now }
{
    used_rows(t) <= room(t)
}

// Builds the index of a sound book on the way, in an array of zeros. A Boolean and no Option of the index: the clause
// `says` is 01's test, and the array is the caller's.
#[tactic(auto, unfolding(rows::specs::Rules::sound))]
pub fn sound_indexed(t: &[u16], index: &mut [u16]) -> bool
    requires { index.old ≡ replicate index_length 0 }
    ensures says { result ≡ sound t.now }
    ensures indexed { result ≡ true → Indexed t.now index.new }
{
    if !length_ok(t) {
        return false;
    }
    if !rule1(t) {
        return false;
    }
    if !rule2(t) {
        return false;
    }
    let mut arcs = [0u16; MOST_ROWS];
    if !rule3(t, &mut arcs, index) {
        return false;
    }
    if !rule4(t) {
        return false;
    }
    if !rule5(t, &arcs) {
        return false;
    }
    keep_arcs(&arcs, row_count(t), index);
    index_rows(t, index);
    if !rule6(t, index) {
        return false;
    }
    rule7(t)
}

pub fn sound(t: &[u16]) -> bool
    ensures { result ≡ sound t.now }
{
    let mut index = [0u16; INDEX];
    sound_indexed(t, &mut index)
}
