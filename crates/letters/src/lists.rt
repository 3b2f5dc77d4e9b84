// Lists for load: is it one, and its names one by one.
ghost use Rattle.std.specs.Prelude.{◌≤◌, ◌≡◌, ◌&&◌, length};
ghost use Rattle.letters.specs.Each.{every};
ghost use Rattle.letters.specs.Names.{is_name};
ghost use Rattle.letters.specs.Parts.{Part};
ghost use Rattle.letters.specs.Lists.{name_at, name_end, lines_of, ended, rises, names_of, is_list};

use super::names::{is_before, is_name};

// "each name followed by 0x0A".
pub const LINE_END: u8 = 0x0A;

// The most bytes of a list.
pub const LONGEST_LIST: usize = 65535;

// Where the name that starts at a place ends: at the first line end from there on, or where the
// list ends.
pub fn name_end(s: &[u8], at: usize) -> usize
    ensures { result ≡ name_end s.now at }
{
    for i in at..s.len() {
        if s[i] == LINE_END {
            return i;
        }
    }
    at.max(s.len())
}

// The name that starts at a place, as a part of the list.
pub fn name_at(s: &[u8], at: usize) -> &[u8]
    ensures bytes { result.now ≡ name_at s.now at }
    ensures part { at ≤ length s.now → Part s.entry at (name_end s.now at) result }
{
    if s.len() < at {
        return &s[0..0];
    }
    let end = name_end(s, at);
    &s[at..end]
}

// Has every line its end, and is every line a name?
fn all_names(s: &[u8]) -> bool
    ensures { result ≡ (ended s.now && every is_name (lines_of s.now)) }
{
    let mut at = 0;
    // A while: it goes from line to line, and does not count.
    while at < s.len() {
        let end = name_end(s, at);
        if s.len() <= end {
            return false;
        }
        if !is_name(&s[at..end]) {
            return false;
        }
        at = end + 1;
    }
    true
}

// Does each line stand before the next?
fn all_rising(s: &[u8]) -> bool
    ensures { result ≡ rises (names_of s.now) }
{
    if s.len() == 0 {
        return true;
    }
    let mut at = 0;
    let mut end = name_end(s, 0);
    // A while: it goes from line to line, and each step needs two of them.
    while end + 1 < s.len() {
        let next = end + 1;
        let next_end = name_end(s, next);
        if !is_before(&s[at..end], &s[next..next_end]) {
            return false;
        }
        at = next;
        end = next_end;
    }
    true
}

// Is it a list for load?
pub fn is_list(s: &[u8]) -> bool
    ensures { result ≡ is_list s.now }
{
    if LONGEST_LIST < s.len() {
        return false;
    }
    if !all_names(s) {
        return false;
    }
    all_rising(s)
}
