// May a call go on to the lists?
ghost use Rattle.std.specs.Prelude.{◌≡◌, replicate, OnOk};
ghost use Rattle.model.specs.Refusals.{given};
ghost use Rattle.index.specs.Index.{index_length, Indexed};
ghost use Rattle.promises.specs.Books.{book_of};
ghost use Rattle.admitting.specs.Admissions.{admission_number, if_fine, book_tests, walk_tests, first_tests};

use answers::Refusal;
use index::INDEX;
use rows::{MISSIONS, length_ok};
use rules::{sound, sound_indexed};

// What was found of a call's arguments: they are fine, or refused so.
pub fn if_fine(fine: bool, otherwise: Refusal) -> Result<(), Refusal>
    ensures { result ≡ if_fine fine otherwise }
{
    if fine { Ok(()) } else { Err(otherwise) }
}

// 1 and 7: the tests of a call on the whole book.
pub fn admit_book(t: &[u16]) -> Result<(), Refusal>
    ensures { admission_number result ≡ given (book_tests (book_of t.now)) }
{
    if !length_ok(t) {
        return Err(Refusal::Length);
    }
    if !sound(t) {
        return Err(Refusal::NotSound);
    }
    Ok(())
}

// 1 and 2: the first tests of a call on a mission's list. One that works on any numbers finds by its walk whether 4
// applies, and has no others.
pub fn admit_walk(t: &[u16], m: u32) -> Result<(), Refusal>
    ensures { admission_number result ≡ given (walk_tests (book_of t.now) m) }
{
    if !length_ok(t) {
        return Err(Refusal::Length);
    }
    if MISSIONS <= m as usize {
        return Err(Refusal::Mission);
    }
    Ok(())
}

// The same, what was found of the other arguments, and then 7: the tests of a call on a mission's list. For a call that
// makes rows, the index of the book is built on the way, in an array of zeros.
pub fn admit_indexed(
    t: &[u16],
    m: u32,
    arguments: Result<(), Refusal>,
    index: &mut [u16],
) -> Result<(), Refusal>
    requires { index.old ≡ replicate index_length 0 }
    ensures number { admission_number result ≡ given (first_tests (book_of t.now) m arguments) }
    ensures indexed { OnOk result (Indexed t.now index.new) }
{
    admit_walk(t, m)?;
    arguments?;
    if_fine(sound_indexed(t, index), Refusal::NotSound)
}

// The same for a call that makes no rows.
pub fn admit(t: &[u16], m: u32, arguments: Result<(), Refusal>) -> Result<(), Refusal>
    ensures { admission_number result ≡ given (first_tests (book_of t.now) m arguments) }
{
    let mut index = [0u16; INDEX];
    admit_indexed(t, m, arguments, &mut index)
}
