// The calls under the names of include/book.h, as `exports_c` offers them to script hosts, tests and benchmarks. Each
// does one call and packs its reply into one number, from which a host takes it again.
#![tactic(auto)]

ghost use Rattle.std.specs.Prelude.{◌≡◌, [], length};
ghost use Rattle.answers.specs.Replies.{answer_reply};
ghost use Rattle.model.specs.Call.Call.{empty, check, ask, next, add, remove, clear, load, load_two, combine, count, rank, nth, write, used};
ghost use Rattle.promises.specs.Promises.{Promised};
ghost use Rattle.exports.specs.Packed.{packed, unpacked_with, unpacked, unpacked_next};

use answers::{Answer, Reply, refusal_number};

// 2 to the power 32.
const RADIX: u64 = 4294967296;

// "Each call answers a number and a value": both in one number.
fn packed(number: u32, value: u32) -> u64
    ensures { result ≡ packed number value }
{
    number as u64 * RADIX + value as u64
}

fn packed_answer(a: Answer) -> u64
    ensures { unpacked result ≡ answer_reply a }
{
    match a {
        Ok(value) => packed(0, value),
        Err(r) => packed(refusal_number(r), 0),
    }
}

pub fn book_empty(table: &mut [u16]) -> u64
    ensures { Promised table.old table.new [] [] empty (unpacked result) }
{
    packed_answer(calls::empty(table))
}

pub fn book_check(table: &[u16]) -> u64
    ensures { Promised table.now table.now [] [] check (unpacked result) }
{
    packed_answer(calls::check(table))
}

// "ask shall also report the arcs it followed": they go to a number of the caller's.
pub fn book_ask(table: &[u16], mission: u32, name: &[u8], followed: &mut u32) -> u64
    ensures { Promised table.now table.now [] [] (ask mission name.now) (unpacked_with followed.new result) }
{
    let reply = Reply::from(calls::ask(table, mission, name));
    *followed = reply.second;
    packed(reply.number, reply.value as u32)
}

// "The number of letters that may follow is also answered": here it is the value, and the letters go
// to a number of the caller's.
pub fn book_next(table: &[u16], mission: u32, prefix: &[u8], letters: &mut u64) -> u64
    ensures { Promised table.now table.now [] [] (next mission prefix.now) (unpacked_next letters.new result) }
{
    let reply = Reply::from(calls::next(table, mission, prefix));
    *letters = reply.value;
    packed(reply.number, reply.second)
}

pub fn book_add(table: &mut [u16], mission: u32, name: &[u8]) -> u64
    ensures { Promised table.old table.new [] [] (add mission name.now) (unpacked result) }
{
    packed_answer(changing::add(table, mission, name))
}

pub fn book_remove(table: &mut [u16], mission: u32, name: &[u8]) -> u64
    ensures { Promised table.old table.new [] [] (remove mission name.now) (unpacked result) }
{
    packed_answer(changing::remove(table, mission, name))
}

pub fn book_clear(table: &mut [u16], mission: u32) -> u64
    ensures { Promised table.old table.new [] [] (clear mission) (unpacked result) }
{
    packed_answer(changing::clear(table, mission))
}

pub fn book_load(table: &mut [u16], mission: u32, list: &[u8]) -> u64
    ensures { Promised table.old table.new [] [] (load mission list.now) (unpacked result) }
{
    packed_answer(filling::load(table, mission, list))
}

pub fn book_load_two<'a>(table: &mut [u16], mission: u32, first: &'a [u8], second: &'a [u8]) -> u64
    ensures { Promised table.old table.new [] [] (load_two mission first.now second.now) (unpacked result) }
{
    packed_answer(filling::load_two(table, mission, first, second))
}

pub fn book_combine(table: &mut [u16], operation: u32, a: u32, b: u32, c: u32) -> u64
    ensures { Promised table.old table.new [] [] (combine operation a b c) (unpacked result) }
{
    packed_answer(filling::combine(table, operation, a, b, c))
}

pub fn book_count(table: &[u16], mission: u32) -> u64
    ensures { Promised table.now table.now [] [] (count mission) (unpacked result) }
{
    packed_answer(ranking::count(table, mission))
}

pub fn book_rank(table: &[u16], mission: u32, name: &[u8]) -> u64
    ensures { Promised table.now table.now [] [] (rank mission name.now) (unpacked result) }
{
    packed_answer(ranking::rank(table, mission, name))
}

pub fn book_nth(table: &[u16], mission: u32, n: u32, buffer: &mut [u8]) -> u64
    ensures { Promised table.now table.now buffer.old buffer.new (nth mission n (length buffer.old)) (unpacked result) }
{
    packed_answer(ranking::nth(table, mission, n, buffer))
}

pub fn book_write(table: &[u16], mission: u32, buffer: &mut [u8]) -> u64
    ensures { Promised table.now table.now buffer.old buffer.new (write mission (length buffer.old)) (unpacked result) }
{
    packed_answer(ranking::write(table, mission, buffer))
}

pub fn book_used(table: &[u16]) -> u64
    ensures { Promised table.now table.now [] [] used (unpacked result) }
{
    packed_answer(calls::used(table))
}
