// The functions of include/book.h, for C, which only a static library offers: each is the function of its name in the
// crate `exports`, and promises the same.
#![tactic(auto)]

ghost use Rattle.std.specs.Prelude.{[], length};
ghost use Rattle.model.specs.Call.Call.{empty, check, ask, next, add, remove, clear, load, load_two, combine, count, rank, nth, write, used};
ghost use Rattle.promises.specs.Promises.{Promised};
ghost use Rattle.exports.specs.Packed.{unpacked_with, unpacked, unpacked_next};

#[unsafe(no_mangle)]
pub extern "C" fn book_empty(table: &mut [u16]) -> u64
    ensures { Promised table.old table.new [] [] empty (unpacked result) }
{
    exports::book_empty(table)
}

#[unsafe(no_mangle)]
pub extern "C" fn book_check(table: &[u16]) -> u64
    ensures { Promised table.now table.now [] [] check (unpacked result) }
{
    exports::book_check(table)
}

#[unsafe(no_mangle)]
pub extern "C" fn book_ask(table: &[u16], mission: u32, name: &[u8], followed: &mut u32) -> u64
    ensures { Promised table.now table.now [] [] (ask mission name.now) (unpacked_with followed.new result) }
{
    exports::book_ask(table, mission, name, followed)
}

#[unsafe(no_mangle)]
pub extern "C" fn book_next(table: &[u16], mission: u32, prefix: &[u8], letters: &mut u64) -> u64
    ensures { Promised table.now table.now [] [] (next mission prefix.now) (unpacked_next letters.new result) }
{
    exports::book_next(table, mission, prefix, letters)
}

#[unsafe(no_mangle)]
pub extern "C" fn book_add(table: &mut [u16], mission: u32, name: &[u8]) -> u64
    ensures { Promised table.old table.new [] [] (add mission name.now) (unpacked result) }
{
    exports::book_add(table, mission, name)
}

#[unsafe(no_mangle)]
pub extern "C" fn book_remove(table: &mut [u16], mission: u32, name: &[u8]) -> u64
    ensures { Promised table.old table.new [] [] (remove mission name.now) (unpacked result) }
{
    exports::book_remove(table, mission, name)
}

#[unsafe(no_mangle)]
pub extern "C" fn book_clear(table: &mut [u16], mission: u32) -> u64
    ensures { Promised table.old table.new [] [] (clear mission) (unpacked result) }
{
    exports::book_clear(table, mission)
}

#[unsafe(no_mangle)]
pub extern "C" fn book_load(table: &mut [u16], mission: u32, list: &[u8]) -> u64
    ensures { Promised table.old table.new [] [] (load mission list.now) (unpacked result) }
{
    exports::book_load(table, mission, list)
}

#[unsafe(no_mangle)]
pub extern "C" fn book_load_two<'a>(
    table: &mut [u16],
    mission: u32,
    first: &'a [u8],
    second: &'a [u8],
) -> u64
    ensures { Promised table.old table.new [] [] (load_two mission first.now second.now) (unpacked result) }
{
    exports::book_load_two(table, mission, first, second)
}

#[unsafe(no_mangle)]
pub extern "C" fn book_combine(table: &mut [u16], operation: u32, a: u32, b: u32, c: u32) -> u64
    ensures { Promised table.old table.new [] [] (combine operation a b c) (unpacked result) }
{
    exports::book_combine(table, operation, a, b, c)
}

#[unsafe(no_mangle)]
pub extern "C" fn book_count(table: &[u16], mission: u32) -> u64
    ensures { Promised table.now table.now [] [] (count mission) (unpacked result) }
{
    exports::book_count(table, mission)
}

#[unsafe(no_mangle)]
pub extern "C" fn book_rank(table: &[u16], mission: u32, name: &[u8]) -> u64
    ensures { Promised table.now table.now [] [] (rank mission name.now) (unpacked result) }
{
    exports::book_rank(table, mission, name)
}

#[unsafe(no_mangle)]
pub extern "C" fn book_nth(table: &[u16], mission: u32, n: u32, buffer: &mut [u8]) -> u64
    ensures { Promised table.now table.now buffer.old buffer.new (nth mission n (length buffer.old)) (unpacked result) }
{
    exports::book_nth(table, mission, n, buffer)
}

#[unsafe(no_mangle)]
pub extern "C" fn book_write(table: &[u16], mission: u32, buffer: &mut [u8]) -> u64
    ensures { Promised table.now table.now buffer.old buffer.new (write mission (length buffer.old)) (unpacked result) }
{
    exports::book_write(table, mission, buffer)
}

#[unsafe(no_mangle)]
pub extern "C" fn book_used(table: &[u16]) -> u64
    ensures { Promised table.now table.now [] [] used (unpacked result) }
{
    exports::book_used(table)
}
