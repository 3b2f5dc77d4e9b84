// The call that a line asks for.
ghost use Rattle.std.specs.Prelude.{[]};
ghost use Rattle.promises.specs.Promises.{Promised};
ghost use Rattle.lines.specs.Requests.{call_of};

use super::requests::Kind;
use answers::Reply;
use calls::ask;
use changing::{add, remove};
use ranking::count;

// Makes the call that is asked for. A match and no table of functions: the calls take and answer different things.
pub fn call(t: &mut [u16], kind: Kind, m: u32, name: &[u8]) -> Reply
    ensures { Promised t.old t.new [] [] (call_of kind m name.now) result }
{
    match kind {
        Kind::Add => Reply::from(add(t, m, name)),
        Kind::Remove => Reply::from(remove(t, m, name)),
        Kind::Ask => Reply::from(ask(t, m, name)),
        Kind::Count => Reply::from(count(t, m)),
    }
}
