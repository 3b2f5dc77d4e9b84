// No row is free for a new list.
ghost use Rattle.std.specs.Prelude.{◌≡◌, Err};
ghost use Rattle.rows.specs.Tidy.{Tidy};
ghost use Rattle.rows.specs.Reach.{swept};
ghost use Rattle.answers.specs.declared.cases.Refusal.TheVariants.{NoRoom};

use answers::{Answer, Refusal};
use settling::sweep;

// The rows that were made are freed: the table is the one that was grown from.
pub fn no_room(t: &mut [u16]) -> Answer
    requires { Tidy t.old }
    ensures answer { result ≡ Err NoRoom }
    ensures table { t.new ≡ swept t.old }
{
    sweep(t);
    Err(Refusal::NoRoom)
}
