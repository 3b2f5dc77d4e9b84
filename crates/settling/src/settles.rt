// Settling a change.
ghost use Rattle.std.specs.Prelude.{◌<◌, ◌≡◌, length};
ghost use Rattle.model.specs.Lists.{missions};
ghost use Rattle.rows.specs.Tidy.{Tidy};
ghost use Rattle.index.specs.Index.{Indexed};
ghost use Rattle.reaching.specs.Leads.{ReachedWith};
ghost use Rattle.settling.specs.Settled.{with_start, Startable, Settles};

use super::sweeps::{sweep, sweep_if_fits};
use rows::start;

fn set_start(t: &mut [u16], m: usize, r: u16)
    requires { m < length t.old }
    ensures { t.new ≡ with_start t.old m r }
{
    t[m] = r;
}

// The row's words become the list of the mission, if the lists then need no more states than there is
// room. Whether or not, every row that is not reached is free after it. A Boolean and no Result: the rows know no
// refusals, and `settled` of ending says what it is worth.
pub fn settle(t: &mut [u16], index: &[u16], m: usize, r: u16) -> bool
    requires { Tidy t.old × Indexed t.old index.now × (m < missions) × Startable t.old r × ReachedWith t.old r }
    ensures { Settles t.old t.new m r result }
{
    let old = start(t, m);
    set_start(t, m, r);
    if sweep_if_fits(t, index, old) {
        return true;
    }
    set_start(t, m, old);
    sweep(t);
    false
}
