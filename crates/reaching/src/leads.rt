// The rows that are still reached when one row is no root any more. How many arcs lead to each row is known, so
// only the rows are visited that nothing leads to any longer.
ghost use Rattle.std.specs.Prelude.{◌+◌, ◌*◌, ◌≤◌, ◌<◌, eqb, length, get_or};
ghost use Rattle.letters.specs.Letters.{letters};
ghost use Rattle.letters.specs.LetterSet.{flag};
ghost use Rattle.model.specs.Lists.{missions};
ghost use Rattle.rows.specs.Table.{most_rows};
ghost use Rattle.rows.specs.Tidy.{Used, Named, Tidy};
ghost use Rattle.rows.specs.Reach.{reached};
ghost use Rattle.index.specs.Arcs.{Arcs, Adds};
ghost use Rattle.reaching.specs.Marks.{Marks};
ghost use Rattle.reaching.specs.Leads.{starts_at, OwesOne, Releases, ReachedWith};

use rows::{MISSIONS, arcs_of, start};

// One more leads to row n. Number 0 stands for no row, as it does in the table, and so it is no Option.
fn lead(leads: &mut [u16], n: usize)
    requires { (n < length leads.old) × (0 < n → get_or leads.old n 0 ≤ most_rows * letters + missions) }
    ensures { Adds (λ s. flag (eqb n s)) leads.old leads.new }
{
    if n == 0 {
        return;
    }
    leads[n] += 1;
}

// Each start leads to its row.
fn lead_starts(t: &[u16], leads: &mut [u16])
    requires { Tidy t.now × Arcs t.now leads.old }
    ensures { Adds (λ s. starts_at t.now missions s) leads.old leads.new }
{
    for m in 0..MISSIONS {
        lead(leads, start(t, m) as usize);
    }
}

// One less leads to row n. Where nothing does any more, its arcs lead nowhere either. Targets are lower than their
// row.
fn release(t: &[u16], leads: &mut [u16], n: usize)
    requires { Tidy t.now × Used t.now n × OwesOne t.now leads.old n }
    ensures { Releases t.now n leads.old leads.new }
{
    leads[n] -= 1;
    if leads[n] != 0 {
        return;
    }
    for (_, s) in arcs_of(t, n) {
        release(t, leads, s);
    }
}

// Marks the rows that are reached from the starts, in an array of the arcs that lead to each row. Every row in use is
// reached from them or from one row more.
pub fn mark_without(t: &[u16], more: u16, keep: &mut [u16])
    requires { Tidy t.now × Named t.now more × Arcs t.now keep.old × ReachedWith t.now more }
    ensures { Marks t.now (λ s. reached t.now s) keep.new }
{
    lead_starts(t, keep);
    lead(keep, more as usize);
    if more == 0 {
        return;
    }
    release(t, keep, more as usize);
}
