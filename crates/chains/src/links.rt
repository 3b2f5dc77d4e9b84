// The array of chains: number `kind` is the last row of that kind, and number `kinds + r` the row before r
// of r's kind; 0 for none. What is read is the array's own number, and so no Option.
ghost use Rattle.std.specs.Prelude.{◌+◌, ◌<◌, ◌≡◌, length, get_or};
ghost use Rattle.rows.specs.Table.{most_rows};
ghost use Rattle.chains.specs.Chains.{linked};

// The last row of a kind.
pub fn last_of(chains: &[u16], kind: usize) -> usize
    requires { kind < length chains.now }
    ensures { result ≡ get_or chains.now kind 0 }
{
    chains[kind] as usize
}

// The row before r of r's kind.
pub fn behind(chains: &[u16], kinds: usize, r: usize) -> usize
    requires { kinds + r < length chains.now }
    ensures { result ≡ get_or chains.now (kinds + r) 0 }
{
    chains[kinds + r] as usize
}

// Row r, behind all rows that are chained, becomes the last of its kind.
pub fn link(chains: &mut [u16], kinds: usize, kind: usize, r: usize)
    requires { (kinds + r < length chains.old) × (kind < kinds) × (r < most_rows) }
    ensures { chains.new ≡ linked chains.old kinds kind r }
{
    chains[kinds + r] = chains[kind];
    chains[kind] = r as u16;
}
