// Most numbers of a table are 0. A loop that has nothing to do for them goes on at the next that is not,
// and eight are tested at once.
ghost use Rattle.std.specs.Prelude.{◌+◌, ◌≤◌, ◌<◌, ◌≡◌, length};
ghost use Rattle.rows.specs.Skips.{eight_zeros, Skipped, SkippedEights};

// Are the eight numbers from a on 0?
fn eight_zeros(s: &[u16], a: usize) -> bool
    requires { a + 8 ≤ length s.now }
    ensures { result ≡ eight_zeros s.now a }
{
    let mut all = 0u16;
    for n in &s[a..a + 8] {
        all |= *n;
    }
    all == 0
}

// Past zeros, eight at a time. A while: a range with steps has no plainer end where fewer than eight are left.
fn past_eights(s: &[u16], a: usize, end: usize) -> usize
    requires { (a ≤ end) × (end ≤ length s.now) }
    ensures { SkippedEights s.now a end result }
{
    let mut e = a;
    while e + 8 <= end {
        if !eight_zeros(s, e) {
            return e;
        }
        e += 8;
    }
    e
}

// Past zeros, one at a time.
fn past_ones(s: &[u16], a: usize, end: usize) -> usize
    requires { (a ≤ end) × (end ≤ length s.now) }
    ensures { Skipped s.now a end result }
{
    for e in a..end {
        if s[e] != 0 {
            return e;
        }
    }
    end
}

// The first place from a on, and before the end, whose number is not 0; or the end.
pub fn past_zeros(s: &[u16], a: usize, end: usize) -> usize
    requires { (a ≤ end) × (end ≤ length s.now) }
    ensures { Skipped s.now a end result }
{
    let e = past_eights(s, a, end);
    past_ones(s, e, end)
}
