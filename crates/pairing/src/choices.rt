// The three operations: "1 both together, 2 common names, 3 names of a that b has not".
ghost use Rattle.std.specs.Prelude.{◌≡◌};
ghost use Rattle.model.specs.Rules.{chosen};
ghost use Rattle.pairing.specs.Pairs.{or_none, at_once};

// Is a word in the result, by whether it is among the words of each row?
// op is a number: whoever combines may give any, and a narrower type would ask more of the caller.
pub fn chosen(op: u32, a: bool, b: bool) -> bool
    ensures { result ≡ chosen op a b }
{
    if op == 1 {
        return a | b;
    }
    if op == 2 {
        return a & b;
    }
    a & !b
}

// The row, or 0, the table's own number for none.
fn or_none(wanted: bool, r: u16) -> u16
    ensures { result ≡ or_none wanted r }
{
    if wanted { r } else { 0 }
}

// The row of a pair that is settled at once: of one row twice, or with a missing row.
pub fn at_once(op: u32, p: u16, q: u16) -> u16
    ensures { result ≡ at_once op p q }
{
    if p == 0 {
        return or_none(chosen(op, false, true), q);
    }
    or_none(chosen(op, true, p == q), p)
}
