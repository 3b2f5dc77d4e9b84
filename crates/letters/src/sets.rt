// A set of letters as a 64-bit number: bit x is set where letter x is in the set.
ghost use Rattle.std.specs.Prelude.{◌≡◌, ◌+◌, ◌-◌, ◌^◌, ◌≤◌, ◌<◌};
ghost use Rattle.std.specs.Int.Count.{ones, count_trailing_zeros};
ghost use Rattle.letters.specs.Letters.{letters};

// The set with letter x, which stands behind all that it has.
pub fn with_letter(set: u64, x: usize) -> u64
    requires { (x < letters) × (set < 2 ^ x) }
    ensures { result ≡ 2 ^ x + set }
{
    set + (1u64 << x)
}

// The set without letter x, which it has.
pub fn without_letter(set: u64, x: usize) -> u64
    requires { (x < letters) × (2 ^ x ≤ set) }
    ensures { result ≡ set - 2 ^ x }
{
    set - (1u64 << x)
}

// The number of letters in the set.
pub fn letter_count(set: u64) -> u32
    ensures { result ≡ ones set }
{
    u64::count_ones(set)
}

// The first letter of the set, or 64 for the empty set.
pub fn first_letter(set: u64) -> u32
    ensures { result ≡ count_trailing_zeros 64 set }
{
    u64::trailing_zeros(set)
}
