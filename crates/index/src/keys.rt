// The key of a mark and 37 targets, and the bucket of a key.
ghost use Rattle.std.specs.Prelude.{suc, ◌+◌, ◌*◌, ◌≤◌, ◌<◌, ◌≡◌, length, get_or};
ghost use Rattle.letters.specs.Letters.{letters};
ghost use Rattle.rows.specs.Skips.{Skipped};
ghost use Rattle.index.specs.Buckets.{factor, mix, product_bound, key_from, key_of, bucket_of};

use letters::LETTERS;
use rows::past_zeros;

// 2 to the power 16.
const SHARE: u64 = 65536;

// How many keys have the same bucket.
const KEYS_EACH: usize = 64;

// 2 to the power 32.
const RADIX: u64 = 4294967296;

const MARK_FACTOR: u64 = 2654435761;

// The factor of a letter. A list of them would be laid out anew for each look into it.
fn factor(x: usize) -> u64
    requires { x < letters }
    ensures { result ≡ factor x }
{
    let root = (x as u64 * 2654435761 + 1640531527) % RADIX;
    root * root % RADIX
}

// What a mark alone is mixed to.
pub fn mixed_mark(mark: u16) -> u64
    ensures { (result ≡ mix mark (λ x. 0) 0) × (result < product_bound) }
{
    mark as u64 * MARK_FACTOR
}

// With the target for letter x, after those of lower letters.
pub fn mixed(m: u64, x: usize, n: u16) -> u64
    requires { (x < letters) × (m < suc x * product_bound) }
    ensures { (result ≡ m + n * factor x) × (result < suc (suc x) * product_bound) }
{
    m + n as u64 * factor(x)
}

pub fn key_from(m: u64) -> u16
    ensures { result ≡ key_from m }
{
    (m / SHARE % SHARE) as u16
}

// The first target from letter x on, or the number of letters. Where a row has many targets, it is most often that of
// x itself.
fn next_target(targets: &[u16], x: usize) -> usize
    requires { (length targets.now ≡ letters) × (x ≤ letters) }
    ensures { Skipped targets.now x letters result }
{
    if x < LETTERS && targets[x] != 0 {
        return x;
    }
    past_zeros(targets, x, LETTERS)
}

pub fn key_of(mark: u16, targets: &[u16]) -> u16
    requires { length targets.now ≡ letters }
    ensures { result ≡ key_of mark (λ x. get_or targets.now x 0) }
{
    let mut m = mixed_mark(mark);
    // A while: it skips zeros eight at a time, which a `for` over all 37 targets would look at one by one.
    let mut x = next_target(targets, 0);
    while x < LETTERS {
        m = mixed(m, x, targets[x]);
        x = next_target(targets, x + 1);
    }
    key_from(m)
}

pub fn bucket_of(key: u16) -> usize
    ensures { result ≡ bucket_of key }
{
    key as usize / KEYS_EACH + 1
}
