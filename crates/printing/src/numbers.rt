// A number in decimal.
ghost use Rattle.std.specs.Prelude.{◌≤◌, ◌<◌, ◌≡◌, length};
ghost use Rattle.model.specs.Call.{overlaid};
ghost use Rattle.printing.specs.Decimal.{digit, decimal};

fn digit(d: u64) -> u8
    requires { d < 10 }
    ensures { result ≡ digit d }
{
    b'0' + d as u8
}

// Writes the digits of n to the front of the buffer, and says how many they are.
pub fn put_number(n: u64, out: &mut [u8]) -> usize
    requires { length (decimal n) ≤ length out.old }
    ensures long { result ≡ length (decimal n) }
    ensures buffer { out.new ≡ overlaid (decimal n) out.old }
{
    if n < 10 {
        out[0] = digit(n);
        return 1;
    }
    // By hand: itoa writes at the end of a buffer, and the digits would be copied from there to the front.
    let long = put_number(n / 10, out);
    out[long] = digit(n % 10);
    long + 1
}
