// Bytes of a slice.
ghost use Rattle.std.specs.Prelude.{◌≤◌, ◌≡◌, length, take};
ghost use Rattle.model.specs.Call.{overlaid};

// Copies the first n bytes to the front of the buffer. n beside the slice: so the clause says it.
pub fn copy_front(from: &[u8], n: usize, out: &mut [u8])
    requires { (n ≤ length from.now) × (n ≤ length out.old) }
    ensures { out.new ≡ overlaid (take n from.now) out.old }
{
    out[..n].copy_from_slice(&from[..n]);
}
