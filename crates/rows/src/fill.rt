// "empty sets every number to 0".
ghost use Rattle.std.specs.Prelude.{◌≡◌, length, replicate};

pub fn fill_with_zeros(t: &mut [u16])
    ensures { t.new ≡ replicate (length t.old) 0 }
{
    t.fill(0);
}
