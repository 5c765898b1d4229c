// Copying and XORing whole strings.
ghost use Rattle.std.specs.Prelude.{◌≡◌, ◌≤◌, length};
ghost use Rattle.xor.specs.Sums.{xors};
ghost use Rattle.xor.specs.Writes.{front};

// x over the front of out.
pub fn put(x: &[u8], out: &mut [u8])
    requires { length x.now ≤ length out.old }
    ensures { out.new ≡ front x.now out.old }
{
    // Kept: a loop. Std's `copy_from_slice` needs `memmove`, which the archive for C is not to want from outside; the compiler makes this `memcpy`.
    for (k, b) in x.iter().enumerate() {
        out[k] = *b;
    }
}

// y XORed into x.
pub fn xor_into(y: &[u8], x: &mut [u8])
    requires { length y.now ≡ length x.old }
    ensures { x.new ≡ xors x.old y.now }
{
    // Kept: an index for x. Of a slice that iter_mut() under zip() lent, a proof knows the length alone afterwards.
    for (k, b) in y.iter().enumerate() {
        x[k] ^= *b;
    }
}
