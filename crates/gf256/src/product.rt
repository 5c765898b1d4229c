// Doubling and the product, by shifts, masks and XOR on bytes. No branch looks at a byte, so the steps taken do not depend on it.
ghost use Rattle.std.specs.Prelude.{◌≡◌, ◌<◌};
ghost use Rattle.xor.specs.Digit;
ghost use Rattle.gf256.specs.Field;

// a if the bit is 1, and 0 if it is 0: 0 - bit is the mask ff or 00.
fn if_set(bit: u8, a: u8) -> u8
    requires { bit < 2 }
    ensures { result ≡ Digit.if_set bit a }
{
    a & std::num::wrapping_sub_u8(0, bit)
}

// A left shift, with 1b XORed in if bit 7 was set.
pub fn double(a: u8) -> u8
    ensures { result ≡ Field.doubled a }
{
    (a << 1) ^ if_set(a >> 7, 0x1b)
}

// Shift and add, from bit 7 of b down to bit 0 (Horner's rule): each bit doubles what stands, and adds a if it is set. After bit k stands a times
// b >> k.
pub fn times(a: u8, b: u8) -> u8
    ensures { result ≡ Field.times a b }
{
    let mut p: u8 = 0;
    for k in (0u8..8).rev() {
        let added = if_set((b >> k) & 1, a);
        p = double(p) ^ added;
    }
    p
}
