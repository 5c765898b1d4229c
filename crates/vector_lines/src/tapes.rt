// Tapes to run on: all zero, all ff, and pseudo-random.
ghost use Rattle.std.specs.Prelude.{◌≡◌, length};

use crate::lines;
use text::packing;

// The bytes of tape 0 are all zero, those of tape 1 all ff; any other number starts the generator xorshift32, which gives its low bytes. The
// generator stays at 0.
pub fn fill(number: usize, tape: &mut [u8]) {
    let (mut x, mask) = match number {
        1 => (0, 0xff),
        _ => ((number % 4294967296) as u32, 0),
    };
    for byte in tape.iter_mut() {
        let a = x ^ (x << 13);
        let b = a ^ (a >> 17);
        x = b ^ (b << 5);
        *byte = ((x % 256) as u8) ^ mask;
    }
}

// Room for the words of a tape.
pub fn buffer() -> [u32; 49152]
    ensures { 49152 ≡ length result }
{
    [0; 49152]
}

// A tape by its number: the words of its bytes, the lowest first.
pub fn made(number: usize) -> [u32; 49152] {
    let mut bytes = lines::buffer();
    let mut tape = buffer();
    fill(number, &mut bytes);
    packing::pack(&bytes, &mut tape);
    tape
}
