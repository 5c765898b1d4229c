// MixColumns and InvMixColumns of one column of four bytes (FIPS 197, 5.1.3 and 5.3.3).
ghost use Rattle.std.specs.Prelude.{◌≡◌};
ghost use Rattle.gf256.specs.Field;
ghost use Rattle.gf256.specs.Directions.{mixed_of};

use gf256::Direction;

// A byte of the mixed column: 02 · a + 03 · b + c + d.
fn mix(a: u8, b: u8, c: u8, d: u8) -> u8
    ensures { result ≡ Field.mixed a b c d }
{
    gf256::double(a) ^ (gf256::double(b) ^ b) ^ c ^ d
}

// A byte of the column mixed back: 0e · a + 0b · b + 0d · c + 09 · d. With 04 · (a + c) added to a and c, and 04 · (b + d) to b and d, mixing
// does it.
fn unmix(a: u8, b: u8, c: u8, d: u8) -> u8
    ensures { result ≡ Field.inverse_mixed a b c d }
{
    let u = gf256::double(gf256::double(a ^ c));
    let v = gf256::double(gf256::double(b ^ d));
    mix(a ^ u, b ^ v, c ^ u, d ^ v)
}

// A byte of the column, by the direction.
pub fn mixed_of(which: Direction, a: u8, b: u8, c: u8, d: u8) -> u8
    ensures { result ≡ mixed_of which a b c d }
{
    match which {
        Direction::Forward => mix(a, b, c, d),
        Direction::Inverse => unmix(a, b, c, d),
    }
}
