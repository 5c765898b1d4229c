// The affine maps of the S-box and of its inverse (FIPS 197, 5.1.1 and 5.3.2), by their eight row masks.
ghost use Rattle.std.specs.Prelude.{◌≡◌, length};
ghost use Rattle.gf256.specs.Field;
ghost use Rattle.gf256.specs.Directions.{affine_of, constant_of};

use gf256::Direction;

// One row for each output bit, bit 0 first.
const ROWS: [u8; 8] = [0xf1, 0xe3, 0xc7, 0x8f, 0x1f, 0x3e, 0x7c, 0xf8];

const INVERSE_ROWS: [u8; 8] = [0xa4, 0x49, 0x92, 0x25, 0x4a, 0x94, 0x29, 0x52];

// Output bit i is the parity of the ones in the input masked by row i, XORed with bit i of the constant.
fn by_rows(rows: &[u8], constant: u8, a: u8) -> u8
    requires { length rows.now ≡ 8 }
    ensures { result ≡ Field.affine_by rows.now constant a }
{
    let mut r: u8 = 0;
    for (i, row) in rows.iter().enumerate() {
        let n = u8::count_ones(a & *row) % 2;
        r ^= (n as u8) << i;
    }
    r ^ constant
}

// The constant, which a masked byte must get once, however many shares it has.
pub fn constant(which: Direction) -> u8
    ensures { result ≡ constant_of which }
{
    match which {
        Direction::Forward => 0x63,
        Direction::Inverse => 0x05,
    }
}

pub fn affine(which: Direction, a: u8) -> u8
    ensures { result ≡ affine_of which a }
{
    let c = constant(which);
    match which {
        Direction::Forward => by_rows(&ROWS, c, a),
        Direction::Inverse => by_rows(&INVERSE_ROWS, c, a),
    }
}
