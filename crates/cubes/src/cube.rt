// The sheet of the cube: the byte at each place of the first product of power 254, z·x with z = x² refreshed, in one run. No byte of it is computed
// here: the squares, the refresh and the product's rows are those that power 254 runs. Document 02, wish 8, decides.
ghost use Rattle.std.specs.Prelude.{◌≡◌, true, ◌++◌, map, suc, ◌≤◌, length};
ghost use Rattle.gf256.specs.Field as Field;
ghost use Rattle.outcomes.specs.Outcome as Outcome;
ghost use Rattle.outcomes.specs.Outcome.{outcome};
ghost use Rattle.tape_words.specs.Words.{bytes_of, words_for};
ghost use Rattle.xor.specs.Writes.{front};
ghost use Rattle.refresh.specs.Refresh as Refresh;
ghost use Rattle.refresh.specs.Places.{refresh_sheet};
ghost use Rattle.gadgets.specs.Cube as Cube;
ghost use Rattle.cubes.specs.Fits.{CubeFits};
ghost use Rattle.cubes.specs.Calls.{cube_sheet_outcome};

use gf256::{Exponent, Tables};
use outcomes::{Answer, Count, Order};

// How many places the cube has.
pub fn cube_count(d: Order) -> usize
    ensures { (result ≡ Cube.cube_count d) × (result ≤ 396) }
{
    let n = d.shares();
    n + 3 * pairs::counting::pair_count(d) + sheets::sheet::place_count(d)
}

// The same where d is an order that is served, and 0 where it is not. Kept: a number, as `sheet_size` of `sheets`.
pub fn cube_size(order: usize) -> usize
    ensures { (Outcome.served order ≡ true → result ≡ Cube.cube_count order) × (result ≤ 396) }
{
    match Order::served(order) {
        Ok(d) => cube_count(d),
        Err(_) => 0,
    }
}

// The first factor, z = x² refreshed, and its places over the front of out: the squares, then the refresh. Answers with how many bytes were drawn.
fn factor_shown(
    tables: &Tables,
    d: Order,
    x: &[u8],
    tape: &[u8],
    z: &mut [u8],
    out: &mut [u8],
) -> usize
    requires { CubeFits d x.now tape.now × (length z.old ≡ suc d) × (length out.old ≡ Cube.cube_count d) }
    ensures { (result ≡ Refresh.refresh_need d)
        × (z.new ≡ Cube.cube_factor Field.times Field.squared d x.now tape.now)
        × (out.new ≡ front (map Field.squared x.now
        ++ refresh_sheet d (map Field.squared x.now) tape.now) out.old) }
{
    power254::powers::raise(tables, Exponent::Two, x, z);
    shares::bytes::put(z, out);
    let n = d.shares();
    refresh_sheets::rows::refresh_shown(d, tape, z, &mut out[n..])
}

// The whole sheet. Answers with how many bytes were drawn.
pub fn cube_core(tables: &Tables, d: Order, x: &[u8], tape: &[u8], out: &mut [u8]) -> usize
    requires { CubeFits d x.now tape.now × (length out.old ≡ Cube.cube_count d) }
    ensures { (result ≡ Cube.cube_need d)
        × (out.new ≡ Cube.cube_sheet Field.times Field.squared d x.now tape.now) }
{
    let mut room = [0u8; 9];
    let n = d.shares();
    let z = &mut room[0..n];
    let drawn = factor_shown(tables, d, x, tape, z, out);
    let at = n + 3 * drawn;
    drawn + sheets::sheet::sheet_core(tables, d, z, x, &tape[drawn..], &mut out[at..])
}

// The same on a tape of words. Answers with how many words were drawn.
fn cube_on_words(tables: &Tables, d: Order, x: &[u8], tape: &[u32], out: &mut [u8]) -> usize
    requires { CubeFits d x.now (bytes_of tape.now) × (length out.old ≡ Cube.cube_count d) }
    ensures { (result ≡ words_for (Cube.cube_need d))
        × (out.new ≡ Cube.cube_sheet Field.times Field.squared d x.now (bytes_of tape.now)) }
{
    let mut drawn = [0u8; 2 * pairs::counting::MOST];
    tape_words::unpack(2 * pairs::counting::pair_count(d), tape, &mut drawn);
    tape_words::words_for(cube_core(tables, d, x, &drawn, out))
}

pub fn cube_sheet(order: usize, input: &[u8], tape: &[u32], output: &mut [u8]) -> Answer
    ensures { outcome result output.new
        ≡ cube_sheet_outcome order input.now tape.now output.old }
{
    let size = cube_size(order);
    shares::answers::input_answer(2, size, order, input.len(), tape.len(), output.len())?;
    let d = Order::new(order);
    let tables = Tables::new();
    Ok(Count {
        taken: cube_on_words(&tables, d, input, tape, output),
    })
}
