// The masked S-box: power 254, then the affine map over shares. The masked inverse S-box: the inverse affine map over shares, then power 254.
ghost use Rattle.std.specs.Prelude.{◌≡◌, map, suc, ◌%◌, ◌≤◌, ◌<◌, length};
ghost use Rattle.gf256.specs.Directions.{affine_of, constant_of};
ghost use Rattle.tape_words.specs.Words.{bytes_of, words_for};
ghost use Rattle.outcomes.specs.Outcome.{outcome};
ghost use Rattle.sbox.specs.Box;
ghost use Rattle.power254.specs.Fits.{PowerFits};
ghost use Rattle.sbox.specs.Calls.{box_outcome};

use gf256::{Direction, Tables};
use outcomes::{Answer, Count, Order};

// The affine map of each share. The shares are taken by a list of their numbers: a compiler that does not know them for neighbours has no use for
// a register with two of them in it, whose shifts would bring bits of the one into the other's byte (the rule at the head of masking's steps.rt).
fn affine_all(which: Direction, d: Order, x: &mut [u8])
    requires { length x.old ≡ suc d }
    ensures { x.new ≡ map (affine_of which) x.old }
{
    let numbers = [0u8, 1, 2, 3, 4, 5, 6, 7, 8];
    for number in &numbers[..d.shares()] {
        let i = usize::from(*number);
        x[i] = byte_maps::affine(which, x[i]);
    }
}

// n affine maps XORed the constant in n times: once more if that was an even number of times.
fn correct(which: Direction, d: Order, x: &mut [u8])
    requires { 0 < length x.old }
    ensures { x.new ≡ Box.corrected (constant_of which) (d % 2) x.old }
{
    if d.number() % 2 == 1 {
        x[0] = x[0] ^ byte_maps::constant(which);
    }
}

// The affine map of a byte in shares.
fn affine_shares(which: Direction, d: Order, x: &mut [u8])
    requires { length x.old ≡ suc d }
    ensures { x.new ≡ Box.affine_shares which d x.old }
{
    affine_all(which, d, x);
    correct(which, d, x);
}

// The most that either S-box draws, at order 8: six bytes for each pair.
pub const MOST: usize = 6 * pairs::counting::MOST;

// How many bytes either S-box of order d draws: two refreshes and four products draw a byte for each pair.
pub fn box_need(d: Order) -> usize
    ensures { (result ≡ Box.box_need d) × (result ≤ 216) }
{
    6 * pairs::counting::pair_count(d)
}

// How many field products either S-box of order d does: four masked products.
pub fn box_products(d: Order) -> usize
    ensures { (result ≡ Box.box_products d) × (result ≤ 324) }
{
    4 * pairs::counting::product_count(d)
}

// The S-box of the shares of a byte, in place. Answers with how many bytes were drawn.
fn box_core(tables: &Tables, d: Order, tape: &[u8], x: &mut [u8]) -> usize
    requires { PowerFits d x.old tape.now }
    ensures { (result ≡ Box.box_need d) × (x.new ≡ Box.box d x.old tape.now) }
{
    let drawn = power254::powers::power_core(tables, d, tape, x);
    affine_shares(Direction::Forward, d, x);
    drawn
}

// The inverse S-box, in the same way.
fn inverse_box_core(tables: &Tables, d: Order, tape: &[u8], x: &mut [u8]) -> usize
    requires { PowerFits d x.old tape.now }
    ensures { (result ≡ Box.box_need d) × (x.new ≡ Box.inverse_box d x.old tape.now) }
{
    affine_shares(Direction::Inverse, d, x);
    power254::powers::power_core(tables, d, tape, x)
}

// The S-box of the direction, in the same way.
pub fn box_of(tables: &Tables, which: Direction, d: Order, tape: &[u8], x: &mut [u8]) -> usize
    requires { PowerFits d x.old tape.now }
    ensures { (result ≡ Box.box_need d) × (x.new ≡ Box.box_of which d x.old tape.now) }
{
    match which {
        Direction::Forward => box_core(tables, d, tape, x),
        Direction::Inverse => inverse_box_core(tables, d, tape, x),
    }
}

// The S-box on a tape of words. Answers with how many words were drawn.
fn box_on_words(tables: &Tables, d: Order, tape: &[u32], x: &mut [u8]) -> usize
    requires { PowerFits d x.old (bytes_of tape.now) }
    ensures { (result ≡ words_for (Box.box_need d))
        × (x.new ≡ Box.box d x.old (bytes_of tape.now)) }
{
    let mut drawn = [0u8; MOST];
    tape_words::unpack(box_need(d), tape, &mut drawn);
    tape_words::words_for(box_core(tables, d, &drawn, x))
}

pub fn masked_box(order: usize, input: &[u8], tape: &[u32], output: &mut [u8]) -> Answer
    ensures { outcome result output.new
        ≡ box_outcome order input.now tape.now output.old }
{
    shares::answers::byte_answer(6, order, input.len(), tape.len(), output.len())?;
    let d = Order::new(order);
    shares::bytes::put(input, output);
    let tables = Tables::new();
    Ok(Count {
        taken: box_on_words(&tables, d, tape, output),
    })
}
