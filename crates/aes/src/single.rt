// Encryption and decryption of one block over shares by a single call. Document 01, and document 02, wish 2, decide.
ghost use Rattle.std.specs.Prelude.{◌≡◌, suc, ◌*◌, length};
ghost use Rattle.tape_words.specs.Words.{bytes_of};
ghost use Rattle.outcomes.specs.Outcome.{outcome};
ghost use Rattle.cipher.specs.Fips197.{rounds};
ghost use Rattle.cipher.specs.Cipher as Cipher;
ghost use Rattle.aes.specs.Calls.{encrypt_outcome, decrypt_outcome};
ghost use Rattle.aes.specs.Directions.{laid_of, single_outcome};
ghost use Rattle.aes.specs.Fits.{BlockFits};

use gf256::{Direction, Tables};
use lengths::sizes;
use outcomes::{Answer, Count, Order};

// The key expansion draws first, then the rounds.
fn block_with(
    tables: &Tables,
    which: Direction,
    nk: usize,
    d: Order,
    key: &[u8],
    input: &[u8],
    tape: &[u32],
    keys: &mut [u8],
    output: &mut [u8],
) -> usize
    requires { BlockFits nk d key.now input.now (bytes_of tape.now) output.old × (length keys.old ≡ suc d * (16 * suc (rounds nk))) }
    ensures { (4 * result ≡ Cipher.cipher_need nk d)
        × (output.new ≡ laid_of which nk d key.now input.now (bytes_of tape.now)) }
{
    let drawn = schedule::expansion::expand_core(tables, nk, d, key, tape, keys);
    drawn + rounds::rounds::rounds_core(tables, which, nk, d, keys, input, &tape[drawn..], output)
}

// A block, with a buffer for the round keys: at most 9 shares of 240 bytes.
fn block_core(
    tables: &Tables,
    which: Direction,
    nk: usize,
    d: Order,
    key: &[u8],
    input: &[u8],
    tape: &[u32],
    output: &mut [u8],
) -> usize
    requires { BlockFits nk d key.now input.now (bytes_of tape.now) output.old }
    ensures { (4 * result ≡ Cipher.cipher_need nk d)
        × (output.new ≡ laid_of which nk d key.now input.now (bytes_of tape.now)) }
{
    let mut keys = [0u8; 2160];
    let size = sizes::prepared_length(nk, d);
    block_with(
        tables,
        which,
        nk,
        d,
        key,
        input,
        tape,
        &mut keys[0..size],
        output,
    )
}

// A single call: the round keys are made anew, used, and left behind.
fn call(
    which: Direction,
    order: usize,
    key: &[u8],
    input: &[u8],
    tape: &[u32],
    output: &mut [u8],
) -> Answer
    ensures { outcome result output.new
        ≡ single_outcome which order key.now input.now tape.now output.old }
{
    lengths::answers::single_answer(order, key.len(), input.len(), tape.len(), output.len())?;
    let d = Order::new(order);
    let size = sizes::key_words(d, key.len()).unwrap();
    let tables = Tables::new();
    Ok(Count {
        taken: block_core(&tables, which, size.nk, d, key, input, tape, output),
    })
}

pub fn encrypt(order: usize, key: &[u8], input: &[u8], tape: &[u32], output: &mut [u8]) -> Answer
    ensures { outcome result output.new
        ≡ encrypt_outcome order key.now input.now tape.now output.old }
{
    call(Direction::Forward, order, key, input, tape, output)
}

pub fn decrypt(order: usize, key: &[u8], input: &[u8], tape: &[u32], output: &mut [u8]) -> Answer
    ensures { outcome result output.new
        ≡ decrypt_outcome order key.now input.now tape.now output.old }
{
    call(Direction::Inverse, order, key, input, tape, output)
}
