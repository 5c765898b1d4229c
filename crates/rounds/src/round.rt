// One round over shares, of encryption or decryption. FIPS 197, 5.1 and 5.3, decides the order of its steps.
// The keys have m bytes in each share.
ghost use Rattle.std.specs.Prelude.{◌≡◌, suc, ◌*◌, ◌+◌, ◌≤◌, length};
ghost use Rattle.tape_words.specs.Words.{bytes_of};
ghost use Rattle.shares.specs.Strings.{parts, laid};
ghost use Rattle.cipher.specs.Cipher.{round_need};
ghost use Rattle.cipher.specs.Rounds.{round_of, key_of};
ghost use Rattle.rounds.specs.Fits.{RoundFits};
ghost use Rattle.rounds.specs.Directions.{shifted_of, keyed_of};

use gf256::{Direction, Tables};
use linear::Step;
use outcomes::Order;

// Which round key is added i-th, from 0 on.
pub fn key_number(which: Direction, nr: usize, i: usize) -> usize
    requires { i ≤ nr }
    ensures { (result ≡ key_of which nr i) × (result ≤ nr) }
{
    match which {
        Direction::Forward => i,
        Direction::Inverse => nr - i,
    }
}

// SubBytes, then ShiftRows; in decryption InvShiftRows, then InvSubBytes. Answers with how many words were drawn.
fn sub_and_shift(tables: &Tables, which: Direction, d: Order, tape: &[u32], s: &mut [u8]) -> usize
    requires { (round_need d ≤ length (bytes_of tape.now)) × (length s.old ≡ suc d * 16) }
    ensures { (4 * result ≡ round_need d)
        × (s.new ≡ laid (shifted_of which d (parts (suc d) 16 s.old) (bytes_of tape.now))) }
{
    match which {
        Direction::Forward => {
            let drawn = substitution::boxes::sub_rows(tables, Direction::Forward, d, tape, s);
            linear::steps::step_all(Step::ShiftRows, Direction::Forward, d, s);
            drawn
        }
        Direction::Inverse => {
            linear::steps::step_all(Step::ShiftRows, Direction::Inverse, d, s);
            substitution::boxes::sub_rows(tables, Direction::Inverse, d, tape, s)
        }
    }
}

// MixColumns, then AddRoundKey; in decryption AddRoundKey, then InvMixColumns.
fn mix_and_add(which: Direction, d: Order, m: usize, r: usize, keys: &[u8], s: &mut [u8])
    requires { (16 * r + 16 ≤ m) × (length keys.now ≡ suc d * m) × (length s.old ≡ suc d * 16) }
    ensures { s.new
        ≡ laid (keyed_of which r (parts (suc d) m keys.now) (parts (suc d) 16 s.old)) }
{
    match which {
        Direction::Forward => {
            linear::steps::step_all(Step::MixColumns, Direction::Forward, d, s);
            linear::steps::add_key(d, m, r, keys, s);
        }
        Direction::Inverse => {
            linear::steps::add_key(d, m, r, keys, s);
            linear::steps::step_all(Step::MixColumns, Direction::Inverse, d, s);
        }
    }
}

// A round with round key r; the last has no MixColumns. Answers with how many words were drawn.
pub fn make_round(
    tables: &Tables,
    which: Direction,
    last: bool,
    d: Order,
    m: usize,
    r: usize,
    keys: &[u8],
    tape: &[u32],
    s: &mut [u8],
) -> usize
    requires { RoundFits d m r keys.now (bytes_of tape.now) s.old }
    ensures { (4 * result ≡ round_need d)
        × (s.new
        ≡ laid (round_of which last d r (parts (suc d) m keys.now) (parts (suc d) 16 s.old) (bytes_of tape.now))) }
{
    let drawn = sub_and_shift(tables, which, d, tape, s);
    if last {
        linear::steps::add_key(d, m, r, keys, s);
    } else {
        mix_and_add(which, d, m, r, keys, s);
    }
    drawn
}
